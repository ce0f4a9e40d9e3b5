// What the traits in scope offer, and the whole assembly.
ghost use Rattle.scope.specs.Entries.{traits_of};
ghost use Rattle.assembly.specs.Assembled.{StepsHold, ScopeHolds, Fresh, Assembled};
ghost use Rattle.assembly.specs.Contexts.{question};

use super::context::ProbeContext;
use super::lists::CandidateLists;
use host::{Host, Refusal};
use method_resolution::CandidateKind;
use scope::Scope;

impl<H: Host> ProbeContext<'_, H> {
    // The traits in scope are visited in order of arrival. This never refuses: there are at most 64, with one candidate each.
    fn assemble_extension_candidates_for_traits_in_scope(
        &self,
        scope: &Scope,
        lists: &mut CandidateLists<'_>,
    )
        ensures { StepsHold (question H.meaning self.now) lists.old → ScopeHolds (question H.meaning self.now) (traits_of scope.now) lists.new }
    {
        for entry in scope.entries() {
            let _ = self.assemble_offer(CandidateKind::TraitCandidate, entry.tr, lists);
        }
    }

    // All candidates of the name, on lists that are empty before, or the first limit that is passed.
    pub fn assemble(&self, scope: &Scope, lists: &mut CandidateLists<'_>) -> Result<(), Refusal>
        ensures { Fresh lists.old → Assembled (question H.meaning self.now) (traits_of scope.now) result lists.new }
    {
        self.assemble_inherent_candidates(lists)?;
        self.assemble_extension_candidates_for_traits_in_scope(scope, lists);
        Ok(())
    }
}
