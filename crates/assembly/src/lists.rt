// The lists of one assembly, and what goes on them.
ghost use Rattle.std.specs.Prelude.{◌≡◌};
ghost use Rattle.assembly.specs.Contexts.{question};
ghost use Rattle.assembly.specs.Growth.{OneMore, Filed};

use super::context::ProbeContext;
use host::{Host, Refusal};
use method_resolution::{Candidate, CandidateKind};
use roll::Roll;

// The candidates found so far, in order, and the impls met on the way. Beside the context and not in it, so that no contract
// has to say that the context stays.
#[derive(Drop)]
pub struct CandidateLists<'a> {
    pub inherent_candidates: Roll<'a, Candidate>,
    pub extension_candidates: Roll<'a, Candidate>,
    pub private_candidates: Roll<'a, Candidate>,
    pub impl_dups: Roll<'a, u32>,
}

fn push_on(list: &mut Roll<'_, Candidate>, candidate: Candidate) -> Result<(), Refusal>
    ensures { OneMore list.old candidate result list.new }
{
    list.push(candidate).map_err(|_| Refusal::TooManyCandidates)
}

impl<H: Host> ProbeContext<'_, H> {
    // A candidate goes on its list: of a trait in scope on the extension list, else by its visibility. Each list has its own
    // call: the borrow checker does not cover a variable that holds the list chosen.
    pub(crate) fn push_candidate(
        &self,
        candidate: Candidate,
        lists: &mut CandidateLists<'_>,
    ) -> Result<(), Refusal>
        ensures { Filed (question H.meaning self.now) candidate lists.old result lists.new }
    {
        if let CandidateKind::TraitCandidate = candidate.kind {
            push_on(&mut lists.extension_candidates, candidate)
        } else if self.host.visible(candidate.item) {
            push_on(&mut lists.inherent_candidates, candidate)
        } else {
            push_on(&mut lists.private_candidates, candidate)
        }
    }
}
