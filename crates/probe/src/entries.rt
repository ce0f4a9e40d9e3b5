// What the caller's list receives.
ghost use Rattle.std.specs.Prelude.{◌≡◌, map};
ghost use Rattle.method_resolution.specs.declared.ListEntry.TheVariants.{Source, Shadowed};
ghost use Rattle.method_resolution.specs.Judgement.{source_of, shadowed_by};
ghost use Rattle.assembly.specs.Contexts.{question};
ghost use Rattle.probe.specs.Writing.{Writes};

use super::context::ProbeAt;
use super::writing::push_all;
use host::{Host, TraitItem};
use method_resolution::{Candidate, CandidateId, CandidateKind, CandidateSource, ListEntry};
use roll::Roll;

impl<H: Host> ProbeAt<'_, H> {
    // Where a candidate comes from: a trait candidate from the impl that the host names, if it names one.
    fn candidate_source(&self, candidate: Candidate) -> CandidateSource
        ensures { result ≡ source_of (question H.meaning self.now.ctx.now) self.now.place candidate }
    {
        let item = candidate.item;
        match candidate.kind {
            CandidateKind::InherentImplCandidate { .. } => { CandidateSource::Impl(item.container) }
            CandidateKind::ObjectCandidate { .. } | CandidateKind::WhereClauseCandidate { .. } => {
                CandidateSource::Trait(item.container)
            }
            CandidateKind::TraitCandidate => {
                let asked = TraitItem {
                    tr: item.container,
                    place: item.place,
                    ty: self.place.step.self_ty,
                    wrap: self.place.wrap,
                    mode: self.ctx.mode,
                };
                self.ctx.host.source(asked).map_or(
                    CandidateSource::Trait(item.container),
                    CandidateSource::Impl,
                )
            }
        }
    }

    // The source of each candidate, repeats kept.
    pub(crate) fn push_sources(&self, candidates: &[Candidate], entries: &mut Roll<'_, ListEntry>)
        ensures { Writes entries.old (map (λ c. Source (source_of (question H.meaning self.now.ctx.now) self.now.place c)) candidates.now) entries.new }
    {
        let sources = candidates.iter().copied().map(|candidate| ListEntry::Source(
            self.candidate_source(candidate),
        ));
        push_all(entries, sources);
    }
}

// Each candidate's item that differs from the one picked, repeats kept. Two maps as in the clause: one map of both needs a
// proof by hand, of more lines than it saves.
pub(crate) fn push_shadowed(
    picked: CandidateId,
    candidates: &[Candidate],
    entries: &mut Roll<'_, ListEntry>,
)
    ensures { Writes entries.old (map Shadowed (shadowed_by picked candidates.now)) entries.new }
{
    let shadowed = candidates
        .iter()
        .copied()
        .filter(|candidate| candidate.item != picked)
        .map(|candidate| candidate.item)
        .map(ListEntry::Shadowed);
    push_all(entries, shadowed);
}

pub(crate) fn push_entries(from: &[ListEntry], entries: &mut Roll<'_, ListEntry>)
    ensures { Writes entries.old from.now entries.new }
{
    push_all(entries, from.iter().copied());
}
