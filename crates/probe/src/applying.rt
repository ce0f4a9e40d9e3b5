// Whether a candidate applies at a place.
ghost use Rattle.std.specs.Prelude.{◌≡◌};
ghost use Rattle.method_resolution.specs.Places.{skipped_by_value, skipped, applies};
ghost use Rattle.assembly.specs.Contexts.{question};

use super::context::ProbeAt;
use host::{Form, Host, Trial, Wrap};
use method_resolution::{Candidate, CandidateKind, Edition};

impl<H: Host> ProbeAt<'_, H> {
    // Older editions pass over some traits at arrays and at boxed slices, by value only.
    fn is_skipped(&self, candidate: Candidate) -> bool
        ensures { result ≡ skipped (question H.meaning self.now.ctx.now) candidate self.now.place }
    {
        candidate.kind == CandidateKind::TraitCandidate
            && self.place.wrap == Wrap::Bare
            && self.is_skipped_by_value(candidate.item.container)
    }

    fn is_skipped_by_value(&self, tr: u32) -> bool
        ensures { result ≡ skipped_by_value (question H.meaning self.now.ctx.now) tr self.now.place.step.self_ty }
    {
        let edition = self.ctx.settings.edition;
        let (array, boxed_slice) = self.ctx.host.skips(tr);
        let self_ty = self.ctx.host.form(self.place.step.self_ty);
        (self_ty.form == Form::Array && edition < Edition::Edition2021 && array)
            || (self_ty.boxed_slice && edition < Edition::Edition2024 && boxed_slice)
    }

    // Whether the candidate applies: the host says so, and no edition passes it over.
    #[tactic(auto, unfolding(method_resolution::specs::Places::applies))]
    pub(crate) fn consider_probe(&self, candidate: Candidate) -> bool
        ensures { result ≡ applies (question H.meaning self.now.ctx.now) self.now.place candidate }
    {
        let trial = Trial {
            class: candidate.kind.into(),
            container: candidate.item.container,
            place: candidate.item.place,
            origin: candidate.kind.origin(),
            ty: self.place.step.self_ty,
            wrap: self.place.wrap,
            mode: self.ctx.mode,
        };
        !self.is_skipped(candidate) && self.ctx.host.applies(trial)
    }
}
