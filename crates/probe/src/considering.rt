// What a list of candidates decides at a place.
ghost use Rattle.std.specs.Prelude.{◌≡◌, ◌≤◌, ◌++◌, length, filter};
ghost use Rattle.roll.specs.Rolls.{contents, beyond};
ghost use Rattle.method_resolution.specs.Places.{applies};
ghost use Rattle.assembly.specs.Contexts.{question};

use super::context::ProbeAt;
use super::writing::push_all;
use host::Host;
use method_resolution::Candidate;
use roll::Roll;

impl<H: Host> ProbeAt<'_, H> {
    // The candidates that apply at the place go on a roll, in their order.
    fn gather_applicable(&self, candidates: &[Candidate], applicable: &mut Roll<'_, Candidate>)
        ensures { length candidates.now ≤ length (beyond applicable.old) → contents applicable.new ≡ contents applicable.old ++ filter (applies (question H.meaning self.now.ctx.now) self.now.place) candidates.now }
    {
        let applying = candidates
            .iter()
            .copied()
            .filter(|candidate| self.consider_probe(*candidate));
        push_all(applicable, applying);
    }
}
