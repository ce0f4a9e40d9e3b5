// What the kind of a candidate settles: what holds its item, its class for a host, and the type that offers it.
ghost use Rattle.std.specs.Prelude.{◌≡◌};
ghost use Rattle.method_resolution.specs.Assembly.{container_kind};
ghost use Rattle.method_resolution.specs.Places.{class_of, origin_of};

use super::CandidateKind;
use host::{CandidateClass, ContainerKind};

impl From<CandidateKind> for ContainerKind {
    ghost from_gives = { λ kind holder. holder ≡ container_kind kind };

    fn from(kind: CandidateKind) -> ContainerKind {
        match kind {
            CandidateKind::InherentImplCandidate { .. } => ContainerKind::Impl,
            CandidateKind::ObjectCandidate { .. }
            | CandidateKind::TraitCandidate
            | CandidateKind::WhereClauseCandidate { .. } => ContainerKind::Trait,
        }
    }
}

impl From<CandidateKind> for CandidateClass {
    ghost from_gives = { λ kind class. class ≡ class_of kind };

    fn from(kind: CandidateKind) -> CandidateClass {
        match kind {
            CandidateKind::InherentImplCandidate { .. } => CandidateClass::Impl,
            CandidateKind::ObjectCandidate { .. } => CandidateClass::Object,
            CandidateKind::TraitCandidate => CandidateClass::Trait,
            CandidateKind::WhereClauseCandidate { .. } => CandidateClass::Bound,
        }
    }
}

impl CandidateKind {
    // The type of the step that offers the trait of an object or a bound; by rule 0 for the other kinds.
    pub fn origin(self) -> u32
        ensures { result ≡ origin_of self }
    {
        match self {
            CandidateKind::ObjectCandidate { origin }
            | CandidateKind::WhereClauseCandidate { origin } => origin,
            CandidateKind::InherentImplCandidate { .. } | CandidateKind::TraitCandidate => 0,
        }
    }
}
