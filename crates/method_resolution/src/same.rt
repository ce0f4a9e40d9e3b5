// When two candidates, and two entries of a caller's list, are the same: rolls ask for it.
ghost use Rattle.std.specs.Prelude.{◌≡◌};
ghost use Rattle.method_resolution.specs.Sameness.{same_candidate, same_entry};
ghost use Rattle.std.proofs.Common.{rules};

use super::{Candidate, ListEntry};
use roll::Same;

// By rule candidates are the same if their items are, however they were found: this is coarser than `==`.
impl Same for Candidate {
    ghost same = { same_candidate };

    ghost reflexive = { Prim.search rules };

    ghost symmetric = { Prim.search rules };

    ghost transitive = { Prim.search rules };

    fn is_same(&self, other: &Candidate) -> bool {
        self.item.is_same(&other.item)
    }
}

impl Same for ListEntry {
    ghost same = { same_entry };

    ghost reflexive = { Prim.search rules };

    ghost symmetric = { Prim.search rules };

    ghost transitive = { Prim.search rules };

    fn is_same(&self, other: &ListEntry) -> bool {
        *self == *other
    }
}
