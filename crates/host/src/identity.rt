// When two items are one.
ghost use Rattle.std.specs.Prelude.{◌≡◌};
ghost use Rattle.host.specs.Identity.{same_item};
ghost use Rattle.std.proofs.Common.{rules};

use super::forms::ItemId;
use roll::Same;

// Items are one if container and place are.
impl Same for ItemId {
    ghost same = { same_item };

    ghost reflexive = { Prim.search rules };

    ghost symmetric = { Prim.search rules };

    ghost transitive = { Prim.search rules };

    fn is_same(&self, other: &ItemId) -> bool {
        *self == *other
    }
}
