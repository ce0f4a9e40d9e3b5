// The containers whose items rows give.
ghost use Rattle.std.specs.Prelude.{◌≡◌, IfOk};
ghost use Rattle.std.specs.List.{flat_map};
ghost use Rattle.vetting.specs.Containers.{same_container, container_in, held};
ghost use Rattle.vetting.specs.Firsts.{firsts, Collected};
ghost use Rattle.std.proofs.Common.{rules};

use super::firsts::firsts;
use host::{ContainerKind, QuestionKind};
use roll::Same;
use rows::Row;
use std::alloc::{AllocError, Global};

// An impl or a trait, by its number. A type of its own, since an `ItemId` has a place beside these two, and a search's source of a
// candidate belongs to crates above hosts.
#[derive(Clone, Copy, PartialEq, Eq, Hash)]
pub struct Container {
    pub kind: ContainerKind,
    pub number: u32,
}

// Containers are one if kind and number are. Nothing here asks it: it is promised to loaders that put containers on rolls.
impl Same for Container {
    ghost same = { same_container };

    ghost reflexive = { Prim.search rules };

    ghost symmetric = { Prim.search rules };

    ghost transitive = { Prim.search rules };

    fn is_same(&self, other: &Container) -> bool {
        *self == *other
    }
}

// The container of an item's row; none in another row, or where the kind is unknown.
fn container_in(row: &Row) -> Option<Container>
    ensures { result ≡ container_in row.now }
{
    if row.question() != Some(QuestionKind::Item) {
        return None;
    }
    let kind = ContainerKind::try_from(row.key.a1);
    kind.ok().map(|kind| Container {
        kind,
        number: row.key.a2,
    })
}

// The impls and traits of which the rows give items, each once, in the order in which they first come.
pub fn containers(heap: Global, rows: &[Row]) -> Result<Vec<Container>, AllocError>
    ensures order { IfOk result (λ v. v.items ≡ firsts same_container (flat_map held rows.now)) }
    ensures spoken { IfOk result (λ v. Collected held rows.now v.items) }
{
    firsts(heap, rows.iter().filter_map(container_in))
}
