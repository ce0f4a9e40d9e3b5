// Elements, each once.
ghost use Rattle.std.specs.Prelude.{◌≡◌, List, IfOk};
ghost use Rattle.std.specs.Iterator.{Drains, IsFinite};
ghost use Rattle.vetting.specs.Firsts.{firsts};

use std::alloc::{AllocError, Global};
use std::collections::HashSet;
use std::hash::Hash;

// What an iterator gives, each element once, in the order in which they first come. A set beside the list, and no set of the
// kit that keeps the order of arrival: the crates below `runner` stand on the standard library alone.
pub(crate) fn firsts<T: Copy + Eq + Hash, I: Iterator<Item = T> + Drop>(
    heap: Global,
    elements: I,
) -> Result<Vec<T>, AllocError>
    requires can { I.can_next elements }
    requires ends { IsFinite (I.remaining elements) }
    ensures { IfOk result (λ v. (xs : List T) × Drains I.next_gives elements xs × (v.items ≡ firsts T.eq xs)) }
{
    let mut seen = HashSet::new(heap);
    let mut found = Vec::new(heap);
    for x in elements {
        if seen.insert(x)? {
            found.push(x)?;
        }
    }
    Ok(found)
}
