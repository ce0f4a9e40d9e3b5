// What goes on a roll.
ghost use Rattle.std.specs.Iterator.{IsFinite};
ghost use Rattle.std.specs.Iterator.Runs.{WholeRun};
ghost use Rattle.probe.specs.Writing.{Writes};

use roll::{Roll, Same};

// The items go on a roll in their order, as far as it has memory.
pub(crate) fn push_all<T: Same + Drop, I: Iterator<Item = T> + Drop>(
    list: &mut Roll<'_, T>,
    items: I,
)
    requires can { I.can_next items }
    requires finite { IsFinite (I.remaining items) }
    ensures { WholeRun I.next_gives items (λ p. Writes list.old p.items list.new) }
{
    for item in items {
        let _ = list.push(item);
    }
}
