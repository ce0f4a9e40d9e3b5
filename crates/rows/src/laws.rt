// The supertrait law, checked over the rows.
ghost use Rattle.std.specs.Prelude.{◌≡◌, nat_eq, Some, IsTrue, ◌↔◌, MatchBool};
ghost use Rattle.roll.specs.Equality.{on};
ghost use Rattle.host.specs.Law.{SupersLawful, SupertraitLaw, SupertraitLawFails};
ghost use Rattle.host.specs.Meaning.{supers_of};
ghost use Rattle.rows.specs.Breaches.{Tells, first_some, beginning, missing, entry_breach, breach_of, said, Begins, Broken, Unbroken};
ghost use Rattle.rows.specs.Tables.{tabled};

use super::lists::{Listing, PLACES, slots_of};
use super::rows::Row;
use host::QuestionKind;
use roll::{Roll, holds};
use std::fmt;

// How the supertrait law breaks at a trait.
#[derive(Clone, Copy, PartialEq, Eq)]
pub enum Breach {
    // Its supers begin with another trait.
    NotItself { first: u32 },
    // A trait above one of its supers is not among them.
    Missing { entry: u32, missing: u32 },
    // Another trait among its supers has it among its own.
    Mutual { other: u32 },
}

// What is said of the trait at which it breaks.
impl fmt::Display for Breach {
    ghost output = { λ breach. Some (said breach) };

    fn fmt<W: fmt::Write>(&self, f: &mut fmt::Formatter<W>) -> fmt::Result {
        match *self {
            Breach::NotItself { first } => write!(f, "its supers begin with trait {first}"),
            Breach::Missing { entry, missing } => write!(
                f,
                "its supers have trait {entry} and lack trait {missing}, which is above that"
            ),
            Breach::Mutual { other } => write!(f, "it and trait {other} stand above each other"),
        }
    }
}

// A trait's supers over rows, in their order. They stand in memory that a caller lends, since opening a table allocates
// nothing.
#[derive(Clone, Copy)]
struct Supers<'a> {
    rows: &'a [Row],
    tr: u32,
    list: &'a [u32],
    ghost whole: { list.now ≡ supers_of (tabled rows.now) tr },
}

impl<'a> Supers<'a> {
    // One pass over the rows finds them all.
    fn gather(rows: &'a [Row], tr: u32, memory: &'a mut [u32; PLACES]) -> Supers<'a>
        ensures rows { result.rows.now ≡ rows.now }
        ensures tr { result.tr ≡ tr }
    {
        let slots = slots_of(rows, Listing::Supers { tr });
        let mut list = Roll::new(memory);
        // A loop of its own: a function for all that push what an iterator gives would be public, and have to ask that it ends.
        for row in slots.iter().map_while(|slot| *slot) {
            // There is room for every slot.
            let _ = list.push(row.r1);
        }
        let count = list.finish();
        let list = &memory[..count];
        Supers { rows, tr, list }
    }

    fn has(&self, tr: u32) -> bool
        ensures { result ≡ on nat_eq self.now.list.now tr }
    {
        holds(self.list, &tr)
    }

    // What is wrong with their beginning.
    fn beginning(&self) -> Option<Breach>
        ensures { result ≡ beginning self.now.tr self.now.list.now }
    {
        match self.list {
            [first, ..] if *first != self.tr => Some(Breach::NotItself { first: *first }),
            _ => None,
        }
    }

    // The first trait above an entry that is not among them.
    fn missing_above(&self, entry: &Supers) -> Option<Breach>
        ensures { result ≡ first_some (missing self.now.list.now entry.now.tr) entry.now.list.now }
    {
        let found = entry.list.iter().copied().find(|tr| !self.has(*tr));
        let entry = entry.tr;
        found.map(|missing| Breach::Missing { entry, missing })
    }

    // What is wrong between the trait and an entry.
    fn breach_at(&self, entry: u32) -> Option<Breach>
        ensures { result ≡ entry_breach (tabled self.now.rows.now) self.now.tr self.now.list.now entry }
    {
        let mut memory = [0; PLACES];
        let above = Supers::gather(self.rows, entry, &mut memory);
        if entry != self.tr && above.has(self.tr) {
            return Some(Breach::Mutual { other: entry });
        }
        self.missing_above(&above)
    }

    // The first breach at an entry, in their order.
    fn breach_below(&self) -> Option<Breach>
        ensures { result ≡ first_some (entry_breach (tabled self.now.rows.now) self.now.tr self.now.list.now) self.now.list.now }
    {
        self.list.iter().find_map(|entry| self.breach_at(*entry))
    }

    // The first breach of all.
    fn breach(&self) -> Option<Breach>
        ensures { result ≡ breach_of (tabled self.now.rows.now) self.now.tr }
    {
        // Not `or_else`: its closure would need a contract of its own, the one of `breach_below` once more.
        match self.beginning() {
            None => self.breach_below(),
            found => found,
        }
    }
}

// How the supertrait law breaks at a trait, if it does: the first breach, in the order of its supers.
pub fn breach_of(rows: &[Row], tr: u32) -> Option<Breach>
    ensures law { Tells (tabled rows.now) tr result }
    ensures first { result ≡ breach_of (tabled rows.now) tr }
{
    let mut memory = [0; PLACES];
    Supers::gather(rows, tr, &mut memory).breach()
}

// The last place at which a lone row can change a trait's supers: without a row at place 0 or 1 they are the trait alone.
const LAST_LONE_PLACE: u32 = 1;

// Whether a row can break the law at the trait that it speaks of.
fn begins_supers(row: &Row) -> bool
    ensures { IsTrue result ↔ Begins row.now }
{
    row.question() == Some(QuestionKind::Supers) && row.key.a2 <= LAST_LONE_PLACE
}

// Whether the law breaks at a trait. Within `is_broken_at`, room for the breach would be cleared at every row.
fn breaks_at(rows: &[Row], tr: u32) -> bool
    ensures { MatchBool result (SupersLawful (tabled rows.now) tr → ⊥) (SupersLawful (tabled rows.now) tr) }
{
    breach_of(rows, tr).is_some()
}

// Whether the law breaks at the trait of a row; passes over rows at which it cannot.
fn is_broken_at(rows: &[Row], row: &Row) -> bool
    ensures { MatchBool result (Broken (tabled rows.now) row.now) (Unbroken (tabled rows.now) row.now) }
{
    begins_supers(row) && breaks_at(rows, row.key.a1)
}

// Whether the law holds at every trait.
pub fn is_lawful(rows: &[Row]) -> bool
    ensures { MatchBool result (SupertraitLaw (tabled rows.now)) (SupertraitLawFails (tabled rows.now)) }
{
    !rows.iter().any(|row| is_broken_at(rows, row))
}
