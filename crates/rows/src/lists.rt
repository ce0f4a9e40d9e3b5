// The lists behind the list questions.
ghost use Rattle.std.specs.Prelude.{◌≡◌, true};
ghost use Rattle.std.specs.List.{slice_get};
ghost use Rattle.host.specs.Questions.{askable};
ghost use Rattle.rows.specs.Lists.{at, place_of, itself, Noted, Gathered, all_rows, entries};

use super::rows::{Key, Row};
use host::{ContainerKind, ItemId, MOST_ENTRIES, Question};

// How many places a list has at most.
pub(crate) const PLACES: usize = MOST_ENTRIES as usize;

// A list question but for its place. It is a value and no closure, since rows are compared with it.
#[derive(Clone, Copy)]
pub enum Listing {
    Own { ty: u32 },
    Stray { ty: u32 },
    Items { kind: ContainerKind, container: u32 },
    Bounds { ty: u32 },
    Supers { tr: u32 },
}

impl Listing {
    // Its question at a place, whose numbers have 32 bits.
    fn at(self, place: u32) -> Question
        ensures value { result ≡ at self place }
        ensures asked { askable (at self place) ≡ true }
    {
        match self {
            Listing::Own { ty } => Question::Own { ty, place },
            Listing::Stray { ty } => Question::Stray { ty, place },
            Listing::Items { kind, container } => Question::Item(ItemId {
                kind,
                container,
                place,
            }),
            Listing::Bounds { ty } => Question::Bound { ty, place },
            Listing::Supers { tr } => Question::Supers { tr, place },
        }
    }

    // Where a row of this list has its place.
    fn place_of(self, row: &Row) -> u32
        ensures { result ≡ place_of self row.now }
    {
        match self {
            Listing::Items { .. } => row.key.a3,
            _ => row.key.a2,
        }
    }
}

// The row that says of a trait that its supers begin with itself.
fn itself(tr: u32) -> Row
    ensures { result ≡ itself tr }
{
    Row {
        key: Question::Supers { tr, place: 0 }.into(),
        r1: tr,
        r2: 0,
        r3: 0,
    }
}

// Keeps a row at the place that it answers for, unless an earlier row stands there.
fn note(slots: &mut [Option<Row>; PLACES], listing: Listing, row: &Row)
    ensures { Noted listing row.now slots.old slots.new }
{
    let place = listing.place_of(row);
    if place < MOST_ENTRIES && row.key == Key::from(listing.at(place)) {
        // By index: once the borrow from a slice's `get_mut` is over, a proof knows no element.
        slots[place as usize].get_or_insert(*row);
    }
}

// For each place the row that answers there, found in one pass over the rows.
pub(crate) fn slots_of(rows: &[Row], listing: Listing) -> [Option<Row>; PLACES]
    ensures asked { askable (at listing 0) ≡ true }
    ensures gathered { Gathered listing (all_rows rows.now listing) result }
{
    let first = Key::from(listing.at(0));
    let mut slots = [None; PLACES];
    for row in rows {
        // Most rows are of other questions: pass over them before anything else is looked at.
        if row.key.question == first.question {
            note(&mut slots, listing, row);
        }
    }
    if let Listing::Supers { tr } = listing {
        note(&mut slots, listing, &itself(tr));
    }
    slots
}

// The row of a list at a place; none where a place before it has none.
pub fn entry(rows: &[Row], listing: Listing, place: u32) -> Option<Row>
    ensures { result ≡ slice_get (entries rows.now listing) place }
{
    // No list is that long: answer before the pass over the rows.
    if place >= MOST_ENTRIES {
        return None;
    }
    let slots = slots_of(rows, listing);
    slots.iter().map_while(|slot| *slot).nth(place as usize)
}
