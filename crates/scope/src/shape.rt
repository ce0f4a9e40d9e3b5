ghost use Rattle.std.specs.Prelude.{◌≤◌, List, take};
ghost use Rattle.scope.specs.Entries.{Valid};
ghost use Rattle.scope.specs.declared.entries.Entry.{Entry};

use super::entries::Entry;
use std::marker::Model;

// How many traits can be in scope.
pub const MOST_TRAITS: usize = 64;

// The traits in scope: the first `len` entries of the table. It is a rule that this is one table of fixed size, and that
// nothing is allocated.
#[derive(Drop)]
pub struct Scope {
    pub(crate) table: [Entry; MOST_TRAITS],
    pub(crate) len: usize,
}

// Clauses see the entries in order of arrival. No trait has two of them, and each has a claim out.
impl Model for Scope {
    ghost Value = { List Entry };

    ghost view = { λ s. take s.len s.table };

    ghost invariant = { λ s. (s.len ≤ 64) × Valid (take s.len s.table) };
}
