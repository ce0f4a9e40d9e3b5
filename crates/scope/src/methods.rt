ghost use Rattle.std.specs.Prelude.{◌≡◌, ◌≤◌, [], length};
ghost use Rattle.scope.specs.Entries.{traits_of, claims_on, Claimed};
ghost use Rattle.scope.specs.Lists.{Distinct};
ghost use Rattle.scope.specs.Places.{PlaceOf};
ghost use Rattle.scope.specs.Scopes.{Admits, Releases};

use super::entries::Entry;
use super::shape::{MOST_TRAITS, Scope};
use host::Refusal;

// How many claims on one trait can be out, by rule.
const MOST_CLAIMS: u16 = u16::MAX;

impl Scope {
    // No trait is in scope.
    pub fn new() -> Scope
        ensures { result ≡ [] }
    {
        Scope {
            table: [Entry { tr: 0, claims: 0 }; MOST_TRAITS],
            len: 0,
        }
    }

    // The traits in scope with their claims, in order of arrival.
    pub fn entries(&self) -> &[Entry]
        ensures are { result.now ≡ self.now }
        ensures few { length self.now ≤ 64 }
        ensures distinct { Distinct (traits_of self.now) }
        ensures claimed { Claimed self.now }
    {
        &self.table[..self.len]
    }

    // Where the trait's entry is, if it has one.
    fn place_of(&self, tr: u32) -> Option<usize>
        ensures { PlaceOf self.now tr result }
    {
        self.entries().iter().position(|entry| entry.tr == tr)
    }

    // How many claims on the trait are out; 0 where it is not in scope.
    pub fn claims(&self, tr: u32) -> u16
        ensures { result ≡ claims_on self.now tr }
    {
        self.entries()
            .iter()
            .find(|entry| entry.tr == tr)
            .map_or(0, |entry| entry.claims)
    }

    // One claim more on the trait. If it was not in scope, it arrives behind the others.
    pub fn admit(&mut self, tr: u32) -> Result<(), Refusal>
        ensures { Admits self.old tr result self.new }
    {
        match self.place_of(tr) {
            Some(i) if self.table[i].claims == MOST_CLAIMS => return Err(Refusal::TooManyClaims),
            Some(i) => self.table[i].claims += 1,
            None if self.len == MOST_TRAITS => return Err(Refusal::TooManyTraits),
            None => {
                self.table[self.len] = Entry { tr, claims: 1 };
                self.len += 1;
            }
        }
        Ok(())
    }

    // One claim less on the trait. With its last claim it leaves the scope, and the traits behind it move up.
    pub fn release(&mut self, tr: u32) -> Result<(), Refusal>
        ensures { Releases self.old tr result self.new }
    {
        let Some(i) = self.place_of(tr) else {
            return Err(Refusal::NoClaimOut);
        };
        if self.table[i].claims > 1 {
            self.table[i].claims -= 1;
        } else {
            self.table.copy_within(i + 1..self.len, i);
            self.len -= 1;
        }
        Ok(())
    }
}
