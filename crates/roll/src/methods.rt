#![tactic(auto, unfolding(crate::specs::Rolls::contents, crate::specs::Rolls::beyond))]

ghost use Rattle.std.specs.Prelude.{◌≡◌, [], ◌++◌, length, Decides};
ghost use Rattle.roll.specs.Equality.{Among};
ghost use Rattle.roll.specs.Rolls.{contents, beyond, Pushed, ReadAt};

use super::same::Same;
use super::shape::{Full, Roll};

impl<'a, T: Same + Drop> Roll<'a, T> {
    // An empty roll: all of the memory lies behind its contents.
    pub fn new(items: &'a mut [T]) -> Roll<'a, T>
        ensures empty { contents result ≡ [] }
        ensures rest { beyond result ≡ items.old }
        ensures lent { result.items.ghost_name ≡ items.entry.ghost_name }
    {
        Roll { items, len: 0 }
    }

    // One more element at the end; refused where the memory is full, and then nothing has changed.
    pub fn push(&mut self, x: T) -> Result<(), Full>
        ensures lent { self.new.items.ghost_name ≡ self.old.items.ghost_name }
        ensures pushed { Pushed self.old x result self.new }
    {
        if self.len >= self.items.len() {
            return Err(Full);
        }
        self.items[self.len] = x;
        self.len += 1;
        Ok(())
    }

    // Whether an element equal to `x` is on the roll.
    pub fn has(&self, x: &T) -> bool
        ensures { Decides result (Among T.Same.same (contents self.now) x.now) }
    {
        holds(self.as_slice(), x)
    }

    // The element at a place; None past the end of the contents, whatever the memory holds there.
    pub fn get(&self, place: usize) -> Option<&T>
        ensures { ReadAt (contents self.now) place result }
    {
        self.as_slice().get(place)
    }

    // How many elements are on the roll.
    pub fn len(&self) -> usize
        ensures { result ≡ length (contents self.now) }
    {
        self.as_slice().len()
    }

    // All elements on the roll, in order.
    pub fn as_slice(&self) -> &[T]
        ensures { result.now ≡ contents self.now }
    {
        &self.items[..self.len]
    }

    // Ends the roll and gives the count back: the memory holds the contents, and behind them what it held.
    pub fn finish(self) -> usize
        ensures count { result ≡ length (contents self.entry) }
        ensures memory { self.exit.0.now ≡ contents self.entry ++ beyond self.entry }
    {
        self.len()
    }
}

// Whether an element equal to `x` is in the slice.
pub fn holds<T: Same>(ys: &[T], x: &T) -> bool
    ensures { Decides result (Among T.Same.same ys.now x.now) }
{
    ys.iter().any(|y| y.is_same(x))
}
