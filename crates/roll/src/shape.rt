ghost use Rattle.std.specs.Prelude.{◌≤◌, length};

// A roll: memory that a caller lends, of which the first `len` elements are the list. What lies behind them is
// the caller's, untouched until the list grows over it. A length beside the memory, and no `Vec`, since nothing may be
// allocated; and no model, since callers want to know which memory it is and what lies behind.
#[derive(Drop)]
pub struct Roll<'a, T> {
    pub(crate) items: &'a mut [T],
    pub(crate) len: usize,
    ghost fits: { len ≤ length items.now },
}

// No memory is left behind a roll's contents.
#[derive(Clone, Copy, Debug, PartialEq, Eq)]
pub struct Full;
