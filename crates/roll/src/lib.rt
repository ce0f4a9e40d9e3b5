// A roll is a list over the caller's memory, for every element type with an equality that is an equivalence.
// It appends in order, refuses when it is full, tells whether an equal element is on it, is read by place,
// and at its end gives back the count. It allocates nothing.
#![tactic(auto)]

mod methods;
mod same;
mod shape;
#[cfg(test)]
mod tests;

pub use methods::holds;
pub use same::Same;
pub use shape::{Full, Roll};
