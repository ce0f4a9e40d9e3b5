// What a loader wants to know of a table before it is used: which types, traits and names its rows speak of, the lists
// behind the list questions, and which items carry a name.
#![tactic(auto)]

mod carrying;
mod firsts;
mod holders;
mod listing;
mod speaking;
#[cfg(test)]
mod tests;

pub use carrying::carriers;
pub use holders::{Container, containers};
pub use listing::{NumberList, entries};
pub use speaking::{Subject, subjects};
