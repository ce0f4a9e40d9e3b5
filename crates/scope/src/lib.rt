// The traits in scope, in order of arrival, each with its claims out. A claim is what a caller is granted for a trait that
// it brings into scope, and hands back later; a trait is in scope while at least one claim on it is out. It arrives when
// its claims rise from 0, and keeps its place until they are 0 again.
// A scope is one table of fixed size. It allocates nothing and has no counter that only grows, so it never wears out.
#![tactic(auto)]

mod entries;
mod laws;
mod methods;
mod shape;

pub use entries::Entry;
pub use laws::outcomes_are_determined;
pub use shape::{MOST_TRAITS, Scope};
