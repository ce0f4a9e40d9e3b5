// The hosts that a script declares: their tables, and which of them are open.
#![tactic(auto)]

mod any;
mod calls;
mod entries;
mod executing;
mod troubles;

pub use any::AnyHost;
pub use entries::Registry;
pub use executing::Reply;
pub use troubles::Trouble;
