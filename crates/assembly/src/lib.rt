// The first half of a search: the candidates of a name, on three lists. As in rust-analyzer's `probe.rs`, the steps of the
// receiver offer impls, objects' traits and bounds, and then the traits in scope are visited.
#![tactic(auto)]

mod context;
mod items;
mod lists;
mod offers;
mod scopes;

pub use context::ProbeContext;
pub use lists::CandidateLists;
