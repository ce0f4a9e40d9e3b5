// The second half of a search: where candidates are tried, what a list of them decides, and the pick. As in rust-analyzer's
// `probe.rs`, each step is tried by value, by an autoref, and as a const pointer. The pick itself, which calls what stands
// here, is still to come.
#![tactic(auto)]

mod applying;
mod considering;
mod context;
mod entries;
mod writing;
