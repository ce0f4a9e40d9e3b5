// What the programs share: playing a script, and reporting on a table. All that is decided here is decided by functions
// of the crates below, which have contracts; this crate splits lines into words and prints.
#![tactic(auto)]

mod playing;
mod printing;
mod report;

pub use playing::play;
pub use report::{Labels, vet};
