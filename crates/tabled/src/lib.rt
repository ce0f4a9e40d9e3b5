// The tabled host: a host that answers from rows.
#![tactic(auto)]

mod hosting;
mod table;

pub use table::TabledHost;
