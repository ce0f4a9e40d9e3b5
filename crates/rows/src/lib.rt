// Tables of rows: which row answers a question, what it says, and whether the supertrait law holds.
#![tactic(auto)]

mod answers;
mod laws;
mod lists;
mod rows;

pub use answers::{form_in, item_in, mark_in, marks_in, number_in};
pub use laws::{Breach, breach_of, is_lawful};
pub use lists::{Listing, entry};
pub use rows::{Key, Row, row_for};
