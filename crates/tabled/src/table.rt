// The host over rows.
ghost use Rattle.std.specs.Prelude.{◌≡◌, ℕ, false, is_some};
ghost use Rattle.rows.specs.Breaches.{breach_of};
ghost use Rattle.rows.specs.Tables.{tabled};

use rows::Row;

// Rows that keep the supertrait law: at no trait a breach is found.
#[derive(Drop)]
pub struct TabledHost {
    pub(crate) rows: Vec<Row>,
    ghost unbroken: { (t : ℕ) → is_some (breach_of (tabled rows.items) t) ≡ false },
}
