// How an answer is read from the row that gives it, and what holds where no row does.
ghost use Rattle.std.specs.Prelude.{◌≡◌};
ghost use Rattle.rows.specs.Tables.{form_named, sort_named, form_in, number_in, item_in, mark_in, marks_in};

use super::rows::Row;
use host::{Form, Item, Sort, TypeForm};

// A form by its number; an unknown one is `Other`. Forms and sorts have a function each: a generic one would leave the lemma on
// its set's table to each caller, and be no plainer.
fn form_named(n: u32) -> Form
    ensures { result ≡ form_named n }
{
    Form::try_from(n).unwrap_or(Form::Other)
}

// A sort by its number; an unknown one is `Alias`.
fn sort_named(n: u32) -> Sort
    ensures { result ≡ sort_named n }
{
    Sort::try_from(n).unwrap_or(Sort::Alias)
}

pub fn form_in(row: Option<Row>) -> TypeForm
    ensures { result ≡ form_in row }
{
    let unknown = TypeForm {
        form: Form::Other,
        definition: 0,
        boxed_slice: false,
    };
    row.map_or(
        unknown,
        |row| TypeForm {
            form: form_named(row.r1),
            definition: row.r2,
            boxed_slice: row.r3 != 0,
        },
    )
}

pub fn number_in(row: Option<Row>) -> Option<u32>
    ensures { result ≡ number_in row }
{
    row.map(|row| row.r1)
}

pub fn item_in(row: Option<Row>) -> Option<Item>
    ensures { result ≡ item_in row }
{
    row.map(|row| Item {
        name: row.r1,
        sort: sort_named(row.r2),
        has_self: row.r3 != 0,
    })
}

pub fn mark_in(row: Option<Row>) -> bool
    ensures { result ≡ mark_in row }
{
    row.is_some_and(|row| row.r1 != 0)
}

pub fn marks_in(row: Option<Row>) -> (bool, bool)
    ensures { result ≡ marks_in row }
{
    row.map_or((false, false), |row| (row.r1 != 0, row.r2 != 0))
}
