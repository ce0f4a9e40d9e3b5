// The built-in scenario: a harbour's tables arrive, are refused, come again corrected, and are opened and listed.
ghost use Rattle.std.specs.Prelude.{◌≡◌, map, IfOk};
ghost use Rattle.rows.specs.Rows.{row_of};

use rows::Row;
use runner::{Labels, vet};
use std::alloc::{AllocError, Global};

const LABELS: Labels<'static> = Labels {
    types: &["Berth", "dyn Mooring", "T: Mooring", "[Berth; 4]"],
    traits: &["Mooring", "TidalMooring", "DeepMooring", "Audit", "Ledger"],
    names: &["release", "hold", "DEPTH"],
};

// As delivered: trait 2 lacks trait 0, trait 3 begins with trait 4, and traits 0 and 1 stand above each other.
const DELIVERED: [[u32; 11]; 6] = [
    [1, 0, 0, 0, 0, 0, 0, 0, 2, 0, 0],
    [6, 0, 1, 0, 0, 0, 0, 0, 1, 0, 0],
    [6, 1, 1, 0, 0, 0, 0, 0, 0, 0, 0],
    [6, 2, 1, 0, 0, 0, 0, 0, 1, 0, 0],
    [6, 3, 0, 0, 0, 0, 0, 0, 4, 0, 0],
    [4, 1, 0, 0, 0, 0, 0, 0, 0, 0, 1],
];

// As corrected, and with the rest of the tables.
const CORRECTED: [[u32; 11]; 24] = [
    // types: their forms
    [1, 0, 0, 0, 0, 0, 0, 0, 2, 0, 0],
    [1, 1, 0, 0, 0, 0, 0, 0, 1, 0, 0],
    [1, 2, 0, 0, 0, 0, 0, 0, 4, 0, 0],
    [1, 3, 0, 0, 0, 0, 0, 0, 6, 0, 0],
    // their impls: type 0 has two of its own, and a row behind a gap, which is not read
    [2, 0, 0, 0, 0, 0, 0, 0, 0, 0, 0],
    [2, 0, 1, 0, 0, 0, 0, 0, 1, 0, 0],
    [2, 0, 3, 0, 0, 0, 0, 0, 9, 0, 0],
    [3, 3, 0, 0, 0, 0, 0, 0, 2, 0, 0],
    // their bounds
    [5, 2, 0, 0, 0, 0, 0, 0, 0, 0, 0],
    [5, 2, 1, 0, 0, 0, 0, 0, 3, 0, 0],
    // items: impl 0 releases and holds, trait 0 and trait 1 release, trait 3 has a constant, impl 2 holds
    [4, 0, 0, 0, 0, 0, 0, 0, 0, 0, 1],
    [4, 0, 0, 1, 0, 0, 0, 0, 1, 0, 1],
    [4, 1, 0, 0, 0, 0, 0, 0, 0, 0, 1],
    [4, 1, 1, 0, 0, 0, 0, 0, 0, 0, 1],
    [4, 1, 3, 0, 0, 0, 0, 0, 2, 1, 0],
    [4, 0, 2, 0, 0, 0, 0, 0, 1, 0, 1],
    // supertraits: of equal keys the first row answers
    [6, 1, 1, 0, 0, 0, 0, 0, 0, 0, 0],
    [6, 1, 1, 0, 0, 0, 0, 0, 3, 0, 0],
    [6, 2, 1, 0, 0, 0, 0, 0, 1, 0, 0],
    [6, 2, 2, 0, 0, 0, 0, 0, 0, 0, 0],
    [6, 4, 1, 0, 0, 0, 0, 0, 3, 0, 0],
    // marks
    [7, 0, 0, 0, 0, 0, 0, 0, 1, 0, 0],
    [7, 0, 0, 1, 0, 0, 0, 0, 1, 0, 0],
    [8, 3, 0, 0, 0, 0, 0, 0, 1, 1, 0],
];

fn rows_of(heap: Global, table: &[[u32; 11]]) -> Result<Vec<Row>, AllocError>
    ensures { IfOk result (λ v. v.items ≡ map row_of table.now) }
{
    table.iter().copied().map(Row::from).collect(heap)
}

pub fn vet_harbour(rt: &HostRuntime) -> anyhow::Result<()> {
    let heap = rt.alloc();
    println!(rt; "tables of the harbour as delivered")?;
    let delivered = rows_of(heap, &DELIVERED)?;
    let _ = vet(rt, &delivered, LABELS)?;
    println!(rt; "tables of the harbour as corrected")?;
    let corrected = rows_of(heap, &CORRECTED)?;
    let _ = vet(rt, &corrected, LABELS)?;
    Ok(())
}
