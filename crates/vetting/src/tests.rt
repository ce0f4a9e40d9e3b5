use super::*;
use host::{ContainerKind, ItemId};
use rows::Row;
use std::test::Fail;
use tabled::TabledHost;

fn row(question: u32, a1: u32, a2: u32, a3: u32, r1: u32) -> Row {
    Row::from([question, a1, a2, a3, 0, 0, 0, 0, r1, 0, 0])
}

#[test]
fn each_number_comes_once(rt: HostRuntime) -> Result<(), Fail> {
    let heap = rt.alloc();
    let rows = [
        row(6, 9, 1, 0, 8),
        row(1, 3, 0, 0, 2),
        row(4, 1, 7, 0, 40),
        row(4, 0, 5, 0, 41),
        row(5, 2, 0, 0, 9),
        row(4, 1, 7, 1, 40),
        row(2, 3, 0, 0, 5),
    ];
    assert_eq!(rt;
        subjects(heap, &rows, Subject::Type)?.as_slice(),
        [3, 2].as_slice()
    );
    assert_eq!(rt;
        subjects(heap, &rows, Subject::Trait)?.as_slice(),
        [9, 8, 7].as_slice()
    );
    assert_eq!(rt;
        subjects(heap, &rows, Subject::Name)?.as_slice(),
        [40, 41].as_slice()
    );
    Ok(())
}

// The impl 7 lacks an item at place 2, and the type 1 an impl at place 1: what stands behind a gap does not count.
#[test]
fn a_name_in_an_impl_and_a_trait(rt: HostRuntime) -> Result<(), Fail> {
    let heap = rt.alloc();
    let rows = vec![in heap;
        row(2, 1, 0, 0, 7),
        row(2, 1, 2, 0, 8),
        row(4, 0, 7, 0, 50),
        row(4, 0, 7, 1, 60),
        row(4, 0, 7, 3, 50),
        row(4, 1, 9, 0, 60),
        row(4, 1, 9, 1, 50),
    ]?;
    let held = containers(heap, &rows)?;
    assert!(rt; held.len() == 2);
    let Ok(table) = TabledHost::open(rows) else {
        return Err(Fail::new("the rows are lawful"));
    };
    let own = entries(heap, &table, NumberList::Own { ty: 1 })?;
    assert_eq!(rt; own.as_slice(), [7].as_slice());
    let found = carriers(heap, &table, &held, 50)?;
    let calls = [
        ItemId {
            kind: ContainerKind::Impl,
            container: 7,
            place: 0,
        },
        ItemId {
            kind: ContainerKind::Trait,
            container: 9,
            place: 1,
        },
    ];
    assert!(rt; found.as_slice() == calls.as_slice());
    Ok(())
}
