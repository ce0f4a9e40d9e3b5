use super::*;

#[test]
fn full_roll_says_no(rt: HostRuntime) {
    let mut memory = [9, 9, 9, 9];
    let mut roll = Roll::new(&mut memory[0..3]);
    assert_eq!(rt; roll.push(1), Ok(()));
    assert_eq!(rt; roll.push(2), Ok(()));
    assert_eq!(rt; roll.push(3), Ok(()));
    assert_eq!(rt; roll.push(4), Err(Full));
    assert_eq!(rt; roll.finish(), 3);
    assert_eq!(rt; memory, [1, 2, 3, 9]);
}

#[test]
fn memory_behind_is_kept(rt: HostRuntime) {
    let mut memory = [9, 8, 7];
    let mut roll = Roll::new(&mut memory);
    assert_eq!(rt; roll.push(1), Ok(()));
    assert_eq!(rt; roll.get(0), Some(&1));
    assert_eq!(rt; roll.get(1), None);
    assert_eq!(rt; roll.finish(), 1);
    assert_eq!(rt; memory, [1, 8, 7]);
}

#[test]
fn finds_what_is_on_it(rt: HostRuntime) {
    let mut memory = [5, 5, 5];
    let mut roll = Roll::new(&mut memory);
    assert_eq!(rt; roll.push(1), Ok(()));
    assert_eq!(rt; roll.push(2), Ok(()));
    assert!(rt; roll.has(&1));
    assert!(rt; roll.has(&2), "the last element");
    assert!(rt; !roll.has(&5), "only behind the contents");
    assert_eq!(rt; roll.len(), 2);
    assert_eq!(rt; roll.as_slice(), [1, 2].as_slice());
}
