// Items as words.
use crate::record;
use items::{Item, Refusal};

const MOST: u32 = 4294967295;

#[test]
fn four_words(rt: HostRuntime) {
    assert_eq!(rt; record(5, 3, 1).encode(), [1, 5, 3, 1]);
    assert_eq!(rt; Item::Watermark(10).encode(), [2, 0, 10, 0]);
    assert_eq!(rt; Item::Barrier(7).encode(), [3, 0, 7, 0]);
    assert_eq!(rt; record(MOST, MOST, MOST).encode(), [1, MOST, MOST, MOST]);
    assert_eq!(rt; Item::Watermark(MOST).encode(), [2, 0, MOST, 0]);
    assert_eq!(rt; Item::Barrier(MOST).encode(), [3, 0, MOST, 0]);
}

#[test]
fn from_words(rt: HostRuntime) {
    assert_eq!(rt; Item::decode([1, 5, 3, 1]), Some(record(5, 3, 1)));
    assert_eq!(rt; Item::decode([1, 0, 0, 0]), Some(record(0, 0, 0)));
    assert_eq!(rt; Item::decode([2, 0, 10, 0]), Some(Item::Watermark(10)));
    assert_eq!(rt; Item::decode([3, 0, 7, 0]), Some(Item::Barrier(7)));
    assert_eq!(rt;
        Item::decode([1, MOST, MOST, MOST]),
        Some(record(MOST, MOST, MOST))
    );
    assert_eq!(rt; Item::decode([2, 0, MOST, 0]), Some(Item::Watermark(MOST)));
    assert_eq!(rt; Item::decode([3, 0, MOST, 0]), Some(Item::Barrier(MOST)));
}

#[test]
fn no_item(rt: HostRuntime) {
    assert_eq!(rt; Item::decode([0, 5, 3, 1]), None);
    assert_eq!(rt; Item::decode([0, 0, 0, 0]), None);
    assert_eq!(rt; Item::decode([4, 0, 3, 0]), None);
    assert_eq!(rt; Item::decode([2, 1, 10, 0]), None);
    assert_eq!(rt; Item::decode([2, 0, 10, 1]), None);
    assert_eq!(rt; Item::decode([3, 1, 7, 0]), None);
    assert_eq!(rt; Item::decode([3, 0, 7, 1]), None);
}

#[test]
fn stored(rt: HostRuntime) {
    let mut four = [9u32; 4];
    assert_eq!(rt; record(5, 3, 1).store(&mut four), Ok(()));
    assert_eq!(rt; four, [1, 5, 3, 1]);
    let mut five = [9u32; 5];
    assert_eq!(rt; Item::Watermark(10).store(&mut five), Ok(()));
    assert_eq!(rt; five, [2, 0, 10, 0, 9]);
    let mut three = [9u32; 3];
    assert_eq!(rt; record(5, 3, 1).store(&mut three), Err(Refusal::NoRoom));
    assert_eq!(rt; three, [9, 9, 9]);
}

#[test]
fn loaded(rt: HostRuntime) {
    assert_eq!(rt; Item::load(&[1, 5, 3]), None, "three words");
    assert_eq!(rt; Item::load(&[1, 5, 3, 1]), Some(record(5, 3, 1)));
    assert_eq!(rt; Item::load(&[3, 0, 7, 0, 9]), Some(Item::Barrier(7)));
    assert_eq!(rt; Item::load(&[4, 5, 3, 1]), None);
}
