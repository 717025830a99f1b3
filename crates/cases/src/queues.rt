// Edges, and what is on them.
use crate::record;
use edges::{Edges, Fault};
use items::{Item, Refusal};
use std::ops::Range;
use std::process::Abort;
use std::test::Fail;

// Why a call is not done.
const SHORT: Fault = Fault::ShortMemory;

const NOTHING: Fault = Fault::Refused(Refusal::NothingToTake);

const NO_ROOM: Fault = Fault::Refused(Refusal::NoRoom);

const NOT_THERE: Fault = Fault::Refused(Refusal::NotThere);

// So many empty edges.
fn empty(count: usize) -> Result<Edges, Fail> {
    Edges::new(count).ok_or_else(|| Fail::new("too many edges"))
}

// Items of each kind, no two the same.
fn item(i: u32) -> Item {
    match i % 3 {
        0 => record(i, 7, 9),
        1 => Item::Watermark(i),
        _ => Item::Barrier(i),
    }
}

// The items from one number to another are put on an edge.
fn fill(rt: &impl Abort, edges: &mut Edges, words: &mut [u32], e: usize, numbers: Range<u32>) {
    for i in numbers {
        assert_eq!(rt; edges.push(words, e, item(i)), Ok(()), "{}", i);
    }
}

// They come first from an edge, in this order.
fn drain(rt: &impl Abort, edges: &mut Edges, words: &mut [u32], e: usize, numbers: Range<u32>) {
    for i in numbers {
        assert_eq!(rt; edges.peek(words, e), Ok(item(i)), "{}", i);
        assert_eq!(rt; edges.pop(words, e), Ok(item(i)), "{}", i);
    }
}

#[test]
fn how_many(rt: HostRuntime) -> Result<(), Fail> {
    assert!(rt; Edges::new(65).is_none());
    assert_eq!(rt; empty(64)?.words(), 132096);
    assert_eq!(rt; empty(1)?.words(), 2064);
    let none = empty(0)?;
    assert_eq!(rt; none.words(), 0);
    assert_eq!(rt; none.len(0), Err(NOT_THERE));
    Ok(())
}

#[test]
fn edge_not_there(rt: HostRuntime) -> Result<(), Fail> {
    let mut words = vec![in rt.alloc(); 0u32; 6192]?;
    let mut edges = empty(2)?;
    assert_eq!(rt; edges.len(2), Err(NOT_THERE));
    assert_eq!(rt; edges.peek(&words, 2), Err(NOT_THERE));
    assert_eq!(rt; edges.push(&mut words, 2, item(1)), Err(NOT_THERE));
    assert_eq!(rt; edges.pop(&mut words, 2), Err(NOT_THERE));
    assert_eq!(rt; edges.clear(2), Err(NOT_THERE));
    assert_eq!(rt; edges.free(&words, 2), Err(NOT_THERE));
    assert_eq!(rt; edges.take_up(&words, 2, 1), Err(NOT_THERE));
    assert_eq!(rt; edges.len(0), Ok(0));
    assert_eq!(rt; edges.len(1), Ok(0));
    Ok(())
}

// 4127 words are one too few for two edges.
#[test]
fn short_memory(rt: HostRuntime) -> Result<(), Fail> {
    let mut words = vec![in rt.alloc(); 0u32; 4128]?;
    assert!(rt; words.len() == 4128);
    let mut edges = empty(2)?;
    fill(&rt, &mut edges, &mut words, 0, 0..2);
    let short = &mut words[0..4127];
    assert_eq!(rt; edges.peek(short, 0), Err(SHORT));
    assert_eq!(rt; edges.push(short, 0, item(2)), Err(SHORT));
    assert_eq!(rt; edges.pop(short, 0), Err(SHORT));
    assert_eq!(rt; edges.free(short, 0), Err(SHORT));
    assert_eq!(rt; edges.take_up(short, 0, 1), Err(SHORT));
    assert_eq!(rt; edges.pop(short, 2), Err(SHORT), "an edge that isn't there");
    assert_eq!(rt; edges.len(0), Ok(2));
    drain(&rt, &mut edges, &mut words, 0, 0..2);
    Ok(())
}

#[test]
fn empty_and_full(rt: HostRuntime) -> Result<(), Fail> {
    let mut words = vec![in rt.alloc(); 0u32; 2064]?;
    let mut edges = empty(1)?;
    assert_eq!(rt; edges.peek(&words, 0), Err(NOTHING));
    assert_eq!(rt; edges.pop(&mut words, 0), Err(NOTHING));
    fill(&rt, &mut edges, &mut words, 0, 0..256);
    assert_eq!(rt; edges.len(0), Ok(256));
    assert_eq!(rt; edges.push(&mut words, 0, item(256)), Err(NO_ROOM));
    assert_eq!(rt; edges.len(0), Ok(256));
    drain(&rt, &mut edges, &mut words, 0, 0..256);
    assert_eq!(rt; edges.pop(&mut words, 0), Err(NOTHING));
    Ok(())
}

// 1,000 items go along an edge, where so many wait at most.
fn through(rt: &(impl Abort + AllocGlobal), waiting: u32) -> Result<(), Fail> {
    assert!(rt; waiting <= 1000);
    let mut words = vec![in rt.alloc(); 0u32; 2064]?;
    let mut edges = empty(1)?;
    for i in 0..1000 {
        if i >= waiting {
            drain(rt, &mut edges, &mut words, 0, i - waiting..i - waiting + 1);
        }
        fill(rt, &mut edges, &mut words, 0, i..i + 1);
    }
    assert_eq!(rt; edges.len(0), Ok(waiting as usize), "{}", waiting);
    drain(rt, &mut edges, &mut words, 0, 1000 - waiting..1000);
    assert_eq!(rt; edges.len(0), Ok(0), "{}", waiting);
    Ok(())
}

#[test]
fn first_in_first_out(rt: HostRuntime) -> Result<(), Fail> {
    for waiting in [1, 2, 100, 255, 256] {
        through(&rt, waiting)?;
    }
    Ok(())
}

// The items of edge 0 stand as far on as they can.
#[test]
fn neighbours(rt: HostRuntime) -> Result<(), Fail> {
    let mut words = vec![in rt.alloc(); 0u32; 6192]?;
    let mut edges = empty(3)?;
    fill(&rt, &mut edges, &mut words, 0, 0..256);
    fill(&rt, &mut edges, &mut words, 1, 1000..1256);
    drain(&rt, &mut edges, &mut words, 0, 0..255);
    fill(&rt, &mut edges, &mut words, 0, 256..511);
    assert_eq!(rt; edges.len(0), Ok(256));
    assert_eq!(rt; edges.len(1), Ok(256));
    assert_eq!(rt; edges.len(2), Ok(0));
    drain(&rt, &mut edges, &mut words, 1, 1000..1256);
    fill(&rt, &mut edges, &mut words, 1, 2000..2256);
    drain(&rt, &mut edges, &mut words, 0, 255..511);
    drain(&rt, &mut edges, &mut words, 1, 2000..2256);
    Ok(())
}

#[test]
fn cleared(rt: HostRuntime) -> Result<(), Fail> {
    let mut words = vec![in rt.alloc(); 0u32; 6192]?;
    let mut edges = empty(3)?;
    fill(&rt, &mut edges, &mut words, 0, 0..2);
    fill(&rt, &mut edges, &mut words, 1, 10..13);
    fill(&rt, &mut edges, &mut words, 2, 20..22);
    assert_eq!(rt; edges.clear(1), Ok(()));
    assert_eq!(rt; edges.len(1), Ok(0));
    assert_eq!(rt; edges.pop(&mut words, 1), Err(NOTHING));
    drain(&rt, &mut edges, &mut words, 0, 0..2);
    drain(&rt, &mut edges, &mut words, 2, 20..22);
    fill(&rt, &mut edges, &mut words, 1, 30..32);
    drain(&rt, &mut edges, &mut words, 1, 30..32);
    Ok(())
}

// Edge 1 begins at word 2064; behind two items there is room for 254.
#[test]
fn taken_up(rt: HostRuntime) -> Result<(), Fail> {
    let mut words = vec![in rt.alloc(); 0u32; 6192]?;
    let mut edges = empty(3)?;
    fill(&rt, &mut edges, &mut words, 1, 0..2);
    // not `map_err`, behind which the check doesn't know that the part is within the words
    let Ok(part) = edges.free(&words, 1) else {
        return Err(Fail::new("no free part"));
    };
    assert_eq!(rt; part, 2072..3088);
    let free = &mut words[part];
    assert!(rt; free.len() == 1016);
    assert!(rt; item(2).store(&mut free[0..4]).is_ok());
    assert!(rt; item(3).store(&mut free[4..8]).is_ok());
    assert!(rt; item(4).store(&mut free[8..12]).is_ok());
    assert_eq!(rt; edges.len(1), Ok(2));
    assert_eq!(rt; edges.take_up(&words, 1, 255), Err(NO_ROOM));
    assert_eq!(rt; edges.take_up(&words, 1, 3), Ok(()));
    assert_eq!(rt; edges.len(1), Ok(5));
    assert_eq!(rt; edges.free(&words, 1), Ok(2084..3088));
    fill(&rt, &mut edges, &mut words, 1, 5..6);
    drain(&rt, &mut edges, &mut words, 1, 0..6);
    assert_eq!(rt; edges.len(1), Ok(0));
    Ok(())
}

#[test]
fn no_items_taken_up(rt: HostRuntime) -> Result<(), Fail> {
    let mut words = vec![in rt.alloc(); 0u32; 2064]?;
    assert!(rt; words.len() == 2064);
    let mut edges = empty(1)?;
    assert_eq!(rt; edges.free(&words, 0), Ok(0..1024));
    words[0..12].copy_from_slice(&[4, 1, 2, 3, 2, 0, 10, 0, 3, 1, 7, 0]);
    assert_eq!(rt; edges.take_up(&words, 0, 257), Err(NO_ROOM));
    assert_eq!(rt; edges.take_up(&words, 0, 256), Ok(()));
    assert_eq!(rt; edges.pop(&mut words, 0), Ok(Item::Barrier(0)));
    assert_eq!(rt; edges.pop(&mut words, 0), Ok(Item::Watermark(10)));
    assert_eq!(rt; edges.pop(&mut words, 0), Ok(Item::Barrier(0)));
    assert_eq!(rt;
        edges.pop(&mut words, 0),
        Ok(Item::Barrier(0)),
        "all words 0"
    );
    assert_eq!(rt; edges.len(0), Ok(252));
    Ok(())
}
