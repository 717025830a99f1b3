// Journals, written byte by byte.
use crate::record;
use items::{Item, NoItem, Refusal, read_item};
use journals::{Reader, Stop};
use sources::{JournalFile, Memory};
use std::alloc::AllocError;
use std::fs;
use std::fs::OpenOptions;
use std::io::Write;
use std::process::Abort;
use std::test::Fail;

#[test]
fn first_item(rt: HostRuntime) {
    let bytes = [1, 1, 2, 3, 4, 5, 6, 7, 8, 9, 10, 11, 12, 0];
    let item = (record(0x01020304, 0x05060708, 0x090a0b0c), 13);
    assert_eq!(rt; read_item(&bytes[0..13]), Ok(item));
    assert_eq!(rt; read_item(&bytes), Ok(item), "with a byte behind it");
    let item = (Item::Watermark(256), 5);
    assert_eq!(rt; read_item(&[2, 0, 0, 1, 0]), Ok(item));
    assert_eq!(rt;
        read_item(&[2, 0, 0, 1, 0, 3]),
        Ok(item),
        "with a byte behind it"
    );
}

#[test]
fn cut_short(rt: HostRuntime) {
    let bytes = [1, 1, 2, 3, 4, 5, 6, 7, 8, 9, 10, 11, 12];
    for n in 0..13 {
        assert_eq!(rt; read_item(&bytes[0..n]), Err(NoItem::NotYet), "{}", n);
    }
    let bytes = [2, 0, 0, 1, 0];
    for n in 0..5 {
        assert_eq!(rt; read_item(&bytes[0..n]), Err(NoItem::NotYet), "{}", n);
    }
}

#[test]
fn unknown_kind(rt: HostRuntime) {
    for kind in [0, 3, 255] {
        assert_eq!(rt; read_item(&[kind]), Err(NoItem::Unknown), "{}", kind);
        assert_eq!(rt;
            read_item(&[kind, 0, 0, 1, 0]),
            Err(NoItem::Unknown),
            "{}",
            kind
        );
        assert_eq!(rt;
            read_item(&[kind, 0, 0, 0, 5, 0, 0, 0, 3, 0, 0, 0, 1]),
            Err(NoItem::Unknown),
            "{}",
            kind
        );
    }
}

// Six items, which end behind 13, 26, 39, 44, 57 and 62 bytes.
const JOURNAL: [u8; 62] = *b"\
    \x01\0\0\0\x05\0\0\0\x03\0\0\0\x01\
    \x01\0\0\0\x05\0\0\0\x0c\0\0\0\x04\
    \x01\0\0\0\x05\0\0\0\x09\0\0\0\x02\
    \x02\0\0\0\x0a\
    \x01\0\0\0\x05\0\0\0\x08\0\0\0\x07\
    \x02\0\0\0\x14";

// Its item with a number.
fn item(number: u64) -> Item {
    match number {
        0 => record(5, 3, 1),
        1 => record(5, 12, 4),
        2 => record(5, 9, 2),
        3 => Item::Watermark(10),
        4 => record(5, 8, 7),
        _ => Item::Watermark(20),
    }
}

// How many of its items are complete in its first bytes.
fn complete(len: usize) -> u64 {
    match len {
        0..=12 => 0,
        13..=25 => 1,
        26..=38 => 2,
        39..=43 => 3,
        44..=56 => 4,
        57..=61 => 5,
        _ => 6,
    }
}

fn over(rt: &HostRuntime, bytes: &[u8]) -> Result<Reader<Memory>, AllocError> {
    let bytes = bytes.to_vec(rt.alloc())?;
    Reader::new(rt.alloc(), Memory::new(bytes))
}

// The first items come, so many, and then no more, also when asked again; `of` says of which journal: how much of
// JOURNAL it begins with, and which byte was put in there.
fn gives(rt: &impl Abort, reader: &mut Reader<Memory>, count: u64, stop: Stop, of: (usize, u8)) {
    for i in 0..count {
        assert_eq!(rt; reader.number(), i, "{} of {:?}", i, of);
        assert_eq!(rt; reader.next(), Ok(item(i)), "{} of {:?}", i, of);
    }
    for _ in 0..2 {
        assert_eq!(rt; reader.next(), Err(stop), "{} of {:?}", count, of);
        assert_eq!(rt; reader.number(), count, "{} of {:?}", count, of);
    }
}

#[test]
fn no_bytes(rt: HostRuntime) -> Result<(), Fail> {
    let mut reader = over(&rt, &[])?;
    assert_eq!(rt; reader.number(), 0);
    gives(&rt, &mut reader, 0, Stop::NotYet, (0, 0));
    Ok(())
}

#[test]
fn every_prefix(rt: HostRuntime) -> Result<(), Fail> {
    for len in 0..63 {
        let mut reader = over(&rt, &JOURNAL[0..len])?;
        gives(&rt, &mut reader, complete(len), Stop::NotYet, (len, 0));
    }
    Ok(())
}

#[test]
fn grown(rt: HostRuntime) -> Result<(), Fail> {
    for len in 0..63 {
        let bytes = JOURNAL[0..len].to_vec(rt.alloc())?;
        let mut memory = Memory::new(bytes);
        memory.grow(&JOURNAL[len..62])?;
        let mut reader = Reader::new(rt.alloc(), memory)?;
        gives(&rt, &mut reader, 6, Stop::NotYet, (len, 0));
    }
    Ok(())
}

// The journal with a byte put in at a place.
fn broken(rt: &HostRuntime, at: usize, kind: u8) -> Result<Reader<Memory>, Fail> {
    // `let .. else`: two are wanted at once
    let (Some(before), Some(behind)) = (JOURNAL.get(0..at), JOURNAL.get(at..62)) else {
        return Err(Fail::new("no such place"));
    };
    let mut bytes = before.to_vec(rt.alloc())?;
    bytes.push(kind)?;
    bytes.extend_from_slice(behind)?;
    Ok(Reader::new(rt.alloc(), Memory::new(bytes))?)
}

#[test]
fn unknown_behind_items(rt: HostRuntime) -> Result<(), Fail> {
    for (count, at) in [(0, 0), (1, 13), (2, 26), (3, 39), (4, 44), (5, 57), (6, 62)] {
        for kind in [0, 3, 255] {
            let mut reader = broken(&rt, at, kind)?;
            gives(&rt, &mut reader, count, Stop::Unknown, (at, kind));
        }
    }
    Ok(())
}

#[test]
fn skipped(rt: HostRuntime) -> Result<(), Fail> {
    let mut reader = over(&rt, &JOURNAL)?;
    assert_eq!(rt; reader.skip_to(4), Ok(()));
    assert_eq!(rt; reader.number(), 4);
    assert_eq!(rt; reader.next(), Ok(record(5, 8, 7)), "forward");
    assert_eq!(rt; reader.skip_to(1), Ok(()));
    assert_eq!(rt; reader.number(), 1);
    assert_eq!(rt; reader.next(), Ok(record(5, 12, 4)), "backward");
    assert_eq!(rt; reader.skip_to(2), Ok(()));
    assert_eq!(rt; reader.next(), Ok(record(5, 9, 2)), "to where it stands");
    assert_eq!(rt; reader.skip_to(6), Ok(()));
    assert_eq!(rt; reader.number(), 6);
    assert_eq!(rt; reader.next(), Err(Stop::NotYet), "to the end");
    assert_eq!(rt; reader.skip_to(7), Err(Stop::NotYet), "beyond");
    assert_eq!(rt; reader.skip_to(0), Ok(()));
    gives(&rt, &mut reader, 6, Stop::NotYet, (62, 0));
    Ok(())
}

#[test]
fn skipped_across_unknown(rt: HostRuntime) -> Result<(), Fail> {
    let mut reader = broken(&rt, 26, 3)?;
    assert_eq!(rt; reader.skip_to(2), Ok(()));
    assert_eq!(rt; reader.next(), Err(Stop::Unknown));
    assert_eq!(rt; reader.skip_to(3), Err(Stop::Unknown));
    assert_eq!(rt; reader.skip_to(1), Ok(()));
    assert_eq!(rt; reader.next(), Ok(record(5, 12, 4)));
    Ok(())
}

// 6,000 records take 78,000 bytes, more than are held at a time; a record straddles byte 65,536.
fn long(rt: &HostRuntime) -> Result<Reader<Memory>, Fail> {
    let mut bytes = Vec::with_capacity(rt.alloc(), 78000)?;
    for i in 0..6000u32 {
        bytes.push(1)?;
        bytes.extend_from_slice(&i.to_be_bytes())?;
        bytes.extend_from_slice(&(i + 1).to_be_bytes())?;
        bytes.extend_from_slice(&(i + 2).to_be_bytes())?;
    }
    Ok(Reader::new(rt.alloc(), Memory::new(bytes))?)
}

#[test]
fn longer_than_the_buffer(rt: HostRuntime) -> Result<(), Fail> {
    let mut reader = long(&rt)?;
    for i in 0..6000u32 {
        assert_eq!(rt; reader.next(), Ok(record(i, i + 1, i + 2)));
    }
    assert_eq!(rt; reader.next(), Err(Stop::NotYet));
    assert_eq!(rt; reader.number(), 6000);
    assert_eq!(rt; reader.skip_to(5041), Ok(()));
    assert_eq!(rt; reader.next(), Ok(record(5041, 5042, 5043)));
    assert_eq!(rt; reader.skip_to(1), Ok(()));
    assert_eq!(rt; reader.next(), Ok(record(1, 2, 3)));
    Ok(())
}

// How many items are in some bytes, which hold fewer than a hundred, and what is behind them.
fn counted(bytes: &[u8]) -> Option<(u64, Stop)> {
    let mut rest = bytes;
    for n in 0..100 {
        match read_item(rest) {
            Ok((_, taken)) => rest = rest.get(taken..rest.len())?,
            Err(none) => return Some((n, none.into())),
        }
    }
    None
}

// The same by a reader.
fn streamed(reader: &mut Reader<Memory>) -> Option<(u64, Stop)> {
    for n in 0..100 {
        if let Err(stop) = reader.next() {
            return Some((n, stop));
        }
    }
    None
}

// 300 journals of 40 bytes from 0 to 2. Counted apart from this code, they hold 426 items, and in 258 of them an
// unknown kind comes behind the items.
#[test]
fn any_bytes(rt: HostRuntime) -> Result<(), Fail> {
    let mut state = 1u32;
    let mut items = 0u64;
    let mut unknown = 0u32;
    for round in 0..300u32 {
        let mut bytes = vec![in rt.alloc(); 0u8; 40]?;
        for byte in bytes.iter_mut() {
            state = state.wrapping_mul(1664525).wrapping_add(1013904223);
            *byte = (state >> 24) as u8 % 3;
        }
        let (count, stop) = counted(&bytes).ok_or_else(|| Fail::new("too many items"))?;
        let mut reader = Reader::new(rt.alloc(), Memory::new(bytes))?;
        assert_eq!(rt; streamed(&mut reader), Some((count, stop)), "{}", round);
        assert_eq!(rt; reader.number(), count, "{}", round);
        assert!(rt; stop == Stop::NotYet || stop == Stop::Unknown, "{}", round);
        items = items.wrapping_add(count);
        if stop == Stop::Unknown {
            unknown = unknown.wrapping_add(1);
        }
    }
    assert_eq!(rt; (items, unknown), (426, 258));
    Ok(())
}

#[test]
fn refused(rt: HostRuntime) {
    assert_eq!(rt; Stop::NotYet.refusal(), Some(Refusal::NothingToTake));
    assert_eq!(rt; Stop::Unknown.refusal(), Some(Refusal::UnknownItem));
    assert_eq!(rt; Stop::TooMany.refusal(), Some(Refusal::CounterFull));
    assert_eq!(rt; Stop::Failed(5).refusal(), None);
}

// A file that is written on while it is read.
#[test]
fn growing_file(rt: HostRuntime) -> Result<(), Fail> {
    fs::write(&rt, "growing.journal", &JOURNAL[0..30])?;
    let file = fs::open(&rt, "growing.journal")?;
    let mut reader = Reader::new(rt.alloc(), JournalFile::new(file))?;
    assert_eq!(rt; reader.next(), Ok(item(0)));
    assert_eq!(rt; reader.next(), Ok(item(1)));
    assert_eq!(rt; reader.next(), Err(Stop::NotYet));
    let mut end = OpenOptions::new()
        .append(true)
        .open(&rt, "growing.journal")?;
    end.write_all(&JOURNAL[30..62])?;
    assert_eq!(rt; reader.next(), Ok(item(2)), "once it has grown");
    assert_eq!(rt; reader.skip_to(0), Ok(()));
    assert_eq!(rt; reader.next(), Ok(item(0)), "from the beginning again");
    assert_eq!(rt; reader.skip_to(5), Ok(()));
    assert_eq!(rt; reader.next(), Ok(item(5)));
    assert_eq!(rt; reader.skip_to(7), Err(Stop::NotYet));
    Ok(())
}
