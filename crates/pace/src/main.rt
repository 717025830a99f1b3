// What the lower layers cost, for bench/run: a journal read to its end, and items put on edges and taken again.
#![tactic(auto)]

use anyhow::{Context, anyhow};
use edges::{Edges, Fault};
use items::{Item, Record};
use journals::{Reader, Stop};
use sources::JournalFile;
use std::alloc::AllocError;
use std::{env, fs, io};
use text::number;

const EDGES: usize = 64;

// how many items are on each edge while others come and go
const WAITING: u32 = 100;

// So that nothing that was read may be left out.
fn weight(item: Item) -> u64 {
    match item {
        Item::Record(r) => u64::from(r.key)
            .wrapping_mul(3)
            .wrapping_add(u64::from(r.time).wrapping_mul(5))
            .wrapping_add(u64::from(r.amount)),
        Item::Watermark(time) => u64::from(time).wrapping_mul(7),
        Item::Barrier(number) => u64::from(number).wrapping_mul(11),
    }
}

fn read_all(reader: &mut Reader<JournalFile>) -> (u64, Stop) {
    let mut sum = 0u64;
    for _ in 0..u64::MAX {
        match reader.next() {
            Ok(item) => sum = sum.wrapping_add(weight(item)),
            Err(stop) => return (sum, stop),
        }
    }
    (sum, Stop::TooMany)
}

fn open(rt: &HostRuntime, path: &str) -> io::Result<Reader<JournalFile>> {
    let file = fs::open(rt, path)?;
    Ok(Reader::new(rt.alloc(), JournalFile::new(file))?)
}

// What stopped a reader, in words of this program, and so no `Display` of a stop.
fn end_of(stop: Stop) -> io::Result<&'static str> {
    match stop {
        Stop::NotYet => Ok("the end"),
        Stop::Unknown => Ok("an unknown kind"),
        Stop::TooMany => Ok("too many items"),
        Stop::Failed(code) => Err(io::Error::from_raw_os_error(code)),
    }
}

fn stream(rt: &HostRuntime, path: &str) -> io::Result<()> {
    let mut reader = open(rt, path)?;
    let (sum, stop) = read_all(&mut reader);
    let end = end_of(stop)?;
    println!(rt; "items {} sum {sum} up to {end}", reader.number())
}

fn skip(rt: &HostRuntime, path: &str, to: u32) -> io::Result<()> {
    let mut reader = open(rt, path)?;
    let end = match reader.skip_to(u64::from(to)) {
        Ok(()) => "there",
        Err(stop) => end_of(stop)?,
    };
    println!(rt; "items {} up to {end}", reader.number())
}

fn edge_of(i: u32) -> usize {
    i as usize % EDGES
}

// One item on an edge, and, where enough are waiting, one from it.
fn turn(edges: &mut Edges, words: &mut [u32], i: u32) -> Result<u64, Fault> {
    let e = edge_of(i);
    let item = Item::Record(Record {
        key: i,
        time: i / 3,
        amount: 1,
    });
    edges.push(words, e, item)?;
    if i / 64 < WAITING {
        return Ok(0);
    }
    Ok(weight(edges.pop(words, e)?))
}

fn turns(edges: &mut Edges, words: &mut [u32], n: u32) -> Result<u64, Fault> {
    let mut sum = 0u64;
    for i in 0..n {
        sum = sum.wrapping_add(turn(edges, words, i)?);
    }
    Ok(sum)
}

fn queue(rt: &HostRuntime, n: u32) -> anyhow::Result<()> {
    let mut edges = Edges::new(EDGES).context("too many edges")?;
    let mut words = vec![in rt.alloc(); 0u32; edges.words()]?;
    let sum = turns(&mut edges, &mut words, n).map_err(|_| anyhow!("an edge refused"))?;
    println!(rt; "items {n} sum {sum}")?;
    Ok(())
}

fn run(rt: &HostRuntime) -> anyhow::Result<()> {
    let mut args = env::args(rt)?;
    let _name = args.next();
    let usage = "usage: pace stream JOURNAL | pace skip JOURNAL NUMBER | pace queue NUMBER";
    // `let .. else`: two are wanted at once
    let (Some(what), Some(first)) = (args.next(), args.next()) else {
        return Err(anyhow!("{usage}"));
    };
    match (
        what.as_str(),
        number(first.as_str().as_bytes()),
        args.next(),
    ) {
        ("stream", _, None) => Ok(stream(rt, first.as_str())?),
        ("queue", Some(n), None) => queue(rt, n),
        ("skip", _, Some(to)) => {
            let to = number(to.as_str().as_bytes()).context(usage)?;
            Ok(skip(rt, first.as_str(), to)?)
        }
        _ => Err(anyhow!("{usage}")),
    }
}

fn main(rt: HostRuntime) -> anyhow::Result<()> {
    run(&rt)
}
