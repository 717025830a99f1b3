// Examples worked out by hand. They stand in a crate of their own, for a crate with tests is proved twice.
#![tactic(auto)]

#[cfg(test)]
mod graphs;
#[cfg(test)]
mod lines;
#[cfg(test)]
mod queues;
#[cfg(test)]
mod readers;
#[cfg(test)]
mod refusals;
#[cfg(test)]
mod rests;
#[cfg(test)]
mod words;

#[cfg(test)]
use items::{Item, Record};

#[cfg(test)]
fn record(key: u32, time: u32, amount: u32) -> Item {
    Item::Record(Record { key, time, amount })
}
