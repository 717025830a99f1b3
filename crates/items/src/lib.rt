// What flows along the edges of a graph, how it stands in words and in the bytes of a journal,
// and why a line or a call is refused.
#![tactic(auto)]

mod journal;
mod theorems;
mod words;

ghost use Rattle.std.specs.Prelude.{◌≡◌};
ghost use Rattle.items.specs.Refusals.{number_of};

pub use journal::{NoItem, read_item};
pub use theorems::{
    growing_keeps, not_yet_before, numbers_tell, read_was_written, words_tell, written_is_read,
};

// A passage or a sum: what it is about, its time, and its amount.
#[derive(Clone, Copy, PartialEq, Eq, Debug, Drop)]
pub struct Record {
    pub key: u32,
    pub time: u32,
    pub amount: u32,
}

// What goes along an edge: a record; a watermark, saying that no record with a lower time comes on this edge any more;
// or the barrier of the checkpoint with that number.
#[derive(Clone, Copy, PartialEq, Eq, Debug, Drop)]
pub enum Item {
    Record(Record),
    Watermark(u32),
    Barrier(u32),
}

// Why a line, a call or a folder is refused, with the number by which that is printed.
#[derive(Clone, Copy, PartialEq, Eq, Debug, Drop)]
pub enum Refusal {
    BadLine = 1,
    BadGraph = 2,
    NothingToTake = 3,
    NoRoom = 4,
    NotThere = 5,
    NotAligned = 6,
    NotCommittable = 7,
    UnknownItem = 8,
    BadCheckpoint = 9,
    CounterFull = 10,
}

impl Refusal {
    // A method, for `u8::from` would not say what the number is.
    pub fn number(self) -> u8
        ensures { result ≡ number_of self }
    {
        self as u8
    }
}
