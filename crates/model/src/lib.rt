// What a graph is made of, and what can be asked of a running one.
#![tactic(auto)]

mod theorems;

ghost use Rattle.std.specs.Prelude.{◌≡◌};
ghost use Rattle.model.specs.Graph.{in_range, is_source, is_sink};

pub use theorems::proper_is;

// The most workers of a graph, and the most edges.
pub const MOST_WORKERS: usize = 32;

pub const MOST_EDGES: usize = 64;

// A worker's kind, with its numbers.
#[derive(Clone, Copy, PartialEq, Eq, Debug, Drop)]
pub enum Kind {
    Source,
    Keep { low: u32, high: u32 },
    Scale { times: u32, by: u32 },
    Group { by: u32 },
    Spread,
    Window { length: u32 },
    Sink,
}

// Which worker an edge leaves, and which it reaches.
#[derive(Clone, Copy, PartialEq, Eq, Debug, Drop)]
pub struct Edge {
    pub from: u32,
    pub to: u32,
}

// What can be asked of a running graph.
#[derive(Clone, Copy, PartialEq, Eq, Debug, Drop)]
pub enum Call {
    // a worker takes what is at the head of an edge
    Step { worker: u32, edge: u32 },
    // a source reads the next item of its journal
    Feed { worker: u32 },
    // a worker puts its state away under the next checkpoint's number
    Checkpoint { worker: u32 },
    // a checkpoint that all workers have made is published
    Commit { number: u32 },
    // everything stops and comes up with the last committed checkpoint
    Crash,
}

impl Kind {
    // Whether the numbers of a kind are in their range.
    pub fn in_range(self) -> bool
        ensures { result ≡ in_range self }
    {
        match self {
            Kind::Source | Kind::Spread | Kind::Sink => true,
            Kind::Keep { low, high } => low <= high,
            Kind::Scale { by, .. } | Kind::Group { by } => by > 0,
            Kind::Window { length } => length > 0,
        }
    }

    pub fn is_source(self) -> bool
        ensures { result ≡ is_source self }
    {
        matches!(self, Kind::Source)
    }

    pub fn is_sink(self) -> bool
        ensures { result ≡ is_sink self }
    {
        matches!(self, Kind::Sink)
    }
}
