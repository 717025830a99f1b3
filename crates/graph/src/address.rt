// What a graph has, and which calls name something that is there.
ghost use Rattle.std.specs.Prelude.{◌≡◌};
ghost use Rattle.model.specs.Address.{addressed};
ghost use Rattle.graph.specs.Verdict.{topology_of, worker_lines};

use crate::checked::Graph;
use model::{Call, Edge, Kind};

impl Graph {
    // The kinds of the workers, by number.
    pub fn kinds(&self) -> &[Kind]
        ensures { result.now ≡ (topology_of self.now).kinds }
    {
        self.draft.workers.items()
    }

    // The ends of the edges, by number.
    pub fn ends(&self) -> &[Edge]
        ensures { result.now ≡ (topology_of self.now).edges }
    {
        self.draft.edges.items()
    }

    // The numbers of the workers' lines, by worker.
    pub fn lines(&self) -> &[usize]
        ensures { result.now ≡ worker_lines self.now }
    {
        self.draft.workers.lines()
    }

    fn has_worker(&self, worker: u32) -> bool
        ensures { result ≡ addressed (topology_of self.now) (Call.Checkpoint worker) }
    {
        (worker as usize) < self.kinds().len()
    }

    fn is_in_edge(&self, worker: u32, edge: u32) -> bool
        ensures { result ≡ addressed (topology_of self.now) (Call.Step worker edge) }
    {
        self.has_worker(worker)
            && self
                .ends()
                .get(edge as usize)
                .is_some_and(|ends| ends.to == worker)
    }

    fn is_source(&self, worker: u32) -> bool
        ensures { result ≡ addressed (topology_of self.now) (Call.Feed worker) }
    {
        self.kinds()
            .get(worker as usize)
            .is_some_and(|kind| kind.is_source())
    }

    // Whether a call names a worker that is there and, where it names an edge, one that reaches that worker.
    pub fn addresses(&self, call: Call) -> bool
        ensures { result ≡ addressed (topology_of self.now) call }
    {
        match call {
            Call::Step { worker, edge } => self.is_in_edge(worker, edge),
            Call::Feed { worker } => self.is_source(worker),
            Call::Checkpoint { worker } => self.has_worker(worker),
            Call::Commit { .. } | Call::Crash => true,
        }
    }
}
