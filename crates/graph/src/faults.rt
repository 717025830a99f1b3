// What a graph must keep to besides the form of its lines.
ghost use Rattle.std.specs.Prelude.{◌≡◌};
ghost use Rattle.model.specs.Graph.{reached, left, worker_proper, edge_proper};
ghost use Rattle.graph.specs.Draft.{shape_of};
ghost use Rattle.graph.specs.Faults.{fault_of};

use crate::draft::Draft;
use model::{Edge, Kind};

// The two differ in the field that they read; as one function with a closure they would be longer.
fn is_reached(ends: &[Edge], w: usize) -> bool
    ensures { result ≡ reached w ends.now }
{
    ends.iter().any(|edge| edge.to as usize == w)
}

fn is_left(ends: &[Edge], w: usize) -> bool
    ensures { result ≡ left w ends.now }
{
    ends.iter().any(|edge| edge.from as usize == w)
}

// Whether a worker's numbers are in range and it has the edges that it needs.
fn worker_proper(ends: &[Edge], w: usize, kind: Kind) -> bool
    ensures { result ≡ worker_proper ends.now w kind }
{
    kind.in_range()
        && (kind.is_source() || is_reached(ends, w))
        && (kind.is_sink() || is_left(ends, w))
}

// Whether an edge goes up, reaches no source and leaves no sink.
fn edge_proper(kinds: &[Kind], edge: Edge) -> bool
    ensures { result ≡ edge_proper kinds.now edge }
{
    edge.from < edge.to
        && (edge.to as usize) < kinds.len()
        && !kinds[edge.to as usize].is_source()
        && !kinds[edge.from as usize].is_sink()
}

// The first line that breaks a rule of graphs.
pub fn fault(draft: &Draft) -> Option<usize>
    ensures { result ≡ fault_of (shape_of draft.now) }
{
    let kinds = draft.workers.items();
    let ends = draft.edges.items();
    let best = draft
        .workers
        .lowest(None, |w, kind| worker_proper(ends, w, kind));
    draft.edges.lowest(best, |_, edge| edge_proper(kinds, edge))
}
