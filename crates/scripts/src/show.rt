// What is shown of a graph that has not begun.
ghost use Rattle.std.specs.Prelude.{◌≡◌, ℕ, true, List};
ghost use Rattle.graph.specs.Verdict.{topology_of};
ghost use Rattle.scripts.specs.Show.{Spells, texts_from, kind_name, kind_tail, zeros, line_with, source_text, reached_text, worker_text, edge_text, length_text, joined_text, fresh_text};

use graph::Graph;
use model::{Edge, Kind};
use std::alloc::{AllocError, Global};

// No `Display` of a kind: in a graph its numbers stand beside its name.
fn kind_name(kind: Kind) -> &'static str
    ensures { result.now ≡ kind_name kind }
{
    match kind {
        Kind::Source => "source",
        Kind::Keep { .. } => "keep",
        Kind::Scale { .. } => "scale",
        Kind::Group { .. } => "group",
        Kind::Spread => "spread",
        Kind::Window { .. } => "window",
        Kind::Sink => "sink",
    }
}

// What a worker's kind adds to its line.
fn kind_tail(kind: Kind) -> &'static str
    ensures { result.now ≡ kind_tail kind }
{
    match kind {
        Kind::Source | Kind::Keep { .. } | Kind::Group { .. } | Kind::Spread => "",
        Kind::Scale { .. } => " dropped 0",
        Kind::Window { .. } => " late 0 open -",
        Kind::Sink => " length 0 out -",
    }
}

// The texts of some items, one behind the other.
fn texts<T: Copy, F: Fn(usize, T) -> Result<String, AllocError>>(
    heap: Global,
    items: &[T],
    text: F,
) -> Result<String, AllocError>
    requires { F.IsAlwaysCallable text }
    ensures { (said : ℕ → T → List ℕ) → ((i : ℕ) (item : T) (r : _) → F.post text i item r → Spells r (said i item))
        → Spells result (texts_from said 0 items.now) }
{
    let mut out = String::new(heap);
    for (i, item) in items.iter().enumerate() {
        let more = text(i, *item)?;
        out.push_str(more.as_str())?;
    }
    Ok(out)
}

fn edge_line(heap: Global, e: usize, edge: Edge) -> Result<String, AllocError>
    ensures { Spells result (edge_text e edge) }
{
    let Edge { from, to } = edge;
    format!(in heap; "edge {e} {from} {to} -\n")
}

// The last watermarks of the edges that reach a worker: 0 each.
fn watermarks(heap: Global, ends: &[Edge], w: usize) -> Result<String, AllocError>
    ensures { Spells result (zeros true w ends.now) }
{
    let mut out = String::new(heap);
    for edge in ends {
        if edge.to as usize == w {
            out.push_str(if out.is_empty() { "0" } else { ",0" })?;
        }
    }
    Ok(out)
}

fn source_line(heap: Global, w: usize) -> Result<String, AllocError>
    ensures { Spells result (source_text w) }
{
    format!(in heap; "worker {w} source cut 0 read 0\n")
}

fn line_with(
    heap: Global,
    w: usize,
    name: &str,
    words: &str,
    tail: &str,
) -> Result<String, AllocError>
    ensures { Spells result (line_with w name.now words.now tail.now) }
{
    format!(in heap; "worker {w} {name} cut 0 words {words} held -{tail}\n")
}

fn reached_line(heap: Global, ends: &[Edge], w: usize, kind: Kind) -> Result<String, AllocError>
    ensures { Spells result (reached_text ends.now w kind) }
{
    let words = watermarks(heap, ends, w)?;
    line_with(heap, w, kind_name(kind), words.as_str(), kind_tail(kind))
}

fn worker_line(heap: Global, ends: &[Edge], w: usize, kind: Kind) -> Result<String, AllocError>
    ensures { Spells result (worker_text ends.now w kind) }
{
    if kind.is_source() {
        source_line(heap, w)
    } else {
        reached_line(heap, ends, w, kind)
    }
}

// What is published of a sink: nothing.
fn length(heap: Global, kind: Kind) -> Result<String, AllocError>
    ensures { Spells result (length_text kind) }
{
    String::from_str(heap, if kind.is_sink() { " 0" } else { "" })
}

fn joined(heap: Global, workers: &str, edges: &str, lengths: &str) -> Result<String, AllocError>
    ensures { Spells result (joined_text workers.now edges.now lengths.now) }
{
    format!(in heap; "{workers}{edges}whole 0 published{lengths}\n")
}

// What `show` prints of a graph that has not begun.
pub fn fresh_text(heap: Global, graph: &Graph) -> Result<String, AllocError>
    ensures { Spells result (fresh_text (topology_of graph.now)) }
{
    let kinds = graph.kinds();
    let ends = graph.ends();
    let workers = texts(heap, kinds, |w, kind| worker_line(heap, ends, w, kind))?;
    let edges = texts(heap, ends, |e, edge| edge_line(heap, e, edge))?;
    let lengths = texts(heap, kinds, |_, kind| length(heap, kind))?;
    joined(heap, workers.as_str(), edges.as_str(), lengths.as_str())
}
