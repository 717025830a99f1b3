ghost use Rattle.std.specs.Prelude.{◌≤◌, length};

use crate::head::Head;
use crate::layout::MOST;
use arrayvec::ArrayVec;

// The edges of a graph, numbered from 0. Their items stand in words that are lent at each call: 516 slots of four
// words to an edge, so that the up to 256 items of an edge and the room behind them are always in one piece.
#[derive(Drop)]
pub struct Edges {
    pub(crate) heads: ArrayVec<Head, MOST>,
    // for the proofs of callers, who see nothing of what an `ArrayVec` holds of its length
    ghost most: { length heads.items ≤ 64 },
}
