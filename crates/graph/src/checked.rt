// A graph that keeps to all rules.
ghost use Rattle.std.specs.Prelude.{◌≡◌, true};
ghost use Rattle.model.specs.Graph.{proper};
ghost use Rattle.graph.specs.Draft.{shape_of, topology};

use crate::draft::Draft;

// A draft that keeps to them: the kinds of the workers and the ends of the edges, each with its line in the text that it
// was read from. Whoever proves that a draft keeps to them can make one without a text.
#[derive(Clone, Copy)]
pub struct Graph {
    pub draft: Draft,
    ghost sound: { proper (topology (shape_of draft)) ≡ true },
}
