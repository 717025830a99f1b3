// Workers and edges as the lines of a graph name them.
ghost use Rattle.std.specs.Prelude.{◌≡◌, true, false, MatchResult};
ghost use Rattle.graph.specs.Draft.{shape_of, bare, room_for, added_to, draft_of, drafted};

use crate::line::{Line, read_line};
use crate::listing::Full;
use crate::rows::Rows;
use model::{Edge, Kind, MOST_EDGES, MOST_WORKERS};
use text::Lines;

#[derive(Clone, Copy)]
pub struct Draft {
    pub workers: Rows<Kind, MOST_WORKERS>,
    pub edges: Rows<Edge, MOST_EDGES>,
}

// The first line that is none of a graph, by its number.
#[derive(Clone, Copy)]
pub struct NotALine(pub usize);

impl Draft {
    fn new() -> Draft
        ensures { shape_of result ≡ bare }
    {
        Draft {
            workers: Rows::new(Kind::Source),
            edges: Rows::new(Edge { from: 0, to: 0 }),
        }
    }

    // Adds what a line says, if there is room.
    fn add(&mut self, said: Line, line: usize) -> Result<(), Full>
        ensures { MatchResult result
            (λ _. (room_for (shape_of self.old) said ≡ true) × (shape_of self.new ≡ added_to (shape_of self.old) line said))
            (λ _. (room_for (shape_of self.old) said ≡ false) × (self.new ≡ self.old)) }
    {
        match said {
            Line::Worker(kind) => self.workers.push(kind, line),
            Line::Edge(edge) => self.edges.push(edge, line),
        }
    }

    // The draft of a text, or the first line that is none of a graph.
    pub fn read(text: &[u8]) -> Result<Draft, NotALine>
        ensures { draft_of result ≡ drafted text.now }
    {
        let mut draft = Draft::new();
        for (n, line) in Lines::new(text).enumerate() {
            let said = read_line(line).ok_or(NotALine(n + 1))?;
            draft.add(said, n + 1).map_err(|_| NotALine(n + 1))?;
        }
        if draft.workers.items().is_empty() {
            return Err(NotALine(Lines::new(text).count() + 1));
        }
        Ok(draft)
    }
}
