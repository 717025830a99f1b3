// Reading a graph.
ghost use Rattle.std.specs.Prelude.{◌≡◌};
ghost use Rattle.graph.specs.Verdict.{verdict_of, verdict};

use crate::checked::Graph;
use crate::draft::Draft;
use crate::faults::fault;
use crate::refused::Refused;
use items::Refusal;

// The graph that a text says, or why it is refused.
#[tactic(auto, using(crate::proofs::Sound::sound))]
pub fn read(text: &[u8]) -> Result<Graph, Refused>
    ensures { verdict_of result ≡ verdict text.now }
{
    let draft = Draft::read(text)?;
    if let Some(line) = fault(&draft) {
        return Err(Refused {
            refusal: Refusal::BadGraph,
            line,
        });
    }
    Ok(Graph { draft })
}
