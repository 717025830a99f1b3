// What a graph that has not begun answers. Nothing here changes it: a call that would is told apart.
ghost use Rattle.std.specs.Prelude.{◌≡◌};
ghost use Rattle.graph.specs.Verdict.{topology_of};
ghost use Rattle.scripts.specs.Fresh.{said_of, checkpoint_answer, call_answer, line_answer};

use crate::command::{Command, read_command};
use graph::Graph;
use items::Refusal;
use model::Call;

// What becomes of a line that is not refused.
#[derive(Clone, Copy, PartialEq, Eq, Debug)]
pub enum Answer {
    Done,
    Shown,
    // the call would go through, and is not built yet
    NotBuilt,
}

// A source may make its checkpoint at any time; on another worker's edges no barrier has come.
fn ask_checkpoint(graph: &Graph, worker: u32) -> Result<Answer, Refusal>
    ensures { said_of result ≡ checkpoint_answer (topology_of graph.now) worker }
{
    if graph.addresses(Call::Feed { worker }) {
        Ok(Answer::NotBuilt)
    } else {
        Err(Refusal::NotAligned)
    }
}

fn ask(graph: &Graph, call: Call) -> Result<Answer, Refusal>
    ensures { said_of result ≡ call_answer (topology_of graph.now) call }
{
    if !graph.addresses(call) {
        return Err(Refusal::NotThere);
    }
    match call {
        Call::Step { .. } => Err(Refusal::NothingToTake),
        Call::Feed { .. } => Ok(Answer::NotBuilt),
        Call::Checkpoint { worker } => ask_checkpoint(graph, worker),
        Call::Commit { .. } => Err(Refusal::NotCommittable),
        Call::Crash => Ok(Answer::Done),
    }
}

// The answer of a graph that has not begun to a line of a script, or why the line is refused.
pub fn answer_to(graph: &Graph, line: &[u8]) -> Result<Answer, Refusal>
    ensures { said_of result ≡ line_answer (topology_of graph.now) line.now }
{
    match read_command(line).ok_or(Refusal::BadLine)? {
        Command::Show => Ok(Answer::Shown),
        Command::Call(call) => ask(graph, call),
    }
}
