// Carries a script out on a graph, in memory, with one answer for each line.
#![tactic(auto)]

use graph::{Graph, Refused};
use items::Refusal;
use scripts::{Answer, answer_to, fresh_text};
use std::alloc::AllocError;
use std::process::ExitCode;
use std::{env, fmt, fs, io};
use text::Lines;

// What ends a rehearsal with status 1, each with its line for standard error.
#[derive(Drop)]
enum Failure<'a> {
    Arguments(io::Error),
    Usage,
    Unreadable(&'a str, io::Error),
    Refused(&'a str, Refused),
    NotBuilt(&'a str, usize),
    Output(io::Error),
    Memory,
}

impl From<io::Error> for Failure<'_> {
    fn from(error: io::Error) -> Self {
        Failure::Output(error)
    }
}

impl From<AllocError> for Failure<'_> {
    fn from(_error: AllocError) -> Self {
        Failure::Memory
    }
}

// A graph is refused by these two alone. The sentences are of this program, and so no `Display` of a refusal.
fn reason(refusal: Refusal) -> &'static str {
    match refusal {
        Refusal::BadLine => "no line of a graph, a 33rd worker, a 65th edge, or no worker at all",
        _ => {
            "an edge that does not go up or is not allowed, a number out of range, or a worker without an edge that it needs"
        }
    }
}

impl fmt::Display for Failure<'_> {
    fn fmt<W: fmt::Write>(&self, f: &mut fmt::Formatter<W>) -> fmt::Result {
        match self {
            Failure::Arguments(error) => write!(f, "arguments: {error}"),
            Failure::Usage => f.write_str("usage: rehearse GRAPH SCRIPT"),
            Failure::Unreadable(path, error) => write!(f, "{path}: {error}"),
            Failure::Refused(path, refused) => {
                let number = refused.refusal.number();
                let line = refused.line;
                let why = reason(refused.refusal);
                write!(f, "{path} line {line}: refused by {number}: {why}")
            }
            Failure::NotBuilt(path, line) => {
                write!(
                    f,
                    "{path} line {line}: feed and cut of a source are not built yet"
                )
            }
            Failure::Output(error) => write!(f, "standard output: {error}"),
            Failure::Memory => f.write_str("out of memory"),
        }
    }
}

fn load<'a>(rt: &HostRuntime, path: &'a str) -> Result<Vec<u8>, Failure<'a>> {
    fs::read(rt, path).map_err(|error| Failure::Unreadable(path, error))
}

// Prints the answer to line n of a script.
fn answer<'a>(
    rt: &HostRuntime,
    graph: &Graph,
    path: &'a str,
    n: usize,
    line: &[u8],
) -> Result<(), Failure<'a>> {
    match answer_to(graph, line) {
        Ok(Answer::Done) => println!(rt; "ok")?,
        Ok(Answer::Shown) => rt.print(fresh_text(rt.alloc(), graph)?)?,
        Ok(Answer::NotBuilt) => return Err(Failure::NotBuilt(path, n)),
        Err(refusal) => println!(rt; "{}", refusal.number())?,
    }
    Ok(())
}

fn carry_out<'a>(
    rt: &HostRuntime,
    graph: &Graph,
    path: &'a str,
    script: &[u8],
) -> Result<(), Failure<'a>> {
    for (n, line) in Lines::new(script).enumerate() {
        answer(rt, graph, path, n + 1, line)?;
    }
    Ok(())
}

fn rehearse<'a>(
    rt: &HostRuntime,
    graph_path: &'a str,
    script_path: &'a str,
) -> Result<(), Failure<'a>> {
    let text = load(rt, graph_path)?;
    let script = load(rt, script_path)?;
    match graph::read(&text) {
        Ok(graph) => carry_out(rt, &graph, script_path, &script),
        Err(refused) => {
            let number = refused.refusal.number();
            let line = refused.line;
            println!(rt; "refused {number} line {line}")?;
            Err(Failure::Refused(graph_path, refused))
        }
    }
}

// Says what was wrong; the status is 1.
fn fail(rt: &HostRuntime, failure: Failure) -> io::Result<ExitCode> {
    eprintln!(rt; "rehearse: {failure}")?;
    Ok(ExitCode::FAILURE)
}

fn run(rt: &HostRuntime) -> io::Result<ExitCode> {
    let mut args = match env::args(rt) {
        Ok(args) => args,
        Err(error) => return fail(rt, Failure::Arguments(error)),
    };
    let _program = args.next();
    // `let .. else`: three are looked at at once
    let (Some(graph), Some(script), None) = (args.next(), args.next(), args.next()) else {
        return fail(rt, Failure::Usage);
    };
    match rehearse(rt, graph.as_str(), script.as_str()) {
        Ok(()) => Ok(ExitCode::SUCCESS),
        Err(failure) => fail(rt, failure),
    }
}

fn main(rt: HostRuntime) -> ExitCode {
    run(&rt).unwrap_or(ExitCode::FAILURE)
}
