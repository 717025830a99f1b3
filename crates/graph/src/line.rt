// A line of a graph.
ghost use Rattle.std.specs.Prelude.{◌≡◌};
ghost use Rattle.text.specs.Words.{words_of};
ghost use Rattle.graph.specs.Line.{kind_named, journal_of, kind_of, worker_of, edge_of, line_of};

use model::{Edge, Kind};
use text::{Words, is_name, same};

// The kinds of workers by name, as the table of the definitions has them: what follows a name comes later.
#[derive(Clone, Copy)]
pub enum Name {
    Source,
    Keep,
    Scale,
    Group,
    Spread,
    Window,
    Sink,
}

// What a line says.
#[derive(Clone, Copy)]
pub enum Line {
    Worker(Kind),
    Edge(Edge),
}

// A `match`, and no `TryFrom`: the contract is the table.
fn kind_named(word: &[u8]) -> Option<Name>
    ensures { result ≡ kind_named word.now }
{
    match word {
        b"source" => Some(Name::Source),
        b"keep" => Some(Name::Keep),
        b"scale" => Some(Name::Scale),
        b"group" => Some(Name::Group),
        b"spread" => Some(Name::Spread),
        b"window" => Some(Name::Window),
        b"sink" => Some(Name::Sink),
        _ => None,
    }
}

// Whether a journal's name is left and nothing after it.
fn journal(mut words: Words) -> bool
    ensures { result ≡ journal_of words.entry }
{
    // not `is_some_and`: the check doesn't see what its closure takes of the words
    match words.next() {
        Some(word) => words.no_word() && is_name(word),
        None => false,
    }
}

// A worker's kind, by its name and what follows.
fn read_kind(name: Name, words: Words) -> Option<Kind>
    ensures { result ≡ kind_of name words.entry }
{
    match name {
        Name::Source => journal(words).then_some(Kind::Source),
        Name::Keep => {
            let (low, high) = words.two_numbers()?;
            Some(Kind::Keep { low, high })
        }
        Name::Scale => {
            let (times, by) = words.two_numbers()?;
            Some(Kind::Scale { times, by })
        }
        Name::Group => {
            let by = words.one_number()?;
            Some(Kind::Group { by })
        }
        Name::Spread => words.no_word().then_some(Kind::Spread),
        Name::Window => {
            let length = words.one_number()?;
            Some(Kind::Window { length })
        }
        Name::Sink => words.no_word().then_some(Kind::Sink),
    }
}

// What follows the word `worker`.
fn read_worker(mut words: Words) -> Option<Line>
    ensures { result ≡ worker_of words.entry }
{
    let name = kind_named(words.next()?)?;
    Some(Line::Worker(read_kind(name, words)?))
}

// What follows the word `edge`.
fn read_edge(words: Words) -> Option<Line>
    ensures { result ≡ edge_of words.entry }
{
    let (from, to) = words.two_numbers()?;
    Some(Line::Edge(Edge { from, to }))
}

// What a line says, if it is a line of a graph.
pub fn read_line(bytes: &[u8]) -> Option<Line>
    ensures { result ≡ line_of (words_of bytes.now) }
{
    let mut words = Words::new(bytes);
    let word = words.next()?;
    // by `if`: as a `match`, its last arm has goals that only the checker names
    if same(word, b"worker") {
        read_worker(words)
    } else if same(word, b"edge") {
        read_edge(words)
    } else {
        None
    }
}
