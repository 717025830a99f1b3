// A line of a script.
ghost use Rattle.std.specs.Prelude.{◌≡◌};
ghost use Rattle.text.specs.Words.{words_of};
ghost use Rattle.scripts.specs.Command.{word_named, command_with, command_of};

use model::Call;
use text::Words;

// The first word of a line, as the table of the definitions has it.
#[derive(Clone, Copy)]
pub enum Word {
    Step,
    Feed,
    Cut,
    Declare,
    Stop,
    Show,
}

// What a line asks for. No `Option` of a call: to show the state is a request too, and not the lack of one.
#[derive(Clone, Copy)]
pub enum Command {
    Call(Call),
    Show,
}

// A `match`, and no `TryFrom`: the contract is the table.
fn word_named(word: &[u8]) -> Option<Word>
    ensures { result ≡ word_named word.now }
{
    match word {
        b"step" => Some(Word::Step),
        b"feed" => Some(Word::Feed),
        b"cut" => Some(Word::Cut),
        b"declare" => Some(Word::Declare),
        b"stop" => Some(Word::Stop),
        b"show" => Some(Word::Show),
        _ => None,
    }
}

// What a first word and the words after it ask for.
fn command_with(word: Word, words: Words) -> Option<Command>
    ensures { result ≡ command_with word words.entry }
{
    match word {
        Word::Step => {
            let (worker, edge) = words.two_numbers()?;
            Some(Command::Call(Call::Step { worker, edge }))
        }
        Word::Feed => {
            let worker = words.one_number()?;
            Some(Command::Call(Call::Feed { worker }))
        }
        Word::Cut => {
            let worker = words.one_number()?;
            Some(Command::Call(Call::Checkpoint { worker }))
        }
        Word::Declare => {
            let number = words.one_number()?;
            Some(Command::Call(Call::Commit { number }))
        }
        Word::Stop => words.no_word().then_some(Command::Call(Call::Crash)),
        Word::Show => words.no_word().then_some(Command::Show),
    }
}

// What a line asks for, if it is a line of a script.
pub fn read_command(line: &[u8]) -> Option<Command>
    ensures { result ≡ command_of (words_of line.now) }
{
    let mut words = Words::new(line);
    let word = word_named(words.next()?)?;
    command_with(word, words)
}
