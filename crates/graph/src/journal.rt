// The name of a source's journal, found again in the text by the worker's line.
ghost use Rattle.std.specs.Prelude.{◌≡◌, [], slice_index_or};
ghost use Rattle.text.specs.Words.{words_of};
ghost use Rattle.graph.specs.Verdict.{name_in};

use text::{Words, line_at};

// The third word of a line; empty where there is none.
fn third_word(line: &[u8]) -> &[u8]
    ensures { result.now ≡ slice_index_or (words_of line.now) 2 [] }
{
    Words::new(line).nth(2).unwrap_or(&[])
}

// The journal's name in line `line` of a graph's text, counted from 1; empty where there is none.
pub fn journal_name(text: &[u8], line: usize) -> &[u8]
    ensures { result.now ≡ name_in text.now line }
{
    third_word(line_at(text, line.saturating_sub(1)))
}
