// Lines of a text, and words of a line.
ghost use Rattle.std.specs.Prelude.{◌≡◌, ◌<◌, ◌≤◌, true, [], ◌∷◌, ◌++◌, length, MatchOption, slice_index_or};
ghost use Rattle.std.specs.Iterator.{YieldsFirstRef, item_count};
ghost use Rattle.std.specs.Str.{bytes_eq};
ghost use Rattle.text.specs.Words.{words_of, lines_of, left_of, none_of, one_of, two_of};
ghost use Rattle.text.specs.Laws.{lacks};

use crate::digits::number;
use std::marker::Model;

// What stands before the first byte that is `end`, and what stands after it; all of them and `None` where there is none.
fn cut(bytes: &[u8], end: u8) -> (&[u8], Option<&[u8]>)
    ensures lacks { lacks end result.0.now ≡ true }
    ensures joins { MatchOption result.1 (bytes.now ≡ result.0.now) (λ rest. bytes.now ≡ result.0.now ++ end ∷ rest.now) }
{
    // A loop: by `position`, going over words by `next_word` would take one and a half times as long.
    for (n, byte) in bytes.iter().enumerate() {
        if *byte == end {
            return (&bytes[..n], Some(&bytes[n + 1..]));
        }
    }
    (bytes, None)
}

// Whether a word is a given one: `==` by a name, under a contract and an edit of its own.
pub fn same(word: &[u8], name: &[u8]) -> bool
    ensures { result ≡ bytes_eq word.now name.now }
{
    word == name
}

// The words of a line that are left; `None` where no word is to come. Not the library's `split`, for the type of its
// closure has no name.
#[derive(Drop)]
pub struct Words<'a> {
    rest: Option<&'a [u8]>,
}

impl<'a> Model for Words<'a> {
    ghost use Rattle.std.specs.Prelude.{ℕ, List};
    ghost use Rattle.text.specs.Words.{left_of};

    ghost Value = { List (List ℕ) };

    ghost view = { λ s. left_of s.rest };
}

impl<'a> Words<'a> {
    pub fn new(line: &'a [u8]) -> Words<'a>
        ensures { result ≡ words_of line.now }
    {
        Words { rest: Some(line) }
    }

    // Whether no word is left.
    pub fn no_word(mut self) -> bool
        ensures { result ≡ none_of self.entry }
    {
        self.next().is_none()
    }

    // One number and nothing after it.
    pub fn one_number(mut self) -> Option<u32>
        ensures { result ≡ one_of self.entry }
    {
        let word = self.next()?;
        if self.no_word() { number(word) } else { None }
    }

    // Two numbers and nothing after them.
    pub fn two_numbers(mut self) -> Option<(u32, u32)>
        ensures { result ≡ two_of self.entry }
    {
        let word = self.next()?;
        let first = number(word)?;
        let second = self.one_number()?;
        Some((first, second))
    }
}

impl<'a> Iterator for Words<'a> {
    type Item = &'a [u8];

    ghost next_gives = { YieldsFirstRef (λ words. words) };

    ghost remaining = { item_count (λ words. words) };

    fn next(&mut self) -> Option<&'a [u8]> {
        let (word, rest) = next_word(self.rest)?;
        self.rest = rest;
        Some(word)
    }
}

// The next word of a line, and what is left after the space that ends it; `None` for a rest says that no word is to come.
// One step of `Words`, for those who want the rest as bytes, or look at it and go on.
pub fn next_word(rest: Option<&[u8]>) -> Option<(&[u8], Option<&[u8]>)>
    ensures { MatchOption result (left_of rest.entry ≡ []) (λ p. left_of rest.entry ≡ p.0.now ∷ left_of p.1) }
{
    Some(cut(rest?, b' '))
}

// Whether no word is left in a rest.
pub fn no_word(rest: Option<&[u8]>) -> bool
    ensures { result ≡ none_of (left_of rest.entry) }
{
    Words { rest }.no_word()
}

// One number in a rest and nothing after it.
pub fn one_number(rest: Option<&[u8]>) -> Option<u32>
    ensures { result ≡ one_of (left_of rest.entry) }
{
    Words { rest }.one_number()
}

// Two numbers in a rest and nothing after them.
pub fn two_numbers(rest: Option<&[u8]>) -> Option<(u32, u32)>
    ensures { result ≡ two_of (left_of rest.entry) }
{
    Words { rest }.two_numbers()
}

// The lines of a text that are left.
#[derive(Drop)]
pub struct Lines<'a> {
    rest: &'a [u8],
}

impl<'a> Model for Lines<'a> {
    ghost use Rattle.std.specs.Prelude.{ℕ, List};
    ghost use Rattle.text.specs.Words.{lines_of};

    ghost Value = { List (List ℕ) };

    ghost view = { λ s. lines_of s.rest.now };
}

impl<'a> Lines<'a> {
    // No more lines than bytes: a caller may count them.
    pub fn new(text: &'a [u8]) -> Lines<'a>
        ensures is { result ≡ lines_of text.now }
        ensures few { length result ≤ length text.now }
    {
        Lines { rest: text }
    }
}

impl<'a> Iterator for Lines<'a> {
    type Item = &'a [u8];

    ghost next_gives = { YieldsFirstRef (λ lines. lines) };

    ghost remaining = { item_count (λ lines. lines) };

    fn next(&mut self) -> Option<&'a [u8]> {
        let (line, rest) = next_line(self.rest)?;
        self.rest = rest;
        Some(line)
    }
}

// The first line of a text, and what is left after its line feed; nothing where no line is left. One step of `Lines`,
// for those who want the rest as bytes.
pub fn next_line(text: &[u8]) -> Option<(&[u8], &[u8])>
    ensures is { MatchOption result (lines_of text.now ≡ []) (λ p. lines_of text.now ≡ p.0.now ∷ lines_of p.1.now) }
    ensures shorter { MatchOption result (length text.now ≡ 0) (λ p. length p.1.now < length text.now) }
{
    if text.is_empty() {
        return None;
    }
    let (line, rest) = cut(text, b'\n');
    Some((line, rest.unwrap_or(&[])))
}

// Line n of a text, counted from 0; empty where there is none.
pub fn line_at(text: &[u8], n: usize) -> &[u8]
    ensures { result.now ≡ slice_index_or (lines_of text.now) n [] }
{
    Lines::new(text).nth(n).unwrap_or(&[])
}
