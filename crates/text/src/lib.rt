// The words, numbers, names and lines of a text: any bytes at all.
#![tactic(auto)]

mod digits;
mod name;
mod theorems;
mod words;

pub use digits::number;
pub use name::is_name;
pub use theorems::{lines_are, lines_join, name_is, number_is, words_are, words_join};
pub use words::{
    Lines, Words, line_at, next_line, next_word, no_word, one_number, same, two_numbers,
};
