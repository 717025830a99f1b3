// Graphs as text: reading one, and why a text is none.
#![tactic(auto)]

mod address;
mod checked;
mod draft;
mod faults;
mod journal;
mod line;
mod listing;
mod reading;
mod refused;
mod rows;
mod theorems;

pub use checked::Graph;
pub use draft::{Draft, NotALine};
pub use journal::journal_name;
pub use listing::Full;
pub use reading::read;
pub use refused::Refused;
pub use rows::Rows;
pub use theorems::{
    line_is, lowest_wins, read_is_proper, read_is_said, workers_have_lines, write_read,
};
