// The lines of a script, and what a graph that has not begun answers to them.
#![tactic(auto)]

mod command;
mod fresh;
mod show;
mod theorems;

pub use command::{Command, read_command};
pub use fresh::{Answer, answer_to};
pub use show::fresh_text;
pub use theorems::command_is;
