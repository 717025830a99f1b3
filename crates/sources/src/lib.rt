// Where the bytes of a journal come from: memory, and files.
#![tactic(auto)]

mod ends;
mod memory;
mod source;

pub use ends::JournalFile;
pub use memory::Memory;
pub use source::Source;
