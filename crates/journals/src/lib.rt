// Journals, read item by item from any source of bytes, in fixed memory.
#![tactic(auto)]

mod held;
mod reader;
mod reading;
mod stop;
mod theorems;

pub use reader::Reader;
pub use stop::Stop;
pub use theorems::item_stays;
