// The items on their way: a bounded queue for each edge of a graph, all in one lent slice of 32-bit words.
#![tactic(auto)]

mod calls;
mod fault;
mod head;
mod layout;
mod state;
mod theorems;

pub use fault::Fault;
pub use state::Edges;
pub use theorems::{first_in_first_out, free_is_free};
