ghost use Rattle.std.specs.Prelude.{◌≤◌, length};

use std::alloc::Global;

// A journal in memory, and how much of it was handed out. A `Cursor` may stand
// behind the end, and would need the same fact.
#[derive(Drop)]
pub struct Memory {
    pub(crate) bytes: Vec<u8>,
    pub(crate) at: usize,
    ghost inside: { at ≤ length bytes.items },
}
