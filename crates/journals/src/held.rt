// The bytes of a journal that were given and not yet taken.
ghost use Rattle.std.specs.Prelude.{◌≡◌, ◌<◌, ◌≤◌, true, [], length, drop, IfOk, OnErr};
ghost use Rattle.journals.specs.Handing.{Filled};

use sources::Source;
use std::alloc::{AllocError, Global};
use std::io;
use std::marker::Model;

const BUFFER: usize = 65536;

// They stand from `start` to `end` in a buffer whose size doesn't change, and that has room for an item. A `BufReader`
// reads on only where all is taken, and so parts an item.
#[derive(Drop)]
pub(crate) struct Held {
    buffer: Vec<u8>,
    start: usize,
    end: usize,
}

impl Model for Held {
    ghost use Rattle.std.specs.Prelude.{ℕ, List, length, ◌≤◌};
    ghost use Rattle.std.specs.List.{between};

    ghost Value = { List ℕ };

    ghost view = { λ h. between h.start h.end h.buffer.items };

    ghost invariant = { λ h.
        (13 ≤ length h.buffer.items) × (h.start ≤ h.end) × (h.end ≤ length h.buffer.items) };
}

impl Held {
    // None at first.
    pub(crate) fn new(heap: Global) -> Result<Held, AllocError>
        ensures { IfOk result (λ held. held ≡ []) }
    {
        let buffer = vec![in heap; 0u8; BUFFER]?;
        Ok(Held {
            buffer,
            start: 0,
            end: 0,
        })
    }

    pub(crate) fn bytes(&self) -> &[u8]
        ensures { result.now ≡ self.now }
    {
        &self.buffer[self.start..self.end]
    }

    // The first so many are taken.
    pub(crate) fn pass(&mut self, n: usize)
        requires { n ≤ length self.old }
        ensures { self.new ≡ drop n self.old }
    {
        self.start += n;
    }

    pub(crate) fn clear(&mut self)
        ensures { self.new ≡ [] }
    {
        self.start = 0;
        self.end = 0;
    }

    // Moves them to the front, where they are too few for an item, reads on behind them, and says how many bytes came.
    pub(crate) fn fill<S: Source>(&mut self, source: &mut S) -> io::Result<usize>
        requires { length self.old < 13 }
        ensures failed { OnErr result (S.Source.failed source.new ≡ true) }
        ensures ended { IfOk result (λ n. (n ≡ 0 → S.Source.ended source.new ≡ true)) }
        ensures came { Filled result self.old self.new
            (S.Source.given source.old) (S.Source.given source.new) }
    {
        self.buffer.copy_within(self.start..self.end, 0);
        self.end -= self.start;
        self.start = 0;
        let n = source.read(&mut self.buffer[self.end..])?;
        self.end += n;
        Ok(n)
    }
}
