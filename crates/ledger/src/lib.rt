// A note of the bytes that came from outside. It takes no memory, and no code reads it: contracts do.
#![tactic(auto)]

ghost use Rattle.std.specs.Prelude.{◌≡◌, ℕ, List, [], ◌++◌};
ghost use Rattle.std.specs.Borrow.{ftrue};

use std::marker::Model;

#[derive(Drop)]
pub struct Ledger {
    ghost bytes: { List ℕ },
}

impl Model for Ledger {
    ghost also_owns = { λ _. ftrue };
}

impl Ledger {
    pub fn new() -> Ledger
        ensures { result.bytes ≡ [] }
    {
        Ledger {}
    }

    fn noted(self, bytes: &[u8]) -> Ledger
        ensures { result.bytes ≡ self.bytes ++ bytes.now }
    {
        let Ledger {} = self;
        Ledger {}
    }

    // The same in place.
    pub fn note(&mut self, bytes: &[u8])
        ensures { self.new.bytes ≡ self.old.bytes ++ bytes.now }
    {
        let old = std::mem::replace(self, Ledger::new());
        *self = old.noted(bytes);
    }
}
