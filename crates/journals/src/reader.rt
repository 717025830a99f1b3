ghost use Rattle.std.specs.Prelude.{◌≡◌, Some};
ghost use Rattle.items.specs.Journal.{rest_at};

use crate::held::Held;
use ledger::Ledger;

// Reads a journal from a source through one buffer, whose size doesn't change. That `journal` is what the source gave
// stands in clauses: a struct that owns memory may have no ghost field that cites a member of a bound, `S.Source.given`.
#[derive(Drop)]
pub struct Reader<S> {
    pub(crate) source: S,
    pub(crate) held: Held,
    // of the item that comes next
    pub(crate) number: u64,
    // the journal as far as it was given
    pub(crate) journal: Ledger,
    // what is held is what is left of it behind the items before that one
    ghost follows: { rest_at number journal.bytes ≡ Some held },
}

impl<S> Reader<S> {
    // The number of the item that comes next; items are numbered from 0.
    pub fn number(&self) -> u64
        ensures { result ≡ self.now.number }
    {
        self.number
    }
}
