ghost use Rattle.std.specs.Prelude.{◌≡◌, ℕ, ◌<◌, true, List, [], ◌++◌, length, IfOk, IfErr, OnErr, OnOk};
ghost use Rattle.items.specs.Journal.{first_of};
ghost use Rattle.journals.specs.Handing.{Found, Grew, Reached, Says, Took};

use crate::held::Held;
use crate::{Reader, Stop};
use items::{Item, NoItem, read_item};
use ledger::Ledger;
use sources::Source;
use std::alloc::{AllocError, Global};
use std::io;

impl<S: Source + Drop> Reader<S> {
    // At the beginning of the journal of a source that hasn't given anything.
    #[tactic(auto, unfolding(items::specs::Journal::rest_at))]
    pub fn new(heap: Global, source: S) -> Result<Reader<S>, AllocError>
        ensures { IfOk result (λ q. (q.number ≡ 0) × (q.journal.bytes ≡ []) × (q.source ≡ source)) }
    {
        let held = Held::new(heap)?;
        Ok(Reader {
            source,
            held,
            number: 0,
            journal: Ledger::new(),
        })
    }
}

impl<S: Source> Reader<S> {
    // Reads on behind what is held, which is no item yet, and says how many bytes came.
    fn fill(&mut self) -> io::Result<usize>
        requires { length self.old.held < 13 }
        ensures failed { OnErr result (S.Source.failed self.new.source ≡ true) }
        ensures more { IfOk result (λ n.
            (more : List ℕ) × (length more ≡ n) × (self.new.held ≡ self.old.held ++ more)) }
        ensures ended { IfOk result (λ n. (n ≡ 0 → S.Source.ended self.new.source ≡ true)) }
        ensures stays { self.new.number ≡ self.old.number }
        ensures grew { Grew self.old.journal.bytes (S.Source.given self.old.source)
            self.new.journal.bytes (S.Source.given self.new.source) }
    {
        let before = self.held.bytes().len();
        let n = self.held.fill(&mut self.source)?;
        self.journal.note(&self.held.bytes()[before..]);
        Ok(n)
    }

    // The item that comes next, and how many bytes it takes, which are held then.
    fn first(&mut self) -> Result<(Item, usize), Stop>
        ensures found { Found result (first_of self.new.held) }
        ensures says { IfErr result (λ stop.
            Says stop (S.Source.failed self.new.source) (S.Source.ended self.new.source)) }
        ensures stays { self.new.number ≡ self.old.number }
        ensures grew { Grew self.old.journal.bytes (S.Source.given self.old.source)
            self.new.journal.bytes (S.Source.given self.new.source) }
    {
        loop {
            match read_item(self.held.bytes()) {
                Err(NoItem::NotYet) if self.fill()? > 0 => {}
                found => return Ok(found?),
            }
        }
    }

    // The item with the next number; the one behind it comes next then. What isn't there yet, or is of an unknown
    // kind, stays the next.
    pub fn next(&mut self) -> Result<Item, Stop>
        ensures reads { Took result self.old.number self.new.journal.bytes self.new.number }
        ensures says { IfErr result (λ stop.
            Says stop (S.Source.failed self.new.source) (S.Source.ended self.new.source)) }
        ensures grew { Grew self.old.journal.bytes (S.Source.given self.old.source)
            self.new.journal.bytes (S.Source.given self.new.source) }
    {
        let (item, taken) = self.first()?;
        if self.number == u64::MAX {
            return Err(Stop::TooMany);
        }
        self.number += 1;
        self.held.pass(taken);
        Ok(item)
    }

    // Back to the beginning of the journal.
    #[tactic(auto, unfolding(items::specs::Journal::rest_at))]
    fn restart(&mut self) -> io::Result<()>
        ensures failed { OnErr result (S.Source.failed self.new.source ≡ true) }
        ensures begun { OnOk result (self.new.number ≡ 0) }
        ensures tied { S.Source.given self.old.source ≡ self.old.journal.bytes
            → S.Source.given self.new.source ≡ self.new.journal.bytes }
    {
        self.source.rewind()?;
        self.held.clear();
        self.number = 0;
        self.journal = Ledger::new();
        Ok(())
    }

    // To the item with a number, which comes next then; or why not so many items are there.
    pub fn skip_to(&mut self, number: u64) -> Result<(), Stop>
        ensures reached { Reached result number self.new.journal.bytes self.new.number }
        ensures says { IfErr result (λ stop.
            Says stop (S.Source.failed self.new.source) (S.Source.ended self.new.source)) }
        ensures tied { S.Source.given self.old.source ≡ self.old.journal.bytes
            → S.Source.given self.new.source ≡ self.new.journal.bytes }
    {
        if number < self.number {
            self.restart()?;
        }
        while self.number < number {
            self.next()?;
        }
        Ok(())
    }
}
