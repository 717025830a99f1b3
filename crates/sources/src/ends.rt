// The sources of a journal's bytes: memory, and files.
ghost use Rattle.std.specs.Prelude.{◌≡◌, false, [], ◌++◌, length, take, MatchResult, ◌==◌};
ghost use Rattle.sources.specs.Files.{has_ended, has_failed};

use crate::{Memory, Source};
use ledger::Ledger;
use std::alloc::{AllocError, Global};
use std::fs::File;
use std::io;
use std::io::{Read, Seek, SeekFrom};

impl Memory {
    pub fn new(bytes: Vec<u8>) -> Memory
        ensures { (result.at ≡ 0) × (result.bytes.items ≡ bytes.items) }
    {
        Memory { bytes, at: 0 }
    }

    // The journal grows.
    pub fn grow(&mut self, more: &[u8]) -> Result<(), AllocError>
        ensures { (self.new.at ≡ self.old.at)
            × MatchResult result (λ _. self.new.bytes.items ≡ self.old.bytes.items ++ more.now)
            (λ _. self.new.bytes.items ≡ self.old.bytes.items) }
    {
        self.bytes.extend_from_slice(more)
    }
}

impl Source for Memory {
    ghost given = { λ m. take m.at m.bytes.items };

    ghost ended = { λ m. (m.at == length m.bytes.items) };

    ghost failed = { λ _. false };

    fn read(&mut self, into: &mut [u8]) -> io::Result<usize> {
        let mut rest = &self.bytes[self.at..];
        let n = rest.read(into)?;
        self.at += n;
        Ok(n)
    }

    fn rewind(&mut self) -> io::Result<()> {
        self.at = 0;
        Ok(())
    }
}

// What came of the last question to a file: it gave bytes, or was not asked since its beginning; it had no more; or it
// failed.
#[derive(Drop)]
enum Last {
    Gave,
    Ended,
    Failed,
}

// A journal in a file. The note says what was read from it.
#[derive(Drop)]
pub struct JournalFile {
    file: File,
    given: Ledger,
    last: Last,
}

impl JournalFile {
    // The file is to stand at its beginning.
    pub fn new(file: File) -> JournalFile
        ensures { (result.given.bytes ≡ [])
            × (has_ended result.last ≡ false) × (has_failed result.last ≡ false) }
    {
        JournalFile {
            file,
            given: Ledger::new(),
            last: Last::Gave,
        }
    }
}

impl Source for JournalFile {
    ghost given = { λ f. f.given.bytes };

    ghost ended = { λ f. has_ended f.last };

    ghost failed = { λ f. has_failed f.last };

    fn read(&mut self, into: &mut [u8]) -> io::Result<usize> {
        // this stands where the call below fails
        self.last = Last::Failed;
        let n = self.file.read(into)?;
        self.given.note(&into[0..n]);
        self.last = if n == 0 { Last::Ended } else { Last::Gave };
        Ok(n)
    }

    fn rewind(&mut self) -> io::Result<()> {
        // this stands where the call below fails
        self.last = Last::Failed;
        self.file.seek(SeekFrom::Start(0))?;
        self.given = Ledger::new();
        self.last = Last::Gave;
        Ok(())
    }
}
