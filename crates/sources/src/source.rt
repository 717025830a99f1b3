ghost use Rattle.std.specs.Prelude.{◌≡◌, ℕ, ◌<◌, Bool, true, List, [], length, IfOk, MatchResult, OnErr};
ghost use Rattle.sources.specs.Handing.{Handed};

use std::io;

// Where the bytes of a journal come from, in their order. A journal may grow while it is read.
pub trait Source {
    // all bytes that were handed out since the journal's beginning
    ghost given: { Self → List ℕ };

    // whether there were no more when it was last asked
    ghost ended: { Self → Bool };

    // whether it failed when it was last asked
    ghost failed: { Self → Bool };

    // Puts the bytes that follow into the front of `into`, and says how many; none where there are no more for now.
    fn read(&mut self, into: &mut [u8]) -> io::Result<usize>
        ensures handed { Handed result (given self.old) (given self.new) into.new }
        ensures failed { OnErr result (failed self.new ≡ true) }
        ensures ended { IfOk result (λ n. (n ≡ 0 → 0 < length into.old → ended self.new ≡ true)) };

    // Back to the journal's beginning.
    fn rewind(&mut self) -> io::Result<()>
        ensures failed { OnErr result (failed self.new ≡ true) }
        ensures begun { MatchResult result (λ _. given self.new ≡ []) (λ _. given self.new ≡ given self.old) };
}
