// Rows grow line by line, and are looked through.
ghost use Rattle.std.specs.Prelude.{◌≡◌, ℕ, ◌<◌, Bool, [], ◌∷◌, ◌++◌, length, MatchResult};
ghost use Rattle.graph.specs.Faults.{least, lowest};
ghost use Rattle.graph.specs.Rows.{items_of, line_numbers};

use crate::rows::Rows;

// All places are taken.
#[derive(Clone, Copy, PartialEq, Eq, Debug)]
pub struct Full;

// The lower of two lines, where there are two.
fn lower(best: Option<usize>, line: usize) -> Option<usize>
    ensures { result ≡ least best line }
{
    Some(best.map_or(line, |other| line.min(other)))
}

impl<T: Copy, const N: usize> Rows<T, N> {
    // No item; the places are filled with one that nobody sees.
    pub fn new(blank: T) -> Rows<T, N>
        ensures { (items_of result ≡ []) × (line_numbers result ≡ []) }
    {
        Rows {
            items: [blank; N],
            lines: [0; N],
            len: 0,
        }
    }

    pub fn items(&self) -> &[T]
        ensures { result.now ≡ items_of self.now }
    {
        &self.items[..self.len]
    }

    pub fn lines(&self) -> &[usize]
        ensures { result.now ≡ line_numbers self.now }
    {
        &self.lines[..self.len]
    }

    // One item more, if a place is left.
    pub fn push(&mut self, item: T, line: usize) -> Result<(), Full>
        ensures { MatchResult result
            (λ _. (length (items_of self.old) < N) × (items_of self.new ≡ items_of self.old ++ item ∷ []) × (line_numbers self.new ≡ line_numbers self.old ++ line ∷ []))
            (λ _. (length (items_of self.old) ≡ N) × (self.new ≡ self.old)) }
    {
        if self.len == N {
            return Err(Full);
        }
        self.items[self.len] = item;
        self.lines[self.len] = line;
        self.len += 1;
        Ok(())
    }

    // The lowest line of an item that isn't proper, or `best` where that is lower.
    pub(crate) fn lowest<F: Fn(usize, T) -> bool>(
        &self,
        best: Option<usize>,
        proper: F,
    ) -> Option<usize>
        requires { F.IsAlwaysCallable proper }
        ensures { (test : ℕ → T → Bool) → ((i : ℕ) (item : T) (r : Bool) → F.post proper i item r → r ≡ test i item)
            → result ≡ lowest test (line_numbers self.now) 0 (items_of self.now) best }
    {
        let mut best = best;
        // the line by its place, for over a `zip` of both the invariant did not close
        for (i, item) in self.items().iter().enumerate() {
            if !proper(i, *item) {
                best = lower(best, self.lines[i]);
            }
        }
        best
    }
}
