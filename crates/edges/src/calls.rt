ghost use Rattle.std.specs.Prelude.{◌≡◌, ℕ, ◌+◌, ◌*◌, ◌/◌, ◌<◌, ◌≤◌, ◌⊎◌, List, [], ◌∷◌, length, replicate, IfOk, Ok, Err, MatchOption, MatchResult, ◌≢◌};
ghost use Rattle.items.specs.declared.Refusal.TheVariants.{NotThere};
ghost use Rattle.edges.specs.Held.{IsHead, item_at, queue_of, edges_of, free_range, free_of, items_from};
ghost use Rattle.edges.specs.declared.fault.Fault.TheVariants.{Refused, ShortMemory};
ghost use Rattle.edges.specs.Queues.{counted, cleared, peeked, pushed, popped, asked, taken_up};

use crate::head::Head;
use crate::layout::{CAPACITY, ITEM, MOST, SLOTS, WORDS};
use crate::{Edges, Fault};
use arrayvec::ArrayVec;
use items::{Item, Refusal};
use std::ops::Range;

// The item in a slot.
#[tactic(auto, using(crate::proofs::Slots::loaded))]
fn item_at(words: &[u32], slot: usize) -> Item
    requires { 4 * slot + 3 < length words.now }
    ensures { result ≡ item_at words.now slot }
{
    let at = ITEM * slot;
    Item::load(&words[at..at + ITEM]).unwrap_or(Item::Barrier(0))
}

// Puts an item into a slot; the other slots stay.
#[tactic(auto, using(crate::proofs::Slots::put))]
fn put_at(words: &mut [u32], slot: usize, item: Item)
    requires { 4 * slot + 3 < length words.old }
    ensures here { item_at words.new slot ≡ item }
    ensures others { (j : ℕ) → (j ≢ slot) → item_at words.new j ≡ item_at words.old j }
{
    // Copied as one array, the words would make each push and pop take twice as long.
    let [tag, key, time, amount] = item.encode();
    let at = ITEM * slot;
    words[at] = tag;
    words[at + 1] = key;
    words[at + 2] = time;
    words[at + 3] = amount;
}

// Where the items of edge e stand once the first is taken; the slots of the other edges stay. The items are moved down
// only when the lower half is used up, so once in 256 calls at most; and an edge that gets empty starts at slot 0 again,
// so that the words in use stay few.
#[tactic(auto, using(crate::proofs::Slots::rest))]
fn advance(words: &mut [u32], e: usize, head: Head) -> Head
    requires { (2064 * e + 2064 ≤ length words.old) × (0 < head.len) }
    ensures here { queue_of words.old e head ≡ item_at words.old (516 * e + head.start) ∷ queue_of words.new e result }
    ensures others { (j : ℕ) → (j / 516 ≢ e) → item_at words.new j ≡ item_at words.old j }
{
    let len = head.len - 1;
    if len == 0 {
        return Head::default();
    }
    let start = head.start + 1;
    if start < CAPACITY {
        return Head { start, len };
    }
    let low = WORDS * e;
    let from = low + ITEM * start;
    words.copy_within(from..from + ITEM * len, low);
    Head { start: 0, len }
}

// `words` and `e` come with each call, for the words are lent anew each time (D42).
#[tactic(auto, using(crate::proofs::Added::come_to))]
impl Edges {
    // So many empty edges, if they are at most 64.
    pub fn new(count: usize) -> Option<Edges>
        ensures { MatchOption result (64 < count) (λ q. (count ≤ 64) × ((ws : List ℕ) → edges_of ws q ≡ replicate count [])) }
    {
        if count > MOST {
            return None;
        }
        let mut heads = ArrayVec::from([Head::default(); MOST]);
        heads.truncate(count);
        Some(Edges { heads })
    }

    // How many words are to be lent.
    pub fn words(&self) -> usize
        ensures { (ws : List ℕ) → result ≡ 2064 * length (edges_of ws self.now) }
    {
        WORDS * self.heads.len()
    }

    // Where the items of edge e stand, if it is there.
    fn head(&self, e: usize) -> Result<Head, Fault>
        ensures { MatchResult result (λ h. IsHead self.now e h) (λ f. (length self.now.heads.items ≤ e) × (f ≡ Refused NotThere)) }
    {
        self.heads
            .get(e)
            .copied()
            .ok_or(Fault::Refused(Refusal::NotThere))
    }

    // The same, where enough words must be lent.
    fn ask(&self, lent: usize, e: usize) -> Result<Head, Fault>
        ensures { MatchResult result
            (λ h. (2064 * length self.now.heads.items ≤ lent) × IsHead self.now e h)
            (λ f. ((lent < 2064 * length self.now.heads.items) × (f ≡ ShortMemory))
            ⊎ ((2064 * length self.now.heads.items ≤ lent) × (length self.now.heads.items ≤ e) × (f ≡ Refused NotThere))) }
    {
        if lent < WORDS * self.heads.len() {
            return Err(Fault::ShortMemory);
        }
        self.head(e)
    }

    // How many items are on edge e.
    pub fn len(&self, e: usize) -> Result<usize, Fault>
        ensures { (ws : List ℕ) → result ≡ counted (edges_of ws self.now) e }
    {
        Ok(self.head(e)?.len)
    }

    // The first item of edge e, and where the items of that edge stand.
    fn first(&self, words: &[u32], e: usize) -> Result<(Head, Item), Fault>
        ensures { MatchResult result
            (λ p. (2064 * length self.now.heads.items ≤ length words.now) × IsHead self.now e p.0 × (0 < p.0.len)
            × (p.1 ≡ item_at words.now (516 * e + p.0.start)))
            (λ f. peeked (length words.now) (edges_of words.now self.now) e ≡ Err f) }
    {
        let head = self.ask(words.len(), e)?;
        if head.len == 0 {
            return Err(Fault::Refused(Refusal::NothingToTake));
        }
        Ok((head, item_at(words, SLOTS * e + head.start)))
    }

    // The first item of edge e, which stays.
    pub fn peek(&self, words: &[u32], e: usize) -> Result<Item, Fault>
        ensures { result ≡ peeked (length words.now) (edges_of words.now self.now) e }
    {
        let (_, item) = self.first(words, e)?;
        Ok(item)
    }

    // One item more at the end of edge e.
    pub fn push(&mut self, words: &mut [u32], e: usize, item: Item) -> Result<(), Fault>
        ensures { elim result [
          | Ok _ ↦ pushed (length words.old) (edges_of words.old self.old) e item ≡ Ok (edges_of words.new self.new)
          | Err f ↦ (pushed (length words.old) (edges_of words.old self.old) e item ≡ Err f) × (words.new ≡ words.old) × (self.new ≡ self.old)
        ] }
    {
        let head = self.ask(words.len(), e)?;
        let more = head.with_more(1)?;
        put_at(words, SLOTS * e + head.start + head.len, item);
        self.heads[e] = more;
        Ok(())
    }

    // The first item of edge e, which is then gone.
    pub fn pop(&mut self, words: &mut [u32], e: usize) -> Result<Item, Fault>
        ensures { elim result [
          | Ok x ↦ popped (length words.old) (edges_of words.old self.old) e ≡ Ok (x, edges_of words.new self.new)
          | Err f ↦ (popped (length words.old) (edges_of words.old self.old) e ≡ Err f) × (words.new ≡ words.old) × (self.new ≡ self.old)
        ] }
    {
        let (head, item) = self.first(words, e)?;
        self.heads[e] = advance(words, e, head);
        Ok(item)
    }

    // Edge e without its items.
    pub fn clear(&mut self, e: usize) -> Result<(), Fault>
        ensures { (ws : List ℕ) → elim result [
          | Ok _ ↦ cleared (edges_of ws self.old) e ≡ Ok (edges_of ws self.new)
          | Err f ↦ (cleared (edges_of ws self.old) e ≡ Err f) × (self.new ≡ self.old)
        ] }
    {
        self.head(e)?;
        self.heads[e] = Head::default();
        Ok(())
    }

    // Where in the lent words the free part of edge e is: room for all that it can still hold.
    pub fn free(&self, words: &[u32], e: usize) -> Result<Range<usize>, Fault>
        ensures place { asked (length words.now) (edges_of words.now self.now) e (Ok (free_range self.now e)) ≡ result }
        ensures within { IfOk result (λ r. (r.start ≤ r.end) × (r.end ≤ length words.now)) }
    {
        let head = self.ask(words.len(), e)?;
        let from = ITEM * (SLOTS * e + head.start + head.len);
        Ok(from..from + ITEM * (CAPACITY - head.len))
    }

    // Takes up the first n items that were written into the free part of edge e.
    pub fn take_up(&mut self, words: &[u32], e: usize, n: usize) -> Result<(), Fault>
        ensures { elim result [
          | Ok _ ↦ taken_up (length words.now) (edges_of words.now self.old) e (items_from (free_of words.now self.old e) 0 n) ≡ Ok (edges_of words.now self.new)
          | Err f ↦ (taken_up (length words.now) (edges_of words.now self.old) e (items_from (free_of words.now self.old e) 0 n) ≡ Err f) × (self.new ≡ self.old)
        ] }
    {
        let more = self.ask(words.len(), e)?.with_more(n)?;
        self.heads[e] = more;
        Ok(())
    }
}
