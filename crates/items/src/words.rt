ghost use Rattle.std.specs.Prelude.{◌≡◌, ◌<◌, ◌≤◌, ◌++◌, length, drop, Ok, Err};
ghost use Rattle.items.specs.declared.Refusal.TheVariants.{NoRoom};
ghost use Rattle.items.specs.Words.{words_of, first_in};

use crate::{Item, Record, Refusal};

// The first word says what the item is.
const RECORD: u32 = 1;

const WATERMARK: u32 = 2;

const BARRIER: u32 = 3;

// Named methods and no `From` and `TryFrom`: the names say into what, as that of `to_be_bytes` does.
impl Item {
    // The four words of an item.
    pub fn encode(self) -> [u32; 4]
        ensures { result ≡ words_of self }
    {
        match self {
            Item::Record(r) => [RECORD, r.key, r.time, r.amount],
            Item::Watermark(time) => [WATERMARK, 0, time, 0],
            Item::Barrier(number) => [BARRIER, 0, number, 0],
        }
    }

    // The item that four words stand for, if they stand for one.
    pub fn decode(words: [u32; 4]) -> Option<Item>
        ensures { result ≡ first_in words }
    {
        match words {
            [RECORD, key, time, amount] => Some(Item::Record(Record { key, time, amount })),
            [WATERMARK, 0, time, 0] => Some(Item::Watermark(time)),
            [BARRIER, 0, number, 0] => Some(Item::Barrier(number)),
            _ => None,
        }
    }

    // Puts an item into the first four words of a slice.
    pub fn store(self, words: &mut [u32]) -> Result<(), Refusal>
        ensures { elim result [
          | Ok _ ↦ (4 ≤ length words.old) × (words.new ≡ words_of self ++ drop 4 words.old)
          | Err e ↦ (length words.old < 4) × (e ≡ NoRoom) × (words.new ≡ words.old)
        ] }
    {
        if words.len() < 4 {
            return Err(Refusal::NoRoom);
        }
        words[0..4].copy_from_slice(&self.encode());
        Ok(())
    }

    // The item in the first four words of a slice, if there is one.
    pub fn load(words: &[u32]) -> Option<Item>
        ensures { result ≡ first_in words.now }
    {
        let front = words.first_chunk::<4>()?;
        Item::decode(*front)
    }
}
