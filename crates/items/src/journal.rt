ghost use Rattle.std.specs.Prelude.{◌≡◌, ◌<◌, ◌≤◌, length, drop, MatchOption};
ghost use Rattle.items.specs.Journal.{big_at, first_of};

use crate::{Item, Record};

// Why no item comes first: it is cut short, and so not there yet; or it is of an unknown kind.
#[derive(Clone, Copy, PartialEq, Eq, Debug, Drop)]
pub enum NoItem {
    NotYet,
    Unknown,
}

// Four bytes, the high one first, and what is left.
fn word(bytes: &[u8]) -> Option<(u32, &[u8])>
    ensures { MatchOption result (length bytes.now < 4)
        (λ p. (4 ≤ length bytes.now) × (p.0 ≡ big_at bytes.now 0) × (p.1.now ≡ drop 4 bytes.now)) }
{
    let (first, rest) = bytes.split_first_chunk::<4>()?;
    Some((u32::from_be_bytes(*first), rest))
}

// The item that comes first in the bytes of a journal, and how many bytes it took. Taken apart by `let .. else`, a rule
// of this project (D77): each place says that an item may be cut short there.
pub fn read_item(bytes: &[u8]) -> Result<(Item, usize), NoItem>
    ensures { result ≡ first_of bytes.now }
{
    let [kind, rest @ ..] = bytes else {
        return Err(NoItem::NotYet);
    };
    match *kind {
        1 => {
            let Some((key, rest)) = word(rest) else {
                return Err(NoItem::NotYet);
            };
            let Some((time, rest)) = word(rest) else {
                return Err(NoItem::NotYet);
            };
            let Some((amount, _)) = word(rest) else {
                return Err(NoItem::NotYet);
            };
            Ok((Item::Record(Record { key, time, amount }), 13))
        }
        2 => {
            let Some((time, _)) = word(rest) else {
                return Err(NoItem::NotYet);
            };
            Ok((Item::Watermark(time), 5))
        }
        _ => Err(NoItem::Unknown),
    }
}
