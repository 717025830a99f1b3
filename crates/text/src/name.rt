// A file's name as one word.
ghost use Rattle.std.specs.Prelude.{◌≡◌};
ghost use Rattle.text.specs.Name.{is_name, visible};

use std::str;

// Whether every byte is above a space.
fn is_visible(word: &[u8]) -> bool
    ensures { result ≡ visible word.now }
{
    word.iter().all(|byte| *byte > b' ')
}

// Whether a word can be a file's name: UTF-8, not empty, every byte above a space.
#[tactic(auto, using(crate::proofs::Characters::utf8_ok))]
pub fn is_name(word: &[u8]) -> bool
    ensures { result ≡ is_name word.now }
{
    !word.is_empty() && is_visible(word) && str::from_utf8(word).is_ok()
}
