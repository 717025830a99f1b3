// Decimal numbers of at most 32 bits.
ghost use Rattle.std.specs.Prelude.{◌≡◌, Some};
ghost use Rattle.text.specs.Number.{number_of, digits, extend};

// The value so far with one more decimal digit.
fn extended(value: u32, byte: u8) -> Option<u32>
    ensures { result ≡ extend value byte }
{
    if !byte.is_ascii_digit() {
        return None;
    }
    let wide = u64::from(value) * 10 + u64::from(byte - b'0');
    u32::try_from(wide).ok()
}

// The value of decimal digits.
fn value_of(word: &[u8]) -> Option<u32>
    ensures { result ≡ digits (Some 0) word.now }
{
    let mut value = 0;
    for byte in word {
        value = extended(value, *byte)?;
    }
    Some(value)
}

// The number that a word is: decimal digits, no sign, no needless leading zero, at most 32 bits.
pub fn number(word: &[u8]) -> Option<u32>
    ensures { result ≡ number_of word.now }
{
    match word {
        [] => None,
        [b'0', _, ..] => None,
        _ => value_of(word),
    }
}
