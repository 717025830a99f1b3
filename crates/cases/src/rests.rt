// The words of a line by what is left of it: a rest can be looked at, gone on with, and is bytes.
use std::test::Fail;
use text::{next_word, no_word, one_number, two_numbers};

#[test]
fn looked_at_and_gone_on_with(rt: HostRuntime) -> Result<(), Fail> {
    let (word, rest) = next_word(Some(b"step 1 20")).ok_or_else(|| Fail::new("no word"))?;
    assert_eq!(rt; word.len(), 4);
    assert_eq!(rt; no_word(rest), false);
    assert_eq!(rt; one_number(rest), None, "two are left");
    assert_eq!(rt; two_numbers(rest), Some((1, 20)));
    let bytes = rest.ok_or_else(|| Fail::new("no rest"))?;
    assert_eq!(rt; bytes.len(), 4);
    let (_, rest) = next_word(rest).ok_or_else(|| Fail::new("no second word"))?;
    assert_eq!(rt; one_number(rest), Some(20));
    let (_, rest) = next_word(rest).ok_or_else(|| Fail::new("no third word"))?;
    assert_eq!(rt; rest.is_none(), true);
    assert_eq!(rt; no_word(rest), true);
    Ok(())
}

#[test]
fn nothing_left(rt: HostRuntime) {
    assert_eq!(rt; next_word(None).is_none(), true);
    assert_eq!(rt; no_word(None), true);
    assert_eq!(rt; one_number(None), None);
    assert_eq!(rt; two_numbers(None), None);
    assert_eq!(rt; no_word(Some(b"")), false, "an empty word");
}
