use crate::{
    DECIMAL, HEXADECIMAL, before_comment, first_line, is_number, line_feeds, number_within,
    value_within,
};
use std::test::Fail;

#[test]
fn numbers_are_told_up_to_a_bound(rt: HostRuntime) -> Result<(), Fail> {
    for (word, most, due) in [
        ("0", 0, Some(0)),
        ("255", 255, Some(255)),
        ("256", 255, None),
        ("00255", 255, Some(255)),
        ("0xFf", 255, Some(255)),
        ("0x100", 255, None),
        ("18446744073709551615", u64::MAX, Some(u64::MAX)),
        ("18446744073709551616", u64::MAX, None),
        ("0xffffffffffffffff", u64::MAX, Some(u64::MAX)),
        ("99999999999999999999999999999999999999999", u64::MAX, None),
    ] {
        let word = word.as_bytes();
        assert!(rt; is_number(word) && number_within(most, word) == due);
    }
    assert!(rt; value_within(9, DECIMAL, b"").is_some_and(|n| n == 0));
    assert!(rt; value_within(9, HEXADECIMAL, b"a").is_none());
    assert!(rt; !is_number(b"0x") && !is_number(b"") && !is_number(b"1a"));
    Ok(())
}

#[test]
fn a_line_ends_at_the_first_line_feed(rt: HostRuntime) -> Result<(), Fail> {
    let line = first_line("ab # c\r\n\nd");
    assert!(rt; line.whole == "ab # c\r\n" && line.ended && line.rest == "\nd");
    assert!(rt; line.front == b"ab # c\r".as_slice());
    assert!(rt; before_comment(line.front) == b"ab ".as_slice());
    let last = first_line("d");
    assert!(rt; last.whole == "d" && !last.ended && last.rest == "");
    assert!(rt; line_feeds(b"a\n\nb") == 2);
    Ok(())
}
