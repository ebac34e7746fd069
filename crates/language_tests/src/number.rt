use pipe_number::{Spelling, int_of};
use std::test::Fail;

#[test]
fn texts_and_their_numbers(rt: HostRuntime) -> Result<(), Fail> {
    for (text, number) in [
        ("12", Some(12)),
        ("-3", Some(-3)),
        ("-0", Some(0)),
        ("007", Some(7)),
        ("9223372036854775807", Some(i64::MAX)),
        ("9223372036854775808", None),
        ("-9223372036854775808", Some(i64::MIN)),
        ("-9223372036854775809", None),
        ("00000000000000000000000000001", Some(1)),
        ("99999999999999999999999999999", None),
        ("", None),
        ("-", None),
        ("+1", None),
        ("--1", None),
        ("1-", None),
        (" 1", None),
        ("1\u{0}", None),
        ("x", None),
    ] {
        assert_eq!(rt; int_of(text.as_bytes()), number);
    }
    Ok(())
}

#[test]
fn a_number_in_pieces(rt: HostRuntime) -> Result<(), Fail> {
    let spelling = Spelling::Empty.after(b"-1").after(b"").after(b"20");
    assert_eq!(rt; spelling.number(), Some(-120));
    assert_eq!(rt; Spelling::Signed.after(b"").number(), None);
    assert_eq!(rt; Spelling::Wrong.after(b"1").number(), None);
    assert_eq!(rt; Spelling::Digits(true, 1), Spelling::Empty.after(b"-1"));
    Ok(())
}
