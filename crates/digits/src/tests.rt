//! Texts that are numbers and words, and texts that are none.
use crate::{number, word};

#[test]
fn numbers(rt: HostRuntime) {
    assert_eq!(rt; number("0"), Some(0));
    assert_eq!(rt; number("0017"), Some(17));
    assert_eq!(rt; number("18446744073709551615"), Some(usize::MAX));
    assert_eq!(rt; number("18446744073709551616"), None);
    for text in ["", "+", "+0", "-0", " 0", "0 ", "0x1", "1_0", "a", "٣"] {
        assert_eq!(rt; number(text), None, "{text}");
    }
}

#[test]
fn words(rt: HostRuntime) {
    assert_eq!(rt; word("00000000"), Some(0));
    assert_eq!(rt; word("0123abcd"), Some(0x0123_ABCD));
    assert_eq!(rt; word("ffffffff"), Some(u32::MAX));
    for text in [
        "",
        "0000001",
        "000000001",
        "+0000001",
        "-0000001",
        " 0000001",
        "0000000A",
        "0000000g",
        "000000é",
    ] {
        assert_eq!(rt; word(text), None, "{text}");
    }
}
