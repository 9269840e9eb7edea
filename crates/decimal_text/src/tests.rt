use crate::{decimal_number, long_decimal_number};

const NUMBERS: &[(&str, Option<u32>)] = &[
    ("0", Some(0)),
    ("7", Some(7)),
    ("10", Some(10)),
    ("4294967295", Some(4294967295)),
    ("4294967296", None),
    ("18446744073709551616", None),
    ("", None),
    ("00", None),
    ("01", None),
    ("-1", None),
    ("-0", None),
    ("+1", None),
    (" 1", None),
    ("1 ", None),
    ("1a", None),
    ("0x1", None),
    ("1.0", None),
    ("1_0", None),
    ("\u{663}", None),
];

#[test]
fn numbers_are_decimal(rt: HostRuntime) {
    for (text, number) in NUMBERS {
        assert!(rt; decimal_number(text.as_bytes()) == *number, "{text}");
    }
    assert!(rt; decimal_number(&[0xff]).is_none());
}

const LONG_NUMBERS: &[(&str, Option<u64>)] = &[
    ("0", Some(0)),
    ("7", Some(7)),
    ("4294967296", Some(4294967296)),
    ("18446744073709551615", Some(18446744073709551615)),
    ("18446744073709551616", None),
    ("", None),
    ("00", None),
    ("07", None),
    ("+7", None),
    ("-7", None),
    (" 7", None),
    ("7.0", None),
];

#[test]
fn long_numbers_are_decimal(rt: HostRuntime) {
    for (text, number) in LONG_NUMBERS {
        assert!(rt; long_decimal_number(text.as_bytes()) == *number, "{text}");
    }
}
