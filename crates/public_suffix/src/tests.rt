//! Rows of the Public Suffix List's algorithm and format.

use super::*;
use std::alloc::{AllocError, Global};
use std::test::Fail;

/// Where a host's registrable domain begins, by the index of these rules and by the plain list of them.
type Starts = (Option<usize>, Option<usize>);

fn starts(alloc: Global, text: &[u8], host: &str) -> Result<Starts, RulesRefusal> {
    let rules = Rules::read(alloc, text)?;
    let plain = PlainRules::read(alloc, text)?;
    Ok((rules.registrable(host), plain.registrable(host)))
}

/// Whether both readers find the registrable domain of the host there, by the rules of this text.
fn begins_at(alloc: Global, text: &[u8], host: &str, start: Option<usize>) -> bool {
    starts(alloc, text, host) == Ok((start, start))
}

/// What both readers answer of a text, without its rules.
fn read_as(alloc: Global, text: &[u8], answer: Result<(), RulesRefusal>) -> bool {
    let rules = Rules::read(alloc, text).map(|_| ());
    let plain = PlainRules::read(alloc, text).map(|_| ());
    rules == answer && plain == answer
}

/// Rules, a host, and where its registrable domain begins: which rules match a host.
const MATCHING: &[(&str, &str, Option<usize>)] = &[
    // Where no rule matches, the rule is `*`.
    ("", "com", None),
    ("", "a.com", Some(0)),
    ("", "a.b.com", Some(2)),
    ("", "a.b.xn--p1ai", Some(2)),
    ("*", "com", None),
    ("*", "a.com", Some(0)),
    ("*", "a.b.com", Some(2)),
    // A rule matches the last labels of a host, each of them whole and in its order.
    ("co.uk", "uk", None),
    ("co.uk", "co.uk", None),
    ("co.uk", "b.co.uk", Some(0)),
    ("co.uk", "a.b.co.uk", Some(2)),
    ("co.uk", "a.xco.uk", Some(2)),
    ("co.uk", "a.co.ukx", Some(2)),
    ("co.uk", "a.c.uk", Some(2)),
    ("co.uk", "a.org.uk", Some(2)),
    ("co.uk", "a.co.fr", Some(2)),
    ("co.uk", "co.uk.com", Some(3)),
    ("uk.co", "a.co.uk", Some(2)),
    ("a.b.co.uk", "b.co.uk", Some(2)),
    // A `*` in a rule stands for any one label, and for no more and no less than one.
    ("*.ck", "ck", None),
    ("*.ck", "c.ck", None),
    ("*.ck", "b.c.ck", Some(0)),
    ("*.ck", "a.b.c.ck", Some(2)),
    ("*.b.c", "b.c", Some(0)),
    ("*.b.c", "a.b.c", None),
    ("*.b.c", "y.a.b.c", Some(0)),
    ("*.b.c", "y.a.x.c", Some(4)),
    // In a host `*` is a label as any other.
    ("co.uk", "*.uk", Some(0)),
    ("co.uk", "a.*.uk", Some(2)),
    // Hosts are compared as they stand: their letters aren't lowered.
    ("co.uk", "b.CO.UK", Some(2)),
];

/// Rules, a host, and where its registrable domain begins: which of the matching rules prevails.
const PREVAILING: &[(&str, &str, Option<usize>)] = &[
    // That with the most labels, wherever it stands.
    ("c\nb.c\na.b.c", "y.x.a.b.c", Some(2)),
    ("a.b.c\nb.c\nc", "y.x.a.b.c", Some(2)),
    ("b.c\na.b.c\nc", "y.x.a.b.c", Some(2)),
    ("b.c\na.b.c\nc", "y.x.b.c", Some(2)),
    ("b.c\na.b.c\nc", "y.x.c", Some(2)),
    ("*.c\na.b.c", "x.a.b.c", Some(0)),
    ("*.b.c\nb.c", "x.a.b.c", Some(0)),
    // An exception prevails, and its public suffix has one label less.
    ("*.ck\n!www.ck", "ck", None),
    ("*.ck\n!www.ck", "www.ck", Some(0)),
    ("*.ck\n!www.ck", "a.www.ck", Some(2)),
    ("*.ck\n!www.ck", "b.a.www.ck", Some(4)),
    ("*.ck\n!www.ck", "a.xwww.ck", Some(0)),
    ("!www.ck", "a.www.ck", Some(2)),
    ("!b.c.d", "b.c.d", Some(0)),
    ("!b.c.d", "x.c.d", Some(2)),
    ("b.c\n!b.c", "a.b.c", Some(2)),
    // It need not be longer than the other rules.
    ("*.b.www.ck\n!www.ck", "c.a.b.www.ck", Some(6)),
    ("!www.ck\n*.b.www.ck", "c.a.b.www.ck", Some(6)),
    ("!www.ck\na.www.ck", "b.a.www.ck", Some(4)),
    // Of several exceptions that with the most labels, wherever it stands.
    ("*.b.c\n!y.b.c\n!x.y.b.c", "z.x.y.b.c", Some(2)),
    ("!x.y.b.c\n!y.b.c\n*.b.c", "z.x.y.b.c", Some(2)),
    ("!x.y.b.c\n!y.b.c\n*.b.c", "z.y.b.c", Some(2)),
];

/// Hosts that are empty or have an empty label: none has a registrable domain, by whatever rules.
const EMPTY_LABELS: &[&str] = &[
    "", ".", "..", ".com", ".a.com", "com.", "a.com.", "a..com", "a.b..com", ".co.uk", ".b.co.uk",
    "b.co.uk.", "b..co.uk", "b.co..uk", ".www.ck", "www..ck",
];

/// A text whose lines are all fine, a host, and where its registrable domain begins.
const TEXTS: &[(&[u8], &str, Option<usize>)] = &[
    // Lines end at a line feed or at the end.
    (b"co.uk", "b.co.uk", Some(0)),
    (b"co.uk\n", "b.co.uk", Some(0)),
    (b"\n\nco.uk\n\n", "b.co.uk", Some(0)),
    (b"ck\nco.uk", "b.co.uk", Some(0)),
    (b"co.uk\nck", "b.co.uk", Some(0)),
    // A rule is its line up to the first space, tab or carriage return.
    (b"co.uk a..b", "b.co.uk", Some(0)),
    (b"co.uk\ta..b", "b.co.uk", Some(0)),
    (b"co.uk\ra..b", "b.co.uk", Some(0)),
    (b"co.uk\r\nck\r\n", "b.co.uk", Some(0)),
    (b"co.uk // a comment", "b.co.uk", Some(0)),
    (b"co.uk \xc3\xa9", "b.co.uk", Some(0)),
    // An empty rule is passed over.
    (b" \n\t\n\r\n", "b.co.uk", Some(2)),
    (b" co.uk", "b.co.uk", Some(2)),
    (b"\tco.uk", "b.co.uk", Some(2)),
    (b"\rco.uk", "b.co.uk", Some(2)),
    (b" a..b", "b.co.uk", Some(2)),
    // So is a comment, which stands at the beginning of its line.
    (b"//co.uk", "b.co.uk", Some(2)),
    (b"// co.uk\n//\n///", "b.co.uk", Some(2)),
    (b"// a..b\nco.uk\n// ..", "b.co.uk", Some(0)),
    // So is a rule with a byte above 127, whatever else it has.
    (b"\xc3\xa9.uk", "a.\u{e9}.uk", Some(2)),
    (b"uk.\xc3\xa9", "a.uk.\u{e9}", Some(2)),
    (b"a..\x80\n!\xff\nco.uk", "b.co.uk", Some(0)),
    // Letters are lowered.
    (b"CO.Uk", "b.co.uk", Some(0)),
    (b"AZ.uk", "b.az.uk", Some(0)),
    (b"*.CK\n!WWW.CK", "a.www.ck", Some(2)),
    // Digits, `-` and `_` stand in labels as they are, at any place.
    (b"0-9_.-.uk", "b.0-9_.-.uk", Some(0)),
    (b"_a.uk", "b._a.uk", Some(0)),
];

/// A text and what is read: that all its lines are fine, or the number of the first that is bad.
const FORMS: &[(&str, Result<(), RulesRefusal>)] = &[
    ("", Ok(())),
    ("a", Ok(())),
    ("a.b", Ok(())),
    ("*", Ok(())),
    ("*.a", Ok(())),
    ("!a.b", Ok(())),
    ("!a.b.c", Ok(())),
    // An exception has two labels or more.
    ("!", Err(RulesRefusal::BadRule(1))),
    ("!a", Err(RulesRefusal::BadRule(1))),
    // No label is empty.
    (".", Err(RulesRefusal::BadRule(1))),
    (".a", Err(RulesRefusal::BadRule(1))),
    ("a.", Err(RulesRefusal::BadRule(1))),
    ("a..b", Err(RulesRefusal::BadRule(1))),
    ("!.a", Err(RulesRefusal::BadRule(1))),
    ("!a.", Err(RulesRefusal::BadRule(1))),
    // A `*` is the whole leftmost label, and of no exception.
    ("a.*", Err(RulesRefusal::BadRule(1))),
    ("a.*.b", Err(RulesRefusal::BadRule(1))),
    ("*.*", Err(RulesRefusal::BadRule(1))),
    ("*.*.a", Err(RulesRefusal::BadRule(1))),
    ("**", Err(RulesRefusal::BadRule(1))),
    ("*a.b", Err(RulesRefusal::BadRule(1))),
    ("a*.b", Err(RulesRefusal::BadRule(1))),
    ("*.", Err(RulesRefusal::BadRule(1))),
    ("!*.a", Err(RulesRefusal::BadRule(1))),
    ("!a.*", Err(RulesRefusal::BadRule(1))),
    // A `!` stands in front, once.
    ("!!a.b", Err(RulesRefusal::BadRule(1))),
    ("a!.b", Err(RulesRefusal::BadRule(1))),
    ("a.!b", Err(RulesRefusal::BadRule(1))),
    // Two slashes begin a comment at the beginning of a line alone.
    ("/", Err(RulesRefusal::BadRule(1))),
    ("/ a", Err(RulesRefusal::BadRule(1))),
    ("a//b", Err(RulesRefusal::BadRule(1))),
    ("!//a.b", Err(RulesRefusal::BadRule(1))),
    // A byte above 127 that stands behind the rule doesn't count.
    ("a..b \u{e9}", Err(RulesRefusal::BadRule(1))),
];

/// A text and the number of its first bad line.
const NUMBERS: &[(&str, u32)] = &[
    ("..", 1),
    ("..\n", 1),
    ("..\n.", 1),
    ("\n..", 2),
    ("a\n..", 2),
    ("a\n..\n", 2),
    ("a\n..\nb\n..\n", 2),
    ("// ..\n\n \t\r\n\u{e9}..\n*\n!a.b\r\n..", 7),
    ("// ..\n\n \t\r\n\u{e9}..\n*\n!a.b\r\n..\n\n", 7),
];

/// The bytes that stand in labels, and those that end a line, a label or a rule.
const LABEL_BYTES: &[u8] = b"-0123456789ABCDEFGHIJKLMNOPQRSTUVWXYZ_abcdefghijklmnopqrstuvwxyz";

const ENDING_BYTES: &[u8] = b"\t\n\r .";

/// A label of 63 bytes, the most that there may be, and one of 64.
const LONGEST: &str = "a23456789012345678901234567890123456789012345678901234567890123";

const TOO_LONG: &str = "a234567890123456789012345678901234567890123456789012345678901234";

/// A text so many times over.
fn repeated(alloc: Global, text: &str, count: u32) -> Result<String, AllocError> {
    let mut whole = String::new(alloc);
    for _ in 0..count {
        whole.push_str(text)?;
    }
    Ok(whole)
}

#[test]
fn matching_rules(rt: HostRuntime) {
    for (text, host, start) in MATCHING {
        assert!(rt;
            begins_at(rt.alloc(), text.as_bytes(), host, *start),
            "{host} by {text}"
        );
    }
}

#[test]
fn prevailing_rules(rt: HostRuntime) {
    for (text, host, start) in PREVAILING {
        assert!(rt;
            begins_at(rt.alloc(), text.as_bytes(), host, *start),
            "{host} by {text}"
        );
    }
}

#[test]
fn hosts_with_empty_labels(rt: HostRuntime) {
    for host in EMPTY_LABELS {
        assert!(rt; begins_at(rt.alloc(), b"", host, None), "{host} by no rule");
        assert!(rt;
            begins_at(rt.alloc(), b"co.uk\n*.ck\n!www.ck", host, None),
            "{host}"
        );
    }
}

#[test]
fn texts_of_rules(rt: HostRuntime) {
    for (text, host, start) in TEXTS {
        assert!(rt;
            begins_at(rt.alloc(), text, host, *start),
            "{host} by {:?}",
            text
        );
    }
}

#[test]
fn forms_of_rules(rt: HostRuntime) {
    for (text, answer) in FORMS {
        assert!(rt; read_as(rt.alloc(), text.as_bytes(), *answer), "{text}");
    }
}

#[test]
fn numbers_of_bad_lines(rt: HostRuntime) {
    for (text, number) in NUMBERS {
        let answer = Err(RulesRefusal::BadRule(*number));
        assert!(rt; read_as(rt.alloc(), text.as_bytes(), answer), "{text}");
    }
}

#[test]
fn every_byte_in_a_label(rt: HostRuntime) {
    for byte in 0..=255u8 {
        let stands = LABEL_BYTES.contains(&byte) || ENDING_BYTES.contains(&byte) || byte > 127;
        let answer = if stands {
            Ok(())
        } else {
            Err(RulesRefusal::BadRule(1))
        };
        assert!(rt; read_as(rt.alloc(), &[b'a', byte, b'b'], answer), "{byte}");
    }
}

/// Rules of labels of 63 and 64 bytes.
#[test]
fn longest_labels(rt: HostRuntime) -> Result<(), Fail> {
    let alloc = rt.alloc();
    let rows = [
        ("", LONGEST, "", Ok(())),
        ("a.", LONGEST, "", Ok(())),
        ("!", LONGEST, ".a", Ok(())),
        (LONGEST, ".", LONGEST, Ok(())),
        ("", TOO_LONG, "", Err(RulesRefusal::BadRule(1))),
        ("a.", TOO_LONG, "", Err(RulesRefusal::BadRule(1))),
        ("", TOO_LONG, ".a", Err(RulesRefusal::BadRule(1))),
        ("!", TOO_LONG, ".a", Err(RulesRefusal::BadRule(1))),
    ];
    for (front, middle, back, answer) in rows {
        let rule = format!(in alloc; "{front}{middle}{back}")?;
        assert!(rt; read_as(alloc, rule.as_bytes(), answer), "{rule}");
    }
    Ok(())
}

/// Rules of 127 labels, as many as a domain name has.
#[test]
fn most_labels(rt: HostRuntime) -> Result<(), Fail> {
    let alloc = rt.alloc();
    let parent = repeated(alloc, ".a", 126)?;
    let rule = format!(in alloc; "uk\na{parent}\n*.x{parent}\n!y.x{parent}")?;
    for (front, start) in [
        ("a", None),
        ("b.a", Some(0)),
        ("b.x", None),
        ("c.b.x", Some(0)),
        ("c.y.x", Some(2)),
    ] {
        let host = format!(in alloc; "{front}{parent}")?;
        assert!(rt;
            begins_at(alloc, rule.as_bytes(), host.as_str(), start),
            "{front}"
        );
    }
    Ok(())
}

/// A line whose number is past 65,535, and a rule behind many lines.
#[test]
fn long_texts(rt: HostRuntime) -> Result<(), Fail> {
    let alloc = rt.alloc();
    let mut text = repeated(alloc, "\n", 70_000)?;
    text.push_str("co.uk\n")?;
    assert!(rt; begins_at(alloc, text.as_bytes(), "b.co.uk", Some(0)));
    text.push_str("..")?;
    assert!(rt; read_as(alloc, text.as_bytes(), Err(RulesRefusal::BadRule(70_002))));
    Ok(())
}

#[test]
fn texts_of_refusals(rt: HostRuntime) -> Result<(), Fail> {
    let rows = [
        (RulesRefusal::BadRule(7), "line 7 is no suffix rule"),
        (RulesRefusal::NoMemory, "no memory"),
    ];
    for (refusal, text) in rows {
        assert_eq!(rt; format!(in rt.alloc(); "{refusal}")?.as_str(), text);
    }
    Ok(())
}
