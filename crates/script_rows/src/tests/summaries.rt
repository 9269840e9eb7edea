//! Summaries of histories, which need not be legal.

use history_text::read_text;
use script_gen::summary_of;
use std::alloc::Global;
use std::test::Fail;

/// The text of a history, and its summary.
const SUMMARIES: &[(&str, &str)] = &[
    ("", "entries 0\ndelivered 0\n"),
    ("history 2\n", "entries 0\ndelivered 0\n"),
    (
        "history 2
open 0
order 0 0 https://a.com https://a.com https://a.com/
commit 0 0 https://a.com 68747470733a2f2f612e636f6d2f => ok
said 0 0 0 0 fetch no-cors https://a.com 68747470733a2f2f622e636f6d2f78 => ok
head 0 A4
piece 0 0 68656c6c6f
end 0 whole
",
        "entries 7\ndelivered 5\nA4 1\n",
    ),
    // Bytes are counted, and not pieces.
    (
        "piece 0 0 00\npiece 3 0 ffffffffffffffffffffffff\npiece 0 1 6162\n",
        "entries 3\ndelivered 15\n",
    ),
    // Each way to carry a rule: lines of one rule.
    (
        "head 0 N7
navend 0 N7
end 0 blocked N7
end 0 failed N7
commit 0 0 https://a.com 68 => deny N7
commit 0 0 https://a.com 68 => drop N7
commit 0 0 https://a.com 68 => kill N7
said 0 0 0 0 remove 0 => deny N7
said 0 0 0 0 remove 0 => drop N7
said 0 0 0 0 remove 0 => kill N7
",
        "entries 10\ndelivered 0\nN7 10\n",
    ),
    // Lines of entries that carry none. A text may have a rule's code, and is none.
    (
        "open 0\nwarm 1\ncrash 1\nend 0 whole\nexit 0\nhop nav 0 K1\nlocal 0 0 0 waited\nlocal 0 0 0 skipped\n",
        "entries 8\ndelivered 0\n",
    ),
    // Rules out of order, some twice and more, beside pieces.
    (
        "history 2
end 0 blocked B8
head 1 A5
piece 1 0 616263
said 0 0 0 0 remove 0 => kill K10
head 2 A5
piece 1 1 64
navend 0 N9
said 0 0 0 0 remove 0 => kill K1
end 3 blocked B8
said 0 0 0 0 remove 0 => drop G1
end 4 failed F1
head 5 A5
navend 1 N1
",
        "entries 13\ndelivered 4\nK1 1\nK10 1\nG1 1\nN1 1\nN9 1\nF1 1\nA5 3\nB8 2\n",
    ),
    // All rules, the last one first.
    (
        "history 2
head 0 B8
head 0 B7
head 0 B6
head 0 B5
head 0 B4
head 0 B3
head 0 B2
head 0 B1
head 0 A5
head 0 A4
head 0 A3
head 0 A2
head 0 A1
head 0 S4
head 0 S3
head 0 S2
head 0 S1
head 0 L2
head 0 L1
head 0 F1
head 0 N9
head 0 N8
head 0 N7
head 0 N6
head 0 N5
head 0 N4
head 0 N3
head 0 N2
head 0 N1
head 0 M2
head 0 M1
head 0 G3
head 0 G2
head 0 G1
head 0 K10
head 0 K9
head 0 K8
head 0 K7
head 0 K6
head 0 K5
head 0 K4
head 0 K3
head 0 K2
head 0 K1
",
        "entries 44
delivered 0
K1 1
K2 1
K3 1
K4 1
K5 1
K6 1
K7 1
K8 1
K9 1
K10 1
G1 1
G2 1
G3 1
M1 1
M2 1
N1 1
N2 1
N3 1
N4 1
N5 1
N6 1
N7 1
N8 1
N9 1
F1 1
L1 1
L2 1
S1 1
S2 1
S3 1
S4 1
A1 1
A2 1
A3 1
A4 1
A5 1
B1 1
B2 1
B3 1
B4 1
B5 1
B6 1
B7 1
B8 1
",
    ),
];

/// The summary of the history with a text.
fn summary(alloc: Global, text: &str) -> Result<String, Fail> {
    let (_, history) = read_text(alloc, text.as_bytes())?;
    let summary = summary_of(alloc, &history)?;
    Ok(String::from_utf8_lossy(alloc, summary.as_slice())?)
}

#[test]
fn summaries(rt: HostRuntime) -> Result<(), Fail> {
    for (text, want) in SUMMARIES {
        let found = summary(rt.alloc(), text)?;
        assert_eq!(rt; found.as_str(), *want, "{text}");
    }
    Ok(())
}
