//! Entries of each kind and their neighbours, of which each differs in one field: what they tell, which are equal, what a
//! copy is.

use entry_reading::read_entry;
use history_entry::{Entry, EntryKind, Rule, equal_entries};
use page_origin::NoMemory;
use std::alloc::Global;
use std::process::Abort;
use std::test::Fail;

/// Lines of one kind of entry and the rule that these carry.
type Rows = (EntryKind, Option<Rule>, &'static [&'static str]);

const ROWS: &[Rows] = &[
    (EntryKind::Opened, None, &["open 0", "open 1"]),
    (EntryKind::Warm, None, &["warm 0", "warm 1"]),
    (EntryKind::Crash, None, &["crash 0", "crash 1"]),
    (EntryKind::Exit, None, &["exit 0", "exit 1"]),
    (
        EntryKind::Hop,
        None,
        &["hop nav 0 x", "hop nav 1 x", "hop req 0 x", "hop nav 0 y"],
    ),
    (
        EntryKind::Order,
        None,
        &[
            "order 0 0 https://a.com https://a.com x",
            "order 1 0 https://a.com https://a.com x",
            "order 0 1 https://a.com https://a.com x",
            "order 0 0 http://a.com https://a.com x",
            "order 0 0 https://b.com https://a.com x",
            "order 0 0 =https://a.com https://a.com x",
            "order 0 0 =https://a.com:8443 https://a.com x",
            "order 0 0 https://a.com http://a.com x",
            "order 0 0 https://a.com https://b.com x",
            "order 0 0 https://a.com https://a.com:8443 x",
            "order 0 0 https://a.com opaque:0:https://a.com x",
            "order 0 0 https://a.com opaque:1:https://a.com x",
            "order 0 0 https://a.com opaque:0:https://b.com x",
            "order 0 0 https://a.com https://a.com y",
        ],
    ),
    (
        EntryKind::NavEnd,
        Some(Rule::N5),
        &["navend 0 N5", "navend 1 N5"],
    ),
    (EntryKind::NavEnd, Some(Rule::N6), &["navend 0 N6"]),
    (
        EntryKind::Commit,
        None,
        &[
            "commit 0 0 https://a.com 68 => ok",
            "commit 1 0 https://a.com 68 => ok",
            "commit 0 1 https://a.com 68 => ok",
            "commit 0 0 https://b.com 68 => ok",
            "commit 0 0 https://a.com 69 => ok",
            "commit 0 0 https://a.com 68 => answer 68",
        ],
    ),
    (
        EntryKind::Commit,
        Some(Rule::K10),
        &["commit 0 0 https://a.com 68 => kill K10"],
    ),
    (
        EntryKind::Local,
        None,
        &[
            "local 0 0 0 waited",
            "local 1 0 0 waited",
            "local 0 1 0 waited",
            "local 0 0 1 waited",
            "local 0 0 0 skipped",
            "local 0 0 0 took https://a.com 68",
            "local 0 0 0 took https://b.com 68",
            "local 0 0 0 took https://a.com 69",
        ],
    ),
    (EntryKind::Head, Some(Rule::A1), &["head 0 A1", "head 1 A1"]),
    (EntryKind::Head, Some(Rule::A2), &["head 0 A2"]),
    (
        EntryKind::Piece,
        None,
        &[
            "piece 0 0 00",
            "piece 1 0 00",
            "piece 0 1 00",
            "piece 0 0 01",
        ],
    ),
    (EntryKind::End, None, &["end 0 whole", "end 1 whole"]),
    (EntryKind::End, Some(Rule::B8), &["end 0 blocked B8"]),
    (
        EntryKind::End,
        Some(Rule::N7),
        &["end 0 failed N7", "end 1 failed N7"],
    ),
    (EntryKind::End, Some(Rule::F1), &["end 0 failed F1"]),
    (
        EntryKind::Said,
        None,
        &[
            "said 0 0 0 0 remove 0 => ok",
            "said 1 0 0 0 remove 0 => ok",
            "said 0 1 0 0 remove 0 => ok",
            "said 0 0 1 0 remove 0 => ok",
            "said 0 0 0 1 remove 0 => ok",
            "said 0 0 0 0 remove 1 => ok",
            "said 0 0 0 0 remove 0 => answer 68",
            "said 0 0 0 0 remove 0 => answer 69",
        ],
    ),
    (
        EntryKind::Said,
        Some(Rule::N1),
        &[
            "said 0 0 0 0 remove 0 => deny N1",
            "said 0 0 0 0 remove 0 => drop N1",
            "said 0 0 0 0 remove 0 => kill N1",
        ],
    ),
    (
        EntryKind::Said,
        Some(Rule::N2),
        &["said 0 0 0 0 remove 0 => deny N2"],
    ),
    (
        EntryKind::Said,
        None,
        &[
            "said 0 0 0 0 navigate 0 https://a.com 68 => ok",
            "said 0 0 0 0 navigate 1 https://a.com 68 => ok",
            "said 0 0 0 0 navigate 0 https://b.com 68 => ok",
            "said 0 0 0 0 navigate 0 https://a.com 69 => ok",
            "said 0 0 0 0 frame plain url 68 => ok",
            "said 0 0 0 0 frame sandboxed url 68 => ok",
            "said 0 0 0 0 frame plain url 69 => ok",
            "said 0 0 0 0 frame plain doc 0 => ok",
            "said 0 0 0 0 frame plain doc 1 => ok",
            "said 0 0 0 0 frame sandboxed doc 0 => ok",
            "said 0 0 0 0 page 68 => ok",
            "said 0 0 0 0 page 69 => ok",
            "said 0 0 0 0 fetch cors https://a.com 68 => ok",
            "said 0 0 0 0 fetch no-cors https://a.com 68 => ok",
            "said 0 0 0 0 fetch cors https://b.com 68 => ok",
            "said 0 0 0 0 fetch cors https://a.com 69 => ok",
            "said 0 0 0 0 post 0 * https://a.com 68 => ok",
            "said 0 0 0 0 post 1 * https://a.com 68 => ok",
            "said 0 0 0 0 post 0 / https://a.com 68 => ok",
            "said 0 0 0 0 post 0 https://a.com https://a.com 68 => ok",
            "said 0 0 0 0 post 0 https://b.com https://a.com 68 => ok",
            "said 0 0 0 0 post 0 * https://b.com 68 => ok",
            "said 0 0 0 0 post 0 * https://a.com 69 => ok",
            "said 0 0 0 0 ask 73 https://a.com 68 => ok",
            "said 0 0 0 0 ask 74 https://a.com 68 => ok",
            "said 0 0 0 0 ask 73 https://b.com 68 => ok",
            "said 0 0 0 0 ask 73 https://a.com 69 => ok",
            "said 0 0 0 0 commit 0 https://a.com 68 => ok",
            "said 0 0 0 0 commit 1 https://a.com 68 => ok",
            "said 0 0 0 0 commit 0 https://b.com 68 => ok",
            "said 0 0 0 0 commit 0 https://a.com 69 => ok",
        ],
    ),
];

/// Reads the lines of a row, and adds their entries.
fn add_row(rt: &impl Abort, alloc: Global, row: &Rows, list: &mut Vec<Entry>) -> Result<(), Fail> {
    let (kind, rule, lines) = row;
    for line in *lines {
        let entry = read_entry(alloc, line.as_bytes())?;
        assert!(rt; entry.kind() == *kind && entry.rule() == *rule, "{line}");
        list.push(entry).map_err(NoMemory::from)?;
    }
    Ok(())
}

fn equals_that_alone(rt: &impl Abort, copy: &Entry, list: &[Entry], index: usize) {
    for (i, entry) in list.iter().enumerate() {
        assert!(rt;
            equal_entries(copy, entry) == (i == index),
            "rows {index} and {i}"
        );
    }
}

#[test]
fn copies_equal_their_entries_alone(rt: HostRuntime) -> Result<(), Fail> {
    let mut list = Vec::new(rt.alloc());
    for row in ROWS {
        add_row(&rt, rt.alloc(), row, &mut list)?;
    }
    assert_eq!(rt; list.len(), 100);
    for (i, entry) in list.iter().enumerate() {
        let copy = entry.copy(rt.alloc())?;
        equals_that_alone(&rt, &copy, list.as_slice(), i);
    }
    Ok(())
}
