//! A history, entry by entry: what each changes in the table, and how the first processes then stand.

use policy_table::Standing;
use process_standings::{last_change, standing_of};
use script_model::{
    Body, Entry, HostText, Message, Origin, RawUrl, Reply, Rule, Scheme, Site, TupleOrigin, UrlText,
};
use std::alloc::Global;
use std::test::Fail;

/// One more entry.
enum Step {
    Opened,
    Warm(u32),
    /// An order to a process, of the site with this host.
    Order(u32, &'static str),
    /// A message of a process, and whether it kills it.
    Said(u32, bool),
    /// A commit of a process, and whether it kills it.
    Commit(u32, bool),
    Crash(u32),
    Exit(u32),
}

struct Row {
    step: Step,
    change: Option<(u32, Standing)>,
    /// The standings of processes 0, 1, 2 and so on afterwards.
    standings: &'static [Standing],
}

const ABSENT: Standing = Standing::Absent;

const WARM: Standing = Standing::Warm;

const DEAD: Standing = Standing::Dead;

const AT_0: Standing = Standing::Locked(0);

const AT_1: Standing = Standing::Locked(1);

/// Each entry follows those before it. The sites are `a.com`, `b.com` and `c.com`, in the order of their first orders.
const ROWS: &[Row] = &[
    Row {
        step: Step::Opened,
        change: None,
        standings: &[ABSENT, ABSENT],
    },
    Row {
        step: Step::Warm(0),
        change: Some((0, WARM)),
        standings: &[WARM, ABSENT],
    },
    Row {
        step: Step::Order(0, "a.com"),
        change: Some((0, AT_0)),
        standings: &[AT_0, ABSENT],
    },
    Row {
        step: Step::Order(1, "a.com"),
        change: Some((1, AT_0)),
        standings: &[AT_0, AT_0, ABSENT],
    },
    Row {
        step: Step::Order(2, "b.com"),
        change: Some((2, AT_1)),
        standings: &[AT_0, AT_0, AT_1, ABSENT],
    },
    Row {
        step: Step::Order(0, "a.com"),
        change: None,
        standings: &[AT_0, AT_0, AT_1, ABSENT],
    },
    Row {
        step: Step::Said(0, false),
        change: None,
        standings: &[AT_0, AT_0, AT_1, ABSENT],
    },
    Row {
        step: Step::Commit(2, false),
        change: None,
        standings: &[AT_0, AT_0, AT_1, ABSENT],
    },
    Row {
        step: Step::Crash(0),
        change: Some((0, DEAD)),
        standings: &[DEAD, AT_0, AT_1, ABSENT],
    },
    Row {
        step: Step::Order(3, "b.com"),
        change: Some((3, AT_1)),
        standings: &[DEAD, AT_0, AT_1, AT_1, ABSENT],
    },
    Row {
        step: Step::Exit(1),
        change: Some((1, DEAD)),
        standings: &[DEAD, DEAD, AT_1, AT_1],
    },
    Row {
        step: Step::Said(2, true),
        change: Some((2, DEAD)),
        standings: &[DEAD, DEAD, DEAD, AT_1],
    },
    Row {
        step: Step::Order(4, "c.com"),
        change: Some((4, Standing::Locked(2))),
        standings: &[DEAD, DEAD, DEAD, AT_1, Standing::Locked(2)],
    },
    Row {
        step: Step::Commit(3, true),
        change: Some((3, DEAD)),
        standings: &[DEAD, DEAD, DEAD, DEAD, Standing::Locked(2), ABSENT],
    },
];

fn order(alloc: Global, process: u32, host: &str) -> Result<Entry, Fail> {
    let site = Site {
        scheme: Scheme::Https,
        host: HostText::from_bytes(alloc, host.as_bytes())?,
        only: None,
    };
    let origin = Origin::Tuple(TupleOrigin {
        scheme: Scheme::Https,
        host: HostText::from_bytes(alloc, host.as_bytes())?,
        port: 443,
    });
    let url = UrlText::from_bytes(alloc, b"https://a.com/")?;
    Ok(Entry::Order(0, process, site, origin, url))
}

fn reply(kills: bool) -> Reply {
    if kills {
        Reply::Kill(Rule::K1)
    } else {
        Reply::Drop(Rule::G1)
    }
}

fn said(process: u32, kills: bool) -> Entry {
    let message = Message {
        document: 0,
        body: Body::RemoveFrame { frame: 1 },
    };
    Entry::Said(process, 0, 0, message, reply(kills))
}

fn commit(alloc: Global, process: u32, kills: bool) -> Result<Entry, Fail> {
    let origin = Origin::Tuple(TupleOrigin {
        scheme: Scheme::Https,
        host: HostText::from_bytes(alloc, b"a.com")?,
        port: 443,
    });
    let url = RawUrl::of(alloc, "https://a.com/")?;
    Ok(Entry::Commit(process, 0, origin, url, reply(kills)))
}

fn entry(alloc: Global, step: &Step) -> Result<Entry, Fail> {
    match step {
        Step::Opened => Ok(Entry::Opened(0)),
        Step::Warm(process) => Ok(Entry::Warm(*process)),
        Step::Order(process, host) => order(alloc, *process, host),
        Step::Said(process, kills) => Ok(said(*process, *kills)),
        Step::Commit(process, kills) => commit(alloc, *process, *kills),
        Step::Crash(process) => Ok(Entry::Crash(*process)),
        Step::Exit(process) => Ok(Entry::Exit(*process)),
    }
}

#[test]
fn each_entry_changes_one_standing_or_none(rt: HostRuntime) -> Result<(), Fail> {
    let mut entries = Vec::new(rt.alloc());
    for (index, row) in ROWS.iter().enumerate() {
        entries.push(entry(rt.alloc(), &row.step)?)?;
        assert!(rt; entries.len() < 100);
        assert_eq!(rt; last_change(&entries), row.change, "after entry {index}");
        for (process, standing) in row.standings.iter().enumerate() {
            assert_eq!(rt;
                standing_of(&entries, process as u32),
                *standing,
                "{process} after entry {index}"
            );
        }
    }
    Ok(())
}
