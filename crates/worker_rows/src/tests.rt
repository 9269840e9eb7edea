//! Each script is run by one, four and sixteen workers.

mod kinds;
mod standings;
mod works;

use audit_run::{Audit, audit};
use browser_workers::{Core, Gate, Point, Standing, Store, run_workers};
use history::text_of;
use script_input::read_script;
use script_model::{PlainStore, Script};
use std::alloc::Global;
use std::process::Abort;
use std::sync::Wait;
use std::sync::atomic::{AtomicU64, Ordering};
use std::test::Fail;
use std::thread::Threads;

/// Counts the points that workers come to.
#[derive(Drop)]
struct Tally {
    claimed: AtomicU64,
    returned: AtomicU64,
    /// The steps of loads whose process is locked to the first site.
    locked: AtomicU64,
    /// The other steps.
    other: AtomicU64,
}

impl Tally {
    const fn new() -> Tally {
        Tally {
            claimed: AtomicU64::new(0),
            returned: AtomicU64::new(0),
            locked: AtomicU64::new(0),
            other: AtomicU64::new(0),
        }
    }

    /// The tasks claimed and returned, the steps of loads whose process is locked to the first site, and the others.
    fn told(&self) -> (u64, u64, u64, u64) {
        (
            self.claimed.load(Ordering::SeqCst),
            self.returned.load(Ordering::SeqCst),
            self.locked.load(Ordering::SeqCst),
            self.other.load(Ordering::SeqCst),
        )
    }
}

impl Gate for Tally {
    fn at(&self, _: u32, point: Point) {
        let count = match point {
            Point::Claimed(_) => &self.claimed,
            Point::Returned(_) => &self.returned,
            Point::Step(_, Standing::Locked(0)) => &self.locked,
            Point::Step(..) => &self.other,
        };
        count.fetch_add(1, Ordering::SeqCst);
    }
}

/// What a row shows, its script, the number of entries of each of its histories, and what the gate is told.
type Row = (&'static str, &'static str, u32, (u64, u64, u64, u64));

const ROWS: &[Row] = &[
    (
        "nothing to do",
        r#"{"start":[],"resources":[]}"#,
        0,
        (0, 0, 0, 0),
    ),
    (
        "a load is five steps: its head, three pieces and its end",
        r#"{"start":["https://a.com/"],"resources":[{"url":"https://a.com/","actions":[
{"do":"fetch","url":"https://a.com/d","mode":"cors"},{"do":"wait"}]},{"url":"https://a.com/d","body":"hello","cuts":[1,3]}]}"#,
        10,
        (6, 6, 5, 0),
    ),
];

/// The text of the history that so many workers make of a script.
fn text_by<R: Threads + Wait + Sync>(
    rt: &R,
    alloc: Global,
    script: &Script,
    workers: u32,
    tally: &Tally,
) -> Result<Vec<u8>, Fail> {
    if workers == 0 || workers > 16 {
        return Err(Fail::new("there are one to sixteen workers"));
    }
    let core = Core::new(alloc, script, Store::new(alloc))?;
    let core = run_workers(rt, alloc, script, core, workers, tally)?;
    Ok(text_of(alloc, script.policy, &core.close())?)
}

/// Runs the script of a row by so many workers, and audits what they made.
fn assert_run<R: Threads + Wait + Abort + Sync>(
    rt: &R,
    alloc: Global,
    row: &Row,
    workers: u32,
) -> Result<(), Fail> {
    let (shows, script, entries, told) = row;
    let script = read_script(alloc, script.as_bytes())?;
    let tally = Tally::new();
    let text = text_by(rt, alloc, &script, workers, &tally)?;
    assert_eq!(rt; tally.told(), *told, "{shows}, by {workers}");
    let answer = audit(alloc, script, &PlainStore, text.as_slice())?;
    assert_eq!(rt; answer, Audit::Legal(*entries), "{shows}, by {workers}");
    Ok(())
}

#[test]
fn any_number_of_workers_finishes(rt: HostRuntime) -> Result<(), Fail> {
    for row in ROWS {
        for workers in [1, 4, 16] {
            assert_run(&rt, rt.alloc(), row, workers)?;
        }
    }
    Ok(())
}
