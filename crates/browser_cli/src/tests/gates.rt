//! Workers that are held until others have come to a point.

use super::PAGE_TEXT;
use crate::{Gate, Point, browse};
use browser_io::{MemSink, MemSource};
use browser_workers::{Standing, TaskKey};
use std::alloc::Global;
use std::sync::Wait;
use std::sync::atomic::{AtomicBool, AtomicU64, Ordering};
use std::test::Fail;
use std::thread::{Threads, yield_now};

/// The turns that a worker is held for at most.
const TURNS: u64 = 100_000_000;

// The text of a run with four workers.
fn text_of_run<R: Threads + Wait + Sync, G: Gate + Sync>(
    rt: &R,
    alloc: Global,
    script: &str,
    gate: &G,
) -> Result<String, Fail> {
    let bytes = script.as_bytes().to_vec(alloc)?;
    let mut source = MemSource::new(bytes, 4096, Vec::new(alloc));
    let mut sink = MemSink::new(alloc, 8192, 8192, Vec::new(alloc))?;
    let status = browse(rt, alloc, &["run", "4"], &mut source, &mut sink, gate);
    if status.exit_code() != 0 {
        return Err(Fail::new("the script does not run"));
    }
    Ok(String::from_utf8_lossy(alloc, sink.written())?)
}

// Waits until a word is as large as wanted, and says whether that came in time.
fn comes(word: &AtomicU64, wanted: u64) -> bool {
    for _ in 0..TURNS {
        if word.load(Ordering::SeqCst) >= wanted {
            return true;
        }
        yield_now();
    }
    false
}

/// Holds the worker that claims the load of request 0 until another one has brought back the whole of another load.
#[derive(Drop)]
struct HeldLoad {
    // The first load that came back, and the first one of another worker than that.
    first: AtomicU64,
    second: AtomicU64,
    held: AtomicBool,
    // The load that came back first of another worker than the one that is held.
    before: AtomicU64,
}

// One more than a worker's number in the upper half, and a request in the lower one; 0 stands for none.
fn mark(worker: u32, request: u32) -> u64 {
    (worker as u64 + 1) << 32 | request as u64
}

fn worker_of(mark: u64) -> u64 {
    mark >> 32
}

impl HeldLoad {
    fn new() -> HeldLoad {
        HeldLoad {
            first: AtomicU64::new(0),
            second: AtomicU64::new(0),
            held: AtomicBool::new(false),
            before: AtomicU64::new(0),
        }
    }

    // Notes the first load that any worker brought back, and the first of another worker than that.
    fn note(&self, mark: u64) {
        match self
            .first
            .compare_exchange(0, mark, Ordering::SeqCst, Ordering::SeqCst)
        {
            Err(first) if worker_of(first) != worker_of(mark) => {
                let _ = self
                    .second
                    .compare_exchange(0, mark, Ordering::SeqCst, Ordering::SeqCst);
            }
            _ => {}
        }
    }

    // The first load that another worker brought back; 0 where there is none.
    fn by_another(&self, worker: u32) -> u64 {
        let first = self.first.load(Ordering::SeqCst);
        if worker_of(first) != worker as u64 + 1 {
            first
        } else {
            self.second.load(Ordering::SeqCst)
        }
    }

    fn hold(&self, worker: u32) {
        self.held.store(true, Ordering::SeqCst);
        for _ in 0..TURNS {
            let mark = self.by_another(worker);
            if mark != 0 {
                self.before.store(mark, Ordering::SeqCst);
                return;
            }
            yield_now();
        }
    }
}

impl Gate for HeldLoad {
    fn at(&self, worker: u32, point: Point) {
        match point {
            Point::Claimed(TaskKey::Load(0)) => self.hold(worker),
            Point::Returned(TaskKey::Load(request)) => self.note(mark(worker, request)),
            _ => {}
        }
    }
}

// A shop with an ad, under thirty suffix rules: an image, a program, a font and its own cart are loaded at the same time.
const SHOP: &str =
    r#"{"suffixes":"com\nnet\norg\nio\ndev\nuk\nco.uk\norg.uk\nac.uk\ngov.uk\nde\nfr\nes\nit\njp\nco.jp\nac.jp\nau\ncom.au\nnz\nco.nz\nbr\ncom.br\nin\nco.in\nza\nco.za\nck\n*.ck\n!www.ck","start":["https://www.shop.co.uk/"],"resources":[
{"url":"https://www.shop.co.uk/","actions":[{"do":"frame","src":"https://ads.adnet.com/"},
{"do":"fetch","url":"https://cdn.pics.net/a.png","mode":"no-cors"},
{"do":"fetch","url":"https://cdn.pics.net/a.js","mode":"no-cors"},
{"do":"fetch","url":"https://fonts.type.org/f","mode":"cors"},
{"do":"fetch","url":"https://www.shop.co.uk/cart","mode":"cors"},{"do":"wait"},
{"do":"ask","service":"store","request":"set cart 1"},{"do":"ask","service":"store","request":"get cart"}]},
{"url":"https://cdn.pics.net/a.png","headers":[["Content-Type","image/png"]],"body":"PNG"},
{"url":"https://cdn.pics.net/a.js","headers":[["Content-Type","text/javascript"]],"body":"go()","cuts":[2]},
{"url":"https://fonts.type.org/f","headers":[["Content-Type","font/woff2"],["Access-Control-Allow-Origin","*"]],"body":"F"},
{"url":"https://www.shop.co.uk/cart","headers":[["Content-Type","application/json"]],"body":"{\"n\":1}"}]}"#;

// The place of the first line that begins so.
fn place_of(text: &str, words: &str) -> Option<usize> {
    text.lines().position(|line| line.starts_with(words))
}

// While one worker has the load of request 0 and waits, another one brings back a whole load. A run of one thread, and one that
// waits for each task before it hands out the next, never comes to that.
#[test]
fn a_load_is_done_beside_another(rt: HostRuntime) -> Result<(), Fail> {
    let alloc = rt.alloc();
    let gate = HeldLoad::new();
    let text = text_of_run(&rt, alloc, SHOP, &gate)?;
    let before = gate.before.load(Ordering::SeqCst);
    assert!(rt; gate.held.load(Ordering::SeqCst));
    assert!(rt; before != 0);
    let end = format!(in alloc; "end {} ", before & 0xffff_ffff)?;
    let head = place_of(text.as_str(), "head 0 ");
    let end = place_of(text.as_str(), end.as_str());
    assert!(rt; head.is_some() && end.is_some() && end < head, "{text}");
    Ok(())
}

/// Lets the process of a request die between two steps of its load.
#[derive(Drop)]
struct DyingHost {
    acts_claimed: AtomicU64,
    acts_returned: AtomicU64,
    locked: AtomicU64,
    dead: AtomicU64,
    other: AtomicU64,
    is_late: AtomicBool,
}

impl DyingHost {
    fn new() -> DyingHost {
        DyingHost {
            acts_claimed: AtomicU64::new(0),
            acts_returned: AtomicU64::new(0),
            locked: AtomicU64::new(0),
            dead: AtomicU64::new(0),
            other: AtomicU64::new(0),
            is_late: AtomicBool::new(false),
        }
    }

    fn hold(&self, word: &AtomicU64, wanted: u64) {
        if !comes(word, wanted) {
            self.is_late.store(true, Ordering::SeqCst);
        }
    }
}

impl Gate for DyingHost {
    fn at(&self, _: u32, point: Point) {
        match point {
            Point::Claimed(TaskKey::Act(0)) => {
                if self.acts_claimed.fetch_add(1, Ordering::SeqCst) == 1 {
                    self.hold(&self.locked, 1);
                }
            }
            Point::Returned(TaskKey::Act(0)) => {
                self.acts_returned.fetch_add(1, Ordering::SeqCst);
            }
            Point::Step(0, Standing::Locked(0)) => {
                self.locked.fetch_add(1, Ordering::SeqCst);
                self.hold(&self.acts_returned, 2);
            }
            Point::Step(0, Standing::Dead) => {
                self.dead.fetch_add(1, Ordering::SeqCst);
            }
            Point::Step(_, _) => {
                self.other.fetch_add(1, Ordering::SeqCst);
            }
            _ => {}
        }
    }
}

// A page that reads from another site and crashes.
const CRASHING: &str = r#"{"start":["https://a.com/"],"resources":[
{"url":"https://a.com/","actions":[{"do":"fetch","url":"https://b.com/x","mode":"no-cors"},{"do":"crash"}]},
{"url":"https://b.com/x","headers":[["Content-Type","text/html"]],"body":"<!-- x --><hTmL","cuts":[1,2,3,4,5,6,7,8,9,10,11,12,13,14]}]}"#;

// A worker asks before each step of a load how the process stands: where it died meanwhile, the load ends.
#[test]
fn a_load_ends_with_its_process(rt: HostRuntime) -> Result<(), Fail> {
    let alloc = rt.alloc();
    let gate = DyingHost::new();
    let text = text_of_run(&rt, alloc, CRASHING, &gate)?;
    assert!(rt; !gate.is_late.load(Ordering::SeqCst));
    let steps = [&gate.locked, &gate.dead, &gate.other];
    for (steps, wanted) in steps.into_iter().zip([1, 1, 0]) {
        assert_eq!(rt; steps.load(Ordering::SeqCst), wanted);
    }
    let wanted = format!(in alloc;
        "{PAGE_TEXT}said 0 0 0 0 fetch no-cors https://a.com 68747470733a2f2f622e636f6d2f78 => ok\ncrash 0\n"
    )?;
    assert_eq!(rt; text.as_str(), wanted.as_str());
    Ok(())
}
