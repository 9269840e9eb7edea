//! Of which kind the first task of each of three workers is, where a task of each kind is ready.

ghost use Rattle.std.specs.Prelude.{◌≡◌};

use browser_workers::{Core, Gate, Point, Store, TaskKey, run_workers};
use script_input::read_script;
use std::alloc::Global;
use std::sync::atomic::{AtomicU64, Ordering};
use std::test::Fail;
use std::thread::yield_now;

/// The turns that a worker is held for at most.
const TURNS: u64 = 100_000_000;

const BROWSER: u64 = 1;

const RENDERER: u64 = 2;

const LOADER: u64 = 3;

fn kind_of(key: TaskKey) -> u64 {
    match key {
        TaskKey::Browser(_) => BROWSER,
        TaskKey::Act(_) => RENDERER,
        TaskKey::Load(_) => LOADER,
    }
}

/// Notes of which kind the first task of each worker is, and holds each with it until all three have one.
#[derive(Drop)]
struct FirstTasks {
    first: AtomicU64,
    second: AtomicU64,
    third: AtomicU64,
    claimed: AtomicU64,
}

impl FirstTasks {
    fn new() -> FirstTasks {
        FirstTasks {
            first: AtomicU64::new(0),
            second: AtomicU64::new(0),
            third: AtomicU64::new(0),
            claimed: AtomicU64::new(0),
        }
    }

    fn of(&self, worker: u32) -> &AtomicU64 {
        match worker {
            0 => &self.first,
            1 => &self.second,
            _ => &self.third,
        }
    }

    fn hold(&self) {
        for _ in 0..TURNS {
            if self.claimed.load(Ordering::SeqCst) >= 3 {
                return;
            }
            yield_now();
        }
    }

    fn told(&self) -> (u64, u64, u64) {
        (
            self.first.load(Ordering::SeqCst),
            self.second.load(Ordering::SeqCst),
            self.third.load(Ordering::SeqCst),
        )
    }
}

impl Gate for FirstTasks {
    fn at(&self, worker: u32, point: Point) {
        let Point::Claimed(key) = point else {
            return;
        };
        let noted = self
            .of(worker)
            .compare_exchange(0, kind_of(key), Ordering::SeqCst, Ordering::SeqCst);
        if noted.is_ok() {
            self.claimed.fetch_add(1, Ordering::SeqCst);
            self.hold();
        }
    }
}

/// After five entries of its run a navigation may be ordered, the page has one more action, and its request waits for its response.
const SCRIPT: &str = r#"{"start":["https://a.com/"],"resources":[{"url":"https://a.com/","actions":[
{"do":"fetch","url":"https://a.com/d","mode":"cors"},{"do":"frame","src":"https://a.com/f"},
{"do":"post","frame":"self","target":"*","text":"hi"}]},{"url":"https://a.com/d","body":"x"}]}"#;

/// Adds the first five entries of a core's run.
fn begin(alloc: Global, core: &mut Core<'_, Store>) -> Result<(), Fail>
    ensures { core.new.script ≡ core.old.script }
{
    core.first(alloc)?;
    core.first(alloc)?;
    core.first(alloc)?;
    core.first(alloc)?;
    core.first(alloc)?;
    Ok(())
}

#[test]
fn each_worker_asks_for_its_own_kind(rt: HostRuntime) -> Result<(), Fail> {
    let alloc = rt.alloc();
    let script = read_script(alloc, SCRIPT.as_bytes())?;
    let mut core = Core::new(alloc, &script, Store::new(alloc))?;
    begin(alloc, &mut core)?;
    let gate = FirstTasks::new();
    let core = run_workers(&rt, alloc, &script, core, 3, &gate)?;
    assert!(rt; core.finished(alloc)?);
    assert_eq!(rt; gate.told(), (BROWSER, RENDERER, LOADER));
    Ok(())
}
