//! A caller that comes while the turn is held waits for it.
ghost use Rattle.std.specs.Prelude.{◌≡◌};

use super::toy::{Mark, Toy};
use crate::pass::sit;
use crate::{Booked, Desk, Pass, Standing};
use std::sync::Wait;
use std::sync::atomic::{AtomicU64, Ordering};
use std::test::*;
use std::thread::{Threads, join, yield_now};

/// The turn is held.
const HELD: u64 = 1;

/// The other thread goes on to its call.
const CALLING: u64 = 2;

fn wait_for<R: Wait>(rt: &R, stage: &AtomicU64, wanted: u64) {
    for _ in rt.forever() {
        if stage.load(Ordering::SeqCst) == wanted {
            return;
        }
        yield_now();
    }
}

// Holds the turn until the other thread goes on to its call, and a while longer.
fn hold_turn<R: Wait>(
    rt: &R,
    desk: &Desk<Toy<1>>,
    mut pass: Pass<Mark>,
    stage: &AtomicU64,
) -> Pass<Mark>
    requires { pass.desk ≡ desk.now }
    ensures { (result.desk ≡ pass.desk) × (result.weight ≡ pass.weight) }
{
    let mut seat = sit(&mut pass.badge);
    let mut core = desk.take(rt, &mut seat);
    stage.store(HELD, Ordering::SeqCst);
    wait_for(rt, stage, CALLING);
    for _ in 0..1000 {
        yield_now();
    }
    let _ = core.act(None);
    desk.put(&mut seat, core);
    pass.badge = seat.into_badge();
    pass
}

// Makes a call once the turn is held, and tells whether it went well.
fn call_then<R: Wait>(
    rt: &R,
    desk: &Desk<Toy<1>>,
    mut pass: Pass<Mark>,
    stage: &AtomicU64,
) -> (Pass<Mark>, bool)
    requires { pass.desk ≡ desk.now }
    ensures { (result.0.desk ≡ pass.desk) × (result.0.weight ≡ pass.weight) }
{
    wait_for(rt, stage, HELD);
    stage.store(CALLING, Ordering::SeqCst);
    let warm = Mark {
        process: 3,
        standing: Standing::Warm,
    };
    let answer = desk.act(rt, &mut pass, Some(warm));
    (pass, answer.is_ok())
}

// One thread holds the turn while a second one makes a call.
fn call_beside<R: Threads + Wait + Sync>(
    rt: &R,
    desk: &Desk<Toy<1>>,
    caller: Pass<Mark>,
    holder: Pass<Mark>,
) -> ((Pass<Mark>, bool), Pass<Mark>)
    requires { (caller.desk ≡ desk.now) × (holder.desk ≡ desk.now) }
    ensures caller { (result.0.0.desk ≡ caller.desk) × (result.0.0.weight ≡ caller.weight) }
    ensures holder { (result.1.desk ≡ holder.desk) × (result.1.weight ≡ holder.weight) }
{
    let stage = AtomicU64::new(0);
    join(
        rt,
        || -> (Pass<Mark>, bool)
            requires { caller.desk ≡ desk.now }
            ensures { (result.0.desk ≡ caller.desk) × (result.0.weight ≡ caller.weight) }
        { call_then(rt, desk, caller, &stage) },
        || -> Pass<Mark>
            requires { holder.desk ≡ desk.now }
            ensures { (result.desk ≡ holder.desk) × (result.weight ≡ holder.weight) }
        { hold_turn(rt, desk, holder, &stage) },
    )
}

#[test]
fn a_caller_waits_for_the_turn(rt: HostRuntime) -> Result<(), Fail> {
    let Ok((desk, mut pass)) = Desk::new(rt.alloc(), Toy::<1>::new(rt.alloc())?) else {
        panic!(&rt; "no memory")
    };
    let holder = desk.split(&mut pass);
    let ((mut pass, went_well), holder) = call_beside(&rt, &desk, pass, holder);
    assert!(&rt; went_well);
    assert_eq!(&rt; desk.standing(&mut pass, &desk.handle(3)), Standing::Warm);
    desk.meet(&mut pass, holder);
    assert_eq!(&rt; desk.close(pass).marks.len(), 1);
    Ok(())
}
