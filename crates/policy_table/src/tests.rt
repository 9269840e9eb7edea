//! Rows of desks that share a toy.
ghost use Rattle.std.specs.Prelude.{◌≡◌, ◌<◌, IsOk};
ghost use Rattle.policy_table.specs.declared.standing.TheConstants.{PROCESSES};

use crate::{Desk, NoMemory, PROCESSES, Pass, Standing};
use std::sync::Wait;
use std::test::*;
use std::thread::{Threads, join};

mod held_turn;
mod toy;

use toy::{Mark, Toy};

/// A mark on a process.
fn mark(process: u32, standing: Standing) -> Mark
    ensures { result ≡ record { process = process; standing = standing } }
{
    Mark { process, standing }
}

#[test]
fn a_death_is_seen_by_all(rt: HostRuntime) -> Result<(), Fail> {
    let Ok((desk, mut pass)) = Desk::new(rt.alloc(), Toy::<2>::new(rt.alloc())?) else {
        panic!(&rt; "no memory")
    };
    let row = desk.handle(3);
    let mut early = desk.split(&mut pass);
    for standing in [Standing::Locked(0), Standing::Dead] {
        desk.act(&rt, &mut pass, Some(mark(3, standing)))
            .expect(&rt, "there is room");
        let locked = standing == Standing::Locked(0);
        assert_eq!(&rt; desk.standing(&mut pass, &row), standing);
        assert_eq!(&rt; desk.can_access(&mut pass, &row, 0), locked);
        assert_eq!(&rt; desk.can_access(&mut pass, &row, 1), false);
    }
    desk.meet(&mut early, pass);
    assert_eq!(&rt; early.weight(), 16);
    assert_eq!(&rt; desk.standing(&mut early, &row), Standing::Dead);
    assert_eq!(&rt; desk.close(early).marks.len(), 2);
    Ok(())
}

// A call that adds nothing finds memory always, and leaves the places of the pass's own entries.
fn idle<R: Wait, const ROOM: usize>(
    rt: &R,
    desk: &Desk<Toy<ROOM>>,
    pass: &mut Pass<Mark>,
) -> Result<(), NoMemory>
    requires { pass.old.desk ≡ desk.now }
    ensures well { IsOk result }
    ensures mine { pass.new.mine ≡ pass.old.mine }
    ensures kept { (pass.new.desk ≡ pass.old.desk) × (pass.new.weight ≡ pass.old.weight) }
{
    desk.act(rt, pass, None)
}

#[test]
fn without_memory_nothing_is_added(rt: HostRuntime) -> Result<(), Fail> {
    let Ok((desk, mut pass)) = Desk::new(rt.alloc(), Toy::<1>::new(rt.alloc())?) else {
        panic!(&rt; "no memory")
    };
    let row = desk.handle(7);
    let warm = desk.act(&rt, &mut pass, Some(mark(7, Standing::Warm)));
    let dead = desk.act(&rt, &mut pass, Some(mark(7, Standing::Dead)));
    let still = idle(&rt, &desk, &mut pass);
    assert_eq!(&rt;
        (warm.is_ok(), dead.is_ok(), still.is_ok()),
        (true, false, true)
    );
    assert_eq!(&rt; desk.standing(&mut pass, &row), Standing::Warm);
    assert_eq!(&rt; desk.close(pass).marks.len(), 1);
    Ok(())
}

/// A toy with room for the marks of two threads.
type LongToy = Toy<2002>;

// Marks a process so many times.
fn mark_often<R: Wait>(
    rt: &R,
    desk: &Desk<LongToy>,
    mut pass: Pass<Mark>,
    mark: Mark,
    times: u32,
) -> Pass<Mark>
    requires desk { pass.desk ≡ desk.now }
    requires small { mark.process < PROCESSES }
    ensures { (result.desk ≡ pass.desk) × (result.weight ≡ pass.weight) }
{
    for _ in 0..times {
        let _ = desk.act(rt, &mut pass, Some(mark));
    }
    pass
}

// Looks at a process so many times, and counts how often it has this standing.
fn look_often(
    desk: &Desk<LongToy>,
    mut pass: Pass<Mark>,
    mark: Mark,
    times: u32,
) -> (Pass<Mark>, u32)
    requires desk { pass.desk ≡ desk.now }
    requires small { mark.process < PROCESSES }
    ensures { (result.0.desk ≡ pass.desk) × (result.0.weight ≡ pass.weight) }
{
    let row = desk.handle(mark.process);
    let mut count = 0u32;
    for _ in 0..times {
        if desk.standing(&mut pass, &row) == mark.standing {
            count = count.saturating_add(1);
        }
    }
    (pass, count)
}

// One thread looks at a process while a second one marks another.
fn look_beside<R: Threads + Wait + Sync>(
    rt: &R,
    desk: &Desk<LongToy>,
    looker: Pass<Mark>,
    looked: Mark,
    marker: Pass<Mark>,
    marked: Mark,
) -> ((Pass<Mark>, u32), Pass<Mark>)
    requires desk { (looker.desk ≡ desk.now) × (marker.desk ≡ desk.now) }
    requires small { (looked.process < PROCESSES) × (marked.process < PROCESSES) }
    ensures looker { (result.0.0.desk ≡ looker.desk) × (result.0.0.weight ≡ looker.weight) }
    ensures marker { (result.1.desk ≡ marker.desk) × (result.1.weight ≡ marker.weight) }
{
    join(
        rt,
        move || -> (Pass<Mark>, u32)
            requires { (looker.desk ≡ desk.now) × (looked.process < PROCESSES) }
            ensures { (result.0.desk ≡ looker.desk) × (result.0.weight ≡ looker.weight) }
        { look_often(desk, looker, looked, 1000) },
        move || -> Pass<Mark>
            requires { (marker.desk ≡ desk.now) × (marked.process < PROCESSES) }
            ensures { (result.desk ≡ marker.desk) × (result.weight ≡ marker.weight) }
        { mark_often(rt, desk, marker, marked, 1000) },
    )
}

#[test]
fn a_second_thread_changes_its_own_row(rt: HostRuntime) -> Result<(), Fail> {
    let Ok((desk, mut pass)) = Desk::new(rt.alloc(), LongToy::new(rt.alloc())?) else {
        panic!(&rt; "no memory")
    };
    for process in [3, 4] {
        desk.act(&rt, &mut pass, Some(mark(process, Standing::Locked(0))))
            .expect(&rt, "there is room");
    }
    let marker = desk.split(&mut pass);
    let mut unmet = desk.note(&mut pass);
    let three = mark(3, Standing::Locked(0));
    let five = mark(5, Standing::Dead);
    let four = mark(4, Standing::Dead);
    let ((pass, found), marker) = look_beside(&rt, &desk, pass, three, marker, five);
    assert_eq!(&rt; found, 1000);

    // A pass that is met with nobody sees what a joined thread has done.
    let ((mut pass, found), marker) = look_beside(&rt, &desk, pass, three, marker, four);
    assert_eq!(&rt; found, 1000);
    let rows = [
        (3, Standing::Locked(0)),
        (4, Standing::Dead),
        (5, Standing::Dead),
    ];
    for (process, standing) in rows {
        assert_eq!(&rt; desk.standing(&mut unmet, &desk.handle(process)), standing);
    }
    desk.meet(&mut pass, marker);
    desk.meet(&mut pass, unmet);
    assert_eq!(&rt; desk.close(pass).marks.len(), 2002);
    Ok(())
}

#[test]
fn text_of_the_error(rt: HostRuntime) -> Result<(), Fail> {
    let text = format!(in rt.alloc(); "{NoMemory}")?;
    assert_eq!(&rt; text.as_str(), "no memory");
    Ok(())
}
