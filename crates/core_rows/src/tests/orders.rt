//! Three tasks that are claimed, and what came of them brought back in every order.

use super::driver::{Came, Do, NAV_0, NAV_1, NAV_2, Row, assert_driven};
use browser_core::{Applied, Kind};
use std::alloc::Global;
use std::process::Abort;
use std::test::Fail;

const SCRIPT: &str = r#"{"start":["https://a.com/","https://b.com/","https://c.com/"]}"#;

/// The order in which the three are brought back, and the history. The processes are numbered in the order of their starts.
const ORDERS: &[([usize; 3], &str)] = &[
    (
        [0, 1, 2],
        "open 0
open 1
open 2
order 0 0 https://a.com https://a.com https://a.com/
order 1 1 https://b.com https://b.com https://b.com/
order 2 2 https://c.com https://c.com https://c.com/
",
    ),
    (
        [0, 2, 1],
        "open 0
open 1
open 2
order 0 0 https://a.com https://a.com https://a.com/
order 2 1 https://c.com https://c.com https://c.com/
order 1 2 https://b.com https://b.com https://b.com/
",
    ),
    (
        [1, 0, 2],
        "open 0
open 1
open 2
order 1 0 https://b.com https://b.com https://b.com/
order 0 1 https://a.com https://a.com https://a.com/
order 2 2 https://c.com https://c.com https://c.com/
",
    ),
    (
        [1, 2, 0],
        "open 0
open 1
open 2
order 1 0 https://b.com https://b.com https://b.com/
order 2 1 https://c.com https://c.com https://c.com/
order 0 2 https://a.com https://a.com https://a.com/
",
    ),
    (
        [2, 0, 1],
        "open 0
open 1
open 2
order 2 0 https://c.com https://c.com https://c.com/
order 0 1 https://a.com https://a.com https://a.com/
order 1 2 https://b.com https://b.com https://b.com/
",
    ),
    (
        [2, 1, 0],
        "open 0
open 1
open 2
order 2 0 https://c.com https://c.com https://c.com/
order 1 1 https://b.com https://b.com https://b.com/
order 0 2 https://a.com https://a.com https://a.com/
",
    ),
];

fn assert_order(
    rt: &impl Abort,
    alloc: Global,
    order: [usize; 3],
    history: &'static str,
) -> Result<(), Fail> {
    let steps = [
        Do::First(3),
        Do::Claim(Kind::Browser, NAV_0),
        Do::Claim(Kind::Renderer, NAV_1),
        Do::Claim(Kind::Loader, NAV_2),
        Do::None(Kind::Browser, 3),
        Do::Bring(order[0], Came::Done, Applied::Entry(3)),
        Do::Bring(order[1], Came::Done, Applied::Entry(4)),
        Do::Bring(order[2], Came::Done, Applied::Entry(5)),
    ];
    let row = Row {
        shows: "what came of three tasks is added in any order",
        script: SCRIPT,
        steps: &steps,
        history,
    };
    assert_driven(rt, alloc, &[row])
}

#[test]
fn what_came_of_three_tasks_is_added_in_every_order(rt: HostRuntime) -> Result<(), Fail> {
    for (order, history) in ORDERS {
        assert_order(&rt, rt.alloc(), *order, *history)?;
    }
    Ok(())
}
