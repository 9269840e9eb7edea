//! What pages and frames' documents do.

use crate::tests::shown::{action_at, shown_actions};
use script_gen::generate;
use std::test::Fail;

/// What the first page of the script of 7 does.
const FIRST_PAGE: &str = "frame https://f0.test/
frame https://f2.test/
frame https://f4.test/
no-cors https://b14.test/r
cors https://b1.test/r
no-cors https://b20.test/r
cors https://b9.test/r
no-cors https://b24.test/r
no-cors https://b27.test/r
cors https://b3.test/r
no-cors https://b9.test/r
no-cors https://b0.test/r
cors https://b12.test/r
cors https://b31.test/r
cors https://b3.test/r
no-cors https://b4.test/r
cors https://b1.test/r
no-cors https://b7.test/r
no-cors https://b31.test/r
cors https://b6.test/r
no-cors https://b10.test/r
no-cors https://b4.test/r
no-cors https://b9.test/r
no-cors https://b7.test/r
no-cors https://b14.test/r
cors https://b13.test/r
no-cors https://b9.test/r
no-cors https://b20.test/r
cors https://b31.test/r
cors https://b12.test/r
no-cors https://b17.test/r
cors https://b6.test/r
cors https://b16.test/r
cors https://b0.test/r
no-cors https://b24.test/r
cors https://b4.test/r
no-cors https://b6.test/r
cors https://b5.test/r
no-cors https://b6.test/r
cors https://b11.test/r
no-cors https://b13.test/r
no-cors https://b17.test/r
cors https://b16.test/r
cors https://b17.test/r
no-cors https://b12.test/r
cors https://b31.test/r
no-cors https://b7.test/r
cors https://b5.test/r
no-cors https://b26.test/r
no-cors https://b17.test/r
no-cors https://b12.test/r
no-cors https://b26.test/r
cors https://b18.test/r
cors https://b16.test/r
no-cors https://b6.test/r
cors https://b6.test/r
no-cors https://b5.test/r
no-cors https://b23.test/r
cors https://b22.test/r
wait
recv
recv
recv
ask store set k v0
";

/// What the last frame's document of the script of 7 does.
const LAST_FRAME: &str = "cors https://b11.test/r
cors https://b23.test/r
no-cors https://b21.test/r
cors https://b26.test/r
cors https://b9.test/r
no-cors https://b21.test/r
no-cors https://b10.test/r
cors https://b9.test/r
cors https://b13.test/r
cors https://b28.test/r
cors https://b11.test/r
no-cors https://b10.test/r
no-cors https://b4.test/r
cors https://b27.test/r
no-cors https://b12.test/r
cors https://b1.test/r
no-cors https://b9.test/r
cors https://b6.test/r
no-cors https://b20.test/r
no-cors https://b19.test/r
cors https://b25.test/r
no-cors https://b28.test/r
cors https://b13.test/r
no-cors https://b12.test/r
no-cors https://b11.test/r
no-cors https://b11.test/r
cors https://b28.test/r
no-cors https://b27.test/r
cors https://b30.test/r
cors https://b18.test/r
no-cors https://b20.test/r
cors https://b1.test/r
cors https://b18.test/r
cors https://b8.test/r
cors https://b6.test/r
cors https://b10.test/r
cors https://b27.test/r
no-cors https://b27.test/r
cors https://b27.test/r
no-cors https://b25.test/r
cors https://b19.test/r
no-cors https://b26.test/r
cors https://b4.test/r
no-cors https://b10.test/r
no-cors https://b15.test/r
no-cors https://b22.test/r
cors https://b17.test/r
cors https://b20.test/r
cors https://b21.test/r
cors https://b6.test/r
cors https://b1.test/r
no-cors https://b14.test/r
no-cors https://b12.test/r
no-cors https://b10.test/r
no-cors https://b25.test/r
cors https://b19.test/r
wait
post parent * done
ask store get k
";

#[test]
fn whole_documents(rt: HostRuntime) -> Result<(), Fail> {
    let alloc = rt.alloc();
    let script = generate(alloc, 7)?;
    assert_eq!(rt; shown_actions(alloc, &script, 0)?.as_str(), FIRST_PAGE);
    assert_eq!(rt; shown_actions(alloc, &script, 15)?.as_str(), LAST_FRAME);
    Ok(())
}

/// A document of the script of 7, the place of an action, and what it is. Pages have the numbers 0 to 7, frames 8 to 15.
const ACTIONS: &[(usize, usize, &str)] = &[
    (1, 0, "frame https://f6.test/"),
    (1, 1, "frame https://f7.test/"),
    (1, 2, "frame https://f1.test/"),
    (1, 3, "no-cors https://b10.test/r"),
    (1, 58, "cors https://b30.test/r"),
    (1, 63, "ask store set k v1"),
    (2, 0, "frame https://f7.test/"),
    (2, 1, "frame https://f3.test/"),
    (2, 2, "frame https://f1.test/"),
    (2, 3, "no-cors https://b3.test/r"),
    (2, 58, "no-cors https://b12.test/r"),
    (2, 63, "ask store set k v2"),
    (3, 0, "frame https://f0.test/"),
    (3, 1, "frame https://f3.test/"),
    (3, 2, "frame https://f7.test/"),
    (3, 3, "cors https://b19.test/r"),
    (3, 58, "cors https://b27.test/r"),
    (3, 63, "ask store set k v3"),
    (4, 0, "frame https://f2.test/"),
    (4, 1, "frame https://f1.test/"),
    (4, 2, "frame https://f3.test/"),
    (4, 3, "no-cors https://b27.test/r"),
    (4, 58, "no-cors https://b31.test/r"),
    (4, 63, "ask store set k v4"),
    (5, 0, "frame https://f5.test/"),
    (5, 1, "frame https://f0.test/"),
    (5, 2, "frame https://f0.test/"),
    (5, 3, "cors https://b13.test/r"),
    (5, 58, "no-cors https://b5.test/r"),
    (5, 63, "ask store set k v5"),
    (6, 0, "frame https://f3.test/"),
    (6, 1, "frame https://f2.test/"),
    (6, 2, "frame https://f3.test/"),
    (6, 3, "no-cors https://b23.test/r"),
    (6, 58, "cors https://b13.test/r"),
    (6, 63, "ask store set k v6"),
    (7, 0, "frame https://f5.test/"),
    (7, 1, "frame https://f1.test/"),
    (7, 2, "frame https://f2.test/"),
    (7, 3, "cors https://b26.test/r"),
    (7, 58, "cors https://b13.test/r"),
    (7, 63, "ask store set k v7"),
    (7, 59, "wait"),
    (7, 60, "recv"),
    (7, 61, "recv"),
    (7, 62, "recv"),
    (8, 0, "no-cors https://b31.test/r"),
    (8, 55, "no-cors https://b3.test/r"),
    (8, 58, "ask store get k"),
    (9, 0, "no-cors https://b26.test/r"),
    (9, 55, "cors https://b16.test/r"),
    (9, 58, "ask store get k"),
    (10, 0, "cors https://b11.test/r"),
    (10, 55, "cors https://b30.test/r"),
    (10, 58, "ask store get k"),
    (11, 0, "no-cors https://b5.test/r"),
    (11, 55, "cors https://b24.test/r"),
    (11, 58, "ask store get k"),
    (12, 0, "no-cors https://b16.test/r"),
    (12, 55, "cors https://b17.test/r"),
    (12, 58, "ask store get k"),
    (13, 0, "cors https://b8.test/r"),
    (13, 55, "cors https://b28.test/r"),
    (13, 58, "ask store get k"),
    (14, 0, "no-cors https://b26.test/r"),
    (14, 55, "cors https://b19.test/r"),
    (14, 58, "ask store get k"),
];

#[test]
fn actions_by_place(rt: HostRuntime) -> Result<(), Fail> {
    let alloc = rt.alloc();
    let script = generate(alloc, 7)?;
    for (document, place, want) in ACTIONS {
        let found = action_at(alloc, &script, *document, *place)?;
        assert!(rt; found.as_str() == *want, "{document} {place}");
    }
    Ok(())
}

/// How many actions each document has, pages first.
const COUNTS: &[usize] = &[
    64, 64, 64, 64, 64, 64, 64, 64, 59, 59, 59, 59, 59, 59, 59, 59,
];

#[test]
fn documents_do_no_more(rt: HostRuntime) -> Result<(), Fail> {
    let script = generate(rt.alloc(), 7)?;
    let found = script
        .resources
        .as_slice()
        .iter()
        .zip(COUNTS)
        .filter(|(resource, count)| resource.actions.as_slice().len() == **count)
        .count();
    assert_eq!(rt; found, 16);
    Ok(())
}

/// A number, the first frame and the first fetch of its first page, and the last fetch of its last frame's document.
const NUMBERS: &[(u64, &str, &str, &str)] = &[
    (
        0,
        "frame https://f6.test/",
        "cors https://b25.test/r",
        "cors https://b17.test/r",
    ),
    (
        1,
        "frame https://f0.test/",
        "cors https://b19.test/r",
        "no-cors https://b31.test/r",
    ),
    (
        8,
        "frame https://f2.test/",
        "no-cors https://b8.test/r",
        "cors https://b1.test/r",
    ),
    (
        4_194_303,
        "frame https://f5.test/",
        "cors https://b31.test/r",
        "no-cors https://b3.test/r",
    ),
    (
        4_294_967_296,
        "frame https://f6.test/",
        "cors https://b25.test/r",
        "cors https://b17.test/r",
    ),
    (
        18_446_744_073_709_551_615,
        "frame https://f5.test/",
        "cors https://b31.test/r",
        "no-cors https://b3.test/r",
    ),
];

#[test]
fn documents_by_number(rt: HostRuntime) -> Result<(), Fail> {
    let alloc = rt.alloc();
    for (number, frame, first, last) in NUMBERS {
        let script = generate(alloc, *number)?;
        assert!(rt;
            action_at(alloc, &script, 0, 0)?.as_str() == *frame,
            "{number}"
        );
        assert!(rt;
            action_at(alloc, &script, 0, 3)?.as_str() == *first,
            "{number}"
        );
        assert!(rt;
            action_at(alloc, &script, 15, 55)?.as_str() == *last,
            "{number}"
        );
    }
    Ok(())
}

/// Numbers that are equal to 7 modulo 2^22.
const EQUAL_NUMBERS: &[u64] = &[4_194_311, 4_294_967_303, 18_446_744_073_705_357_319];

#[test]
fn numbers_of_one_script(rt: HostRuntime) -> Result<(), Fail> {
    let alloc = rt.alloc();
    for number in EQUAL_NUMBERS {
        let script = generate(alloc, *number)?;
        assert!(rt;
            shown_actions(alloc, &script, 0)?.as_str() == FIRST_PAGE,
            "{number}"
        );
        assert!(rt;
            shown_actions(alloc, &script, 15)?.as_str() == LAST_FRAME,
            "{number}"
        );
    }
    Ok(())
}
