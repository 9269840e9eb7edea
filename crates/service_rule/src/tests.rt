//! Rows of the service `store`.

use crate::{Asked, PlainStore, ServiceAnswer, ServiceRule};
use history_entry::{RequestText, Rule};
use std::alloc::Global;
use std::test::Fail;

/// An answer as a text: what is said, or the rule of the refusal.
fn shown(alloc: Global, answer: &ServiceAnswer) -> Result<String, Fail> {
    match answer {
        ServiceAnswer::Said(text) => Ok(String::from_str(alloc, text.as_str())?),
        ServiceAnswer::Refused(rule) => Ok(String::from_str(alloc, rule.code())?),
    }
}

fn answer_to(
    alloc: Global,
    service: &str,
    earlier: &[Asked],
    request: &str,
) -> Result<String, Fail> {
    shown(
        alloc,
        &PlainStore.answer(alloc, service, earlier, &[0], request)?,
    )
}

fn asked(alloc: Global, request: &str) -> Result<Asked, Fail> {
    Ok(Asked {
        document: 0,
        request: RequestText::of(alloc, request)?,
    })
}

/// Each is asked after those before it, all of which are accepted.
const IN_TURN: &[(&str, &str)] = &[
    ("get a", "none"),
    ("remove a", "none"),
    ("set a one", "done"),
    ("get a", "some one"),
    ("get A", "none"),
    ("set a two words", "done"),
    ("get a", "some two words"),
    ("set b ", "done"),
    ("get b", "some "),
    ("remove a", "done"),
    ("get a", "none"),
    ("remove a", "none"),
    ("set a three", "done"),
    ("get a", "some three"),
];

#[test]
fn requests_in_turn(rt: HostRuntime) -> Result<(), Fail> {
    let alloc = rt.alloc();
    let mut earlier = Vec::new(alloc);
    for (request, answer) in IN_TURN {
        let given = answer_to(alloc, "store", earlier.as_slice(), request)?;
        assert_eq!(rt; given.as_str(), *answer, "{request}");
        earlier.push(asked(alloc, request)?)?;
    }
    Ok(())
}

/// Keys of 64 and 65 bytes.
const LONGEST_KEY: &str = "get 0123456789012345678901234567890123456789012345678901234567890123";

const LONGER_KEY: &str = "get 01234567890123456789012345678901234567890123456789012345678901234";

const ALONE: &[(&str, &str, &str)] = &[
    ("store", LONGEST_KEY, "none"),
    ("store", LONGER_KEY, "S4"),
    ("store", "get ~", "none"),
    ("store", "get \u{7f}", "S4"),
    ("store", "get !", "none"),
    ("store", "get a b", "S4"),
    ("store", "get ", "S4"),
    ("store", "get", "S4"),
    ("store", "Get a", "S4"),
    ("store", "set a", "S4"),
    ("store", "set  a", "S4"),
    ("store", "set a ", "done"),
    ("store", "remove ", "S4"),
    ("store", "", "S4"),
    ("Store", "get a", "S3"),
    ("storage", "get a", "S3"),
];

#[test]
fn requests_alone(rt: HostRuntime) -> Result<(), Fail> {
    for (service, request, answer) in ALONE {
        let given = answer_to(rt.alloc(), service, &[], request)?;
        assert_eq!(rt; given.as_str(), *answer, "{service}: {request}");
    }
    Ok(())
}

/// Requests that set so many keys.
fn many_keys(alloc: Global, count: u32) -> Result<Vec<Asked>, Fail> {
    let mut earlier = Vec::new(alloc);
    for key in 0..count {
        let request = format!(in alloc; "set {key} value")?;
        earlier.push(asked(alloc, &request)?)?;
    }
    Ok(earlier)
}

const FULL: &[(u32, &str, &str)] = &[
    (255, "set new value", "done"),
    (256, "set new value", "S2"),
    (256, "set 7 other", "done"),
    (256, "get 255", "some value"),
];

#[test]
fn no_more_keys_than_fit(rt: HostRuntime) -> Result<(), Fail> {
    for (count, request, answer) in FULL {
        let earlier = many_keys(rt.alloc(), *count)?;
        let given = answer_to(rt.alloc(), "store", earlier.as_slice(), request)?;
        assert_eq!(rt; given.as_str(), *answer, "{count}: {request}");
    }
    Ok(())
}
