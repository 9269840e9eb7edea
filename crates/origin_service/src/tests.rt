//! Rows of the service `store`, asked through its trait.

ghost use Rattle.std.specs.Prelude.{◌+◌, ◌-◌, ◌<◌, ◌≤◌, ◌^◌, List, length, ℕ};
ghost use Rattle.page_origin.specs.declared.origin.TupleOrigin.{TupleOrigin};
ghost use Rattle.origin_service.specs.Shelves.{kept_by};

use crate::{Service, Store};
use service_rule::ServiceAnswer;
use std::alloc::Global;
use std::process::Abort;
use std::test::Fail;
use test_support::tuple_origin;

// An answer as a text: what is said, or the rule of the refusal.
fn shown(alloc: Global, answer: &ServiceAnswer) -> Result<String, Fail> {
    match answer {
        ServiceAnswer::Said(text) => Ok(String::from_str(alloc, text.as_str())?),
        ServiceAnswer::Refused(rule) => Ok(String::from_str(alloc, rule.code())?),
    }
}

// The answer to a request of a page's origin.
#[tactic(auto, using(crate::proofs::Placing::gained_few))]
fn answer_to(
    alloc: Global,
    store: &mut Store,
    page: &str,
    service: &str,
    request: &str,
) -> Result<String, Fail>
    requires { (name : List ℕ) (tuple : TupleOrigin) → length (kept_by store.old name tuple) < 2 ^ 32 - 1 }
    ensures { (name : List ℕ) (tuple : TupleOrigin) → length (kept_by store.new name tuple) ≤ length (kept_by store.old name tuple) + 1 }
{
    let origin = tuple_origin(alloc, page)?;
    let answer = store.ask(alloc, service, &origin, 0, &[0], request)?;
    shown(alloc, &answer)
}

// Who asks which service what, and the answer.
type Row = (&'static str, &'static str, &'static str, &'static str);

// The answers to requests in turn: each is asked after those before it.
fn assert_answers(
    rt: &impl Abort,
    alloc: Global,
    store: &mut Store,
    rows: &[Row],
) -> Result<(), Fail>
    requires { (name : List ℕ) (tuple : TupleOrigin) → length (kept_by store.old name tuple) ≤ 1000 }
{
    if rows.len() > 1000 {
        return Err(Fail::new("too many rows"));
    }
    for (page, service, request, answer) in rows {
        let given = answer_to(alloc, store, page, service, request)?;
        assert_eq!(rt; given.as_str(), *answer, "{page} asks {service}: {request}");
    }
    Ok(())
}

const PAGE: &str = "https://a.com/";

// A page of the same site.
const NEIGHBOUR: &str = "https://sub.a.com/";

const IN_TURN: &[Row] = &[
    (PAGE, "store", "get k", "none"),
    (PAGE, "store", "set k one", "done"),
    (NEIGHBOUR, "store", "get k", "none"),
    (PAGE, "store", "set k two words", "done"),
    (PAGE, "store", "get k", "some two words"),
    (NEIGHBOUR, "store", "set k ", "done"),
    (PAGE, "store", "remove k", "done"),
    (PAGE, "store", "remove k", "none"),
    (PAGE, "store", "get k", "none"),
    (NEIGHBOUR, "store", "get k", "some "),
    (PAGE, "store", "set k", "S4"),
    (PAGE, "locks", "get k", "S3"),
    ("https://a.com:444/", "store", "get k", "none"),
    // A key that was removed is set again.
    (PAGE, "store", "set k three", "done"),
    (PAGE, "store", "get k", "some three"),
    (PAGE, "store", "get K", "none"),
    // The blanks of a value are its own.
    (PAGE, "store", "set k  four ", "done"),
    (PAGE, "store", "get k", "some  four "),
    (PAGE, "store", "set k \u{e9}", "done"),
    (PAGE, "store", "get k", "some \u{e9}"),
];

#[test]
fn requests_in_turn(rt: HostRuntime) -> Result<(), Fail> {
    let mut store = Store::new(rt.alloc());
    assert_answers(&rt, rt.alloc(), &mut store, IN_TURN)
}

// Each origin has keys of its own, and an origin is a scheme, a host and a port.
const ORIGINS: &[Row] = &[
    (PAGE, "store", "set k page", "done"),
    ("http://a.com/", "store", "get k", "none"),
    ("http://a.com/", "store", "set k scheme", "done"),
    ("https://b.com/", "store", "get k", "none"),
    ("https://b.com/", "store", "set k host", "done"),
    ("https://a.com:444/", "store", "get k", "none"),
    ("https://a.com:444/", "store", "set k port", "done"),
    (NEIGHBOUR, "store", "get k", "none"),
    (NEIGHBOUR, "store", "set k neighbour", "done"),
    ("http://a.com:443/", "store", "get k", "none"),
    (PAGE, "store", "get k", "some page"),
    ("http://a.com/", "store", "get k", "some scheme"),
    ("https://b.com/", "store", "get k", "some host"),
    ("https://a.com:444/", "store", "get k", "some port"),
    (NEIGHBOUR, "store", "get k", "some neighbour"),
    // The path is no part of an origin, and a scheme's own port is that of no port.
    ("https://a.com/other?x", "store", "get k", "some page"),
    ("https://a.com:443/", "store", "get k", "some page"),
    ("http://a.com:80/", "store", "get k", "some scheme"),
    // What one origin removes stays with the others.
    (PAGE, "store", "remove k", "done"),
    ("https://a.com:443/", "store", "get k", "none"),
    ("http://a.com/", "store", "get k", "some scheme"),
    ("https://a.com:444/", "store", "remove k", "done"),
    (NEIGHBOUR, "store", "get k", "some neighbour"),
];

#[test]
fn origins_are_apart(rt: HostRuntime) -> Result<(), Fail> {
    let mut store = Store::new(rt.alloc());
    assert_answers(&rt, rt.alloc(), &mut store, ORIGINS)
}

// Requests with keys of 64 and 65 bytes, and others that have a form or none. What was refused leaves nothing.
const FORMS: &[Row] = &[
    (
        PAGE,
        "store",
        "set 0123456789012345678901234567890123456789012345678901234567890123 v",
        "done",
    ),
    (
        PAGE,
        "store",
        "get 0123456789012345678901234567890123456789012345678901234567890123",
        "some v",
    ),
    (
        PAGE,
        "store",
        "get 012345678901234567890123456789012345678901234567890123456789012",
        "none",
    ),
    (
        PAGE,
        "store",
        "remove 0123456789012345678901234567890123456789012345678901234567890123",
        "done",
    ),
    (
        PAGE,
        "store",
        "set 01234567890123456789012345678901234567890123456789012345678901234 v",
        "S4",
    ),
    (
        PAGE,
        "store",
        "get 01234567890123456789012345678901234567890123456789012345678901234",
        "S4",
    ),
    (
        PAGE,
        "store",
        "remove 01234567890123456789012345678901234567890123456789012345678901234",
        "S4",
    ),
    (
        PAGE,
        "store",
        "get 0123456789012345678901234567890123456789012345678901234567890123",
        "none",
    ),
    // Keys have visible bytes alone.
    (PAGE, "store", "set ! first", "done"),
    (PAGE, "store", "set ~ last", "done"),
    (PAGE, "store", "get !", "some first"),
    (PAGE, "store", "get ~", "some last"),
    (PAGE, "store", "get \u{7f}", "S4"),
    (PAGE, "store", "get \t", "S4"),
    (PAGE, "store", "set \u{e9} v", "S4"),
    // One blank stands between the parts.
    (PAGE, "store", "", "S4"),
    (PAGE, "store", "get", "S4"),
    (PAGE, "store", "get ", "S4"),
    (PAGE, "store", "get  k", "S4"),
    (PAGE, "store", "get k ", "S4"),
    (PAGE, "store", " get k", "S4"),
    (PAGE, "store", "set", "S4"),
    (PAGE, "store", "set ", "S4"),
    (PAGE, "store", "set k", "S4"),
    (PAGE, "store", "set  k v", "S4"),
    (PAGE, "store", "set\tk v", "S4"),
    (PAGE, "store", "remove", "S4"),
    (PAGE, "store", "remove ", "S4"),
    (PAGE, "store", "remove k v", "S4"),
    (PAGE, "store", "Get k", "S4"),
    (PAGE, "store", "delete k", "S4"),
    (PAGE, "store", "get k", "none"),
];

#[test]
fn requests_have_a_form(rt: HostRuntime) -> Result<(), Fail> {
    let mut store = Store::new(rt.alloc());
    assert_answers(&rt, rt.alloc(), &mut store, FORMS)
}

// `store` alone is there, and a request to another service leaves nothing in it.
const SERVICES: &[Row] = &[
    (PAGE, "locks", "set k v", "S3"),
    (PAGE, "Store", "set k v", "S3"),
    (PAGE, "stores", "set k v", "S3"),
    (PAGE, "stor", "set k v", "S3"),
    (PAGE, "store ", "set k v", "S3"),
    (PAGE, "", "set k v", "S3"),
    // The service is asked for before the form of the request.
    (PAGE, "locks", "nothing", "S3"),
    (PAGE, "store", "nothing", "S4"),
    (PAGE, "store", "get k", "none"),
    (PAGE, "store", "set k v", "done"),
    (PAGE, "locks", "remove k", "S3"),
    (PAGE, "store", "get k", "some v"),
];

#[test]
fn other_services_are_refused(rt: HostRuntime) -> Result<(), Fail> {
    let mut store = Store::new(rt.alloc());
    assert_answers(&rt, rt.alloc(), &mut store, SERVICES)
}

// Behind the first 256 keys, 0 to 255, of which 256 was refused.
const FULL: &[Row] = &[
    (PAGE, "store", "get 255", "some value"),
    (PAGE, "store", "get 256", "none"),
    // A key that is there is set again, and takes no second place.
    (PAGE, "store", "set 7 other", "done"),
    (PAGE, "store", "get 7", "some other"),
    (PAGE, "store", "set new one", "S2"),
    // To remove a key that is not there makes no room.
    (PAGE, "store", "remove new", "none"),
    (PAGE, "store", "set new two", "S2"),
    // To remove one that is there makes room for one.
    (PAGE, "store", "remove 7", "done"),
    (PAGE, "store", "set new three", "done"),
    (PAGE, "store", "get new", "some three"),
    (PAGE, "store", "set 7 again", "S2"),
    (PAGE, "store", "get 7", "none"),
    (PAGE, "store", "set 0 first", "done"),
    // Another origin has room of its own.
    (NEIGHBOUR, "store", "set 256 value", "done"),
    (NEIGHBOUR, "store", "get 256", "some value"),
    (PAGE, "store", "get 256", "none"),
];

#[test]
fn no_more_keys_than_fit(rt: HostRuntime) -> Result<(), Fail> {
    let alloc = rt.alloc();
    let mut store = Store::new(alloc);
    for key in 0..257u32 {
        let request = format!(in alloc; "set {key} value")?;
        let given = answer_to(alloc, &mut store, PAGE, "store", &request)?;
        let fits = if key < 256 { "done" } else { "S2" };
        assert_eq!(rt; given.as_str(), fits, "{key}");
    }
    assert_answers(&rt, alloc, &mut store, FULL)
}

// A value has no limit of its own.
#[test]
fn a_long_value(rt: HostRuntime) -> Result<(), Fail> {
    let alloc = rt.alloc();
    let mut store = Store::new(alloc);
    let value = "v".repeat(alloc, 2000)?;
    let request = format!(in alloc; "set k {value}")?;
    let set = answer_to(alloc, &mut store, PAGE, "store", &request)?;
    assert_eq!(rt; set.as_str(), "done");
    let got = answer_to(alloc, &mut store, PAGE, "store", "get k")?;
    let want = format!(in alloc; "some {value}")?;
    assert_eq!(rt; got.as_str(), want.as_str());
    Ok(())
}
