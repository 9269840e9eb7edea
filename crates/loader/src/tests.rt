//! Steps of loads over a wire in memory: a page of another site that is asked for in mode no-cors, and requests in mode cors.

ghost use Rattle.std.specs.Prelude.{◌≡◌, true, IfOk};
ghost use Rattle.browser_io.specs.Scripted.{IsCutFrom};
ghost use Rattle.loader.specs.Loads.{taken_count};

use crate::{Judge, Load, ScriptWire, Step};
use browser_io::MAX_PIECE;
use script_model::{Head, Mode, Origin, Policy, Rules, SiteRules};
use std::alloc::{AllocError, Global};
use std::fmt::Write;
use std::test::Fail;
use test_support::{head, origin, web_chain};

fn are_cuts(from: u32, size: usize, cuts: &[u32]) -> bool
    ensures { result ≡ true → IsCutFrom from size cuts.now }
{
    match cuts {
        [] => true,
        [cut, later @ ..] => {
            from < *cut && (*cut as usize) < size && are_cuts(*cut, size, later)
        }
    }
}

/// A wire of these bytes.
fn wire<'a>(
    body: &'a [u8],
    cuts: &'a [u32],
    fail_after: Option<u32>,
) -> Result<ScriptWire<'a>, Fail> {
    let sent = fail_after.unwrap_or(0) as usize;
    if body.len() > MAX_PIECE || sent > body.len() || !are_cuts(0, body.len(), cuts) {
        return Err(Fail::new("no body of a wire"));
    }
    Ok(ScriptWire::new(body, cuts, fail_after))
}

/// Names and values of header fields.
type Fields = &'static [(&'static str, &'static str)];

/// A load for a document of this origin, of the response of this head behind this chain.
fn load_of(
    alloc: Global,
    policy: Policy,
    origin: &Origin,
    mode: Mode,
    chain: &[&str],
    head: &Head,
) -> Result<Load, Fail>
    ensures { IfOk result (λ load. taken_count load.progress ≡ 0) }
{
    let rules = SiteRules::new(Rules::read(alloc, b"")?, Vec::new(alloc));
    let chain = web_chain(alloc, chain)?;
    let judge = Judge::new(alloc, &rules, policy, 7, origin, &chain, mode, head)?;
    let load = Load::new(alloc, judge)?;
    Ok(load)
}

/// A load of a page of `https://b.com` for a document of `https://a.com`.
fn load(alloc: Global) -> Result<Load, Fail>
    ensures { IfOk result (λ load. taken_count load.progress ≡ 0) }
{
    let origin = origin(alloc, "https://a.com/")?;
    let head = head(alloc, 200, &[("Content-Type", "text/html")])?;
    let chain = &["https://b.com/"];
    load_of(alloc, Policy::Two, &origin, Mode::NoCors, chain, &head)
}

/// The text of a piece, or a mark where it has more than eight bytes.
fn text_of(bytes: &[u8]) -> &str {
    if bytes.len() > 8 {
        return "long";
    }
    str::from_utf8(bytes).unwrap_or("?")
}

/// Writes a step, and says whether the load goes on.
fn write_step(out: &mut String, step: &Step) -> Result<bool, AllocError> {
    match step {
        Step::Held => out.push_str("Held,")?,
        Step::Head(cleared) => {
            out.push_str("Head ")?;
            out.push_str(cleared.rule().code())?;
            out.push_str(",")?;
        }
        Step::Piece(part) => {
            let is_own = part.cleared().request() == 7 && part.as_bytes().len() > 0;
            out.push_str(if is_own { "" } else { "other " })?;
            out.push((b'0' + (part.index() % 10) as u8) as char)?;
            out.push_str(text_of(part.as_bytes()))?;
            out.push_str(",")?;
        }
        Step::Whole => out.push_str("Whole")?,
        Step::Blocked(rule) => {
            out.push_str("Blocked ")?;
            out.push_str(rule.code())?;
        }
        Step::Fault => out.push_str("Fault")?,
        Step::Gone => out.push_str("Gone")?,
    }
    Ok(matches!(step, Step::Held | Step::Head(_) | Step::Piece(_)))
}

/// The steps of a fresh load over this wire, to its end. At the step with this number the process that asked is dead.
fn steps(
    alloc: Global,
    mut load: Load,
    mut wire: ScriptWire,
    gone_at: Option<u32>,
) -> Result<String, Fail>
    requires { taken_count load.progress ≡ 0 }
{
    let mut out = String::new(alloc);
    for number in 0..20 {
        let step = load.step(alloc, &mut wire, gone_at == Some(number))?;
        if !write_step(&mut out, &step)? {
            return Ok(out);
        }
    }
    Ok(out)
}

/// A body, its cuts, after how many bytes its wire fails, at which step the process is dead, and the steps.
type Row = (
    &'static [u8],
    &'static [u32],
    Option<u32>,
    Option<u32>,
    &'static str,
);

const ROWS: &[Row] = &[
    (b"hello", &[1, 3], None, None, "Head A5,0h,1el,2lo,Whole"),
    (b"<p", &[1], None, None, "Held,Blocked B4"),
    (b"", &[], None, None, "Head A5,Whole"),
    // The body ends within the window.
    (b"<", &[], None, None, "Held,Head A5,0<,Whole"),
    // The process dies.
    (b"hello", &[1, 3], None, Some(0), "Gone"),
    (b"hello", &[1, 3], None, Some(1), "Head A5,Gone"),
    (b"hello", &[1, 3], None, Some(3), "Head A5,0h,1el,Gone"),
    (b"hello", &[1, 3], None, Some(4), "Head A5,0h,1el,2lo,Gone"),
    (b"<p", &[1], None, Some(1), "Held,Gone"),
    // It dies within the window: before the first piece, behind one and behind two that are held, and as the body ends.
    (b"<p", &[1], None, Some(0), "Gone"),
    (b"<!-- x", &[2, 4], None, Some(1), "Held,Gone"),
    (b"<!-- x", &[2, 4], None, Some(2), "Held,Held,Gone"),
    (b"<", &[], None, Some(1), "Held,Gone"),
    // It dies behind the head: before, between and behind the pieces held, and between those that are read.
    (
        b"  hello",
        &[1, 3],
        None,
        None,
        "Held,Head A5,0 ,1 h,2ello,Whole",
    ),
    (b"  hello", &[1, 3], None, Some(2), "Held,Head A5,Gone"),
    (b"  hello", &[1, 3], None, Some(3), "Held,Head A5,0 ,Gone"),
    (
        b"  hello",
        &[1, 3],
        None,
        Some(4),
        "Held,Head A5,0 ,1 h,Gone",
    ),
    (b"hello", &[1, 3], None, Some(2), "Head A5,0h,Gone"),
    // It dies behind all pieces, before the load is whole.
    (
        b"  hello",
        &[1, 3],
        None,
        Some(5),
        "Held,Head A5,0 ,1 h,2ello,Gone",
    ),
    (b"<", &[], None, Some(3), "Held,Head A5,0<,Gone"),
    (b"", &[], None, Some(0), "Gone"),
    (b"", &[], None, Some(1), "Head A5,Gone"),
    // It dies where the wire would fail, which is not read.
    (b"hello", &[1, 3], Some(0), Some(0), "Gone"),
    (b"<p", &[1], Some(1), Some(1), "Held,Gone"),
    (
        b"hello",
        &[1, 3],
        Some(5),
        Some(4),
        "Head A5,0h,1el,2lo,Gone",
    ),
    // The wire fails at once, within the window, behind the head and the pieces held, and behind all pieces.
    (b"hello", &[1, 3], Some(0), None, "Fault"),
    (b"<!-- x", &[2, 4], Some(4), None, "Held,Held,Fault"),
    (
        b"  hello",
        &[1, 3],
        Some(3),
        None,
        "Held,Head A5,0 ,1 h,Fault",
    ),
    (b"hello", &[1, 3], Some(5), None, "Head A5,0h,1el,2lo,Fault"),
    // It fails behind each byte: the pieces are those of the bytes before.
    (b"hello", &[1, 3], Some(1), None, "Head A5,0h,Fault"),
    (b"hello", &[1, 3], Some(2), None, "Head A5,0h,1e,Fault"),
    (b"hello", &[1, 3], Some(3), None, "Head A5,0h,1el,Fault"),
    (b"hello", &[1, 3], Some(4), None, "Head A5,0h,1el,2l,Fault"),
    // It fails while nothing is settled, and behind the bytes that settle it.
    (b"", &[], Some(0), None, "Fault"),
    (b"<", &[], Some(1), None, "Held,Fault"),
    (b"<p", &[1], Some(1), None, "Held,Fault"),
    (b"<p", &[1], Some(2), None, "Held,Blocked B4"),
    (b"<!-- x", &[2, 4], Some(2), None, "Held,Fault"),
    (b"<!-- x", &[2, 4], Some(6), None, "Held,Held,Held,Fault"),
    (b"  hello", &[1, 3], Some(1), None, "Held,Fault"),
    (b"  hello", &[1, 3], Some(2), None, "Held,Held,Fault"),
    (
        b"  hello",
        &[1, 3],
        Some(7),
        None,
        "Held,Head A5,0 ,1 h,2ello,Fault",
    ),
    // A comment that does not end is none, and the body's end settles it.
    (
        b"<!-- x",
        &[2, 4],
        None,
        None,
        "Held,Held,Held,Head A5,0<!,1--,2 x,Whole",
    ),
];

#[test]
fn steps_to_an_end(rt: HostRuntime) -> Result<(), Fail> {
    for (body, cuts, fail_after, gone_at, want) in ROWS {
        let wire = wire(body, cuts, *fail_after)?;
        let steps = steps(rt.alloc(), load(rt.alloc())?, wire, *gone_at)?;
        assert_eq!(rt; steps.as_str(), *want);
    }
    Ok(())
}

#[test]
fn the_longest_piece(rt: HostRuntime) -> Result<(), Fail> {
    let body = vec![in rt.alloc(); b'x'; MAX_PIECE]?;
    let wire = wire(body.as_slice(), &[], None)?;
    let steps = steps(rt.alloc(), load(rt.alloc())?, wire, None)?;
    assert_eq!(rt; steps.as_str(), "Head A5,0long,Whole");
    Ok(())
}

#[test]
fn a_fresh_load_has_room(rt: HostRuntime) -> Result<(), Fail> {
    let load = load(rt.alloc())?;
    assert!(rt; load.has_room());
    Ok(())
}

/// A request's chain, the fields of the response's head, after how many bytes its wire fails, at which step the process is dead,
/// and the steps.
type CorsRow = (
    &'static [&'static str],
    Fields,
    Option<u32>,
    Option<u32>,
    &'static str,
);

/// Requests in mode cors, of a page `<p` in two pieces. Each is settled at once, so no piece is held.
const CORS: &[CorsRow] = &[
    (
        &["https://a.com/x"],
        &[("Content-Type", "text/html")],
        None,
        None,
        "Head A1,0<,1p,Whole",
    ),
    (
        &["https://b.com/x"],
        &[
            ("Content-Type", "text/html"),
            ("Access-Control-Allow-Origin", "*"),
        ],
        None,
        None,
        "Head A2,0<,1p,Whole",
    ),
    (
        &["https://b.com/x"],
        &[("Access-Control-Allow-Origin", "https://a.com")],
        None,
        None,
        "Head A2,0<,1p,Whole",
    ),
    (&["https://b.com/x"], &[], None, None, "Blocked B1"),
    (
        &["https://b.com/x"],
        &[("Access-Control-Allow-Origin", "https://b.com")],
        None,
        None,
        "Blocked B1",
    ),
    // Another origin of the site is another origin, and a style sheet is asked too.
    (
        &["https://sub.a.com/x"],
        &[("Content-Type", "text/css")],
        None,
        None,
        "Blocked B1",
    ),
    // A chain that left another origin for a third one.
    (
        &["https://b.com/x", "https://c.com/y"],
        &[("Access-Control-Allow-Origin", "https://a.com")],
        None,
        None,
        "Blocked B1",
    ),
    (
        &["https://b.com/x", "https://c.com/y"],
        &[("Access-Control-Allow-Origin", "null")],
        None,
        None,
        "Head A2,0<,1p,Whole",
    ),
    // The resource policy, the status and nosniff are not asked.
    (
        &["https://b.com/x"],
        &[
            ("Content-Type", "text/html"),
            ("Access-Control-Allow-Origin", "*"),
            ("Cross-Origin-Resource-Policy", "same-origin"),
            ("X-Content-Type-Options", "nosniff"),
        ],
        None,
        None,
        "Head A2,0<,1p,Whole",
    ),
    // What is settled at once needs no read of the wire, and a dead process gets nothing.
    (&["https://b.com/x"], &[], Some(0), None, "Blocked B1"),
    (&["https://b.com/x"], &[], None, Some(0), "Gone"),
    (&["https://a.com/x"], &[], Some(0), None, "Head A1,Fault"),
    (&["https://a.com/x"], &[], Some(1), None, "Head A1,0<,Fault"),
    (&["https://a.com/x"], &[], None, Some(0), "Gone"),
    (&["https://a.com/x"], &[], None, Some(1), "Head A1,Gone"),
];

#[test]
fn requests_in_mode_cors(rt: HostRuntime) -> Result<(), Fail> {
    let origin = origin(rt.alloc(), "https://a.com/")?;
    for (chain, fields, fail_after, gone_at, want) in CORS {
        let head = head(rt.alloc(), 200, fields)?;
        let load = load_of(rt.alloc(), Policy::Two, &origin, Mode::Cors, chain, &head)?;
        let wire = wire(b"<p", &[1], *fail_after)?;
        let steps = steps(rt.alloc(), load, wire, *gone_at)?;
        assert_eq!(rt; steps.as_str(), *want);
    }
    Ok(())
}
