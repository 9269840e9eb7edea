use entry_text::{message_text, put_entry, put_line, reply_text};
use history_entry::{
    Body, EndHow, Entry, HopOf, LocalWhat, Message, Mode, PieceBytes, RawUrl, Reply, RequestText,
    Rule, ServiceName, Src, Target,
};
use page_origin::{HostText, OpaqueOrigin, Origin, Scheme, Site, TupleOrigin, UrlText};
use std::alloc::Global;
use std::process::Abort;
use std::test::Fail;

fn site(alloc: Global, scheme: Scheme, host: &str, only: Option<u16>) -> Result<Site, Fail> {
    let host = HostText::from_bytes(alloc, host.as_bytes())?;
    Ok(Site { scheme, host, only })
}

fn tuple(alloc: Global, scheme: Scheme, host: &str, port: u16) -> Result<Origin, Fail> {
    let host = HostText::from_bytes(alloc, host.as_bytes())?;
    Ok(Origin::Tuple(TupleOrigin { scheme, host, port }))
}

fn opaque(document: u32, precursor: Site) -> Origin {
    Origin::Opaque(OpaqueOrigin {
        document,
        precursor,
    })
}

/// The origin `https://a.com`.
fn plain(alloc: Global) -> Result<Origin, Fail> {
    tuple(alloc, Scheme::Https, "a.com", 443)
}

fn url(alloc: Global, text: &str) -> Result<UrlText, Fail> {
    Ok(UrlText::from_bytes(alloc, text.as_bytes())?)
}

fn raw(alloc: Global, text: &str) -> Result<RawUrl, Fail> {
    Ok(RawUrl::of(alloc, text)?)
}

fn text(alloc: Global, text: &str) -> Result<RequestText, Fail> {
    Ok(RequestText::of(alloc, text)?)
}

// Each prints a value that it is given, so that a test below drops nothing.
fn entry_shows(rt: &impl Abort, alloc: Global, entry: Entry, line: &str) -> Result<(), Fail> {
    let mut out = Vec::new(alloc);
    put_entry(alloc, &mut out, &entry)?;
    assert_eq!(rt; out.as_slice(), line.as_bytes(), "{line}");
    Ok(())
}

fn body_shows(rt: &impl Abort, alloc: Global, body: Body, text: &str) -> Result<(), Fail> {
    let message = Message { document: 7, body };
    let written = message_text(alloc, &message)?;
    assert_eq!(rt; written.as_slice(), text.as_bytes(), "{text}");
    Ok(())
}

fn reply_shows(rt: &impl Abort, alloc: Global, reply: Reply, text: &str) -> Result<(), Fail> {
    let written = reply_text(alloc, &reply)?;
    assert_eq!(rt; written.as_slice(), text.as_bytes(), "{text}");
    Ok(())
}

#[test]
fn lines_stand_behind_one_another(rt: HostRuntime) -> Result<(), Fail> {
    let alloc = rt.alloc();
    let mut out = Vec::new(alloc);
    put_line(alloc, &mut out, &Entry::Opened(0))?;
    put_line(alloc, &mut out, &Entry::Exit(9))?;
    assert_eq!(rt; out.as_slice(), b"open 0\nexit 9\n".as_slice());
    Ok(())
}

const NUMBERS: &[(u32, &str)] = &[(0, "0"), (10, "10"), (4294967295, "4294967295")];

#[test]
fn entries_of_numbers(rt: HostRuntime) -> Result<(), Fail> {
    let alloc = rt.alloc();
    for (number, text) in NUMBERS {
        let line = format!(in alloc; "open {text}")?;
        entry_shows(&rt, alloc, Entry::Opened(*number), line.as_str())?;
    }
    entry_shows(&rt, alloc, Entry::Warm(1), "warm 1")?;
    entry_shows(&rt, alloc, Entry::Crash(2), "crash 2")?;
    entry_shows(&rt, alloc, Entry::Exit(3), "exit 3")
}

#[test]
fn entries_of_rules(rt: HostRuntime) -> Result<(), Fail> {
    let alloc = rt.alloc();
    entry_shows(&rt, alloc, Entry::NavEnd(10, Rule::N5), "navend 10 N5")?;
    entry_shows(&rt, alloc, Entry::Head(1, Rule::A2), "head 1 A2")?;
    entry_shows(&rt, alloc, Entry::Head(1, Rule::B8), "head 1 B8")?;
    let blocked = EndHow::Blocked(Rule::B8);
    entry_shows(&rt, alloc, Entry::End(1, EndHow::Whole), "end 1 whole")?;
    entry_shows(&rt, alloc, Entry::End(1, blocked), "end 1 blocked B8")?;
    let failed = EndHow::Failed(Rule::N7);
    entry_shows(&rt, alloc, Entry::End(1, failed), "end 1 failed N7")
}

fn hop(alloc: Global, of: HopOf, to: &str) -> Result<Entry, Fail> {
    Ok(Entry::Hop(of, url(alloc, to)?))
}

#[test]
fn entries_of_redirects(rt: HostRuntime) -> Result<(), Fail> {
    let alloc = rt.alloc();
    let followed = hop(alloc, HopOf::Nav(1), "https://a.com/b c")?;
    entry_shows(&rt, alloc, followed, "hop nav 1 https://a.com/b c")?;
    let followed = hop(alloc, HopOf::Req(2), "data:,x")?;
    entry_shows(&rt, alloc, followed, "hop req 2 data:,x")
}

const SITES: &[(Scheme, &str, Option<u16>, &str)] = &[
    (Scheme::Https, "a.com", None, "https://a.com"),
    (Scheme::Http, "a.com", None, "http://a.com"),
    (Scheme::Http, "127.0.0.1", None, "http://127.0.0.1"),
    (Scheme::Https, "[::1]", None, "https://[::1]"),
    (Scheme::Https, "pay.a.com", Some(443), "=https://pay.a.com"),
    (Scheme::Http, "pay.a.com", Some(80), "=http://pay.a.com"),
    (
        Scheme::Https,
        "pay.a.com",
        Some(80),
        "=https://pay.a.com:80",
    ),
    (
        Scheme::Http,
        "pay.a.com",
        Some(443),
        "=http://pay.a.com:443",
    ),
    (
        Scheme::Https,
        "pay.a.com",
        Some(8443),
        "=https://pay.a.com:8443",
    ),
    (
        Scheme::Http,
        "127.0.0.1",
        Some(8080),
        "=http://127.0.0.1:8080",
    ),
    (Scheme::Http, "[::1]", Some(65535), "=http://[::1]:65535"),
    (Scheme::Http, "a", Some(0), "=http://a:0"),
];

fn order(alloc: Global, site: Site, origin: Origin) -> Result<Entry, Fail> {
    Ok(Entry::Order(1, 2, site, origin, url(alloc, "x y")?))
}

#[test]
fn sites(rt: HostRuntime) -> Result<(), Fail> {
    let alloc = rt.alloc();
    for (scheme, host, only, text) in SITES {
        let line = format!(in alloc; "order 1 2 {text} https://a.com x y")?;
        let site = site(alloc, *scheme, host, *only)?;
        let order = order(alloc, site, plain(alloc)?)?;
        entry_shows(&rt, alloc, order, line.as_str())?;
    }
    Ok(())
}

#[test]
fn opaque_origins(rt: HostRuntime) -> Result<(), Fail> {
    let alloc = rt.alloc();
    for (scheme, host, only, text) in SITES {
        let line = format!(in alloc; "order 1 2 https://a.com opaque:3:{text} x y")?;
        let origin = opaque(3, site(alloc, *scheme, host, *only)?);
        let plain = site(alloc, Scheme::Https, "a.com", None)?;
        let order = order(alloc, plain, origin)?;
        entry_shows(&rt, alloc, order, line.as_str())?;
    }
    Ok(())
}

const TUPLES: &[(Scheme, &str, u16, &str)] = &[
    (Scheme::Https, "a.com", 443, "https://a.com"),
    (Scheme::Http, "a.com", 80, "http://a.com"),
    (Scheme::Https, "a.com", 80, "https://a.com:80"),
    (Scheme::Http, "a.com", 443, "http://a.com:443"),
    (Scheme::Https, "a.com", 8443, "https://a.com:8443"),
    (Scheme::Http, "[::1]", 0, "http://[::1]:0"),
    (Scheme::Http, "127.0.0.1", 65535, "http://127.0.0.1:65535"),
];

fn commit(alloc: Global, origin: Origin, reply: Reply) -> Result<Entry, Fail> {
    Ok(Entry::Commit(2, 1, origin, raw(alloc, "h:")?, reply))
}

#[test]
fn commits_and_tuple_origins(rt: HostRuntime) -> Result<(), Fail> {
    let alloc = rt.alloc();
    for (scheme, host, port, text) in TUPLES {
        let line = format!(in alloc; "commit 2 1 {text} 683a => ok")?;
        let origin = tuple(alloc, *scheme, host, *port)?;
        let commit = commit(alloc, origin, Reply::Ok)?;
        entry_shows(&rt, alloc, commit, line.as_str())?;
    }
    let killed = commit(alloc, plain(alloc)?, Reply::Kill(Rule::K9))?;
    entry_shows(
        &rt,
        alloc,
        killed,
        "commit 2 1 https://a.com 683a => kill K9",
    )
}

const PIECES: &[(&[u8], &str)] = &[
    (&[0], "piece 5 6 00"),
    (&[0, 9, 10, 255], "piece 5 6 00090aff"),
    (&[45], "piece 5 6 2d"),
];

fn piece(alloc: Global, bytes: &[u8]) -> Result<Entry, Fail> {
    if bytes.is_empty() {
        return Err(Fail::new("a piece has a byte"));
    }
    let bytes = Vec::from_slice(alloc, bytes)?;
    Ok(Entry::Piece(5, 6, PieceBytes::new(bytes)))
}

#[test]
fn pieces(rt: HostRuntime) -> Result<(), Fail> {
    for (bytes, line) in PIECES {
        let piece = piece(rt.alloc(), bytes)?;
        entry_shows(&rt, rt.alloc(), piece, line)?;
    }
    Ok(())
}

fn took(alloc: Global, taken: &str) -> Result<Entry, Fail> {
    let source = plain(alloc)?;
    let text = text(alloc, taken)?;
    Ok(Entry::Local(1, 2, 3, LocalWhat::Took { source, text }))
}

#[test]
fn what_a_document_did(rt: HostRuntime) -> Result<(), Fail> {
    let alloc = rt.alloc();
    let waited = Entry::Local(1, 2, 3, LocalWhat::Waited);
    entry_shows(&rt, alloc, waited, "local 1 2 3 waited")?;
    let skipped = Entry::Local(1, 2, 3, LocalWhat::Skipped);
    entry_shows(&rt, alloc, skipped, "local 1 2 3 skipped")?;
    let line = "local 1 2 3 took https://a.com 6f6b";
    entry_shows(&rt, alloc, took(alloc, "ok")?, line)?;
    let line = "local 1 2 3 took https://a.com -";
    entry_shows(&rt, alloc, took(alloc, "")?, line)
}

#[test]
fn what_was_said(rt: HostRuntime) -> Result<(), Fail> {
    let alloc = rt.alloc();
    let message = Message {
        document: 7,
        body: Body::RemoveFrame { frame: 4 },
    };
    let said = Entry::Said(1, 2, 3, message, Reply::Kill(Rule::K5));
    entry_shows(&rt, alloc, said, "said 1 2 3 7 remove 4 => kill K5")
}

const FRAMES: &[(&str, bool, &str)] = &[
    ("z", false, "7 frame plain url 7a"),
    ("z", true, "7 frame sandboxed url 7a"),
    ("", false, "7 frame plain url -"),
];

const INNER_FRAMES: &[(u32, bool, &str)] = &[
    (5, false, "7 frame plain doc 5"),
    (0, true, "7 frame sandboxed doc 0"),
];

#[test]
fn bodies_of_frames(rt: HostRuntime) -> Result<(), Fail> {
    let alloc = rt.alloc();
    for (url, sandbox, text) in FRAMES {
        let src = Src::Url(raw(alloc, url)?);
        let sandbox = *sandbox;
        body_shows(&rt, alloc, Body::AddFrame { src, sandbox }, text)?;
    }
    for (index, sandbox, text) in INNER_FRAMES {
        let src = Src::Doc(*index);
        let sandbox = *sandbox;
        body_shows(&rt, alloc, Body::AddFrame { src, sandbox }, text)?;
    }
    body_shows(&rt, alloc, Body::RemoveFrame { frame: 1 }, "7 remove 1")
}

fn navigate(alloc: Global) -> Result<Body, Fail> {
    Ok(Body::Navigate {
        frame: 1,
        url: raw(alloc, "z")?,
        initiator: plain(alloc)?,
    })
}

fn did_commit(alloc: Global) -> Result<Body, Fail> {
    Ok(Body::DidCommit {
        nav: 2,
        url: raw(alloc, "z")?,
        origin: plain(alloc)?,
    })
}

fn page(alloc: Global) -> Result<Body, Fail> {
    let url = raw(alloc, "z")?;
    Ok(Body::OpenPage { url })
}

fn fetch(alloc: Global, mode: Mode) -> Result<Body, Fail> {
    Ok(Body::Fetch {
        url: raw(alloc, "z")?,
        mode,
        initiator: plain(alloc)?,
    })
}

#[test]
fn bodies_of_urls(rt: HostRuntime) -> Result<(), Fail> {
    let alloc = rt.alloc();
    body_shows(&rt, alloc, page(alloc)?, "7 page 7a")?;
    let line = "7 navigate 1 https://a.com 7a";
    body_shows(&rt, alloc, navigate(alloc)?, line)?;
    let line = "7 commit 2 https://a.com 7a";
    body_shows(&rt, alloc, did_commit(alloc)?, line)?;
    let line = "7 fetch cors https://a.com 7a";
    body_shows(&rt, alloc, fetch(alloc, Mode::Cors)?, line)?;
    let line = "7 fetch no-cors https://a.com 7a";
    body_shows(&rt, alloc, fetch(alloc, Mode::NoCors)?, line)
}

fn post(alloc: Global, target: Target) -> Result<Body, Fail> {
    Ok(Body::Post {
        frame: 1,
        target,
        source: tuple(alloc, Scheme::Http, "b", 80)?,
        text: text(alloc, "")?,
    })
}

#[test]
fn bodies_of_posts(rt: HostRuntime) -> Result<(), Fail> {
    let alloc = rt.alloc();
    body_shows(
        &rt,
        alloc,
        post(alloc, Target::Any)?,
        "7 post 1 * http://b -",
    )?;
    body_shows(
        &rt,
        alloc,
        post(alloc, Target::Own)?,
        "7 post 1 / http://b -",
    )?;
    let target = Target::Of(plain(alloc)?);
    let line = "7 post 1 https://a.com http://b -";
    body_shows(&rt, alloc, post(alloc, target)?, line)?;
    let precursor = site(alloc, Scheme::Https, "a.com", Some(443))?;
    let target = Target::Of(opaque(3, precursor));
    let line = "7 post 1 opaque:3:=https://a.com http://b -";
    body_shows(&rt, alloc, post(alloc, target)?, line)
}

fn ask(alloc: Global) -> Result<Body, Fail> {
    Ok(Body::Ask {
        service: ServiceName::of(alloc, "s")?,
        origin: plain(alloc)?,
        request: text(alloc, "get k")?,
    })
}

#[test]
fn a_body_of_an_ask(rt: HostRuntime) -> Result<(), Fail> {
    let alloc = rt.alloc();
    body_shows(&rt, alloc, ask(alloc)?, "7 ask 73 https://a.com 676574206b")
}

const ANSWERS: &[(&str, &str)] = &[
    ("", "answer -"),
    ("-", "answer 2d"),
    ("\u{e9}", "answer c3a9"),
    ("\0\n\u{7f}", "answer 000a7f"),
];

#[test]
fn replies(rt: HostRuntime) -> Result<(), Fail> {
    let alloc = rt.alloc();
    for (answer, shown) in ANSWERS {
        let answer = Reply::Answer(text(alloc, answer)?);
        reply_shows(&rt, alloc, answer, shown)?;
    }
    reply_shows(&rt, alloc, Reply::Ok, "ok")?;
    reply_shows(&rt, alloc, Reply::Deny(Rule::N1), "deny N1")?;
    reply_shows(&rt, alloc, Reply::Drop(Rule::G2), "drop G2")?;
    reply_shows(&rt, alloc, Reply::Kill(Rule::K10), "kill K10")
}
