ghost use Rattle.std.specs.Prelude.{◌≡◌, IfOk};
ghost use Rattle.page_origin.specs.PageUrls.{class_of};

use crate::{
    HostText, NoMemory, OpaqueOrigin, Origin, OriginText, PageUrl, Scheme, Site, TextRefusal,
    TupleOrigin, UrlClass, UrlRefusal, UrlText, class_of_text, equal_origins, equal_sites,
    has_origin, join_text, join_url, origin_text, page_url, same_origin, same_tuple, tuple_of,
    tuple_of_text,
};
use std::alloc::Global;
use std::process::Abort;
use std::test::Fail;

const CLASSES: &[(&str, UrlClass, &str)] = &[
    ("https://a.com/x?y#z", UrlClass::Web, "https://a.com/x?y"),
    ("HTTP://A.com:80", UrlClass::Web, "http://a.com/"),
    ("about:blank#x", UrlClass::AboutBlank, "about:blank"),
    ("about:blank?x#y", UrlClass::AboutBlank, "about:blank?x"),
    ("about:blanks", UrlClass::Foreign, "about:blanks"),
    ("about:srcdoc", UrlClass::AboutSrcdoc, "about:srcdoc"),
    ("about:version", UrlClass::Foreign, "about:version"),
    ("data:,x#y", UrlClass::DataUrl, "data:,x"),
    ("data:,a b", UrlClass::DataUrl, "data:,a b"),
    ("file:///x", UrlClass::Foreign, "file:///x"),
    ("ws://a.com/", UrlClass::Foreign, "ws://a.com/"),
];

#[test]
fn classes_and_keys(rt: HostRuntime) -> Result<(), Fail> {
    for (text, class, key) in CLASSES {
        let url = page_url(rt.alloc(), text)?;
        assert!(rt; url.class() == *class, "{text}");
        assert!(rt; url.key() == *key, "{text}");
    }
    Ok(())
}

/// Texts that need not be a page's URL: what they lead to, and what `/y` is against them.
const ANY_TEXTS: &[(&str, UrlClass, Result<&str, UrlRefusal>)] = &[
    ("HTTP://A.com:80/x", UrlClass::Web, Ok("http://a.com/y")),
    ("data:,x", UrlClass::DataUrl, Err(UrlRefusal::BadUrl)),
    ("no url", UrlClass::Foreign, Err(UrlRefusal::BadUrl)),
    ("", UrlClass::Foreign, Err(UrlRefusal::BadUrl)),
];

#[test]
fn any_texts_as_urls(rt: HostRuntime) -> Result<(), Fail> {
    let alloc = rt.alloc();
    for (text, class, joined) in ANY_TEXTS {
        assert!(rt; class_of_text(alloc, text)? == *class, "{text}");
        match join_text(alloc, text, "/y") {
            Ok(url) => assert!(rt; *joined == Ok(url.text())),
            Err(refusal) => assert!(rt; *joined == Err(refusal)),
        }
    }
    assert!(rt; join_text(alloc, "no url", "https://b.com")?.text() == "https://b.com/");
    let longer = padded(alloc, "https://a.com/", 'x', 4000)?;
    assert!(rt; class_of_text(alloc, longer.as_str())? == UrlClass::Web);
    Ok(())
}

#[test]
fn tuple_of_any_text(rt: HostRuntime) -> Result<(), Fail> {
    let alloc = rt.alloc();
    if class_of_text(alloc, "HTTPS://A.com:444/x")? != UrlClass::Web {
        return Err(Fail::new("the URL is not of the web"));
    }
    let tuple = tuple_of_text(alloc, "HTTPS://A.com:444/x")?;
    assert!(rt;
        tuple.scheme == Scheme::Https && tuple.host.as_str() == "a.com" && tuple.port == 444
    );
    Ok(())
}

/// A text, and then as many bytes more.
fn padded(alloc: Global, text: &str, byte: char, count: u32) -> Result<String, Fail> {
    let mut padded = String::from_str(alloc, text)?;
    for _ in 0..count {
        padded.push(byte)?;
    }
    Ok(padded)
}

fn is_refused(alloc: Global, text: &str, refusal: UrlRefusal) -> bool {
    page_url(alloc, text).err() == Some(refusal)
}

#[test]
fn long_urls(rt: HostRuntime) -> Result<(), Fail> {
    let alloc = rt.alloc();
    let longest = padded(alloc, "https://a.com/", 'x', 2034)?;
    assert_eq!(rt; page_url(alloc, longest.as_str())?.text().len(), 2048);
    let too_long = padded(alloc, "https://a.com/", 'x', 2035)?;
    assert!(rt; is_refused(alloc, too_long.as_str(), UrlRefusal::TooLong));
    let too_long_and_bad = padded(alloc, "", 'x', 2049)?;
    assert!(rt; is_refused(alloc, too_long_and_bad.as_str(), UrlRefusal::TooLong));
    // Each quote of the path is written as three bytes: 2,114 in all.
    let grows = padded(alloc, "https://a.com/", '"', 700)?;
    assert!(rt; is_refused(alloc, grows.as_str(), UrlRefusal::TooLong));
    Ok(())
}

const BAD: &[&str] = &[
    "",
    "no",
    "https://",
    "https://a b/",
    "https://a.com:99999/",
    "//a.com/",
];

#[test]
fn bad_urls(rt: HostRuntime) {
    for text in BAD {
        assert!(rt; is_refused(rt.alloc(), text, UrlRefusal::BadUrl), "{text}");
    }
}

fn web_url(rt: &impl Abort, alloc: Global, text: &str) -> Result<PageUrl, Fail>
    ensures { IfOk result (λ url. class_of url ≡ UrlClass.Web) }
{
    let url = page_url(alloc, text)?;
    assert!(rt; url.class() == UrlClass::Web, "{text}");
    Ok(url)
}

const JOINED: &[(&str, &str)] = &[
    ("../3", "https://a.com/3"),
    ("", "https://a.com/1/2"),
    ("//b.org", "https://b.org/"),
    ("?q#f", "https://a.com/1/2?q#f"),
    ("data:,x", "data:,x"),
];

#[test]
fn joins(rt: HostRuntime) -> Result<(), Fail> {
    let base = web_url(&rt, rt.alloc(), "https://a.com/1/2")?;
    for (text, joined) in JOINED {
        let url = join_url(rt.alloc(), &base, text)?;
        assert!(rt; url.text() == *joined, "{text}");
    }
    Ok(())
}

fn is_refused_join(base: &PageUrl, alloc: Global, text: &str, refusal: UrlRefusal) -> bool
    requires { class_of base.now ≡ UrlClass.Web }
{
    join_url(alloc, base, text).err() == Some(refusal)
}

#[test]
fn refused_joins(rt: HostRuntime) -> Result<(), Fail> {
    let alloc = rt.alloc();
    let base = web_url(&rt, alloc, "https://a.com/1/2")?;
    assert!(rt; is_refused_join(&base, alloc, "//a b/", UrlRefusal::BadUrl));
    // 2,049 bytes that name the URL of 14 bytes `https://a.com/`.
    let mut dots = String::from_str(alloc, "/")?;
    for _ in 0..1024 {
        dots.push_str("./")?;
    }
    assert!(rt; is_refused_join(&base, alloc, dots.as_str(), UrlRefusal::TooLong));
    let long = padded(alloc, "/", 'x', 2035)?;
    assert!(rt; is_refused_join(&base, alloc, long.as_str(), UrlRefusal::TooLong));
    Ok(())
}

#[test]
fn longest_join(rt: HostRuntime) -> Result<(), Fail> {
    let base = web_url(&rt, rt.alloc(), "https://a.com/1/2")?;
    let text = padded(rt.alloc(), "/", 'x', 2034)?;
    assert_eq!(rt;
        join_url(rt.alloc(), &base, text.as_str())?.text().len(),
        2048
    );
    Ok(())
}

const ORIGINS: &[(&str, &str, u16, &str)] = &[
    ("https://a.com:8443/", "a.com", 8443, "https://a.com:8443"),
    ("https://a.com:443/", "a.com", 443, "https://a.com"),
    ("http://a.com/", "a.com", 80, "http://a.com"),
    ("http://a.com:443/", "a.com", 443, "http://a.com:443"),
    ("https://u:p@a.com./", "a.com.", 443, "https://a.com."),
    ("https://%41.com/", "a.com", 443, "https://a.com"),
    (
        "https://b\u{fc}cher.de/",
        "xn--bcher-kva.de",
        443,
        "https://xn--bcher-kva.de",
    ),
    ("https://0x7f.1/", "127.0.0.1", 443, "https://127.0.0.1"),
    ("https://[0:0::1]:80/", "[::1]", 80, "https://[::1]:80"),
];

#[test]
fn tuples(rt: HostRuntime) -> Result<(), Fail> {
    for (text, host, port, _) in ORIGINS {
        let tuple = tuple(&rt, rt.alloc(), text)?;
        assert!(rt; tuple.host.as_str() == *host, "{text}");
        assert!(rt; tuple.port == *port, "{text}");
    }
    Ok(())
}

#[test]
fn texts_of_tuples(rt: HostRuntime) -> Result<(), Fail> {
    for (text, _, _, origin) in ORIGINS {
        let tuple = tuple(&rt, rt.alloc(), text)?;
        let printed = origin_text(rt.alloc(), &Origin::Tuple(tuple))?;
        assert!(rt; printed.as_str() == *origin, "{text}");
    }
    Ok(())
}

fn web(rt: &impl Abort, alloc: Global, text: &str) -> Result<Origin, Fail> {
    Ok(Origin::Tuple(tuple(rt, alloc, text)?))
}

#[test]
fn origins_of_urls(rt: HostRuntime) -> Result<(), Fail> {
    let url = web_url(&rt, rt.alloc(), "https://a.com/")?;
    let own = web(&rt, rt.alloc(), "https://a.com:443/x")?;
    assert!(rt; has_origin(&url, &own));
    let other = web(&rt, rt.alloc(), "http://a.com:443/")?;
    assert!(rt; !has_origin(&url, &other));
    Ok(())
}

fn tuple(rt: &impl Abort, alloc: Global, text: &str) -> Result<TupleOrigin, Fail> {
    let url = web_url(rt, alloc, text)?;
    Ok(tuple_of(alloc, &url)?)
}

const TUPLE_PAIRS: &[(&str, &str, bool)] = &[
    ("https://a.com/", "https://a.com:443/x", true),
    ("http://a.com/", "http://a.com:80/", true),
    ("https://a.com/", "https://a.com:8443/", false),
    ("https://a.com:80/", "http://a.com/", false),
    ("https://a.com/", "https://b.com/", false),
    ("https://a.com/", "https://www.a.com/", false),
];

#[test]
fn tuples_of_two_urls(rt: HostRuntime) -> Result<(), Fail> {
    for (a, b, same) in TUPLE_PAIRS {
        let first = web_url(&rt, rt.alloc(), a)?;
        let second = web_url(&rt, rt.alloc(), b)?;
        assert!(rt; same_tuple(&first, &second) == *same, "{a} {b}");
    }
    Ok(())
}

#[test]
fn same_origins_of_tuples(rt: HostRuntime) -> Result<(), Fail> {
    for (a, b, same) in TUPLE_PAIRS {
        let first = web(&rt, rt.alloc(), a)?;
        let second = web(&rt, rt.alloc(), b)?;
        assert!(rt; same_origin(&first, &second) == *same, "{a} {b}");
        assert!(rt; equal_origins(&first, &second) == *same, "{a} {b}");
    }
    Ok(())
}

/// An opaque origin that comes from the site of a URL's host.
fn opaque(rt: &impl Abort, alloc: Global, document: u32, text: &str) -> Result<Origin, Fail> {
    let tuple = tuple(rt, alloc, text)?;
    let precursor = Site {
        scheme: tuple.scheme,
        host: tuple.host,
        only: None,
    };
    Ok(Origin::Opaque(OpaqueOrigin {
        document,
        precursor,
    }))
}

#[test]
fn same_origins(rt: HostRuntime) -> Result<(), Fail> {
    let third = opaque(&rt, rt.alloc(), 3, "https://a.com/")?;
    let third_of_another = opaque(&rt, rt.alloc(), 3, "http://b.com/")?;
    assert!(rt; same_origin(&third, &third_of_another));
    assert!(rt; !equal_origins(&third, &third_of_another));
    let fourth = opaque(&rt, rt.alloc(), 4, "https://a.com/")?;
    assert!(rt; !same_origin(&third, &fourth));
    Ok(())
}

#[test]
fn opaque_is_no_tuple(rt: HostRuntime) -> Result<(), Fail> {
    let opaque = opaque(&rt, rt.alloc(), 3, "https://a.com/")?;
    let web = web(&rt, rt.alloc(), "https://a.com/")?;
    assert!(rt; !same_origin(&opaque, &web));
    let text = origin_text(rt.alloc(), &opaque)?;
    assert!(rt; text.as_str() == "null");
    Ok(())
}

#[test]
fn copies_of_urls(rt: HostRuntime) -> Result<(), Fail> {
    let url = web_url(&rt, rt.alloc(), "https://a.com/")?;
    let copied = url.copy(rt.alloc())?;
    assert!(rt; copied.text() == "https://a.com/");
    let text = UrlText::of(rt.alloc(), &copied)?;
    let copied = text.copy(rt.alloc())?;
    assert!(rt; copied == text);
    Ok(())
}

fn is_copied(alloc: Global, origin: &Origin) -> Result<bool, NoMemory> {
    let copied = origin.copy(alloc)?;
    Ok(equal_origins(origin, &copied))
}

#[test]
fn copies_of_origins(rt: HostRuntime) -> Result<(), Fail> {
    let opaque = opaque(&rt, rt.alloc(), 3, "https://a.com/")?;
    assert!(rt; is_copied(rt.alloc(), &opaque)?);
    let web = web(&rt, rt.alloc(), "https://a.com/")?;
    assert!(rt; is_copied(rt.alloc(), &web)?);
    Ok(())
}

#[test]
fn copies_of_sites(rt: HostRuntime) -> Result<(), Fail> {
    for only in [None, Some(443), Some(8443)] {
        let site = site(&rt, rt.alloc(), "https://a.com/", only)?;
        let copied = site.copy(rt.alloc())?;
        assert!(rt; equal_sites(&site, &copied));
    }
    Ok(())
}

/// The site with a URL's scheme and host, or with its host the isolated origin of a port.
fn site(rt: &impl Abort, alloc: Global, text: &str, only: Option<u16>) -> Result<Site, Fail> {
    let tuple = tuple(rt, alloc, text)?;
    Ok(Site {
        scheme: tuple.scheme,
        host: tuple.host,
        only,
    })
}

const SITE_PAIRS: &[(&str, Option<u16>, &str, Option<u16>, bool)] = &[
    ("https://a.com/", None, "https://a.com/", None, true),
    ("https://a.com/", None, "http://a.com/", None, false),
    ("https://a.com/", None, "https://b.com/", None, false),
    (
        "https://a.com/",
        Some(443),
        "https://a.com/",
        Some(443),
        true,
    ),
    ("https://a.com/", Some(443), "https://a.com/", None, false),
    ("https://a.com/", None, "https://a.com/", Some(443), false),
    (
        "https://a.com/",
        Some(443),
        "https://a.com/",
        Some(8443),
        false,
    ),
    (
        "https://a.com/",
        Some(443),
        "http://a.com/",
        Some(443),
        false,
    ),
];

#[test]
fn equal_and_other_sites(rt: HostRuntime) -> Result<(), Fail> {
    for (a, only_a, b, only_b, equal) in SITE_PAIRS {
        let first = site(&rt, rt.alloc(), a, *only_a)?;
        let second = site(&rt, rt.alloc(), b, *only_b)?;
        assert!(rt; equal_sites(&first, &second) == *equal, "{a} {b}");
    }
    Ok(())
}

const HOSTS: &[(&[u8], bool)] = &[
    (b"a.com", true),
    (b"a_b-c.com.", true),
    (b"!", true),
    (b"127.0.0.1", true),
    (b"[::1]", true),
    (b"[2001:db8::192.0.2.1]", true),
    (b"[aF09]", true),
    (b"[A]", true),
    (b"~", true),
    (b"", false),
    (b"[]", false),
    (b"[::1", false),
    (b"[::g]", false),
    (b"[@]", false),
    (b"[a/b]", false),
    (b"[::1]x", false),
    (b"::1]", false),
    (b"a b", false),
    (b"a/b", false),
    (b"a:80", false),
    (b"a[b", false),
    (b"a]b", false),
    (b"a\x7f", false),
    (b"\xc3\xbc", false),
];

#[test]
fn hosts_of_bytes(rt: HostRuntime) {
    for (bytes, is_host) in HOSTS {
        let refused = HostText::from_bytes(rt.alloc(), bytes).err() == Some(TextRefusal::BadText);
        assert!(rt; refused != *is_host);
    }
}

const URL_TEXTS: &[(&[u8], bool)] = &[
    (b"https://a.com/", true),
    (b" ", true),
    (b"~", true),
    (b"", false),
    (b"a\x1fb", false),
    (b"a\x7fb", false),
    (b"\xc3\xbc", false),
];

#[test]
fn url_texts_of_bytes(rt: HostRuntime) {
    for (bytes, is_url) in URL_TEXTS {
        let refused = UrlText::from_bytes(rt.alloc(), bytes).err() == Some(TextRefusal::BadText);
        assert!(rt; refused != *is_url);
    }
}

#[test]
fn texts_of_bytes(rt: HostRuntime) -> Result<(), Fail> {
    let host = HostText::from_bytes(rt.alloc(), b"[::1]")?;
    assert!(rt; host.as_str() == "[::1]");
    let url = UrlText::from_bytes(rt.alloc(), b"about:blank")?;
    assert!(rt; url.as_str() == "about:blank");
    let null = OriginText::null(rt.alloc())?;
    assert!(rt; null.as_str() == "null");
    Ok(())
}

fn printed(alloc: Global, refusal: UrlRefusal) -> Result<String, Fail> {
    Ok(format!(in alloc; "{refusal}")?)
}

#[test]
fn texts_of_refusals(rt: HostRuntime) -> Result<(), Fail> {
    let rows = [
        (UrlRefusal::TooLong, "the URL has more than 2048 bytes"),
        (UrlRefusal::BadUrl, "the text is no URL"),
        (UrlRefusal::NoMemory, "no memory"),
    ];
    for (refusal, text) in rows {
        assert!(rt; printed(rt.alloc(), refusal)?.as_str() == text);
    }
    let memory = NoMemory;
    assert!(rt; format!(in rt.alloc(); "{memory}")?.as_str() == "no memory");
    let text = TextRefusal::BadText;
    assert!(rt;
        format!(in rt.alloc(); "{text}")?.as_str()
            == "the text is not spelled as a history spells it"
    );
    Ok(())
}
