//! Rulings on a page of `text/html` by the request: its origin, its chain, its mode and the script's rules of sites.

use crate::Ruling;
use crate::tests::{A1, A2, A3, B1, B2, B4, own_page, page, site_rules};
use script_model::Mode;
use std::test::Fail;
use test_support::{head, opaque_origin, origin};

/// The header by which a response names the origin that may read it.
const ALLOW: &str = "Access-Control-Allow-Origin";

/// The header by which a response names whose requests may use it.
const RESOURCE: &str = "Cross-Origin-Resource-Policy";

/// The mode and the chain of a request, the fields of its response, and the rulings where the request is of `https://a.com`
/// and where it is of an opaque origin of that site.
const REQUESTS: &[(Mode, &[&str], &[(&str, &str)], Ruling, Ruling)] = &[
    (Mode::NoCors, &[], &[], A3, B4),
    (Mode::NoCors, &["https://a.com/1"], &[], A3, B4),
    (Mode::NoCors, &["https://a.com:8443/1"], &[], A3, B4),
    (
        Mode::NoCors,
        &["https://sub.a.com/1", "https://www.a.com/2"],
        &[],
        A3,
        B4,
    ),
    (Mode::NoCors, &["http://a.com/1"], &[], B4, B4),
    (Mode::NoCors, &["https://b.com/1"], &[(ALLOW, "*")], B4, B4),
    (
        Mode::NoCors,
        &["https://a.com/1", "https://b.com/2"],
        &[],
        B4,
        B4,
    ),
    (
        Mode::NoCors,
        &["https://b.com/1", "https://a.com/2"],
        &[],
        B4,
        B4,
    ),
    (
        Mode::NoCors,
        &["https://a.com/1", "https://b.com/2", "https://a.com/3"],
        &[],
        B4,
        B4,
    ),
    (Mode::Cors, &["https://a.com/1"], &[], A1, B1),
    (Mode::Cors, &["https://sub.a.com/1"], &[], B1, B1),
    (Mode::Cors, &["https://b.com/1"], &[], B1, B1),
    (Mode::Cors, &["https://b.com/1"], &[(ALLOW, "*")], A2, A2),
    (
        Mode::Cors,
        &["https://b.com/1"],
        &[(ALLOW, "https://a.com")],
        A2,
        B1,
    ),
    (Mode::Cors, &["https://b.com/1"], &[(ALLOW, "null")], B1, A2),
    (
        Mode::Cors,
        &["https://b.com/1"],
        &[(ALLOW, "https://a.com"), (ALLOW, "https://b.com")],
        B1,
        B1,
    ),
    (
        Mode::Cors,
        &["https://b.com/1", "https://a.com/2"],
        &[(ALLOW, "null")],
        A2,
        A2,
    ),
    // The resource policy of a response is not asked in mode cors.
    (
        Mode::Cors,
        &["https://a.com/1"],
        &[(RESOURCE, "same-site")],
        A1,
        B1,
    ),
    (
        Mode::Cors,
        &["https://b.com/1"],
        &[(RESOURCE, "same-origin"), (ALLOW, "*")],
        A2,
        A2,
    ),
];

#[test]
fn by_origin_chain_and_mode(rt: HostRuntime) -> Result<(), Fail> {
    let alloc = rt.alloc();
    let mut tuple = own_page(alloc)?;
    let mut opaque = page(alloc, opaque_origin(alloc, 1, "https://a.com/", None)?)?;
    for (mode, chain, fields, of_tuple, of_opaque) in REQUESTS {
        tuple.mode = *mode;
        opaque.mode = *mode;
        assert!(rt;
            tuple.is_told_of_a_page(alloc, chain, fields, *of_tuple)?,
            "{chain:?}"
        );
        assert!(rt;
            opaque.is_told_of_a_page(alloc, chain, fields, *of_opaque)?,
            "{chain:?}"
        );
    }
    Ok(())
}

/// A suffix text, an isolated origin, a request's origin and URL in mode no-cors, and the ruling.
const SITES: &[(&str, &str, &str, &str, Ruling)] = &[
    (
        "",
        "https://x.com/",
        "https://a.co.uk/",
        "https://b.co.uk/1",
        A3,
    ),
    (
        "co.uk",
        "https://x.com/",
        "https://a.co.uk/",
        "https://b.co.uk/1",
        B4,
    ),
    (
        "co.uk",
        "https://x.com/",
        "https://a.co.uk/",
        "https://s.a.co.uk/1",
        A3,
    ),
    (
        "",
        "https://pay.a.com/",
        "https://a.com/",
        "https://pay.a.com/1",
        B4,
    ),
    (
        "",
        "https://pay.a.com/",
        "https://pay.a.com/",
        "https://a.com/1",
        B4,
    ),
    (
        "",
        "https://pay.a.com/",
        "https://pay.a.com/",
        "https://pay.a.com/1",
        A3,
    ),
    (
        "",
        "https://pay.a.com/",
        "https://pay.a.com/",
        "https://pay.a.com:8443/1",
        B4,
    ),
    (
        "",
        "https://pay.a.com/",
        "https://a.com/",
        "https://s.pay.a.com/1",
        A3,
    ),
];

#[test]
fn by_the_rules_of_sites(rt: HostRuntime) -> Result<(), Fail> {
    let alloc = rt.alloc();
    for (suffixes, isolated, own, url, want) in SITES {
        let mut page = page(alloc, origin(alloc, own)?)?;
        page.rules = site_rules(alloc, suffixes, &[*isolated])?;
        assert!(rt;
            page.is_told_of_a_page(alloc, &[*url], &[], *want)?,
            "{own} {url}"
        );
    }
    Ok(())
}

/// The mode of a request of `https://a.com`, its URL, the value of `Access-Control-Allow-Origin`, and the ruling on a page
/// with status 206 and `nosniff`.
const BEFORE_HEADS: &[(Mode, &str, &str, Ruling)] = &[
    (Mode::NoCors, "https://a.com/x", "", A3),
    (Mode::NoCors, "https://s.a.com/x", "", A3),
    (Mode::NoCors, "http://a.com/x", "", B2),
    (Mode::NoCors, "https://b.com/x", "*", B2),
    (Mode::Cors, "https://a.com/x", "", A1),
    (Mode::Cors, "https://b.com/x", "*", A2),
    (Mode::Cors, "https://b.com/x", "", B1),
];

#[test]
fn before_status_and_options(rt: HostRuntime) -> Result<(), Fail> {
    let alloc = rt.alloc();
    let mut page = own_page(alloc)?;
    for (mode, url, allowed, want) in BEFORE_HEADS {
        page.mode = *mode;
        let fields = [
            ("Content-Type", "text/html"),
            ("X-Content-Type-Options", "nosniff"),
            (ALLOW, *allowed),
        ];
        let head = head(alloc, 206, &fields)?;
        let is_told = page.is_told(alloc, &[*url], &head, b"<p", *want, *want)?;
        assert!(rt; is_told, "{url} {allowed}");
    }
    Ok(())
}
