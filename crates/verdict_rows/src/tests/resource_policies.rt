//! B8: under the second policy, the resource policy of the response leaves out the request.

use crate::tests::{A3, A4, Asker, B2, B3, B4, B5, B6, B7, B8, own_page, page, site_rules};
use script_model::{Policy, Verdict};
use std::alloc::Global;
use std::test::Fail;
use test_support::{head, opaque_origin, origin};

/// The header by which a response names whose requests may use it.
const RESOURCE: &str = "Cross-Origin-Resource-Policy";

/// A request's chain, the values of the header, and the verdicts on a page by the second policy and by the first.
type Row = (
    &'static [&'static str],
    &'static [&'static str],
    Option<Verdict>,
    Option<Verdict>,
);

/// Requests of `https://a.com`.
const OF_TUPLE: &[Row] = &[
    (&["https://a.com/1"], &["same-origin"], A3, A3),
    (&["https://a.com/1"], &["same-site"], A3, A3),
    (&["https://s.a.com/1"], &["same-origin"], B8, A3),
    (&["https://s.a.com/1"], &["same-site"], A3, A3),
    (&["https://a.com:8443/1"], &["same-origin"], B8, A3),
    (&["https://a.com:8443/1"], &["same-site"], A3, A3),
    (&["http://a.com/1"], &["same-origin"], B8, B4),
    (&["http://a.com/1"], &["same-site"], B8, B4),
    (&["https://b.com/1"], &["same-origin"], B8, B4),
    (&["https://b.com/1"], &["same-site"], B8, B4),
    (&[], &["same-origin"], A3, A3),
    // Every URL of the chain is asked.
    (
        &["https://a.com/1", "https://b.com/2", "https://a.com/3"],
        &["same-origin"],
        B8,
        B4,
    ),
    (
        &["https://a.com/1", "https://b.com/2", "https://a.com/3"],
        &["same-site"],
        B8,
        B4,
    ),
    (
        &["https://a.com/1", "https://s.a.com/2", "https://a.com/3"],
        &["same-origin"],
        B8,
        A3,
    ),
    (
        &["https://a.com/1", "https://s.a.com/2", "https://a.com/3"],
        &["same-site"],
        A3,
        A3,
    ),
    (
        &["https://s.a.com/1", "https://a.com/2"],
        &["same-origin"],
        B8,
        A3,
    ),
    (
        &["https://b.com/1", "https://a.com/2"],
        &["same-site"],
        B8,
        B4,
    ),
    // Every other text is no policy.
    (&["https://b.com/1"], &[], B4, B4),
    (&["https://b.com/1"], &[""], B4, B4),
    (&["https://b.com/1"], &["cross-origin"], B4, B4),
    (&["https://b.com/1"], &["Same-Origin"], B4, B4),
    (&["https://b.com/1"], &["SAME-SITE"], B4, B4),
    (&["https://b.com/1"], &["same-origin;x"], B4, B4),
    (
        &["https://b.com/1"],
        &["same-origin", "same-origin"],
        B4,
        B4,
    ),
    (&["https://b.com/1"], &["same-site", "same-site"], B4, B4),
    (&["https://b.com/1"], &["same-site", ""], B4, B4),
    (&["https://b.com/1"], &["", "same-origin"], B4, B4),
];

/// Requests of an opaque origin that comes from the site `https://a.com`.
const OF_OPAQUE: &[Row] = &[
    (&["https://a.com/1"], &["same-origin"], B8, B4),
    (&["https://a.com/1"], &["same-site"], B8, B4),
    (&[], &["same-site"], B8, B4),
    (&["https://a.com/1"], &["cross-origin"], B4, B4),
    (&["https://a.com/1"], &[], B4, B4),
];

/// Whether a page has the verdicts of a row.
fn has_both(alloc: Global, page: &mut Asker, row: &Row) -> Result<bool, Fail> {
    let (chain, values, second, first) = *row;
    let mut fields = Vec::new(alloc);
    for value in values {
        fields.push((RESOURCE, *value))?;
    }
    page.policy = Policy::Two;
    let by_second = page.has_of_a_page(alloc, chain, &fields, second)?;
    page.policy = Policy::One;
    Ok(by_second && page.has_of_a_page(alloc, chain, &fields, first)?)
}

#[test]
fn of_a_tuple_origin(rt: HostRuntime) -> Result<(), Fail> {
    let mut page = own_page(rt.alloc())?;
    for row in OF_TUPLE {
        assert!(rt;
            has_both(rt.alloc(), &mut page, row)?,
            "{:?} {:?}",
            row.0,
            row.1
        );
    }
    Ok(())
}

#[test]
fn of_an_opaque_origin(rt: HostRuntime) -> Result<(), Fail> {
    let origin = opaque_origin(rt.alloc(), 1, "https://a.com/", None)?;
    let mut page = page(rt.alloc(), origin)?;
    for row in OF_OPAQUE {
        assert!(rt;
            has_both(rt.alloc(), &mut page, row)?,
            "{:?} {:?}",
            row.0,
            row.1
        );
    }
    Ok(())
}

/// A suffix text, an isolated origin, a request's origin and URL, and the verdict on a page with `same-site`.
const SITES: &[(&str, &str, &str, &str, Option<Verdict>)] = &[
    (
        "",
        "https://x.com/",
        "https://a.co.uk/",
        "https://b.co.uk/1",
        A3,
    ),
    (
        "co.uk",
        "https://x.com/",
        "https://a.co.uk/",
        "https://b.co.uk/1",
        B8,
    ),
    (
        "co.uk",
        "https://x.com/",
        "https://a.co.uk/",
        "https://s.a.co.uk/1",
        A3,
    ),
    (
        "",
        "https://pay.a.com/",
        "https://a.com/",
        "https://pay.a.com/1",
        B8,
    ),
    (
        "",
        "https://pay.a.com/",
        "https://pay.a.com/",
        "https://a.com/1",
        B8,
    ),
    (
        "",
        "https://pay.a.com/",
        "https://pay.a.com/",
        "https://pay.a.com/1",
        A3,
    ),
    (
        "",
        "https://pay.a.com/",
        "https://a.com/",
        "https://s.pay.a.com/1",
        A3,
    ),
];

#[test]
fn by_the_rules_of_sites(rt: HostRuntime) -> Result<(), Fail> {
    let alloc = rt.alloc();
    for (suffixes, isolated, own, url, want) in SITES {
        let mut page = page(alloc, origin(alloc, own)?)?;
        page.rules = site_rules(alloc, suffixes, &[*isolated])?;
        let fields = [(RESOURCE, "same-site")];
        assert!(rt;
            page.has_of_a_page(alloc, &[*url], &fields, *want)?,
            "{own} {url}"
        );
    }
    Ok(())
}

/// The URL of a request of `https://a.com`, its response's status, content type, options and resource policy, a body so
/// far, and the verdicts on it by the second policy and by the first.
const BEFORE_THE_REST: &[(
    &str,
    (u16, &str, &str, &str),
    &[u8],
    Option<Verdict>,
    Option<Verdict>,
)] = &[
    (
        "https://b.com/1",
        (200, "image/png", "", "same-site"),
        b"x",
        B8,
        A4,
    ),
    (
        "https://b.com/1",
        (200, "image/png", "", "cross-origin"),
        b"x",
        A4,
        A4,
    ),
    (
        "https://b.com/1",
        (206, "text/html", "nosniff", "same-origin"),
        b"",
        B8,
        B2,
    ),
    (
        "https://b.com/1",
        (200, "text/plain", "nosniff", "same-site"),
        b"",
        B8,
        B3,
    ),
    (
        "https://b.com/1",
        (200, "text/html", "", "same-origin"),
        b"",
        B8,
        None,
    ),
    (
        "https://b.com/1",
        (200, "text/xml", "", "same-origin"),
        b"<?xml",
        B8,
        B5,
    ),
    (
        "https://b.com/1",
        (200, "text/json", "", "same-origin"),
        b"{\"a\":",
        B8,
        B6,
    ),
    (
        "https://b.com/1",
        (200, "text/javascript", "", "same-site"),
        b")]}'",
        B8,
        B7,
    ),
    (
        "https://b.com/1",
        (200, "text/css", "", "same-site"),
        b"",
        B8,
        A4,
    ),
    (
        "https://s.a.com/1",
        (206, "text/html", "nosniff", "same-origin"),
        b"",
        B8,
        A3,
    ),
    (
        "https://s.a.com/1",
        (206, "text/html", "nosniff", "same-site"),
        b"",
        A3,
        A3,
    ),
];

#[test]
fn before_the_rest_of_the_table(rt: HostRuntime) -> Result<(), Fail> {
    let alloc = rt.alloc();
    let mut page = own_page(alloc)?;
    for (url, (status, content_type, options, resource), body, second, first) in BEFORE_THE_REST {
        let fields = [
            ("Content-Type", *content_type),
            ("X-Content-Type-Options", *options),
            (RESOURCE, *resource),
        ];
        let head = head(alloc, *status, &fields)?;
        page.policy = Policy::Two;
        assert_eq!(rt;
            page.verdict(alloc, &[*url], &head, body, false)?,
            *second,
            "{url} {resource}"
        );
        page.policy = Policy::One;
        assert_eq!(rt;
            page.verdict(alloc, &[*url], &head, body, false)?,
            *first,
            "{url} {resource}"
        );
    }
    Ok(())
}
