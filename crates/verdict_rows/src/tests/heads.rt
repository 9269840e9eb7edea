//! The rows of the table that are found by the head: B2 and B3, and what comes before them.

use crate::tests::{A1, A2, A3, A4, B1, B2, B3, own_page};
use script_model::{Mode, Verdict};
use std::test::Fail;
use test_support::head;

/// A status, a content type, options of that type, and the verdict on an empty body that goes on, in mode no-cors, of
/// another site.
const HEADS: &[(u16, &str, &str, Option<Verdict>)] = &[
    (206, "text/html", "", B2),
    (206, "text/xml", "", B2),
    (206, "text/json", "", B2),
    (206, "text/plain", "", None),
    (206, "text/css", "", A4),
    (206, "text/javascript", "", None),
    (200, "text/html", "", None),
    (205, "text/html", "", None),
    (207, "text/html", "", None),
    (206, "text/html", "nosniff", B2),
    (206, "text/plain", "nosniff", B3),
    (200, "text/html", "NoSniff", B3),
    (200, "text/xml", "nosniff", B3),
    (200, "text/json", "nosniff", B3),
    (200, "text/plain", "nosniff", B3),
    (200, "text/css", "nosniff", A4),
    (200, "text/javascript", "nosniff", None),
    (200, "text/html", "x, nosniff", None),
];

#[test]
fn by_status_and_options(rt: HostRuntime) -> Result<(), Fail> {
    let alloc = rt.alloc();
    let page = own_page(alloc)?;
    for (status, content_type, options, want) in HEADS {
        let fields = [
            ("Content-Type", *content_type),
            ("X-Content-Type-Options", *options),
        ];
        let head = head(alloc, *status, &fields)?;
        let verdict = page.verdict(alloc, &["https://b.com/x"], &head, b"", false)?;
        assert_eq!(rt; verdict, *want, "{status} {content_type} {options}");
    }
    Ok(())
}

/// The mode of a request of `https://a.com`, its URL, the value of `Access-Control-Allow-Origin`, and the verdict before
/// the first byte on a page of `text/html` with status 206 and `nosniff`.
const BEFORE_HEADS: &[(Mode, &str, &str, Option<Verdict>)] = &[
    (Mode::NoCors, "https://a.com/x", "", A3),
    (Mode::NoCors, "https://s.a.com/x", "", A3),
    (Mode::NoCors, "http://a.com/x", "", B2),
    (Mode::NoCors, "https://b.com/x", "*", B2),
    (Mode::Cors, "https://a.com/x", "", A1),
    (Mode::Cors, "https://b.com/x", "*", A2),
    (Mode::Cors, "https://s.a.com/x", "https://a.com", A2),
    (Mode::Cors, "https://s.a.com/x", "", B1),
    (Mode::Cors, "https://b.com/x", "https://b.com", B1),
];

#[test]
fn before_status_and_options(rt: HostRuntime) -> Result<(), Fail> {
    let alloc = rt.alloc();
    let mut page = own_page(alloc)?;
    for (mode, url, allowed, want) in BEFORE_HEADS {
        page.mode = *mode;
        let fields = [
            ("Content-Type", "text/html"),
            ("X-Content-Type-Options", "nosniff"),
            ("Access-Control-Allow-Origin", *allowed),
        ];
        let head = head(alloc, 206, &fields)?;
        assert_eq!(rt;
            page.early(alloc, &[*url], &head)?,
            *want,
            "{url} {allowed}"
        );
    }
    Ok(())
}
