//! The longest chains and the heads with most fields, with ample memory.

use crate::tests::{A2, A3, B1, B4, B8, own_page};
use script_model::{Mode, Verdict};
use std::alloc::Global;
use std::test::Fail;
use test_support::head;

/// The URL of a request of `https://a.com` in mode no-cors and 20 redirects: to this URL, but the tenth to that one. The
/// resource policy, and the verdict on a page.
const CHAINS: &[(&str, &str, &str, Option<Verdict>)] = &[
    ("https://a.com/1", "https://a.com/2", "same-origin", A3),
    ("https://a.com/1", "https://s.a.com/2", "same-origin", B8),
    ("https://s.a.com/1", "https://a.com/2", "same-site", A3),
    ("https://s.a.com/1", "https://b.com/2", "same-site", B8),
    ("https://s.a.com/1", "https://b.com/2", "cross-origin", B4),
];

/// A chain of 21 URLs, with this one at the eleventh place.
fn chain<'a>(alloc: Global, url: &'a str, eleventh: &'a str) -> Result<Vec<&'a str>, Fail> {
    let mut chain = vec![in alloc; url; 10]?;
    chain.push(eleventh)?;
    chain.extend_from_slice(&vec![in alloc; url; 10]?)?;
    Ok(chain)
}

#[test]
fn chains_of_21_urls(rt: HostRuntime) -> Result<(), Fail> {
    let alloc = rt.alloc();
    let page = own_page(alloc)?;
    for (url, eleventh, resource, want) in CHAINS {
        let chain = chain(alloc, url, eleventh)?;
        assert_eq!(rt; chain.len(), 21);
        let fields = [("Cross-Origin-Resource-Policy", *resource)];
        assert!(rt;
            page.has_of_a_page(alloc, &chain, &fields, *want)?,
            "{eleventh} {resource}"
        );
    }
    Ok(())
}

/// The same in mode cors, with a value of `Access-Control-Allow-Origin`.
const CORS_CHAINS: &[(&str, &str, &str, Option<Verdict>)] = &[
    ("https://b.com/1", "https://b.com/2", "https://a.com", A2),
    ("https://b.com/1", "https://c.com/2", "null", A2),
    ("https://b.com/1", "https://c.com/2", "https://a.com", B1),
    ("https://a.com/1", "https://b.com/2", "https://a.com", B1),
];

#[test]
fn cors_chains_of_21_urls(rt: HostRuntime) -> Result<(), Fail> {
    let alloc = rt.alloc();
    let mut page = own_page(alloc)?;
    page.mode = Mode::Cors;
    for (url, eleventh, allowed, want) in CORS_CHAINS {
        let chain = chain(alloc, url, eleventh)?;
        let fields = [("Access-Control-Allow-Origin", *allowed)];
        assert!(rt;
            page.has_of_a_page(alloc, &chain, &fields, *want)?,
            "{eleventh} {allowed}"
        );
    }
    Ok(())
}

#[test]
fn heads_of_64_fields(rt: HostRuntime) -> Result<(), Fail> {
    let alloc = rt.alloc();
    let page = own_page(alloc)?;
    let mut fields = vec![in alloc; ("X-Field", "x"); 62]?;
    fields.push(("Content-Type", "text/html"))?;
    fields.push(("Cross-Origin-Resource-Policy", "same-site"))?;
    assert_eq!(rt; fields.len(), 64);
    let head = head(alloc, 200, &fields)?;
    assert_eq!(rt;
        page.verdict(alloc, &["https://b.com/x"], &head, b"<p", true)?,
        B8
    );
    assert_eq!(rt;
        page.verdict(alloc, &["https://s.a.com/x"], &head, b"<p", true)?,
        A3
    );
    Ok(())
}
