//! What a generated script has besides its documents and responses.

use crate::tests::shown::resource_at;
use script_gen::generate;
use script_model::{Policy, Script, site_of};
use std::alloc::Global;
use std::test::Fail;
use test_support::web_url;

#[test]
fn settings(rt: HostRuntime) -> Result<(), Fail> {
    let script = generate(rt.alloc(), 7)?;
    assert_eq!(rt; script.policy, Policy::Two);
    assert!(rt; script.spare);
    assert_eq!(rt; script.soft_limit, 16);
    Ok(())
}

/// The URLs of the resources, in order. The first eight are the start pages, too.
const URLS: &[&str] = &[
    "https://p0.test/",
    "https://p1.test/",
    "https://p2.test/",
    "https://p3.test/",
    "https://p4.test/",
    "https://p5.test/",
    "https://p6.test/",
    "https://p7.test/",
    "https://f0.test/",
    "https://f1.test/",
    "https://f2.test/",
    "https://f3.test/",
    "https://f4.test/",
    "https://f5.test/",
    "https://f6.test/",
    "https://f7.test/",
    "https://b0.test/r",
    "https://b1.test/r",
    "https://b2.test/r",
    "https://b3.test/r",
    "https://b4.test/r",
    "https://b5.test/r",
    "https://b6.test/r",
    "https://b7.test/r",
    "https://b8.test/r",
    "https://b9.test/r",
    "https://b10.test/r",
    "https://b11.test/r",
    "https://b12.test/r",
    "https://b13.test/r",
    "https://b14.test/r",
    "https://b15.test/r",
    "https://b16.test/r",
    "https://b17.test/r",
    "https://b18.test/r",
    "https://b19.test/r",
    "https://b20.test/r",
    "https://b21.test/r",
    "https://b22.test/r",
    "https://b23.test/r",
    "https://b24.test/r",
    "https://b25.test/r",
    "https://b26.test/r",
    "https://b27.test/r",
    "https://b28.test/r",
    "https://b29.test/r",
    "https://b30.test/r",
    "https://b31.test/r",
];

/// The text of the URL of a start page.
fn start_at(script: &Script, place: usize) -> Option<&str> {
    script.start.get(place).map(|url| url.text())
}

#[test]
fn start_pages(rt: HostRuntime) -> Result<(), Fail> {
    let script = generate(rt.alloc(), 7)?;
    assert_eq!(rt; script.start.as_slice().len(), 8);
    for (place, url) in URLS.iter().take(8).enumerate() {
        assert!(rt; start_at(&script, place) == Some(*url), "{url}");
    }
    Ok(())
}

#[test]
fn resources_in_order(rt: HostRuntime) -> Result<(), Fail> {
    let script = generate(rt.alloc(), 7)?;
    assert_eq!(rt; script.resources.as_slice().len(), 48);
    for (place, url) in URLS.iter().enumerate() {
        assert!(rt; resource_at(&script, place)?.url.text() == *url, "{url}");
    }
    Ok(())
}

/// Whether a document has status 200, no header fields, and an empty body on a wire that does not fail.
fn is_plain_document(script: &Script, place: usize) -> Result<bool, Fail> {
    let document = resource_at(script, place)?;
    Ok(
        document.head.status.as_u16() == 200
            && document.head.fields.is_empty()
            && document.body.as_slice().is_empty()
            && document.cuts.as_slice().is_empty()
            && document.fail_after.is_none(),
    )
}

#[test]
fn documents_are_plain(rt: HostRuntime) -> Result<(), Fail> {
    let script = generate(rt.alloc(), 7)?;
    for place in 0..16 {
        assert!(rt; is_plain_document(&script, place)?, "{place}");
    }
    Ok(())
}

/// A URL, and the host of its site: `test` is a public suffix, and no origin is isolated.
const SITES: &[(&str, &str)] = &[
    ("https://p0.test/", "p0.test"),
    ("https://a.p0.test/", "p0.test"),
    ("https://f7.test/", "f7.test"),
    ("https://b31.test/r", "b31.test"),
    ("https://test/", "test"),
    ("https://a.b.co.uk/", "co.uk"),
];

/// The host of a URL's site by the script's rules, where the site is that of a scheme and a host.
fn site_host(alloc: Global, script: &Script, url: &str) -> Result<String, Fail> {
    let url = web_url(alloc, url)?;
    let site = site_of(alloc, &script.rules, &url)?;
    if site.only.is_some() {
        return Err(Fail::new("an origin is isolated"));
    }
    Ok(String::from_str(alloc, site.host.as_str())?)
}

#[test]
fn sites(rt: HostRuntime) -> Result<(), Fail> {
    let alloc = rt.alloc();
    let script = generate(alloc, 7)?;
    for (url, host) in SITES {
        assert!(rt; site_host(alloc, &script, url)?.as_str() == *host, "{url}");
    }
    for url in URLS {
        site_host(alloc, &script, url)?;
    }
    Ok(())
}
