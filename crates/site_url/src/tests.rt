use crate::{SiteRules, same_site, site_of, site_of_origin};
use page_origin::{HostText, Origin, Scheme, Site, TupleOrigin};
use public_suffix::Rules;
use std::alloc::Global;
use std::test::Fail;
use test_support::{opaque_origin, origin, tuple_origin, web_url};

const SITES: &[(&str, Scheme, &str)] = &[
    ("https://co.uk/", Scheme::Https, "co.uk"),
    ("https://1.2.3.4/", Scheme::Https, "1.2.3.4"),
    ("https://a.com./", Scheme::Https, "a.com."),
    ("https://www.shop.co.uk:8443/x", Scheme::Https, "shop.co.uk"),
    ("http://www.shop.co.uk/", Scheme::Http, "shop.co.uk"),
    ("http://a.b.c.ck/", Scheme::Http, "b.c.ck"),
    ("http://a.www.ck/", Scheme::Http, "www.ck"),
    ("https://[::1]:80/", Scheme::Https, "[::1]"),
    ("https://localhost/", Scheme::Https, "localhost"),
    (
        "https://x.b\u{fc}cher.de/",
        Scheme::Https,
        "xn--bcher-kva.de",
    ),
];

/// Site rules of a suffix text and the origins of these URLs.
fn site_rules(alloc: Global, suffixes: &[u8], isolated: &[&str]) -> Result<SiteRules, Fail> {
    let mut origins = Vec::new(alloc);
    for url in isolated {
        origins.push(tuple_origin(alloc, url)?)?;
    }
    Ok(SiteRules::new(Rules::read(alloc, suffixes)?, origins))
}

fn is_site(site: &Site, scheme: Scheme, host: &str, only: Option<u16>) -> bool {
    site.scheme == scheme && site.host.as_str() == host && site.only == only
}

#[test]
fn sites_of_urls(rt: HostRuntime) -> Result<(), Fail> {
    let rules = site_rules(rt.alloc(), b"co.uk\n*.ck\n!www.ck\n", &[])?;
    for (text, scheme, host) in SITES {
        let url = web_url(rt.alloc(), text)?;
        let site = site_of(rt.alloc(), &rules, &url)?;
        assert!(rt; is_site(&site, *scheme, host, None), "{text}");
    }
    Ok(())
}

/// A host of numbers that an origin of a history may have, and its site's host. An IP address is four numbers from 0 to 255.
const NUMBER_HOSTS: &[(&str, &str)] = &[
    ("1.2.3.255", "1.2.3.255"),
    ("0.0.0.0", "0.0.0.0"),
    ("1.2.3.256", "3.256"),
    ("256.1.1.1", "1.1"),
    ("1.2.3.04", "3.04"),
    ("1.2.3", "2.3"),
    ("1.2.3.4.5", "4.5"),
];

fn origin_of_host(alloc: Global, host: &str) -> Result<Origin, Fail> {
    Ok(Origin::Tuple(TupleOrigin {
        scheme: Scheme::Https,
        host: HostText::from_bytes(alloc, host.as_bytes())?,
        port: 443,
    }))
}

#[test]
fn sites_of_number_hosts(rt: HostRuntime) -> Result<(), Fail> {
    let rules = site_rules(rt.alloc(), b"", &[])?;
    for (text, host) in NUMBER_HOSTS {
        let origin = origin_of_host(rt.alloc(), text)?;
        let site = site_of_origin(rt.alloc(), &rules, &origin)?;
        assert!(rt; is_site(&site, Scheme::Https, host, None), "{text}");
    }
    Ok(())
}

const ISOLATED: &[&str] = &[
    "https://pay.a.com/any/path",
    "https://pay.a.com/again",
    "https://pay.a.com:8443/",
    "http://127.0.0.1:8080/",
    "https://[::1]/",
    "https://a.co.uk/",
];

const ISOLATED_SITES: &[(&str, Scheme, &str, Option<u16>)] = &[
    ("https://pay.a.com/x", Scheme::Https, "pay.a.com", Some(443)),
    (
        "https://pay.a.com:8443/x",
        Scheme::Https,
        "pay.a.com",
        Some(8443),
    ),
    ("https://pay.a.com:444/", Scheme::Https, "a.com", None),
    ("http://pay.a.com/", Scheme::Http, "a.com", None),
    ("http://pay.a.com:443/", Scheme::Http, "a.com", None),
    ("https://sub.pay.a.com/", Scheme::Https, "a.com", None),
    ("https://a.com/", Scheme::Https, "a.com", None),
    (
        "http://127.0.0.1:8080/",
        Scheme::Http,
        "127.0.0.1",
        Some(8080),
    ),
    ("http://127.0.0.1/", Scheme::Http, "127.0.0.1", None),
    ("https://[::1]/", Scheme::Https, "[::1]", Some(443)),
    ("https://a.co.uk/", Scheme::Https, "a.co.uk", Some(443)),
    ("https://www.a.co.uk/", Scheme::Https, "a.co.uk", None),
];

#[test]
fn isolated_origins(rt: HostRuntime) -> Result<(), Fail> {
    let rules = site_rules(rt.alloc(), b"co.uk\n", ISOLATED)?;
    for (text, scheme, host, only) in ISOLATED_SITES {
        let url = web_url(rt.alloc(), text)?;
        let site = site_of(rt.alloc(), &rules, &url)?;
        assert!(rt; is_site(&site, *scheme, host, *only), "{text}");
    }
    Ok(())
}

fn have_one_site(alloc: Global, isolated: &[&str], a: &str, b: &str) -> Result<bool, Fail> {
    let rules = site_rules(alloc, b"co.uk\n", isolated)?;
    Ok(same_site(&rules, &origin(alloc, a)?, &origin(alloc, b)?))
}

const PAIRS: &[(&str, &str, bool)] = &[
    (
        "https://www.shop.co.uk/",
        "https://pay.shop.co.uk:8443/",
        true,
    ),
    ("http://a.com/", "https://a.com/", false),
    ("https://shop.co.uk/", "https://other.co.uk/", false),
    ("https://1.2.3.4/", "https://2.2.3.4/", false),
];

#[test]
fn same_sites(rt: HostRuntime) -> Result<(), Fail> {
    for (a, b, same) in PAIRS {
        assert!(rt; have_one_site(rt.alloc(), &[], a, b)? == *same, "{a} {b}");
    }
    Ok(())
}

const ISOLATED_PAIRS: &[(&str, &str, bool)] = &[
    ("https://pay.a.com/", "https://pay.a.com/x", true),
    ("https://pay.a.com/", "https://pay.a.com:8443/", false),
    ("https://pay.a.com/", "https://a.com/", false),
    ("https://pay.a.com/", "https://sub.pay.a.com/", false),
    ("https://www.a.com/", "https://sub.pay.a.com/", true),
    ("https://a.co.uk/", "https://www.a.co.uk/", false),
];

#[test]
fn same_isolated_sites(rt: HostRuntime) -> Result<(), Fail> {
    for (a, b, same) in ISOLATED_PAIRS {
        assert!(rt;
            have_one_site(rt.alloc(), ISOLATED, a, b)? == *same,
            "{a} {b}"
        );
    }
    Ok(())
}

/// The site of an opaque origin whose precursor has the whole host of a URL.
fn is_own_precursor(
    alloc: Global,
    rules: &SiteRules,
    text: &str,
    only: Option<u16>,
) -> Result<bool, Fail> {
    let opaque = opaque_origin(alloc, 3, text, only)?;
    let site = site_of_origin(alloc, rules, &opaque)?;
    Ok(is_site(&site, Scheme::Https, "www.a.com", only))
}

#[test]
fn sites_of_opaque_origins(rt: HostRuntime) -> Result<(), Fail> {
    let rules = site_rules(rt.alloc(), b"", &[])?;
    for only in [None, Some(443), Some(8443)] {
        assert!(rt; is_own_precursor(rt.alloc(), &rules, "https://www.a.com/", only)?);
    }
    Ok(())
}

fn is_one_site(
    alloc: Global,
    rules: &SiteRules,
    tuple: &str,
    precursor: &str,
    only: Option<u16>,
) -> Result<bool, Fail> {
    let tuple: Origin = origin(alloc, tuple)?;
    let opaque = opaque_origin(alloc, 3, precursor, only)?;
    Ok(same_site(rules, &tuple, &opaque))
}

const PRECURSORS: &[(&str, &str, Option<u16>, bool)] = &[
    ("https://www.a.com/", "https://a.com/", None, true),
    ("https://www.a.com/", "https://www.a.com/", None, false),
    ("https://pay.a.com/", "https://pay.a.com/", Some(443), true),
    ("https://pay.a.com/", "https://pay.a.com/", None, false),
    (
        "https://pay.a.com/",
        "https://pay.a.com/",
        Some(8443),
        false,
    ),
];

#[test]
fn same_site_as_an_opaque_origin(rt: HostRuntime) -> Result<(), Fail> {
    let rules = site_rules(rt.alloc(), b"", ISOLATED)?;
    for (tuple, precursor, only, same) in PRECURSORS {
        let found = is_one_site(rt.alloc(), &rules, tuple, precursor, *only)?;
        assert!(rt; found == *same, "{tuple} {precursor}");
    }
    Ok(())
}
