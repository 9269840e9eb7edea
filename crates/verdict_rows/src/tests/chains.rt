//! A3: the origin of the request is a tuple, and every URL of its chain has its site.

use crate::tests::{A3, B4, own_page, page, site_rules};
use script_model::Verdict;
use std::test::Fail;
use test_support::{opaque_origin, origin};

/// The chain of a request of `https://a.com`, and the verdict on a page.
const CHAINS: &[(&[&str], Option<Verdict>)] = &[
    (&[], A3),
    (&["https://a.com/1"], A3),
    (&["https://a.com:8443/1"], A3),
    (&["https://sub.a.com/1", "https://www.a.com/2"], A3),
    (&["http://a.com/1"], B4),
    (&["https://b.com/1"], B4),
    (&["https://a.com/1", "https://b.com/2"], B4),
    (&["https://b.com/1", "https://a.com/2"], B4),
    (
        &["https://a.com/1", "https://b.com/2", "https://a.com/3"],
        B4,
    ),
];

#[test]
fn of_a_tuple_origin(rt: HostRuntime) -> Result<(), Fail> {
    let alloc = rt.alloc();
    let page = own_page(alloc)?;
    for (chain, want) in CHAINS {
        assert!(rt; page.has_of_a_page(alloc, chain, &[], *want)?, "{chain:?}");
    }
    Ok(())
}

/// Where an opaque origin comes from: the URL, and the port of an isolated origin.
const OPAQUE: &[(&str, Option<u16>)] = &[
    ("https://a.com/", None),
    ("https://pay.a.com/", Some(443)),
    ("https://b.com/", None),
];

#[test]
fn never_of_an_opaque_origin(rt: HostRuntime) -> Result<(), Fail> {
    let alloc = rt.alloc();
    for (url, only) in OPAQUE {
        let mut page = page(alloc, opaque_origin(alloc, 1, url, *only)?)?;
        page.rules = site_rules(alloc, "", &["https://pay.a.com/"])?;
        assert!(rt; page.has_of_a_page(alloc, &[*url], &[], B4)?, "{url}");
        assert!(rt; page.has_of_a_page(alloc, &[], &[], B4)?, "{url}");
    }
    Ok(())
}

/// A request's origin and chain, and the verdicts on a page where the script has the suffix rule `co.uk` and where it has
/// none.
const SUFFIXES: &[(&str, &[&str], Option<Verdict>, Option<Verdict>)] = &[
    ("https://a.co.uk/", &["https://a.co.uk/1"], A3, A3),
    ("https://a.co.uk/", &["https://b.co.uk/1"], B4, A3),
    ("https://a.co.uk/", &["https://www.a.co.uk/1"], A3, A3),
    ("https://www.a.co.uk/", &["https://a.co.uk/1"], A3, A3),
    ("https://co.uk/", &["https://a.co.uk/1"], B4, A3),
    (
        "https://a.co.uk/",
        &["https://a.co.uk/1", "https://b.co.uk/2"],
        B4,
        A3,
    ),
];

#[test]
fn by_the_suffix_rules(rt: HostRuntime) -> Result<(), Fail> {
    let alloc = rt.alloc();
    for (own, chain, with_rule, without) in SUFFIXES {
        let mut page = page(alloc, origin(alloc, own)?)?;
        assert!(rt;
            page.has_of_a_page(alloc, chain, &[], *without)?,
            "{own} {chain:?}"
        );
        page.rules = site_rules(alloc, "co.uk\n", &[])?;
        assert!(rt;
            page.has_of_a_page(alloc, chain, &[], *with_rule)?,
            "{own} {chain:?}"
        );
    }
    Ok(())
}

/// The isolated origins of a script.
const ISOLATED_ORIGINS: &[&str] = &["https://pay.a.com/path", "https://shop.a.com:8443/"];

/// A request's origin and chain, and the verdicts on a page where the script has these isolated origins and where it has
/// none.
const ISOLATED: &[(&str, &[&str], Option<Verdict>, Option<Verdict>)] = &[
    ("https://a.com/", &["https://pay.a.com/1"], B4, A3),
    ("https://pay.a.com/", &["https://a.com/1"], B4, A3),
    ("https://pay.a.com/", &["https://pay.a.com/1"], A3, A3),
    ("https://pay.a.com/", &["https://sub.pay.a.com/1"], B4, A3),
    ("https://a.com/", &["https://sub.pay.a.com/1"], A3, A3),
    ("https://pay.a.com/", &["https://pay.a.com:8443/1"], B4, A3),
    ("https://a.com/", &["https://pay.a.com:8443/1"], A3, A3),
    ("http://a.com/", &["http://pay.a.com/1"], A3, A3),
    (
        "https://shop.a.com:8443/",
        &["https://shop.a.com:8443/1"],
        A3,
        A3,
    ),
    ("https://a.com/", &["https://shop.a.com:8443/1"], B4, A3),
    ("https://a.com/", &["https://shop.a.com/1"], A3, A3),
    ("https://pay.a.com/", &["https://shop.a.com:8443/1"], B4, A3),
    (
        "https://a.com/",
        &["https://a.com/1", "https://pay.a.com/2", "https://a.com/3"],
        B4,
        A3,
    ),
];

#[test]
fn by_isolated_origins(rt: HostRuntime) -> Result<(), Fail> {
    let alloc = rt.alloc();
    for (own, chain, isolated, without) in ISOLATED {
        let mut page = page(alloc, origin(alloc, own)?)?;
        assert!(rt;
            page.has_of_a_page(alloc, chain, &[], *without)?,
            "{own} {chain:?}"
        );
        page.rules = site_rules(alloc, "", ISOLATED_ORIGINS)?;
        assert!(rt;
            page.has_of_a_page(alloc, chain, &[], *isolated)?,
            "{own} {chain:?}"
        );
    }
    Ok(())
}
