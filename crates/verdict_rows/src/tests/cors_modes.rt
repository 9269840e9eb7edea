//! Mode cors: the verdict is that of the CORS check.

use crate::tests::{A1, A2, B1, own_page, page};
use script_model::{Mode, Verdict};
use std::test::Fail;
use test_support::opaque_origin;

/// The header by which a response names the origin that may read it.
const ALLOW: &str = "Access-Control-Allow-Origin";

/// The header by which a response names whose requests may use it.
const RESOURCE: &str = "Cross-Origin-Resource-Policy";

/// The chain of a request, the fields of its response, and the verdicts where the request is of `https://a.com` and where
/// it is of an opaque origin of that site.
const CORS: &[(&[&str], &[(&str, &str)], Option<Verdict>, Option<Verdict>)] = &[
    (&["https://a.com/x"], &[], A1, B1),
    (&["https://sub.a.com/x"], &[], B1, B1),
    (&["https://b.com/x"], &[], B1, B1),
    (&["https://b.com/x"], &[(ALLOW, "*")], A2, A2),
    (&["https://b.com/x"], &[(ALLOW, "https://a.com")], A2, B1),
    (&["https://b.com/x"], &[(ALLOW, "null")], B1, A2),
    (
        &["https://b.com/x"],
        &[(ALLOW, "https://a.com"), (ALLOW, "https://b.com")],
        B1,
        B1,
    ),
    (
        &["https://b.com/x", "https://a.com/x"],
        &[(ALLOW, "null")],
        A2,
        A2,
    ),
    // The resource policy of a response is not asked in this mode.
    (&["https://a.com/x"], &[(RESOURCE, "same-site")], A1, B1),
    (&["https://b.com/x"], &[(RESOURCE, "same-origin")], B1, B1),
    (
        &["https://b.com/x"],
        &[(RESOURCE, "same-origin"), (ALLOW, "*")],
        A2,
        A2,
    ),
    (
        &["https://b.com/x"],
        &[(RESOURCE, "same-site"), (ALLOW, "null")],
        B1,
        A2,
    ),
];

#[test]
fn by_cors_check(rt: HostRuntime) -> Result<(), Fail> {
    let alloc = rt.alloc();
    let mut tuple = own_page(alloc)?;
    let mut opaque = page(alloc, opaque_origin(alloc, 1, "https://a.com/", None)?)?;
    tuple.mode = Mode::Cors;
    opaque.mode = Mode::Cors;
    for (chain, fields, of_tuple, of_opaque) in CORS {
        assert!(rt;
            tuple.has_of_a_page(alloc, chain, fields, *of_tuple)?,
            "{chain:?}"
        );
        assert!(rt;
            opaque.has_of_a_page(alloc, chain, fields, *of_opaque)?,
            "{chain:?}"
        );
    }
    Ok(())
}
