use script_input::read_script;
use script_model::{Site, SiteRules, site_of};
use std::alloc::Global;
use std::test::Fail;
use test_support::web_url;

fn shown_site(alloc: Global, site: &Site) -> Result<String, Fail> {
    let scheme = site.scheme.as_str();
    let host = site.host.as_str();
    match site.only {
        Some(port) => Ok(format!(in alloc; "={scheme}://{host}:{port}")?),
        None => Ok(format!(in alloc; "{scheme}://{host}")?),
    }
}

fn shown_site_of(alloc: Global, rules: &SiteRules, url: &str) -> Result<String, Fail> {
    let url = web_url(alloc, url)?;
    let site = site_of(alloc, rules, &url)?;
    shown_site(alloc, &site)
}

/// The site of a URL by a script with these keys beside `start`; an isolated origin is told by `=`.
fn site_by(alloc: Global, keys: &str, url: &str) -> Result<String, Fail> {
    let text = format!(in alloc; "{{\"start\":[]{keys}}}")?;
    match read_script(alloc, text.as_bytes()) {
        Ok(script) => shown_site_of(alloc, &script.rules, url),
        Err(stop) => Ok(stop.to_string(alloc)?),
    }
}

/// Keys, a URL and its site.
const SITES: &[(&str, &str, &str)] = &[
    ("", "https://x.a.co.uk/", "https://co.uk"),
    (r#","suffixes":"""#, "https://x.a.co.uk/", "https://co.uk"),
    (
        r#","suffixes":"uk\nco.uk\n""#,
        "https://x.a.co.uk/",
        "https://a.co.uk",
    ),
    ("", "https://pay.a.com/", "https://a.com"),
    (
        r#","isolated_origins":[]"#,
        "https://pay.a.com/",
        "https://a.com",
    ),
    (
        r#","isolated_origins":["https://pay.a.com"]"#,
        "https://pay.a.com/f",
        "=https://pay.a.com:443",
    ),
    (
        r#","isolated_origins":["https://Pay.a.com:443/any/path?x#y"]"#,
        "https://pay.a.com/",
        "=https://pay.a.com:443",
    ),
    (
        r#","isolated_origins":["https://pay.a.com"]"#,
        "https://sub.pay.a.com/",
        "https://a.com",
    ),
    (
        r#","isolated_origins":["https://pay.a.com"]"#,
        "https://pay.a.com:8443/",
        "https://a.com",
    ),
    (
        r#","isolated_origins":["https://pay.a.com"]"#,
        "http://pay.a.com/",
        "http://a.com",
    ),
    (
        r#","isolated_origins":["https://a.com/","http://127.0.0.1:8080/","https://a.com/x"]"#,
        "http://127.0.0.1:8080/x",
        "=http://127.0.0.1:8080",
    ),
    (
        r#","isolated_origins":["https://a.com/","http://127.0.0.1:8080/","https://a.com/x"]"#,
        "https://a.com/",
        "=https://a.com:443",
    ),
    (
        r#","suffixes":"co.uk","isolated_origins":["https://a.co.uk"]"#,
        "https://www.a.co.uk/",
        "https://a.co.uk",
    ),
];

#[test]
fn sites_go_by_suffixes_and_isolated_origins(rt: HostRuntime) -> Result<(), Fail> {
    for (keys, url, want) in SITES {
        let found = site_by(rt.alloc(), keys, url)?;
        assert_eq!(rt; found.as_str(), *want, "at {keys} {url}");
    }
    Ok(())
}

/// The site of `https://pay.a.com/`, the last of so many isolated origins and one more.
fn site_of_last(alloc: Global, others: usize) -> Result<String, Fail> {
    let others = r#""https://a.com/","#.repeat(alloc, others)?;
    let keys = format!(in alloc; ",\"isolated_origins\":[{others}\"https://pay.a.com/\"]")?;
    site_by(alloc, keys.as_str(), "https://pay.a.com/")
}

#[test]
fn the_last_of_64_isolated_origins_counts(rt: HostRuntime) -> Result<(), Fail> {
    let found = site_of_last(rt.alloc(), 63)?;
    assert_eq!(rt; found.as_str(), "=https://pay.a.com:443");
    Ok(())
}
