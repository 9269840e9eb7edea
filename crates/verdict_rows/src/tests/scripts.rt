//! Scripts and resources: what is left out, and what is found.

ghost use Rattle.std.specs.Prelude.{◌≡◌, IfOk};
ghost use Rattle.script_model.specs.ResourceData.{empty_resource};

use crate::tests::site_rules;
use script_model::{PageUrls, Policy, Resource, Resources, Script, UrlClass, find, page_url};
use std::alloc::Global;
use std::test::Fail;
use test_support::web_url;

/// A script that opens this page.
pub fn script(alloc: Global, url: &str) -> Result<Script, Fail> {
    let start = vec![in alloc; web_url(alloc, url)?]?;
    let rules = site_rules(alloc, "", &[])?;
    Ok(Script::new(alloc, rules, PageUrls::from_vec(start)))
}

#[test]
fn a_script_that_leaves_all_out(rt: HostRuntime) -> Result<(), Fail> {
    let script = script(rt.alloc(), "https://a.com/")?;
    assert_eq!(rt; script.policy, Policy::Two);
    assert!(rt; !script.spare);
    assert_eq!(rt; script.soft_limit, 64);
    assert_eq!(rt; script.start_count(), 1);
    assert_eq!(rt; script.page(0).text(), "https://a.com/");
    assert_eq!(rt; script.resources.as_slice().len(), 0);
    Ok(())
}

/// A resource at a URL of one of the three classes.
pub fn resource(alloc: Global, url: &str) -> Result<Resource, Fail>
    ensures { IfOk result (λ resource. resource ≡ empty_resource resource.url) }
{
    let url = page_url(alloc, url)?;
    match url.class() {
        UrlClass::Web | UrlClass::AboutBlank | UrlClass::DataUrl => Ok(Resource::new(alloc, url)),
        UrlClass::AboutSrcdoc | UrlClass::Foreign => Err(Fail::new("no URL of a resource")),
    }
}

/// URLs of resources.
const RESOURCES: &[&str] = &["https://a.com/", "http://a.com/", "about:blank", "data:,x"];

#[test]
fn a_resource_that_leaves_all_out(rt: HostRuntime) -> Result<(), Fail> {
    for url in RESOURCES {
        let resource = resource(rt.alloc(), url)?;
        assert_eq!(rt; resource.url.text(), *url);
        assert_eq!(rt; resource.head.status.as_u16(), 200);
        assert_eq!(rt; resource.head.fields.len(), 0);
        assert_eq!(rt; resource.body.len(), 0);
        assert_eq!(rt; resource.cuts.as_slice().len(), 0);
        assert_eq!(rt; resource.fail_after, None);
        assert_eq!(rt; resource.actions.as_slice().len(), 0);
    }
    Ok(())
}

/// The URL of a resource, a key, and whether the resource is found by it.
const KEYS: &[(&str, &str, bool)] = &[
    ("https://b.org/A", "https://b.org/A", true),
    ("https://b.org/A", "https://b.org/a", false),
    ("https://b.org/#top", "https://b.org/", true),
    ("https://b.org/#top", "https://b.org/#top", false),
    ("https://b.org/?q#top", "https://b.org/?q", true),
    ("https://b.org/?q", "https://b.org/", false),
    ("http://b.org/", "https://b.org/", false),
    ("https://b.org:8443/", "https://b.org/", false),
    ("https://b.org/", "https://b.org", false),
    ("https://b.org/", "", false),
    ("about:blank", "about:blank", true),
    ("data:,x#y", "data:,x", true),
];

/// Whether a script finds its one resource, at this URL, by a key.
fn is_found(alloc: Global, url: &str, key: &str) -> Result<bool, Fail> {
    let mut script = script(alloc, "https://a.com/")?;
    script.resources = Resources::from_vec(vec![in alloc; resource(alloc, url)?]?);
    Ok(find(&script, key).map(|resource| resource.url.text()) == Some(url))
}

#[test]
fn resources_by_their_keys(rt: HostRuntime) -> Result<(), Fail> {
    for (url, key, want) in KEYS {
        assert!(rt; is_found(rt.alloc(), url, key)? == *want, "{url} {key}");
    }
    Ok(())
}
