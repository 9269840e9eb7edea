//! The limits: each number, and what scripts and resources keep of them.

ghost use Rattle.std.specs.Prelude.{◌≡◌, ◌≢◌, ◌≤◌, All, IfOk, length};
ghost use Rattle.http_header.specs.HeaderMap.{value_count};
ghost use Rattle.page_origin.specs.PageUrls.{class_of};
ghost use Rattle.script_model.specs.ActionLimits.{IsAction};

use crate::tests::scripts::{resource, script};
use crate::tests::site_rules;
use bytes::Bytes;
use script_model::{Action, Actions, PageUrls, Resource, Script, UrlClass, limits};
use std::alloc::Global;
use std::test::Fail;
use test_support::web_chain;

/// A limit of the format, and its number.
const OF_THE_FORMAT: &[(usize, usize)] = &[
    (limits::MAX_START_PAGES, 64),
    (limits::MAX_RESOURCES, 1024),
    (limits::MAX_ISOLATED_ORIGINS, 64),
    (limits::MAX_SUFFIX_TEXT, 1_048_576),
    (limits::MAX_HEADERS, 64),
    (limits::MAX_HEADER_NAME, 64),
    (limits::MAX_HEADER_VALUE, 1024),
    (limits::MAX_BODY, 16_384),
    (limits::MAX_CUTS, 63),
    (limits::MAX_ACTIONS, 64),
    (limits::MAX_URL_INPUT, 4096),
    (limits::MAX_SHORT_TEXT, 1024),
    (limits::MAX_SERVICE_NAME, 32),
];

/// A limit of the browser, and its number.
const OF_THE_BROWSER: &[(u32, u32)] = &[
    (limits::MAX_SOFT_LIMIT, 64),
    (limits::MAX_FRAMES, 64),
    (limits::MAX_NAVIGATIONS, 256),
    (limits::MAX_REQUESTS, 4096),
    (limits::MAX_LIVE_PROCESSES, 64),
    (limits::MAX_STARTED_PROCESSES, 1024),
    (limits::MAX_REDIRECTS, 20),
];

#[test]
fn numbers(rt: HostRuntime) {
    for (limit, number) in OF_THE_FORMAT {
        assert_eq!(rt; *limit, *number);
    }
    for (limit, number) in OF_THE_BROWSER {
        assert_eq!(rt; *limit, *number);
    }
}

/// A script with so many start pages, at most 64.
fn script_of_pages(alloc: Global, count: usize) -> Result<Script, Fail> {
    let texts = vec![in alloc; "https://b.com/"; count]?;
    let start = web_chain(alloc, &texts)?;
    if start.len() > 64 {
        return Err(Fail::new("too many start pages"));
    }
    let rules = site_rules(alloc, "", &[])?;
    Ok(Script::new(alloc, rules, PageUrls::from_vec(start)))
}

#[test]
fn as_many_start_pages_as_there_may_be(rt: HostRuntime) -> Result<(), Fail> {
    let mut script = script_of_pages(rt.alloc(), 64)?;
    assert_eq!(rt; script.start_count(), 64);
    for limit in [0, 64] {
        script.soft_limit = limit;
        assert_eq!(rt; script.soft_limit, limit);
    }
    assert_eq!(rt; script_of_pages(rt.alloc(), 0)?.start_count(), 0);
    Ok(())
}

/// A resource with a body of so many bytes, at most 16,384, behind which the wire fails.
fn resource_of_bytes(alloc: Global, count: usize) -> Result<Resource, Fail> {
    let body = Bytes::from_vec(vec![in alloc; b'x'; count]?)?;
    if body.len() > 16_384 {
        return Err(Fail::new("too long a body"));
    }
    let mut resource = resource(alloc, "https://a.com/")?;
    let length = body.len() as u32;
    resource.body = body;
    resource.fail_after = Some(length);
    Ok(resource)
}

/// So many actions that wait.
fn waits(alloc: Global, count: usize) -> Result<Vec<Action>, Fail>
    ensures { IfOk result (λ actions. All IsAction actions.items) }
{
    let mut actions = Vec::new(alloc);
    for _turn in 0..count {
        actions.push(Action::Wait)?;
    }
    Ok(actions)
}

/// A resource with so many actions, at most 64.
fn resource_of_actions(alloc: Global, count: usize) -> Result<Resource, Fail> {
    let actions = waits(alloc, count)?;
    if actions.len() > 64 {
        return Err(Fail::new("too many actions"));
    }
    let mut resource = resource(alloc, "https://a.com/")?;
    resource.actions = Actions::from_vec(actions);
    Ok(resource)
}

/// How many bytes such a body has, and whether its wire fails before the head.
fn bytes_and_fault(alloc: Global, count: usize) -> Result<(usize, bool), Fail> {
    let resource = resource_of_bytes(alloc, count)?;
    Ok((resource.body.len(), resource.fails_at_once()))
}

/// How many actions such a resource has.
fn action_count(alloc: Global, count: usize) -> Result<usize, Fail> {
    let resource = resource_of_actions(alloc, count)?;
    Ok(resource.actions.as_slice().len())
}

#[test]
fn as_large_a_resource_as_there_may_be(rt: HostRuntime) -> Result<(), Fail> {
    assert_eq!(rt; bytes_and_fault(rt.alloc(), 0)?, (0, true));
    assert_eq!(rt; bytes_and_fault(rt.alloc(), 1)?, (1, false));
    assert_eq!(rt; bytes_and_fault(rt.alloc(), 16_384)?, (16_384, false));
    assert_eq!(rt; action_count(rt.alloc(), 64)?, 64);
    Ok(())
}

/// What every script keeps.
fn script_keeps(script: &Script)
    ensures soft_limit { script.now.soft_limit ≤ 64 }
    ensures pages { length script.now.start ≤ 64 }
    ensures classes { All (λ url. class_of url ≡ UrlClass.Web) script.now.start }
    ensures resources { length script.now.resources ≤ 1024 }
{
    let _script = &script.start;
}

/// What every resource keeps.
fn resource_keeps(resource: &Resource)
    ensures no_srcdoc { class_of resource.now.url ≢ UrlClass.AboutSrcdoc }
    ensures no_other { class_of resource.now.url ≢ UrlClass.Foreign }
    ensures least_status { 200 ≤ resource.now.head.status }
    ensures most_status { resource.now.head.status ≤ 599 }
    ensures headers { value_count resource.now.head.fields ≤ 64 }
    ensures body { length resource.now.body ≤ 16384 }
    ensures cuts { length resource.now.cuts ≤ 63 }
    ensures actions { length resource.now.actions ≤ 64 }
{
    let _resource = &resource.url;
}

#[test]
fn what_is_kept(rt: HostRuntime) -> Result<(), Fail> {
    script_keeps(&script(rt.alloc(), "https://a.com/")?);
    resource_keeps(&resource(rt.alloc(), "https://a.com/")?);
    Ok(())
}
