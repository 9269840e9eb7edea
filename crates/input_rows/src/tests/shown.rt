//! What tests show of a script: each key whose value is not that of a key left out.

use crate::tests::shown_actions::shown_action;
use script_model::{Head, Policy, Resource, Script};
use std::alloc::Global;
use std::test::Fail;

fn put_number(alloc: Global, text: &mut String, word: &str, number: u32) -> Result<(), Fail> {
    let shown = format!(in alloc; " {word} {number}")?;
    text.push_str(shown.as_str())?;
    Ok(())
}

fn put_head(alloc: Global, text: &mut String, head: &Head) -> Result<(), Fail> {
    let status = head.status.as_u16();
    if status != 200 {
        put_number(alloc, text, "status", u32::from(status))?;
    }
    for (name, value) in head.fields.iter() {
        let name = name.as_str();
        let value = value.as_str();
        let shown = format!(in alloc; " header {name} ({value})")?;
        text.push_str(shown.as_str())?;
    }
    Ok(())
}

fn put_delivery(alloc: Global, text: &mut String, resource: &Resource) -> Result<(), Fail> {
    let body = resource.body.as_slice();
    if !body.is_empty() {
        let digits = hex::encode(alloc, body)?;
        text.push_str(" body ")?;
        text.push_str(digits.as_str())?;
    }
    for cut in resource.cuts.as_slice() {
        put_number(alloc, text, "cut", *cut)?;
    }
    if let Some(sent) = resource.fail_after {
        put_number(alloc, text, "fail_after", sent)?;
    }
    Ok(())
}

fn put_resource(alloc: Global, text: &mut String, resource: &Resource) -> Result<(), Fail> {
    text.push_str(" resource ")?;
    text.push_str(resource.url.text())?;
    put_head(alloc, text, &resource.head)?;
    put_delivery(alloc, text, resource)?;
    for action in resource.actions.as_slice() {
        let shown = shown_action(alloc, action)?;
        text.push_str(" do ")?;
        text.push_str(shown.as_str())?;
    }
    Ok(())
}

pub fn shown_script(alloc: Global, script: &Script) -> Result<String, Fail> {
    let mut text = String::from_str(alloc, "read")?;
    if script.policy != Policy::Two {
        text.push_str(" policy one")?;
    }
    if script.spare {
        text.push_str(" spare")?;
    }
    if script.soft_limit != 64 {
        put_number(alloc, &mut text, "soft_limit", script.soft_limit)?;
    }
    for url in script.start.as_slice() {
        text.push_str(" start ")?;
        text.push_str(url.text())?;
    }
    for resource in script.resources.as_slice() {
        put_resource(alloc, &mut text, resource)?;
    }
    Ok(text)
}
