use script_input::{Refusal, ScriptStop, read_script};
use std::alloc::Global;
use std::test::Fail;

fn stop_text(alloc: Global, text: &str) -> Result<String, Fail> {
    match read_script(alloc, text.as_bytes()) {
        Ok(_) => Ok(String::from_str(alloc, "read")?),
        Err(stop) => Ok(stop.to_string(alloc)?),
    }
}

/// Scripts, with the text of each refusal.
const TEXTS: &[(&str, &str)] = &[
    ("nul", "refused X1"),
    ("[]", "refused X2"),
    ("{}", "refused X2 /start"),
    (r#"{"start":[1]}"#, "refused X2 /start/0"),
    (
        r#"{"start":[],"isolated_origins":["about:blank"]}"#,
        "refused X3 /isolated_origins/0",
    ),
    (
        r#"{"start":[],"suffixes":"com\n\n!x"}"#,
        "refused X4 line 3",
    ),
    (
        r#"{"start":[],"resources":[{"url":"https://a.com/","headers":[["a","b"],["","x"]]}]}"#,
        "refused X5 /resources/0/headers/1/0",
    ),
    (r#"{"start":[],"soft_limit":65}"#, "refused X6 /soft_limit"),
    (
        r#"{"start":[],"resources":[{"url":"https://a.com/"},{"url":"https://a.com/"}]}"#,
        "refused X7 /resources/1/url",
    ),
];

#[test]
fn refusals_have_texts(rt: HostRuntime) -> Result<(), Fail> {
    for (text, want) in TEXTS {
        let found = stop_text(rt.alloc(), text)?;
        assert_eq!(rt; found.as_str(), *want);
    }
    Ok(())
}

#[test]
fn a_refusal_of_the_whole_script_has_a_text(rt: HostRuntime) -> Result<(), Fail> {
    let found = Refusal::whole(rt.alloc(), 8).to_string(rt.alloc())?;
    assert_eq!(rt; found.as_str(), "refused X8");
    Ok(())
}

#[test]
fn want_of_memory_has_a_text(rt: HostRuntime) -> Result<(), Fail> {
    let found = ScriptStop::NoMemory.to_string(rt.alloc())?;
    assert_eq!(rt; found.as_str(), "no memory");
    Ok(())
}
