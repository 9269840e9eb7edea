use crate::tests::told;
use std::alloc::Global;
use std::test::Fail;

/// Limits: what stands before, what is repeated, how often at most, what stands behind, and what is said of once more.
const LIMITS: &[(&str, &str, usize, &str, &str)] = &[
    (
        r#"{"start":[],"suffixes":""#,
        " ",
        1_048_576,
        r#""}"#,
        "X6 /suffixes",
    ),
    (
        r#"{"start":["#,
        r#""https://a.com/","#,
        63,
        r#""https://a.com/"]}"#,
        "X6 /start",
    ),
    (
        r#"{"start":["https://a.com/"#,
        "x",
        2034,
        r#""]}"#,
        "X3 /start/0",
    ),
    (
        r#"{"start":[],"isolated_origins":["#,
        r#""https://a.com/","#,
        63,
        r#""https://a.com/"]}"#,
        "X6 /isolated_origins",
    ),
    (
        r#"{"start":[],"resources":[{"url":"https://a.com/","headers":["#,
        r#"["a","b"],"#,
        63,
        r#"["a","b"]]}]}"#,
        "X6 /resources/0/headers",
    ),
    (
        r#"{"start":[],"resources":[{"url":"https://a.com/","headers":[[""#,
        "x",
        64,
        r#"","v"]]}]}"#,
        "X5 /resources/0/headers/0/0",
    ),
    (
        r#"{"start":[],"resources":[{"url":"https://a.com/","headers":[["n"," \t"#,
        "x",
        1024,
        r#"\t "]]}]}"#,
        "X6 /resources/0/headers/0/1",
    ),
    (
        r#"{"start":[],"resources":[{"url":"https://a.com/","body":""#,
        "x",
        16384,
        r#""}]}"#,
        "X6 /resources/0/body",
    ),
    (
        r#"{"start":[],"resources":[{"url":"https://a.com/","body_hex":""#,
        "0a",
        16384,
        r#""}]}"#,
        "X6 /resources/0/body_hex",
    ),
    (
        r#"{"start":[],"resources":[{"url":"https://a.com/","actions":["#,
        r#"{"do":"wait"},"#,
        63,
        r#"{"do":"wait"}]}]}"#,
        "X6 /resources/0/actions",
    ),
    (
        r#"{"start":[],"resources":[{"url":"https://a.com/","actions":[{"do":"page","url":""#,
        "x",
        4096,
        r#""}]}]}"#,
        "X6 /resources/0/actions/0/url",
    ),
    (
        r#"{"start":[],"resources":[{"url":"https://a.com/","actions":[{"do":"post","frame":"top","target":"*","text":""#,
        "\u{e9}",
        512,
        r#""}]}]}"#,
        "X6 /resources/0/actions/0/text",
    ),
    (
        r#"{"start":[],"resources":[{"url":"https://a.com/","actions":[{"do":"ask","request":"","service":""#,
        "x",
        32,
        r#""}]}]}"#,
        "X6 /resources/0/actions/0/service",
    ),
    (
        r#"{"start":[],"resources":[{"url":"https://a.com/","actions":[{"do":"ask","service":"store","request":""#,
        "x",
        1024,
        r#""}]}]}"#,
        "X6 /resources/0/actions/0/request",
    ),
];

/// Two faults, of which one is a length: what stands before, what is repeated, how often, what stands behind, and what is said.
const FIRST_FAULTS: &[(&str, &str, usize, &str, &str)] = &[
    (
        r#"{"start":[],"suffixes":"!"#,
        "x",
        1_048_576,
        r#""}"#,
        "X6 /suffixes",
    ),
    (
        r#"{"start":["no","#,
        r#""https://a.com/","#,
        63,
        r#""https://a.com/"]}"#,
        "X6 /start",
    ),
    (
        r#"{"start":[],"isolated_origins":["about:blank","#,
        r#""https://a.com/","#,
        63,
        r#""https://a.com/"]}"#,
        "X6 /isolated_origins",
    ),
    (
        r#"{"start":[],"resources":[{"url":"https://a.com/","headers":[["n","\u007f"#,
        "x",
        1024,
        r#""]]}]}"#,
        "X6 /resources/0/headers/0/1",
    ),
    (
        r#"{"start":[],"resources":[{"url":"https://a.com/","headers":[["n","\u007f"#,
        "x",
        1023,
        r#""]]}]}"#,
        "X5 /resources/0/headers/0/1",
    ),
    (
        r#"{"start":[],"resources":[{"url":"https://a.com/","body_hex":"0x"#,
        "0a",
        16384,
        r#""}]}"#,
        "X2 /resources/0/body_hex",
    ),
    (
        r#"{"start":[],"resources":[{"url":"https://a.com/","actions":["#,
        r#"{"do":"fly"},"#,
        64,
        r#"{"do":"wait"}]}]}"#,
        "X6 /resources/0/actions",
    ),
];

/// What is said of a text whose middle is repeated so often.
fn told_repeated(
    alloc: Global,
    front: &str,
    middle: &str,
    count: usize,
    back: &str,
) -> Result<String, Fail> {
    let middle = middle.repeat(alloc, count)?;
    let text = format!(in alloc; "{front}{middle}{back}")?;
    told(alloc, text.as_bytes())
}

#[test]
fn limits_are_the_most_that_is_read(rt: HostRuntime) -> Result<(), Fail> {
    let alloc = rt.alloc();
    for (front, middle, most, back, want) in LIMITS {
        let most = *most;
        let found = told_repeated(alloc, front, middle, most, back)?;
        assert!(rt; found.as_str().starts_with("read"), "at {want}");
        let found = told_repeated(alloc, front, middle, most.saturating_add(1), back)?;
        assert_eq!(rt; found.as_str(), *want);
    }
    Ok(())
}

#[test]
fn lengths_are_told_in_their_turn(rt: HostRuntime) -> Result<(), Fail> {
    for (front, middle, count, back, want) in FIRST_FAULTS {
        let found = told_repeated(rt.alloc(), front, middle, *count, back)?;
        assert_eq!(rt; found.as_str(), *want);
    }
    Ok(())
}

/// What is said of so many resources at URLs of their own, and one more at this URL.
fn told_resources(alloc: Global, count: u32, last: &str) -> Result<String, Fail> {
    let mut text = String::from_str(alloc, "{\"start\":[],\"resources\":[")?;
    for i in 0..count {
        let resource = format!(in alloc; "{{\"url\":\"https://a.com/{i}\"}},")?;
        text.push_str(resource.as_str())?;
    }
    let resource = format!(in alloc; "{{\"url\":\"{last}\"}}]}}")?;
    text.push_str(resource.as_str())?;
    told(alloc, text.as_bytes())
}

#[test]
fn a_script_has_at_most_1024_resources_each_of_its_own_key(rt: HostRuntime) -> Result<(), Fail> {
    let found = told_resources(rt.alloc(), 1023, "https://a.com/last#x")?;
    assert!(rt;
        found
            .as_str()
            .ends_with("https://a.com/1022 resource https://a.com/last#x")
    );
    for (count, last, want) in [
        (1023, "https://a.com/0#x", "X7 /resources/1023/url"),
        (1023, "https://a.com/1022", "X7 /resources/1023/url"),
        (1024, "https://a.com/0", "X6 /resources"),
    ] {
        let found = told_resources(rt.alloc(), count, last)?;
        assert_eq!(rt; found.as_str(), want);
    }
    Ok(())
}

/// What is said of a body of 100 bytes that is cut behind each of so many.
fn told_cuts(alloc: Global, last: u32) -> Result<String, Fail> {
    let body = "x".repeat(alloc, 100)?;
    let mut text = format!(in alloc;
        "{{\"start\":[],\"resources\":[{{\"url\":\"https://a.com/\",\"body\":\"{body}\",\"cuts\":[1"
    )?;
    for cut in 2..=last {
        let cut = format!(in alloc; ",{cut}")?;
        text.push_str(cut.as_str())?;
    }
    text.push_str("]}]}")?;
    told(alloc, text.as_bytes())
}

#[test]
fn a_body_has_at_most_63_cuts(rt: HostRuntime) -> Result<(), Fail> {
    let found = told_cuts(rt.alloc(), 63)?;
    assert!(rt; found.as_str().ends_with(" cut 62 cut 63"));
    let found = told_cuts(rt.alloc(), 64)?;
    assert_eq!(rt; found.as_str(), "X6 /resources/0/cuts");
    Ok(())
}

/// What is said of lists, so many within one another.
fn told_nested(alloc: Global, depth: usize) -> Result<String, Fail> {
    let front = "[".repeat(alloc, depth)?;
    let back = "]".repeat(alloc, depth)?;
    told_repeated(alloc, front.as_str(), "", 0, back.as_str())
}

#[test]
fn values_nest_at_most_127_deep(rt: HostRuntime) -> Result<(), Fail> {
    for (depth, want) in [(127, "X2"), (128, "X1")] {
        let found = told_nested(rt.alloc(), depth)?;
        assert_eq!(rt; found.as_str(), want);
    }
    Ok(())
}
