//! The pieces of a body that is cut, and breaks off.

use script_input::read_script;
use script_model::Resource;
use std::alloc::Global;
use std::str;
use std::test::Fail;

/// The keys of a resource beside its URL, and its pieces with a line behind each.
const ROWS: &[(&str, &str)] = &[
    (r#""body":"""#, ""),
    (r#""body":"abcdef""#, "abcdef|"),
    (r#""body":"abcdef","cuts":[2,4]"#, "ab|cd|ef|"),
    (r#""body":"abcdef","cuts":[2,4],"fail_after":0"#, ""),
    (r#""body":"abcdef","cuts":[2,4],"fail_after":1"#, "a|"),
    (r#""body":"abcdef","cuts":[2,4],"fail_after":2"#, "ab|"),
    (r#""body":"abcdef","cuts":[2,4],"fail_after":3"#, "ab|c|"),
    (r#""body":"abcdef","cuts":[2,4],"fail_after":4"#, "ab|cd|"),
    (r#""body":"abcdef","cuts":[2,4],"fail_after":5"#, "ab|cd|e|"),
    (
        r#""body":"abcdef","cuts":[2,4],"fail_after":6"#,
        "ab|cd|ef|",
    ),
];

fn shown(alloc: Global, resource: &Resource) -> Result<String, Fail> {
    let pieces = resource.pieces(alloc)?;
    let mut text = String::new(alloc);
    for piece in pieces.as_slice() {
        text.push_str(str::from_utf8(piece.as_bytes()).unwrap_or("no text"))?;
        text.push('|')?;
    }
    Ok(text)
}

fn pieces_of(alloc: Global, keys: &str) -> Result<String, Fail> {
    let script = format!(in alloc;
        "{{\"start\":[],\"resources\":[{{\"url\":\"https://a.com/\",{keys}}}]}}"
    )?;
    let script = read_script(alloc, script.as_bytes())?;
    match script.resources.as_slice() {
        [resource] => shown(alloc, resource),
        _ => Err(Fail::new("there is one resource")),
    }
}

#[test]
fn bodies_come_in_pieces(rt: HostRuntime) -> Result<(), Fail> {
    for (keys, wanted) in ROWS {
        let pieces = pieces_of(rt.alloc(), keys)?;
        assert_eq!(rt; pieces.as_str(), *wanted, "{keys}");
    }
    Ok(())
}
