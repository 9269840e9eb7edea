use crate::tests::{Place, assert_told, assert_told_at, told};
use std::test::Fail;

/// Texts, with what is said of each.
const ROWS: &[(&str, &str)] = &[
    ("", "X1"),
    ("nul", "X1"),
    (r#"{"start":"#, "X1"),
    (r#"{"start":[]} x"#, "X1"),
    (r#"{"start":[],}"#, "X1"),
    (r#"{"start":[01]}"#, "X1"),
    ("[]", "X2"),
    ("null", "X2"),
    ("\"start\"", "X2"),
    (r#"{"start":[]}"#, "read"),
    (" \n\t{ \"start\" : [ ] } ", "read"),
    ("{}", "X2 /start"),
    (r#"{"x":1}"#, "X2 /start"),
    (r#"{"isolated_origins":1}"#, "X2 /start"),
    (r#"{"start":[],"x":1}"#, "X2"),
    (r#"{"start":1,"x":1}"#, "X2"),
    (r#"{"start":[],"Spare":true}"#, "X2"),
    (r#"{"start":[],"isolated_origin":[]}"#, "X2"),
    (r#"{"start":"https://a.com/"}"#, "X2 /start"),
    (r#"{"start":{}}"#, "X2 /start"),
    (r#"{"start":[1]}"#, "X2 /start/0"),
    (
        r#"{"start":["https://A.com","http://b.org:80/x#y"]}"#,
        "read start https://a.com/ start http://b.org/x#y",
    ),
    (
        r#"{"start":["https://a.com/","https://a.com/"]}"#,
        "read start https://a.com/ start https://a.com/",
    ),
    (r#"{"start":["ftp://a.com/"]}"#, "X3 /start/0"),
    (r#"{"start":["about:blank"]}"#, "X3 /start/0"),
    (r#"{"start":["about:srcdoc"]}"#, "X3 /start/0"),
    (r#"{"start":["data:,x"]}"#, "X3 /start/0"),
    (r#"{"start":["https://a.com/","no"]}"#, "X3 /start/1"),
    (r#"{"start":["no",1]}"#, "X3 /start/0"),
    (r#"{"start":[1,"no"]}"#, "X2 /start/0"),
    // Two faults: the one is told that comes first in the table.
    (r#"{"start":1,"suffixes":1}"#, "X2 /suffixes"),
    (r#"{"spare":1,"suffixes":"!x","start":[]}"#, "X4 line 1"),
    (r#"{"soft_limit":65,"spare":1,"start":[]}"#, "X2 /spare"),
    (r#"{"start":["no"],"soft_limit":65}"#, "X6 /soft_limit"),
    (r#"{"resources":1,"start":["no"]}"#, "X3 /start/0"),
    (
        r#"{"isolated_origins":1,"resources":1,"start":[]}"#,
        "X2 /resources",
    ),
    (r#"{"resources":1,"start":[],"x":1}"#, "X2"),
    // Of a repeated key the last counts.
    (r#"{"start":1,"start":[]}"#, "read"),
    (r#"{"start":[],"start":1}"#, "X2 /start"),
    (r#"{"start":[],"spare":1,"spare":true}"#, "read spare"),
    (r#"{"start":[],"spare":true,"\u0073pare":1}"#, "X2 /spare"),
];

/// Keys beside `start`, with what is said of each.
const KEYS: &[(&str, &str)] = &[
    (r#""suffixes":1"#, "X2 /suffixes"),
    (r#""suffixes":"""#, "read"),
    (r#""suffixes":"a.*.b""#, "X4 line 1"),
    (r#""suffixes":"com\n// a.*.b\n!x""#, "X4 line 3"),
    (r#""suffixes":"co.uk\n*.ck\n!www.ck\n""#, "read"),
    (r#""spare":true"#, "read spare"),
    (r#""spare":false"#, "read"),
    (r#""spare":1"#, "X2 /spare"),
    (r#""spare":null"#, "X2 /spare"),
    (r#""soft_limit":0"#, "read soft_limit 0"),
    (r#""soft_limit":63"#, "read soft_limit 63"),
    (r#""soft_limit":64"#, "read"),
    (r#""soft_limit":65"#, "X6 /soft_limit"),
    (r#""soft_limit":18446744073709551615"#, "X6 /soft_limit"),
    (r#""soft_limit":18446744073709551616"#, "X2 /soft_limit"),
    (r#""soft_limit":1.5"#, "X2 /soft_limit"),
    (r#""soft_limit":1.0"#, "X2 /soft_limit"),
    (r#""soft_limit":1e2"#, "X2 /soft_limit"),
    (r#""soft_limit":-1"#, "X2 /soft_limit"),
    (r#""soft_limit":-0"#, "X2 /soft_limit"),
    (r#""soft_limit":"1""#, "X2 /soft_limit"),
    (r#""soft_limit":00"#, "X1"),
    (r#""resources":{}"#, "X2 /resources"),
    (r#""resources":[1]"#, "X2 /resources/0"),
    (r#""resources":[1,{}]"#, "X2 /resources/0"),
    (r#""resources":[]"#, "read"),
    (r#""isolated_origins":[]"#, "read"),
    (r#""isolated_origins":["https://pay.a.com"]"#, "read"),
    (
        r#""isolated_origins":["http://a.com/","http://a.com/x"]"#,
        "read",
    ),
    (r#""isolated_origins":null"#, "X2 /isolated_origins"),
    (r#""isolated_origins":{}"#, "X2 /isolated_origins"),
    (
        r#""isolated_origins":"https://pay.a.com/""#,
        "X2 /isolated_origins",
    ),
    (r#""isolated_origins":[1]"#, "X2 /isolated_origins/0"),
    (
        r#""isolated_origins":["about:blank"]"#,
        "X3 /isolated_origins/0",
    ),
    (
        r#""isolated_origins":["https://a.com/","data:,x"]"#,
        "X3 /isolated_origins/1",
    ),
    (
        r#""isolated_origins":["about:srcdoc"]"#,
        "X3 /isolated_origins/0",
    ),
    (
        r#""isolated_origins":["ftp://a.com/"]"#,
        "X3 /isolated_origins/0",
    ),
    (r#""isolated_origins":["no",1]"#, "X3 /isolated_origins/0"),
];

#[test]
fn a_script_is_read_or_refused_at_its_first_fault(rt: HostRuntime) -> Result<(), Fail> {
    assert_told(&rt, rt.alloc(), ROWS)
}

#[test]
fn keys_beside_the_start_pages_are_read(rt: HostRuntime) -> Result<(), Fail> {
    let beside_start = Place {
        front: r#"{"start":[],"#,
        back: "}",
        path: "@",
        shown: "",
    };
    assert_told_at(&rt, rt.alloc(), &beside_start, KEYS)
}

#[test]
fn bytes_that_are_not_utf8_are_no_json(rt: HostRuntime) -> Result<(), Fail> {
    let found = told(rt.alloc(), b"{\"start\":[\"\xc3\"]}")?;
    assert_eq!(rt; found.as_str(), "X1");
    Ok(())
}
