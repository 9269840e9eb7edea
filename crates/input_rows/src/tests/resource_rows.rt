use crate::tests::{Place, assert_told_at};
use std::test::Fail;

/// What follows the URL in a resource, with what is said of it.
const ROWS: &[(&str, &str)] = &[
    ("", "read"),
    (r#","x":1"#, "X2 @"),
    (r#","x":1,"status":199"#, "X2 @"),
    (r#","status":"200""#, "X2 @/status"),
    (r#","status":199"#, "X6 @/status"),
    (r#","status":200"#, "read"),
    (r#","status":201"#, "read status 201"),
    (r#","status":599"#, "read status 599"),
    (r#","status":600"#, "X6 @/status"),
    (r#","headers":{}"#, "X2 @/headers"),
    (r#","headers":[]"#, "read"),
    (r#","headers":[1]"#, "X2 @/headers/0"),
    (r#","headers":[[]]"#, "X6 @/headers/0"),
    (r#","headers":[["a"]]"#, "X6 @/headers/0"),
    (r#","headers":[["a","b","c"]]"#, "X6 @/headers/0"),
    (r#","headers":[[1,1]]"#, "X2 @/headers/0/0"),
    (r#","headers":[["a",1]]"#, "X2 @/headers/0/1"),
    (r#","headers":[["Bad Name",1]]"#, "X5 @/headers/0/0"),
    (r#","headers":[["a:","x"]]"#, "X5 @/headers/0/0"),
    (r#","headers":[["\u00e9","x"]]"#, "X5 @/headers/0/0"),
    (r#","headers":[["","x"]]"#, "X5 @/headers/0/0"),
    (
        r#","headers":[["a","b"],["a","\u00e9"]]"#,
        "X5 @/headers/1/1",
    ),
    (r#","headers":[["a","x\u000ay"]]"#, "X5 @/headers/0/1"),
    (r#","headers":[["a","x\u007f"]]"#, "X5 @/headers/0/1"),
    (r#","headers":[["a","\u000bx"]]"#, "X5 @/headers/0/1"),
    (r#","headers":[["a","\u001fx"]]"#, "X5 @/headers/0/1"),
    (
        r#","headers":[["a"," x\ty \t"],["B~",""],["a"," "]]"#,
        "read header a (x\ty) header a () header b~ ()",
    ),
    (
        r#","headers":[["Content-Type"," text/html\t"],["x","2"],["X","1"]]"#,
        "read header content-type (text/html) header x (2) header x (1)",
    ),
    (
        r#","headers":[["Cross-Origin-Resource-Policy","\t same-site \t"]]"#,
        "read header cross-origin-resource-policy (same-site)",
    ),
    (r#","body":1"#, "X2 @/body"),
    (r#","body":"""#, "read"),
    (r#","body":"h\u00e9""#, "read body 68c3a9"),
    (r#","body_hex":1"#, "X2 @/body_hex"),
    (r#","body_hex":"""#, "read"),
    (r#","body_hex":"00fF6aAb""#, "read body 00ff6aab"),
    (r#","body_hex":"6""#, "X2 @/body_hex"),
    (r#","body_hex":"6aF""#, "X2 @/body_hex"),
    (r#","body_hex":"6g""#, "X2 @/body_hex"),
    (r#","body_hex":"0x61""#, "X2 @/body_hex"),
    (r#","body":"a","body_hex":"61""#, "X2 @"),
    (r#","body":1,"body_hex":1"#, "X2 @"),
    (r#","status":1,"body":"a","body_hex":"61""#, "X2 @"),
    (r#","body":"abc","cuts":{}"#, "X2 @/cuts"),
    (r#","body":"abc","cuts":["1"]"#, "X2 @/cuts/0"),
    (r#","body":"abc","cuts":[1.0]"#, "X2 @/cuts/0"),
    (
        r#","body":"abc","cuts":[1,2]"#,
        "read body 616263 cut 1 cut 2",
    ),
    (r#","body":"abc","cuts":[0]"#, "X6 @/cuts/0"),
    (r#","body":"abc","cuts":[3]"#, "X6 @/cuts/0"),
    (r#","body":"abc","cuts":[4294967297]"#, "X6 @/cuts/0"),
    (r#","body":"abc","cuts":[1,1]"#, "X6 @/cuts/1"),
    (r#","body":"abc","cuts":[2,1]"#, "X6 @/cuts/1"),
    (r#","body":"abc","cuts":[2,1,"x"]"#, "X6 @/cuts/1"),
    (
        r#","body_hex":"616263","cuts":[2]"#,
        "read body 616263 cut 2",
    ),
    (r#","body":"\u00e9","cuts":[1]"#, "read body c3a9 cut 1"),
    (r#","cuts":[1]"#, "X6 @/cuts/0"),
    (r#","cuts":[]"#, "read"),
    (r#","body":"abc","fail_after":"1""#, "X2 @/fail_after"),
    (
        r#","body":"abc","fail_after":0"#,
        "read body 616263 fail_after 0",
    ),
    (
        r#","body":"abc","fail_after":3"#,
        "read body 616263 fail_after 3",
    ),
    (
        r#","body":"abc","cuts":[1,2],"fail_after":1"#,
        "read body 616263 cut 1 cut 2 fail_after 1",
    ),
    (r#","body":"abc","fail_after":4"#, "X6 @/fail_after"),
    (r#","fail_after":0"#, "read fail_after 0"),
    (r#","fail_after":1"#, "X6 @/fail_after"),
    (r#","actions":{}"#, "X2 @/actions"),
    (r#","actions":[1]"#, "X2 @/actions/0"),
    (r#","actions":[]"#, "read"),
    (
        r#","actions":[{"do":"wait"},{"do":"crash"}]"#,
        "read do wait do crash",
    ),
    // Two faults: the one is told that comes first in the table.
    (r#","headers":1,"status":1"#, "X6 @/status"),
    (r#","body":1,"headers":[["a"]]"#, "X6 @/headers/0"),
    (r#","cuts":1,"body":1"#, "X2 @/body"),
    (r#","cuts":1,"body_hex":"6""#, "X2 @/body_hex"),
    (r#","fail_after":1,"cuts":[1]"#, "X6 @/cuts/0"),
    (r#","actions":1,"fail_after":1"#, "X6 @/fail_after"),
    (r#","actions":[{"do":"fly"},1]"#, "X2 @/actions/0/do"),
];

/// Resources of a script, with what is said of the script.
const URLS: &[(&str, &str)] = &[
    (r#"{}"#, "X2 @/0/url"),
    (r#"{"x":1}"#, "X2 @/0/url"),
    (r#"{"status":1}"#, "X2 @/0/url"),
    (r#"{"url":1}"#, "X2 @/0/url"),
    (r#"{"url":"no"}"#, "X3 @/0/url"),
    (r#"{"url":"about:srcdoc"}"#, "X3 @/0/url"),
    (r#"{"url":"ftp://a.com/"}"#, "X3 @/0/url"),
    (r#"{"url":"no","status":1}"#, "X3 @/0/url"),
    (r#"{"url":"no","body":"","body_hex":""}"#, "X2 @/0"),
    (
        r#"{"url":"about:blank"},{"url":"data:,x"},{"url":"HTTP://A.com:80#y"}"#,
        "read resource about:blank resource data:,x resource http://a.com/#y",
    ),
    (
        r#"{"url":"https://a.com/"},{"url":"https://a.com/?"},{"url":"https://a.com/x"}"#,
        "read resource https://a.com/ resource https://a.com/? resource https://a.com/x",
    ),
    (
        r#"{"url":"https://a.com/"},{"url":"https://a.com/#x"}"#,
        "X7 @/1/url",
    ),
    (
        r#"{"url":"https://a.com/#y"},{"url":"https://A.com:443/#x","status":1}"#,
        "X7 @/1/url",
    ),
    (
        r#"{"url":"https://a.com/"},{"url":"about:blank"},{"url":"about:blank#x"}"#,
        "X7 @/2/url",
    ),
    (
        r#"{"url":"https://a.com/","status":1},{"url":"https://a.com/"}"#,
        "X6 @/0/status",
    ),
];

#[test]
fn a_resource_is_read_or_refused_at_its_first_fault(rt: HostRuntime) -> Result<(), Fail> {
    let behind_url = Place {
        front: r#"{"start":[],"resources":[{"url":"https://a.com/""#,
        back: "}]}",
        path: "/resources/0",
        shown: " resource https://a.com/",
    };
    assert_told_at(&rt, rt.alloc(), &behind_url, ROWS)
}

#[test]
fn resources_have_urls_of_their_own(rt: HostRuntime) -> Result<(), Fail> {
    let resources = Place {
        front: r#"{"start":[],"resources":["#,
        back: "]}",
        path: "/resources",
        shown: "",
    };
    assert_told_at(&rt, rt.alloc(), &resources, URLS)
}
