use crate::{
    FieldText, FieldTextError, Head, Kind, ResourcePolicy, is_joined, kind_of, nosniff,
    resource_policy, stripped,
};
use http::StatusCode;
use http_header::{HeaderMap, HeaderName};
use std::alloc::Global;
use std::test::Fail;

/// The most header fields that a response of a script has.
const MOST: usize = 64;

/// Values of `Content-Type`, in order, and the kind that they give.
const TYPES: &[(&[&str], Kind)] = &[
    (&[], Kind::Other),
    (&["text/html"], Kind::Html),
    (&["text/xml"], Kind::Xml),
    (&["application/xml"], Kind::Xml),
    (&["application/xhtml+xml"], Kind::Xml),
    (&["x/y+xml"], Kind::Xml),
    (&["image/svg+xml"], Kind::Other),
    (&["application/json"], Kind::Json),
    (&["text/json"], Kind::Json),
    (&["x/y+json"], Kind::Json),
    (&["text/plain"], Kind::Plain),
    (&["text/css"], Kind::Css),
    (&["application/javascript"], Kind::Other),
    (&["text/javascript"], Kind::Other),
    (&["image/png"], Kind::Other),
    // A part of a type, and one that goes on.
    (&["text/htm"], Kind::Other),
    (&["application/html"], Kind::Other),
    (&["application/xhtml"], Kind::Other),
    (&["image/xml"], Kind::Other),
    (&["application/xml-dtd"], Kind::Other),
    (&["image/svg"], Kind::Other),
    (&["image/svg2+xml"], Kind::Xml),
    (&["text/svg+xml"], Kind::Xml),
    (&["x/y+xml2"], Kind::Other),
    (&["x/y-xml"], Kind::Other),
    (&["x+xml/y"], Kind::Other),
    (&["x/+xml"], Kind::Xml),
    (&["text/x-json"], Kind::Other),
    (&["application/json5"], Kind::Other),
    (&["x/json"], Kind::Other),
    (&["x+json/y"], Kind::Other),
    (&["x/+json"], Kind::Json),
    (&["application/plain"], Kind::Other),
    (&["text/plain2"], Kind::Other),
    (&["application/css"], Kind::Other),
    // Capitals.
    (&["Text/HTML"], Kind::Html),
    (&["TEXT/XML"], Kind::Xml),
    (&["Application/Xml"], Kind::Xml),
    (&["X/Y+XML"], Kind::Xml),
    (&["image/SVG+xml"], Kind::Other),
    (&["APPLICATION/json"], Kind::Json),
    (&["Text/Json"], Kind::Json),
    (&["x/y+JSON"], Kind::Json),
    (&["text/PLAIN"], Kind::Plain),
    (&["TEXT/CSS"], Kind::Css),
    // Parameters, and blanks behind the essence.
    (&["text/html; charset=utf-8"], Kind::Html),
    (&["text/html;text/css"], Kind::Html),
    (&["text/html \t;a;b"], Kind::Html),
    (&["image/svg+xml; x"], Kind::Other),
    (&["x/y+json \t ; z=\"+xml\""], Kind::Json),
    (&["text/css;"], Kind::Css),
    (&["text/html,text/css"], Kind::Other),
    // The last value counts, whatever it is.
    (&["text/html", "text/css"], Kind::Css),
    (&["text/css", "text/html;"], Kind::Html),
    (&["text/css", "text/html", "text/plain"], Kind::Plain),
    (&["text/html", ""], Kind::Other),
    (&["text/html", ";"], Kind::Other),
    (&["text/html", "malformed"], Kind::Other),
    (&["", "text/html"], Kind::Html),
];

/// Values of `Content-Type` that are no token, `/` and a token, though they are or end like the type of a kind.
const MALFORMED: &[&str] = &[
    "",
    "/",
    "text",
    "+xml",
    "text/",
    "/html",
    "/y+xml",
    "te xt/html",
    "text /html",
    "text/ html",
    "text/html/x",
    "x/y/z+json",
    "x//y+json",
    ";text/html",
    "x y/z+xml",
    "x/y z+xml",
    "x/y\t+xml",
    "x\"/y+xml",
    "x/(y+xml",
    "x/)y+xml",
    "x,/y+xml",
    "x:/y+json",
    "x</y+json",
    "x=/y+json",
    "x>/y+json",
    "x?/y+json",
    "x@/y+json",
    "x/[y+xml",
    "x/\\y+xml",
    "x/]y+xml",
    "x/{y+xml",
    "x/}y+xml",
];

/// Values of `X-Content-Type-Options`, in order, and whether they ask for no sniffing.
const OPTIONS: &[(&[&str], bool)] = &[
    (&[], false),
    (&["nosniff"], true),
    (&["NoSniff"], true),
    (&["NOSNIFF"], true),
    (&["nosniff ,x"], true),
    (&["nosniff \t, x"], true),
    (&["nosniff,"], true),
    (&["nosniff,nosniff"], true),
    (&["x,nosniff"], false),
    (&["x, nosniff"], false),
    (&[", nosniff"], false),
    (&[",nosniff"], false),
    (&[""], false),
    (&["nosniffs"], false),
    (&["nosnif"], false),
    (&["no sniff"], false),
    (&["\"nosniff\""], false),
    (&["nosniff; x"], false),
    (&["nosniff", "x"], true),
    (&["NoSniff", "nosniff"], true),
    (&["x", "nosniff"], false),
    (&["", "nosniff"], false),
    (&["x,", "nosniff"], false),
];

/// Values of `Cross-Origin-Resource-Policy`, in order, and the policy that they tell.
const POLICIES: &[(&[&str], ResourcePolicy)] = &[
    (&[], ResourcePolicy::Any),
    (&["same-origin"], ResourcePolicy::SameOrigin),
    (&["same-site"], ResourcePolicy::SameSite),
    (&["cross-origin"], ResourcePolicy::Any),
    (&["Same-Origin"], ResourcePolicy::Any),
    (&["SAME-SITE"], ResourcePolicy::Any),
    (&[""], ResourcePolicy::Any),
    // Twice, within one value too.
    (&["same-origin", "same-origin"], ResourcePolicy::Any),
    (&["same-site", "same-site"], ResourcePolicy::Any),
    (&["same-origin", "same-site"], ResourcePolicy::Any),
    (&["same-site", "cross-origin"], ResourcePolicy::Any),
    (&["cross-origin", "same-site"], ResourcePolicy::Any),
    (&["same-site", ""], ResourcePolicy::Any),
    (&["", "same-origin"], ResourcePolicy::Any),
    (&["same-origin,same-origin"], ResourcePolicy::Any),
    (&["same-site, same-site"], ResourcePolicy::Any),
    // Longer and shorter.
    (&["same-origins"], ResourcePolicy::Any),
    (&["same-site-only"], ResourcePolicy::Any),
    (&["x-same-site"], ResourcePolicy::Any),
    (&["same-origi"], ResourcePolicy::Any),
    (&["same-"], ResourcePolicy::Any),
    (&["same origin"], ResourcePolicy::Any),
    (&["same-site;"], ResourcePolicy::Any),
    (&["\"same-site\""], ResourcePolicy::Any),
];

/// Values of one header, a text, and whether it is what they are joined.
const JOINED: &[(&[&str], &str, bool)] = &[
    (&[], "", true),
    (&[], "a", false),
    (&[""], "", true),
    (&["a"], "a", true),
    (&["a"], "A", false),
    (&["a"], "a, ", false),
    (&["a"], ", a", false),
    (&["a"], "ab", false),
    (&["ab"], "a", false),
    (&["a", "b"], "a, b", true),
    (&["a", "b"], "a,b", false),
    (&["a", "b"], "a; b", false),
    (&["a", "b"], "b, a", false),
    (&["a", "b"], "a", false),
    (&["a", "b"], "ab", false),
    (&["", ""], ", ", true),
    (&["a, b", "c"], "a, b, c", true),
    (&["a", "", "c"], "a, , c", true),
];

/// Texts, and whether they are a field's. A header value of a script is stripped before, so it may have blanks at its ends.
const TEXTS: &[(&str, bool)] = &[
    ("", true),
    ("a", true),
    ("a \t~", true),
    ("!", true),
    (" a", false),
    ("\ta", false),
    ("a ", false),
    ("a\t", false),
    (" ", false),
    (" same-origin", false),
    ("same-origin\t", false),
    ("a\x08b", false),
    ("a\nb", false),
    ("a\rb", false),
    ("a\x1fb", false),
    ("a\x7fb", false),
    ("caf\u{e9}", false),
];

/// Texts, and what is left without blanks at their ends.
const STRIPPED: &[(&str, &str)] = &[
    ("", ""),
    (" \t ", ""),
    ("a", "a"),
    (" a", "a"),
    ("a\t", "a"),
    ("\t a \t b\t \t", "a \t b"),
    ("\n a\r", "\n a\r"),
    ("\x0ba\x0c", "\x0ba\x0c"),
];

/// Adds a field.
fn append(
    alloc: Global,
    fields: &mut HeaderMap<FieldText>,
    name: &str,
    value: &str,
) -> Result<(), Fail> {
    let name = HeaderName::from_bytes(alloc, name.as_bytes())?;
    fields.append(name, FieldText::new(alloc, value)?)?;
    Ok(())
}

/// Fields with these values under one name.
fn fields(alloc: Global, name: &str, values: &[&str]) -> Result<HeaderMap<FieldText>, Fail> {
    let mut fields = HeaderMap::empty(alloc);
    for value in values {
        append(alloc, &mut fields, name, value)?;
    }
    Ok(fields)
}

/// The kind that these values of `Content-Type` give.
fn kind(alloc: Global, values: &[&str]) -> Result<Kind, Fail> {
    Ok(kind_of(&fields(alloc, "Content-Type", values)?))
}

/// Whether these values of `X-Content-Type-Options` ask for no sniffing.
fn is_asked(alloc: Global, values: &[&str]) -> Result<bool, Fail> {
    Ok(nosniff(&fields(alloc, "x-Content-type-OPTIONS", values)?))
}

/// The policy that these values of `Cross-Origin-Resource-Policy` tell.
fn policy(alloc: Global, values: &[&str]) -> Result<ResourcePolicy, Fail> {
    let fields = fields(alloc, "Cross-Origin-RESOURCE-policy", values)?;
    Ok(resource_policy(&fields))
}

#[test]
fn content_types(rt: HostRuntime) -> Result<(), Fail> {
    for (values, expected) in TYPES {
        assert_eq!(rt; kind(rt.alloc(), values)?, *expected, "{values:?}");
    }
    Ok(())
}

#[test]
fn malformed_types(rt: HostRuntime) -> Result<(), Fail> {
    for value in MALFORMED {
        assert_eq!(rt; kind(rt.alloc(), &[value])?, Kind::Other, "{value}");
    }
    Ok(())
}

/// Every byte of a token that is no letter and no digit (RFC 9110, section 5.6.2).
#[test]
fn type_of_token_bytes(rt: HostRuntime) -> Result<(), Fail> {
    let values = ["!#$%&'*+-.^_`|~/!#$%&'*-.^_`|~09azAZ+xml"];
    assert_eq!(rt; kind(rt.alloc(), &values)?, Kind::Xml);
    Ok(())
}

#[test]
fn type_options(rt: HostRuntime) -> Result<(), Fail> {
    for (values, expected) in OPTIONS {
        assert_eq!(rt; is_asked(rt.alloc(), values)?, *expected, "{values:?}");
    }
    Ok(())
}

#[test]
fn resource_policies(rt: HostRuntime) -> Result<(), Fail> {
    for (values, expected) in POLICIES {
        assert_eq!(rt; policy(rt.alloc(), values)?, *expected, "{values:?}");
    }
    Ok(())
}

#[test]
fn joined_values(rt: HostRuntime) -> Result<(), Fail> {
    for (values, text, expected) in JOINED {
        let fields = fields(rt.alloc(), "a", values)?;
        let is = is_joined(fields.get_all("a"), text.as_bytes());
        assert_eq!(rt; is, *expected, "{values:?} {text}");
    }
    Ok(())
}

#[test]
fn most_values_of_one_name(rt: HostRuntime) -> Result<(), Fail> {
    let mut types = ["text/html"; MOST];
    types[MOST - 1] = "text/css";
    assert_eq!(rt; kind(rt.alloc(), &types)?, Kind::Css);
    let mut options = ["x"; MOST];
    options[0] = "nosniff";
    assert!(rt; is_asked(rt.alloc(), &options)?);
    let policies = ["same-origin"; MOST];
    assert_eq!(rt; policy(rt.alloc(), &policies)?, ResourcePolicy::Any);
    Ok(())
}

/// Three telling fields behind as many others as there may be.
fn most_names(alloc: Global) -> Result<HeaderMap<FieldText>, Fail> {
    let mut fields = HeaderMap::empty(alloc);
    for number in 3..MOST {
        let name = format!(in alloc; "x-{number}")?;
        append(alloc, &mut fields, &name, "text/html")?;
    }
    append(alloc, &mut fields, "content-type", "text/css")?;
    append(alloc, &mut fields, "x-content-type-options", "nosniff")?;
    append(
        alloc,
        &mut fields,
        "cross-origin-resource-policy",
        "same-site",
    )?;
    Ok(fields)
}

#[test]
fn most_fields(rt: HostRuntime) -> Result<(), Fail> {
    let head = Head {
        status: StatusCode::OK,
        fields: most_names(rt.alloc())?,
    };
    assert_eq!(rt; head.fields.len(), MOST);
    assert_eq!(rt; kind_of(&head.fields), Kind::Css);
    assert!(rt; nosniff(&head.fields));
    assert_eq!(rt; resource_policy(&head.fields), ResourcePolicy::SameSite);
    Ok(())
}

#[test]
fn field_texts(rt: HostRuntime) -> Result<(), Fail> {
    for (text, is_field) in TEXTS {
        match FieldText::new(rt.alloc(), text) {
            Ok(field) => {
                assert!(rt; *is_field && field.as_str() == *text);
                assert!(rt; field.as_bytes() == text.as_bytes());
            }
            Err(error) => assert!(rt; !*is_field && error == FieldTextError::Invalid),
        }
    }
    Ok(())
}

#[test]
fn stripped_texts(rt: HostRuntime) -> Result<(), Fail> {
    for (text, expected) in STRIPPED {
        assert!(rt;
            stripped(text.as_bytes()) == expected.as_bytes(),
            "{text:?}"
        );
    }
    Ok(())
}

#[test]
fn error_texts(rt: HostRuntime) -> Result<(), Fail> {
    let invalid = format!(in rt.alloc(); "{}", FieldTextError::Invalid)?;
    assert_eq!(rt;
        invalid.as_str(),
        "a byte is no field's, or a blank stands at an end"
    );
    let field = format!(in rt.alloc(); "{}", FieldTextError::NoMemory)?;
    assert_eq!(rt; field.as_str(), "no memory");
    Ok(())
}
