use crate::{head, opaque_origin, origin, web_chain, web_url};
use http::StatusCode;
use page_origin::{Origin, origin_text};
use std::test::Fail;

#[test]
fn urls(rt: HostRuntime) -> Result<(), Fail> {
    assert!(rt; web_url(rt.alloc(), "https://a.com/")?.text() == "https://a.com/");
    assert!(rt; web_chain(rt.alloc(), &["https://a.com/", "http://b.com/"])?.len() == 2);
    Ok(())
}

#[test]
fn origins(rt: HostRuntime) -> Result<(), Fail> {
    let tuple = origin(rt.alloc(), "https://a.com:8443/x")?;
    assert!(rt; origin_text(rt.alloc(), &tuple)?.as_str() == "https://a.com:8443");
    let opaque = opaque_origin(rt.alloc(), 3, "https://a.com/", None)?;
    assert!(rt; matches!(opaque, Origin::Opaque(_)));
    Ok(())
}

#[test]
fn heads(rt: HostRuntime) -> Result<(), Fail> {
    let head = head(
        rt.alloc(),
        206,
        &[("Content-Type", "text/html"), ("A", "b")],
    )?;
    assert!(rt; head.status == StatusCode::PARTIAL_CONTENT);
    assert!(rt; head.fields.len() == 2);
    Ok(())
}
