//! The responses of a generated script.

use http_header::HeaderMap;
use script_gen::generate;
use script_model::{FieldText, Resource, Script};
use std::alloc::Global;
use std::test::Fail;

/// The response with a number, behind the sixteen documents.
fn response_at(script: &Script, response: usize) -> Result<&Resource, Fail> {
    let responses = script.resources.as_slice().get(16..);
    match responses.and_then(|responses| responses.get(response)) {
        Some(response) => Ok(response),
        None => Err(Fail::new("a script has too few responses")),
    }
}

/// The header fields of each response, in order.
const FIELDS: &[&str] = &[
    "content-type: text/html\naccess-control-allow-origin: *\n",
    "content-type: text/xml\n",
    "content-type: application/json\n",
    "content-type: text/plain\naccess-control-allow-origin: *\n",
    "content-type: text/css\n",
    "content-type: text/javascript\n",
    "content-type: image/png\naccess-control-allow-origin: *\n",
    "content-type: application/json\nx-content-type-options: nosniff\n",
    "content-type: text/html\n",
    "content-type: text/xml\naccess-control-allow-origin: *\n",
    "content-type: application/json\n",
    "content-type: text/plain\n",
    "content-type: text/css\naccess-control-allow-origin: *\n",
    "content-type: text/javascript\n",
    "content-type: image/png\n",
    "content-type: application/json\nx-content-type-options: nosniff\naccess-control-allow-origin: *\n",
    "content-type: text/html\n",
    "content-type: text/xml\n",
    "content-type: application/json\naccess-control-allow-origin: *\n",
    "content-type: text/plain\n",
    "content-type: text/css\n",
    "content-type: text/javascript\naccess-control-allow-origin: *\n",
    "content-type: image/png\n",
    "content-type: application/json\nx-content-type-options: nosniff\n",
    "content-type: text/html\naccess-control-allow-origin: *\n",
    "content-type: text/xml\n",
    "content-type: application/json\n",
    "content-type: text/plain\naccess-control-allow-origin: *\n",
    "content-type: text/css\n",
    "content-type: text/javascript\n",
    "content-type: image/png\naccess-control-allow-origin: *\n",
    "content-type: application/json\nx-content-type-options: nosniff\n",
];

/// Header fields, each with a line feed.
fn shown_fields(alloc: Global, fields: &HeaderMap<FieldText>) -> Result<String, Fail> {
    let mut text = String::new(alloc);
    for (name, value) in fields.iter() {
        let name = name.as_str();
        let value = value.as_str();
        let shown = format!(in alloc; "{name}: {value}\n")?;
        text.push_str(shown.as_str())?;
    }
    Ok(text)
}

#[test]
fn fields_of_responses(rt: HostRuntime) -> Result<(), Fail> {
    let alloc = rt.alloc();
    let script = generate(alloc, 7)?;
    for (response, want) in FIELDS.iter().enumerate() {
        let fields = &response_at(&script, response)?.head.fields;
        assert!(rt;
            shown_fields(alloc, fields)?.as_str() == *want,
            "{response}"
        );
    }
    Ok(())
}

/// How many bytes the body of each response has, and how many cuts.
const SIZES: &[(usize, usize)] = &[
    (512, 1),
    (1_024, 3),
    (1_536, 5),
    (2_048, 7),
    (2_560, 9),
    (3_072, 11),
    (3_584, 13),
    (4_096, 15),
    (4_608, 17),
    (5_120, 19),
    (5_632, 21),
    (6_144, 23),
    (6_656, 25),
    (7_168, 27),
    (7_680, 29),
    (8_192, 31),
    (8_704, 33),
    (9_216, 35),
    (9_728, 37),
    (10_240, 39),
    (10_752, 41),
    (11_264, 43),
    (11_776, 45),
    (12_288, 47),
    (12_800, 49),
    (13_312, 51),
    (13_824, 53),
    (14_336, 55),
    (14_848, 57),
    (15_360, 59),
    (15_872, 61),
    (16_384, 63),
];

#[test]
fn sizes_of_responses(rt: HostRuntime) -> Result<(), Fail> {
    let script = generate(rt.alloc(), 7)?;
    for (response, (bytes, cuts)) in SIZES.iter().enumerate() {
        let resource = response_at(&script, response)?;
        assert!(rt; resource.body.as_slice().len() == *bytes, "{response}");
        assert!(rt; resource.cuts.as_slice().len() == *cuts, "{response}");
    }
    Ok(())
}

/// Whether a response has status 200, a wire that does not fail, and no actions.
fn is_plain_response(response: &Resource) -> bool {
    response.head.status.as_u16() == 200
        && response.fail_after.is_none()
        && response.actions.as_slice().is_empty()
}

#[test]
fn responses_are_plain(rt: HostRuntime) -> Result<(), Fail> {
    let script = generate(rt.alloc(), 7)?;
    for response in 0..32 {
        assert!(rt;
            is_plain_response(response_at(&script, response)?),
            "{response}"
        );
    }
    Ok(())
}

/// A response, a place in its body, and the bytes there.
const PARTS: &[(usize, usize, &str)] = &[
    (0, 0, "<html>ghijklmnopqrstuvwxyzabcdef"),
    (0, 480, "mnopqrstuvwxyzabcdefghijklmnopqr"),
    (1, 0, "{\"a\":fghijklmnopqrstuvwxyzabcdef"),
    (1, 26, "abcdefghijklmnopqrstuvwxyzabcdef"),
    (1, 992, "efghijklmnopqrstuvwxyzabcdefghij"),
    (2, 0, "abcdefghijklmnopqrstuvwxyzabcdef"),
    (2, 26, "abcdefghijklmnopqrstuvwxyzabcdef"),
    (2, 504, "klmnopqrstuvwxyzabcdefghijklmnop"),
    (3, 0, "abcdefghijklmnopqrstuvwxyzabcdef"),
    (4, 0, "abcdefghijklmnopqrstuvwxyzabcdef"),
    (5, 0, "<html>ghijklmnopqrstuvwxyzabcdef"),
    (5, 26, "abcdefghijklmnopqrstuvwxyzabcdef"),
    (5, 3040, "yzabcdefghijklmnopqrstuvwxyzabcd"),
    (6, 0, "{\"a\":fghijklmnopqrstuvwxyzabcdef"),
    (6, 3552, "qrstuvwxyzabcdefghijklmnopqrstuv"),
    (7, 0, "abcdefghijklmnopqrstuvwxyzabcdef"),
    (15, 0, "<html>ghijklmnopqrstuvwxyzabcdef"),
    (15, 8160, "wxyzabcdefghijklmnopqrstuvwxyzab"),
    (31, 0, "{\"a\":fghijklmnopqrstuvwxyzabcdef"),
    (31, 8190, "abcdefghijklmnopqrstuvwxyzabcdef"),
    (31, 16352, "yzabcdefghijklmnopqrstuvwxyzabcd"),
];

/// Whether a response has these bytes at this place of its body.
fn has_part(response: &Resource, place: usize, part: &str) -> bool {
    match response.body.as_slice().get(place..) {
        Some(rest) => rest.starts_with(part.as_bytes()),
        None => false,
    }
}

#[test]
fn parts_of_bodies(rt: HostRuntime) -> Result<(), Fail> {
    let script = generate(rt.alloc(), 7)?;
    for (response, place, part) in PARTS {
        let found = response_at(&script, *response)?;
        assert!(rt; has_part(found, *place, part), "{response} {place}");
    }
    Ok(())
}

/// The cuts of the first three responses.
const CUTS: &[&[u32]] = &[&[256], &[256, 512, 768], &[256, 512, 768, 1_024, 1_280]];

#[test]
fn cuts_of_responses(rt: HostRuntime) -> Result<(), Fail> {
    let script = generate(rt.alloc(), 7)?;
    for (response, want) in CUTS.iter().enumerate() {
        let found = response_at(&script, response)?.cuts.as_slice();
        assert!(rt; found == *want, "{response}");
    }
    Ok(())
}

/// A response, the place of a cut, and the cut.
const LATER_CUTS: &[(usize, usize, u32)] = &[
    (7, 0, 256),
    (7, 14, 3_840),
    (31, 0, 256),
    (31, 1, 512),
    (31, 30, 7_936),
    (31, 61, 15_872),
    (31, 62, 16_128),
];

#[test]
fn cuts_by_place(rt: HostRuntime) -> Result<(), Fail> {
    let script = generate(rt.alloc(), 7)?;
    for (response, place, want) in LATER_CUTS {
        let cuts = response_at(&script, *response)?.cuts.as_slice();
        assert!(rt; cuts.get(*place) == Some(want), "{response} {place}");
    }
    Ok(())
}
