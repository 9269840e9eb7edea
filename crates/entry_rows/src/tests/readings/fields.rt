//! Each kind of field, in each place of a line where it stands.

use super::{is_bad, is_read};
use std::alloc::Global;
use std::process::Abort;
use std::test::Fail;

/// Lines, each with what stands before and behind the field in question.
type Places = &'static [(&'static str, &'static str)];

fn are_read(rt: &impl Abort, alloc: Global, places: Places, fields: &[&str]) -> Result<(), Fail> {
    for (before, behind) in places {
        for field in fields {
            let line = format!(in alloc; "{before}{field}{behind}")?;
            is_read(rt, alloc, line.as_str())?;
        }
    }
    Ok(())
}

fn are_bad(rt: &impl Abort, alloc: Global, places: Places, fields: &[&str]) -> Result<(), Fail> {
    for (before, behind) in places {
        for field in fields {
            let line = format!(in alloc; "{before}{field}{behind}")?;
            is_bad(rt, alloc, line.as_str());
        }
    }
    Ok(())
}

const NUMBER_PLACES: Places = &[
    ("open ", ""),
    ("warm ", ""),
    ("hop nav ", " x"),
    ("hop req ", " x"),
    ("order ", " 0 https://a.com https://a.com x"),
    ("order 0 ", " https://a.com https://a.com x"),
    ("order 0 0 https://a.com opaque:", ":https://a.com x"),
    ("navend ", " N1"),
    ("said ", " 0 0 0 remove 0 => ok"),
    ("said 0 ", " 0 0 remove 0 => ok"),
    ("said 0 0 ", " 0 remove 0 => ok"),
    ("said 0 0 0 ", " remove 0 => ok"),
    ("said 0 0 0 0 remove ", " => ok"),
    ("said 0 0 0 0 navigate ", " https://a.com - => ok"),
    ("said 0 0 0 0 frame plain doc ", " => ok"),
    ("said 0 0 0 0 post ", " * https://a.com - => ok"),
    ("said 0 0 0 0 commit ", " https://a.com - => ok"),
    ("crash ", ""),
    ("commit ", " 0 https://a.com - => ok"),
    ("commit 0 ", " https://a.com - => ok"),
    ("local ", " 0 0 waited"),
    ("local 0 ", " 0 waited"),
    ("local 0 0 ", " waited"),
    ("head ", " A1"),
    ("piece ", " 0 00"),
    ("piece 0 ", " 00"),
    ("end ", " whole"),
    ("exit ", ""),
];

const NUMBERS: &[&str] = &["0", "10", "4294967295"];

const BAD_NUMBERS: &[&str] = &[
    "4294967296",
    "18446744073709551617",
    "01",
    "00",
    "-1",
    "+1",
    " 1",
    "x",
    "1x",
    "",
];

#[test]
fn numbers(rt: HostRuntime) -> Result<(), Fail> {
    are_read(&rt, rt.alloc(), NUMBER_PLACES, NUMBERS)?;
    are_bad(&rt, rt.alloc(), NUMBER_PLACES, BAD_NUMBERS)
}

const TEXT_PLACES: Places = &[
    ("said 0 0 0 0 navigate 0 https://a.com ", " => ok"),
    ("said 0 0 0 0 frame plain url ", " => ok"),
    ("said 0 0 0 0 page ", " => ok"),
    ("said 0 0 0 0 fetch cors https://a.com ", " => ok"),
    ("said 0 0 0 0 post 0 * https://a.com ", " => ok"),
    ("said 0 0 0 0 ask ", " https://a.com - => ok"),
    ("said 0 0 0 0 ask 73 https://a.com ", " => ok"),
    ("said 0 0 0 0 commit 0 https://a.com ", " => ok"),
    ("said 0 0 0 0 remove 0 => answer ", ""),
    ("commit 0 0 https://a.com ", " => ok"),
    ("local 0 0 0 took https://a.com ", ""),
];

const TEXTS: &[&str] = &["-", "68", "2d", "000a7f", "c3a9", "f09f9880"];

const BAD_TEXTS: &[&str] = &[
    "", "6", "6A", "6g", "--", "-68", "68-", "h", "ff", "c3", "eda080", "68 68",
];

#[test]
fn texts(rt: HostRuntime) -> Result<(), Fail> {
    are_read(&rt, rt.alloc(), TEXT_PLACES, TEXTS)?;
    are_bad(&rt, rt.alloc(), TEXT_PLACES, BAD_TEXTS)
}

const PIECES: &[&str] = &["00", "2d", "ff80", "0123456789abcdef"];

const BAD_PIECES: &[&str] = &["", "-", "0", "000", "FF", "0g", "00 00"];

#[test]
fn pieces(rt: HostRuntime) -> Result<(), Fail> {
    let places: Places = &[("piece 0 0 ", "")];
    are_read(&rt, rt.alloc(), places, PIECES)?;
    are_bad(&rt, rt.alloc(), places, BAD_PIECES)
}

const SITE_PLACES: Places = &[
    ("order 0 0 ", " https://a.com x"),
    ("order 0 0 https://a.com opaque:0:", " x"),
];

const SITES: &[&str] = &[
    "https://a.com",
    "http://a.com",
    "https://sub.a.com",
    "http://127.0.0.1",
    "https://[::1]",
    "https://[1:2:3:4:5:6:7:ffff]",
    "http://=>",
    "https://=",
    "=https://a.com",
    "=http://a.com",
    "=https://a.com:80",
    "=http://a.com:443",
    "=https://pay.a.com:8443",
    "=http://127.0.0.1:8080",
    "=https://[::1]",
    "=http://[::1]:65535",
    "=https://a.com:0",
];

const BAD_SITES: &[&str] = &[
    "https://a.com:8443",
    "https://a.com:443",
    "https://[::1]:80",
    "=https://a.com:443",
    "=http://a.com:80",
    "=https://a.com:080",
    "=https://a.com:0443",
    "=https://a.com:65536",
    "=https://a.com:",
    "=https://a.com:x",
    "=https://[::1]80",
    "==https://a.com",
    "=opaque:0:https://a.com",
    "opaque:0:https://a.com",
    "=ftp://a.com",
    "ftp://a.com",
    "HTTPS://a.com",
    "https:/a.com",
    "a.com",
    "https://",
    "=https://",
    "=",
    "https://a/b",
    "https://a[b",
    "https://a]",
    "https://[]",
    "https://[::1",
    "https://[::g]",
    "https://\u{e9}.com",
    "*",
    "",
];

#[test]
fn sites(rt: HostRuntime) -> Result<(), Fail> {
    are_read(&rt, rt.alloc(), SITE_PLACES, SITES)?;
    are_bad(&rt, rt.alloc(), SITE_PLACES, BAD_SITES)
}

const ORIGIN_PLACES: Places = &[
    ("order 0 0 https://a.com ", " x"),
    ("said 0 0 0 0 navigate 0 ", " - => ok"),
    ("said 0 0 0 0 fetch cors ", " - => ok"),
    ("said 0 0 0 0 post 0 ", " https://a.com - => ok"),
    ("said 0 0 0 0 post 0 * ", " - => ok"),
    ("said 0 0 0 0 ask 73 ", " - => ok"),
    ("said 0 0 0 0 commit 0 ", " - => ok"),
    ("commit 0 0 ", " - => ok"),
    ("local 0 0 0 took ", " -"),
];

const ORIGINS: &[&str] = &[
    "https://a.com",
    "http://a.com",
    "https://a.com:80",
    "http://a.com:443",
    "https://a.com:0",
    "http://[::1]:65535",
    "opaque:0:https://a.com",
    "opaque:4294967295:http://[::1]",
    "opaque:1:=https://pay.a.com",
    "opaque:1:=https://pay.a.com:8443",
];

const BAD_ORIGINS: &[&str] = &[
    "https://a.com:443",
    "http://a.com:80",
    "https://a.com:0443",
    "https://a.com:65536",
    "https://a.com:99999999999",
    "https://a.com:",
    "https://a.com:8443:1",
    "=https://a.com",
    "ftp://a.com",
    "https://",
    "https://[]",
    "https://[::1",
    "https://::1",
    "https://a/b",
    "null",
    "opaque",
    "opaque:",
    "opaque:0",
    "opaque:0:",
    "opaque::https://a.com",
    "opaque:00:https://a.com",
    "opaque:4294967296:https://a.com",
    "opaque:https://a.com",
    "opaque:0:https://a.com:81",
    "opaque:0:opaque:0:https://a.com",
    "Opaque:0:https://a.com",
    "=opaque:0:https://a.com",
    "",
];

#[test]
fn origins(rt: HostRuntime) -> Result<(), Fail> {
    are_read(&rt, rt.alloc(), ORIGIN_PLACES, ORIGINS)?;
    are_bad(&rt, rt.alloc(), ORIGIN_PLACES, BAD_ORIGINS)
}

const RULE_PLACES: Places = &[
    ("navend 0 ", ""),
    ("head 0 ", ""),
    ("end 0 blocked ", ""),
    ("end 0 failed ", ""),
    ("said 0 0 0 0 remove 0 => deny ", ""),
    ("said 0 0 0 0 remove 0 => drop ", ""),
    ("commit 0 0 https://a.com - => kill ", ""),
];

const RULES: &[&str] = &[
    "K1", "K2", "K3", "K4", "K5", "K6", "K7", "K8", "K9", "K10", "G1", "G2", "G3", "M1", "M2",
    "N1", "N2", "N3", "N4", "N5", "N6", "N7", "N8", "N9", "F1", "L1", "L2", "S1", "S2", "S3", "S4",
    "A1", "A2", "A3", "A4", "A5", "B1", "B2", "B3", "B4", "B5", "B6", "B7", "B8",
];

const BAD_RULES: &[&str] = &[
    "K0", "K11", "K01", "k1", "G0", "G4", "M3", "N10", "F2", "L3", "S5", "A0", "A6", "B0", "B9",
    "X1", "K", "1", "K1 ", "",
];

#[test]
fn rules(rt: HostRuntime) -> Result<(), Fail> {
    are_read(&rt, rt.alloc(), RULE_PLACES, RULES)?;
    are_bad(&rt, rt.alloc(), RULE_PLACES, BAD_RULES)
}
