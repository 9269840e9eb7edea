//! Rows of the grammars of HTML and XML.

use super::{HTML, XML, cut, fed_singly, fed_whole, settled};
use crate::{Answer, SniffKind};

/// Each tag, in capitals too, and without its last letter.
const TAGS: &[(&[u8], &[u8], &[u8])] = &[
    (b"<!doctype html", b"<!DOCTYPE HTML", b"<!doctype htm"),
    (b"<script", b"<SCRIPT", b"<scrip"),
    (b"<html", b"<HTML", b"<htm"),
    (b"<head", b"<HEAD", b"<hea"),
    (b"<iframe", b"<IFRAME", b"<ifram"),
    (b"<h1", b"<H1", b"<h"),
    (b"<div", b"<DIV", b"<di"),
    (b"<font", b"<FONT", b"<fon"),
    (b"<table", b"<TABLE", b"<tabl"),
    (b"<a", b"<A", b"<"),
    (b"<style", b"<STYLE", b"<styl"),
    (b"<title", b"<TITLE", b"<titl"),
    (b"<b", b"<B", b"<"),
    (b"<p", b"<P", b"<"),
];

/// What may stand behind a tag: nothing that does so keeps it from being one.
const BEHIND: &[&[u8]] = &[b"", b" ", b">", b"/", b"x", b"\0", b"\x0c"];

/// A body under `text/html`, and the answers before and at its end.
const COMMENTS: &[(&[u8], Answer, Answer)] = &[
    // A comment ends with the first `-->` that begins behind its `<!--`.
    (b"<!----><p", HTML, HTML),
    (b"<!-- --><p", HTML, HTML),
    (b"<!--x--><p", HTML, HTML),
    (b"<!-- ---><p", HTML, HTML),
    (b"<!-- -----><p", HTML, HTML),
    (b"<!-- -- --><p", HTML, HTML),
    (b"<!-- -> > --><p", HTML, HTML),
    (b"<!--->--><p", HTML, HTML),
    (b"<!-->--><p", HTML, HTML),
    (b"<!--<p--><p", HTML, HTML),
    (b"<!--\0\xff--><p", HTML, HTML),
    (b"<!--><p", Answer::More, Answer::Clear),
    (b"<!---><p", Answer::More, Answer::Clear),
    (b"<!--- -><p", Answer::More, Answer::Clear),
    (b"<!-- <p", Answer::More, Answer::Clear),
    (b"<!-- --", Answer::More, Answer::Clear),
    (b"<!-- - -><p", Answer::More, Answer::Clear),
    (b"<!-- --!><p", Answer::More, Answer::Clear),
    (b"<!-- --\n><p", Answer::More, Answer::Clear),
    // Several stand one after another, with white space or none between.
    (b"<!--a--><!--b--><p", HTML, HTML),
    (b" <!--a--> \t<!--b-->\r\n<p", HTML, HTML),
    (b"<!--a--><!--b--><!--c--><!doctype html", HTML, HTML),
    (b"<!--a--><!--b <p", Answer::More, Answer::Clear),
    (b"<!--a-->x<p", Answer::Clear, Answer::Clear),
    (b"<!--a-->--><p", Answer::Clear, Answer::Clear),
    (b"<!--a--><!-b--><p", Answer::Clear, Answer::Clear),
    // No comment begins otherwise.
    (b"<!-a--><p", Answer::Clear, Answer::Clear),
    (b"<! -- --><p", Answer::Clear, Answer::Clear),
    (b"<-- --><p", Answer::Clear, Answer::Clear),
    (b"<!-", Answer::More, Answer::Clear),
    (b"<!--", Answer::More, Answer::Clear),
];

/// A body under `text/html`, and the answer at its end.
const MARKUP: &[(&[u8], Answer)] = &[
    (b"<ScRiPt", HTML),
    (b"<!DocType Html", HTML),
    (b"<!doctype  html", Answer::Clear),
    (b"<!doctype\thtml", Answer::Clear),
    (b"<!doctypehtml", Answer::Clear),
    (b"<!doctype xhtml", Answer::Clear),
    (b"<! doctype html", Answer::Clear),
    (b"doctype html", Answer::Clear),
    (b"<doctype html", Answer::Clear),
    (b"</html", Answer::Clear),
    (b"< html", Answer::Clear),
    (b"<<html", Answer::Clear),
    (b"html", Answer::Clear),
    (b"<h3", Answer::Clear),
    (b"<img", Answer::Clear),
    (b"<svg", Answer::Clear),
    (b"<ul", Answer::Clear),
    (b"<td", Answer::Clear),
    (b"<meta", Answer::Clear),
    (b"<link", Answer::Clear),
    (b"<center", Answer::Clear),
    (b"<form", Answer::Clear),
    (b"<body", HTML),
    (b"<address", HTML),
    (b"<pre", HTML),
    (b"", Answer::Clear),
    (b" \t\r\n", Answer::Clear),
];

/// A body under `text/xml`, and the answer at its end.
const DECLARATIONS: &[(&[u8], Answer)] = &[
    (b"<?xml", XML),
    (b"<?xml version=\"1.0\"?>", XML),
    (b"<?xmlx", XML),
    (b"<?xml-stylesheet", XML),
    (b" \t\r\n <?xml", XML),
    (b"<?XML", Answer::Clear),
    (b"<?Xml", Answer::Clear),
    (b"<?xMl", Answer::Clear),
    (b"<?xmL", Answer::Clear),
    (b"<?xm", Answer::Clear),
    (b"<?", Answer::Clear),
    (b"< ?xml", Answer::Clear),
    (b"<? xml", Answer::Clear),
    (b"<?x ml", Answer::Clear),
    (b"<xml", Answer::Clear),
    (b"?xml", Answer::Clear),
    (b"<!xml", Answer::Clear),
    (b"x<?xml", Answer::Clear),
    (b"<!-- --><?xml", Answer::Clear),
    (b"", Answer::Clear),
];

#[test]
fn tags(rt: HostRuntime) {
    for (tag, capitals, _) in TAGS {
        for behind in BEHIND {
            assert_eq!(rt; cut(SniffKind::Html, tag, behind), (HTML, HTML));
            assert_eq!(rt; cut(SniffKind::Html, capitals, behind), (HTML, HTML));
        }
        assert!(rt; settled(SniffKind::Html, tag) == Some((tag.len(), HTML)));
    }
}

#[test]
fn tags_without_their_last_letter(rt: HostRuntime) {
    for (_, _, short) in TAGS {
        assert_eq!(rt; fed_whole(SniffKind::Html, short), Answer::Clear);
        for behind in [b" ", b">", b"/", b"x", b"\0"] {
            let answers = (Answer::More, Answer::Clear);
            assert_eq!(rt; cut(SniffKind::Html, short, behind), answers);
        }
    }
}

#[test]
fn comments(rt: HostRuntime) {
    for (body, before, end) in COMMENTS {
        assert!(rt; cut(SniffKind::Html, body, b"").1 == *before, "{:?}", body);
        assert!(rt; fed_whole(SniffKind::Html, body) == *end, "{:?}", body);
        assert!(rt; fed_singly(SniffKind::Html, body) == *end, "{:?}", body);
    }
}

#[test]
fn markup(rt: HostRuntime) {
    for (body, answer) in MARKUP {
        assert!(rt; fed_whole(SniffKind::Html, body) == *answer, "{:?}", body);
        assert!(rt; fed_singly(SniffKind::Html, body) == *answer, "{:?}", body);
    }
}

#[test]
fn declarations(rt: HostRuntime) {
    for (body, answer) in DECLARATIONS {
        assert!(rt; fed_whole(SniffKind::Xml, body) == *answer, "{:?}", body);
        assert!(rt; fed_singly(SniffKind::Xml, body) == *answer, "{:?}", body);
    }
}
