//! The fields of a line, from the left: words, numbers and texts.

ghost use Rattle.std.specs.Prelude.{◌≡◌, string_bytes};
ghost use Rattle.std.specs.List.{list_all};
ghost use Rattle.decimal_text.specs.Numbers.{decimal_number};
ghost use Rattle.entry_reading.specs.Answers.{Gives, GivesBy, Passes, Takes, TakesBy};
ghost use Rattle.entry_reading.specs.Fields as fields;

use crate::stop::EntryStop;
use decimal_text::decimal_number;
use history_entry::PieceBytes;
use memchr::memchr;
use page_origin::{HostText, UrlText};
use std::alloc::Global;

/// What is left of a line. A field stands behind its space, and the space is taken with it.
#[derive(Drop)]
pub struct Fields<'a> {
    pub rest: &'a [u8],
}

/// What stands before the first mark, and what from it on: all and nothing where there is none.
pub fn around(text: &[u8], mark: u8) -> (&[u8], &[u8])
    ensures before { result.0.now ≡ fields.before mark text.now }
    ensures onwards { result.1.now ≡ fields.onwards mark text.now }
{
    match memchr(mark, text) {
        Some(end) => text.split_at(end),
        None => (text, &[]),
    }
}

/// What stands behind a mark at the front.
pub fn past(text: &[u8], mark: u8) -> Result<&[u8], EntryStop>
    ensures { GivesBy (λ rest. rest.now) result (fields.past mark text.now) }
{
    match text {
        [byte, rest @ ..] if *byte == mark => Ok(rest),
        _ => Err(EntryStop::BadLine),
    }
}

/// The number that a text writes.
pub fn number_of(text: &[u8]) -> Result<u32, EntryStop>
    ensures { Gives result (decimal_number text.now) }
{
    decimal_number(text).ok_or(EntryStop::BadLine)
}

/// The host that a text is.
pub fn host_of(alloc: Global, text: &[u8]) -> Result<HostText, EntryStop>
    ensures { Gives result (fields.host_of text.now) }
{
    Ok(HostText::from_bytes(alloc, text)?)
}

/// The URL's text that a text is.
#[tactic(auto, unfolding(crate::specs::Fields::url_of))]
pub fn url_of(alloc: Global, text: &[u8]) -> Result<UrlText, EntryStop>
    ensures { Gives result (fields.url_of text.now) }
{
    Ok(UrlText::from_bytes(alloc, text)?)
}

fn has_lower_digits(text: &[u8]) -> bool
    ensures { result ≡ list_all fields.is_lower_digit text.now }
{
    text.iter()
        .all(|byte| matches!(*byte, b'0'..=b'9' | b'a'..=b'f'))
}

/// The bytes that a text writes in lower-case hexadecimal.
#[tactic(auto, unfolding(crate::specs::Fields::bytes_of))]
fn bytes_of(alloc: Global, text: &[u8]) -> Result<Vec<u8>, EntryStop>
    ensures { GivesBy (λ bytes. bytes.items) result (fields.bytes_of text.now) }
{
    if text == b"-".as_slice() {
        return Ok(Vec::new(alloc));
    }
    if text.is_empty() || !has_lower_digits(text) {
        return Err(EntryStop::BadLine);
    }
    Ok(hex::decode(alloc, text)?)
}

#[tactic(auto, unfolding(crate::specs::Fields::piece_of))]
fn piece_of(alloc: Global, text: &[u8]) -> Result<PieceBytes, EntryStop>
    ensures { Gives result (fields.piece_of text.now) }
{
    let bytes = bytes_of(alloc, text)?;
    if bytes.is_empty() {
        return Err(EntryStop::BadLine);
    }
    Ok(PieceBytes::new(bytes))
}

#[tactic(auto, unfolding(crate::specs::Fields::text_of))]
fn text_of(alloc: Global, text: &[u8]) -> Result<String, EntryStop>
    ensures { GivesBy string_bytes result (fields.text_of text.now) }
{
    let bytes = bytes_of(alloc, text)?;
    match String::from_utf8(bytes) {
        Ok(text) => Ok(text),
        Err(_) => Err(EntryStop::BadLine),
    }
}

impl<'a> Fields<'a> {
    /// The word at the front, which no space stands before.
    pub fn word(&mut self) -> &'a [u8]
        ensures word { result.now ≡ fields.before 32 self.old.rest.now }
        ensures rest { self.new.rest.now ≡ fields.onwards 32 self.old.rest.now }
    {
        let (word, rest) = around(self.rest, b' ');
        self.rest = rest;
        word
    }

    /// Takes a space.
    pub fn space(&mut self) -> Result<(), EntryStop>
        ensures { Passes result self.new.rest.now (fields.past 32 self.old.rest.now) }
    {
        self.rest = past(self.rest, b' ')?;
        Ok(())
    }

    /// Takes an arrow and the spaces beside it.
    pub fn arrow(&mut self) -> Result<(), EntryStop>
        ensures { Passes result self.new.rest.now (fields.past_arrow self.old.rest.now) }
    {
        if !self.rest.starts_with(b" => ") {
            return Err(EntryStop::BadLine);
        }
        self.rest = &self.rest[4..];
        Ok(())
    }

    /// The next field.
    #[tactic(auto, unfolding(crate::specs::Fields::next_field))]
    pub fn field(&mut self) -> Result<&'a [u8], EntryStop>
        ensures { TakesBy (λ field. field.now) result self.new.rest.now (fields.next_field self.old.rest.now) }
    {
        self.space()?;
        Ok(self.word())
    }

    /// The number that the next field is.
    pub fn number(&mut self) -> Result<u32, EntryStop>
        ensures { Takes result self.new.rest.now (fields.field_by decimal_number self.old.rest.now) }
    {
        let field = self.field()?;
        number_of(field)
    }

    /// The bytes of a piece, which the next field is.
    pub fn piece(&mut self, alloc: Global) -> Result<PieceBytes, EntryStop>
        ensures { Takes result self.new.rest.now (fields.field_by fields.piece_of self.old.rest.now) }
    {
        let field = self.field()?;
        piece_of(alloc, field)
    }

    /// The text that the next field is.
    pub fn text(&mut self, alloc: Global) -> Result<String, EntryStop>
        ensures { TakesBy string_bytes result self.new.rest.now (fields.field_by fields.text_of self.old.rest.now) }
    {
        let field = self.field()?;
        text_of(alloc, field)
    }
}
