ghost use Rattle.std.specs.Prelude.{◌≡◌, ◌↔◌, true, false, reverse, IfOk, Err};
ghost use Rattle.std.specs.List.{list_all};
ghost use Rattle.mime_kind.specs.FieldText.{is_field_byte, begins_blank, is_field_text};

use crate::texts::is_blank;
use std::alloc::Global;
use std::marker::Model;
use thiserror::Error;

/// The text of a header field: tabs and bytes from space to tilde, with no blank at either end (RFC 9110, section 5.5,
/// without bytes past ASCII). It may be empty.
#[derive(Drop)]
pub struct FieldText {
    text: String,
}

/// Why a text is no header field's.
#[derive(Clone, Copy, Debug, PartialEq, Eq, Error)]
pub enum FieldTextError {
    /// A byte is neither a tab nor from space to tilde, or a blank stands at an end.
    #[error("a byte is no field's, or a blank stands at an end")]
    Invalid,
    /// Memory ran out.
    #[error("{}", call_answers::NoMemory)]
    NoMemory,
}

impl Model for FieldText {
    ghost use Rattle.std.specs.Prelude.{List, ℕ, string_bytes, ◌≡◌, true};
    ghost use Rattle.mime_kind.specs.FieldText.{is_field_text};

    ghost Value = { List ℕ };

    ghost view = { λ f. string_bytes f.text };

    ghost invariant = { λ f. is_field_text (string_bytes f.text) ≡ true };
}

/// Whether a byte may stand in a field's text.
fn is_field_byte(byte: u8) -> bool
    ensures { result ≡ is_field_byte byte }
{
    byte == b'\t' || (b' '..=b'~').contains(&byte)
}

fn begins_blank(text: &[u8]) -> bool
    ensures { result ≡ begins_blank text.now }
{
    match text {
        [byte, ..] => is_blank(*byte),
        [] => false,
    }
}

fn ends_blank(text: &[u8]) -> bool
    ensures { result ≡ begins_blank (reverse text.now) }
{
    match text {
        [.., byte] => is_blank(*byte),
        [] => false,
    }
}

fn has_field_bytes(text: &[u8]) -> bool
    ensures { result ≡ list_all is_field_byte text.now }
{
    text.iter().all(|byte| is_field_byte(*byte))
}

fn is_field_text(text: &[u8]) -> bool
    ensures { result ≡ is_field_text text.now }
{
    has_field_bytes(text) && !begins_blank(text) && !ends_blank(text)
}

impl FieldText {
    /// The field's text with these bytes.
    pub fn new(alloc: Global, text: &str) -> Result<Self, FieldTextError>
        ensures ok { IfOk result (λ field. field ≡ text.now) }
        ensures invalid { (result ≡ Err FieldTextError.Invalid) ↔ (is_field_text text.now ≡ false) }
    {
        if !is_field_text(text.as_bytes()) {
            return Err(FieldTextError::Invalid);
        }
        match String::from_str(alloc, text) {
            Ok(text) => Ok(FieldText { text }),
            Err(_) => Err(FieldTextError::NoMemory),
        }
    }

    /// The text, which is that of a header field.
    pub fn as_str(&self) -> &str
        ensures text { result.now ≡ self.now }
        ensures field { is_field_text self.now ≡ true }
    {
        self.text.as_str()
    }

    /// The bytes of the text, which is that of a header field.
    pub fn as_bytes(&self) -> &[u8]
        ensures text { result.now ≡ self.now }
        ensures field { is_field_text self.now ≡ true }
    {
        self.text.as_bytes()
    }
}

impl PartialEq for FieldText {
    ghost use Rattle.std.specs.Str.{bytes_eq};
    ghost use Rattle.std.specs.Cmp.{partial_equiv_from_equiv};
    ghost use Rattle.std.proofs.lemmas.Cmp.{nat_list_eq_equiv};

    ghost eq = { bytes_eq };

    ghost laws = { partial_equiv_from_equiv nat_list_eq_equiv };

    fn eq(&self, other: &Self) -> bool {
        self.text.as_str() == other.text.as_str()
    }
}
