ghost use Rattle.std.specs.Prelude.{◌≡◌, IfOk, string_bytes};

use page_origin::NoMemory;
use std::alloc::Global;
use std::marker::Model;

/// A text, which contracts see as its bytes.
#[derive(Drop)]
pub struct PlainText {
    text: String,
}

impl Model for PlainText {
    ghost use Rattle.std.specs.Prelude.{ℕ, List, string_bytes};

    ghost Value = { List ℕ };

    ghost view = { λ t. string_bytes t.text };
}

impl PlainText {
    /// This text, whatever it is.
    pub fn new(text: String) -> Self
        ensures { result ≡ string_bytes text }
    {
        PlainText { text }
    }

    /// A copy of a text.
    pub fn of(alloc: Global, text: &str) -> Result<Self, NoMemory>
        ensures { IfOk result (λ copy. copy ≡ text.now) }
    {
        let text = String::from_str(alloc, text)?;
        Ok(PlainText { text })
    }

    /// The text.
    pub fn as_str(&self) -> &str
        ensures { result.now ≡ self.now }
    {
        self.text.as_str()
    }
}

impl PartialEq for PlainText {
    ghost use Rattle.std.specs.Str.{bytes_eq};
    ghost use Rattle.std.specs.Cmp.{partial_equiv_from_equiv};
    ghost use Rattle.std.proofs.lemmas.Cmp.{nat_list_eq_equiv};

    ghost eq = { bytes_eq };

    ghost laws = { partial_equiv_from_equiv nat_list_eq_equiv };

    fn eq(&self, other: &Self) -> bool {
        self.text.as_str() == other.text.as_str()
    }
}
