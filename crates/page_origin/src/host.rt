ghost use Rattle.std.specs.Prelude.{◌≡◌, true, false, Err, IfOk, string_bytes};
ghost use Rattle.page_origin.specs.HostSpelling.{is_host};

use crate::text_bytes::{TextRefusal, is_host, text_copy};
use call_answers::NoMemory;
use std::alloc::Global;
use std::marker::Model;

/// The text of a host: an IPv6 address in brackets, or a name of visible bytes without `/`, `:`, `[` and `]`.
#[derive(Drop)]
pub struct HostText {
    text: String,
}

impl Model for HostText {
    ghost use Rattle.std.specs.Prelude.{ℕ, List, string_bytes, ◌≡◌, true};
    ghost use Rattle.page_origin.specs.HostSpelling.{is_host};

    ghost Value = { List ℕ };

    ghost view = { λ h. string_bytes h.text };

    ghost invariant = { λ h. is_host (string_bytes h.text) ≡ true };
}

impl HostText {
    /// The host with this text.
    pub fn new(text: String) -> Self
        requires { is_host (string_bytes text) ≡ true }
        ensures { result ≡ string_bytes text }
    {
        HostText { text }
    }

    /// The host that bytes spell, an address in brackets or a name.
    #[tactic(auto, using(crate::proofs::Spellings::host_is_text))]
    pub fn from_bytes(alloc: Global, text: &[u8]) -> Result<Self, TextRefusal>
        ensures ok { IfOk result (λ host. host ≡ text.now) }
        ensures host { IfOk result (λ host. is_host text.now ≡ true) }
        ensures bad { result ≡ Err TextRefusal.BadText → is_host text.now ≡ false }
    {
        if !is_host(text) {
            return Err(TextRefusal::BadText);
        }
        Ok(HostText::new(text_copy(alloc, text)?))
    }

    /// The text of the host.
    pub fn as_str(&self) -> &str
        ensures text { result.now ≡ self.now }
        ensures host { is_host self.now ≡ true }
    {
        self.text.as_str()
    }

    /// An equal host, in memory of its own.
    pub fn copy(&self, alloc: Global) -> Result<Self, NoMemory>
        ensures { IfOk result (λ copy. copy ≡ self.now) }
    {
        let text = String::from_str(alloc, self.text.as_str())?;
        Ok(HostText { text })
    }
}

impl PartialEq for HostText {
    ghost use Rattle.std.specs.Str.{bytes_eq};
    ghost use Rattle.std.specs.Cmp.{partial_equiv_from_equiv};
    ghost use Rattle.std.proofs.lemmas.Cmp.{nat_list_eq_equiv};

    ghost eq = { bytes_eq };

    ghost laws = { partial_equiv_from_equiv nat_list_eq_equiv };

    fn eq(&self, other: &Self) -> bool {
        self.text.as_str() == other.text.as_str()
    }
}
