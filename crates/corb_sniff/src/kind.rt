ghost use Rattle.std.specs.Prelude.{◌≡◌};
ghost use Rattle.corb_sniff.specs.Confirmation.{is_tested};

/// What a response's headers say that its body is. `Css` is tested for nothing, `Other` for the prefixes alone.
#[derive(Clone, Copy, Debug, PartialEq, Eq)]
pub enum SniffKind {
    Html,
    Xml,
    Json,
    Plain,
    Css,
    Other,
}

/// What a body's first bytes show it to be.
#[derive(Clone, Copy, Debug, PartialEq, Eq)]
pub enum Sniffed {
    /// White space, comments and then a tag such as `<html` or `<a`.
    Html,
    /// White space and then `<?xml`.
    Xml,
    /// White space and then `{`, a name in quotes and `:`.
    Json,
    /// One of `)]}'`, `{}&&` and `for(;;);`.
    Prefix,
}

/// What is known of a body so far.
#[derive(Clone, Copy, Debug, PartialEq, Eq)]
pub enum Answer {
    /// Nothing is settled: what follows may still confirm it.
    More,
    /// It is what its kind is tested for, whatever follows.
    Confirmed(Sniffed),
    /// It is nothing that its kind is tested for, whatever follows.
    Clear,
}

impl SniffKind {
    /// Whether bodies of this kind are tested for it.
    pub(crate) fn tests(self, sniffed: Sniffed) -> bool
        ensures { result ≡ is_tested self sniffed }
    {
        match (self, sniffed) {
            (SniffKind::Html, Sniffed::Html) => true,
            (SniffKind::Xml, Sniffed::Xml) => true,
            (SniffKind::Json, Sniffed::Json) => true,
            (SniffKind::Plain, _) => true,
            (SniffKind::Css, _) => false,
            (_, Sniffed::Prefix) => true,
            _ => false,
        }
    }
}
