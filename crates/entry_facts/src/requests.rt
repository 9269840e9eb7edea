//! Requests: redirects, heads, pieces and ends.

ghost use Rattle.std.specs.Prelude.{◌≡◌};
ghost use Rattle.std.specs.Option.{option_copied};
ghost use Rattle.history_rules.specs.Requests as requests;

use script_model::{Body, Entry, HopOf, Mode, Rule, UrlText};

/// The mode of a fetch.
pub fn fetched_mode(body: &Body) -> Mode
    ensures { result ≡ requests.fetched_mode body.now }
{
    match body {
        Body::Fetch { mode, .. } => *mode,
        _ => Mode::NoCors,
    }
}

/// A redirect of a request that was followed.
pub fn hop_of_request(entry: &Entry, request: u64) -> Option<&UrlText>
    ensures { option_copied result ≡ requests.hop_of_request request entry.now }
{
    match entry {
        Entry::Hop(HopOf::Req(redirected), url) => {
            if u64::from(*redirected) == request {
                Some(url)
            } else {
                None
            }
        }
        _ => None,
    }
}

/// Whether the entry is a piece of a request.
pub fn is_piece_of(entry: &Entry, request: u64) -> bool
    ensures { result ≡ requests.is_piece_of request entry.now }
{
    match entry {
        Entry::Piece(of, ..) => u64::from(*of) == request,
        _ => false,
    }
}

/// Whether the entry is the end of a request.
pub fn is_end_of(entry: &Entry, request: u64) -> bool
    ensures { result ≡ requests.is_end_of request entry.now }
{
    match entry {
        Entry::End(of, _) => u64::from(*of) == request,
        _ => false,
    }
}

/// The rule of a head of a request.
pub fn head_in(entry: &Entry, request: u64) -> Option<Rule>
    ensures { result ≡ requests.head_in request entry.now }
{
    match entry {
        Entry::Head(of, rule) => {
            if u64::from(*of) == request {
                Some(*rule)
            } else {
                None
            }
        }
        _ => None,
    }
}
