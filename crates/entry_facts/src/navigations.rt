//! Redirects of navigations, and their initiators.

ghost use Rattle.std.specs.Prelude.{◌≡◌};
ghost use Rattle.std.specs.Option.{option_copied};
ghost use Rattle.history_rules.specs.Navigations as navigations;

use script_model::{Body, Entry, HopOf, Origin, UrlText};

/// A redirect of a navigation that was followed.
pub fn hop_of_navigation(entry: &Entry, navigation: u64) -> Option<&UrlText>
    ensures { option_copied result ≡ navigations.hop_of_navigation navigation entry.now }
{
    match entry {
        Entry::Hop(HopOf::Nav(redirected), url) => {
            if u64::from(*redirected) == navigation {
                Some(url)
            } else {
                None
            }
        }
        _ => None,
    }
}

/// Of a navigation of a frame that was there the claimed initiator, of all else the given origin.
pub fn body_initiator<'a>(body: &'a Body, own: Option<&'a Origin>) -> Option<&'a Origin>
    ensures { option_copied result ≡ navigations.body_initiator (option_copied own.entry) body.now }
{
    match body {
        Body::Navigate { initiator, .. } => Some(initiator),
        _ => own,
    }
}
