//! Requests to the store, read from their texts.

ghost use Rattle.std.specs.Prelude.{◌≡◌, ◌≤◌, ◌&&◌, MatchOption, false, nat_le, true};
ghost use Rattle.std.specs.List.{after_first, before_first, list_all, list_any};
ghost use Rattle.std.specs.Option.{option_copied, option_map};
ghost use Rattle.service_rule.specs.KeyRequests.{key_request};
ghost use Rattle.service_rule.specs.Store as store;

use crate::limits::MAX_STORE_KEY;

/// What a request asks of the store, lent by its text.
pub enum KeyRequest<'a> {
    /// To say the value of a key.
    Get(&'a str),
    /// To keep a value under a key, in place of an earlier one.
    Set(&'a str, &'a str),
    /// To remove a key.
    Remove(&'a str),
}

impl Clone for KeyRequest<'_> {
    fn clone(&self) -> Result<Self, std::alloc::AllocError> {
        Ok(*self)
    }
}

impl Copy for KeyRequest<'_> {}

fn is_key_byte(byte: u8) -> bool
    ensures { result ≡ (nat_le 33 byte && nat_le byte 126) }
{
    (b'!'..=b'~').contains(&byte)
}

fn has_key_bytes(text: &str) -> bool
    ensures { result ≡ list_all (λ byte. nat_le 33 byte && nat_le byte 126) text.now }
{
    text.bytes().all(is_key_byte)
}

fn is_store_key(text: &str) -> bool
    ensures { result ≡ store.is_store_key text.now }
{
    !text.is_empty() && text.len() <= MAX_STORE_KEY && has_key_bytes(text)
}

/// What stands before and after the first blank.
fn around_blank(text: &str) -> Option<(&str, &str)>
    ensures { MatchOption result (list_any store.is_blank_byte text.now ≡ false) (λ parts. (list_any store.is_blank_byte text.now ≡ true)
        × (parts.0.now ≡ before_first store.is_blank_byte text.now) × (parts.1.now ≡ after_first store.is_blank_byte text.now)) }
{
    text.split_once(' ')
}

fn set_request(text: &str) -> Option<KeyRequest<'_>>
    ensures { option_map key_request result ≡ store.read_set text.now }
{
    match around_blank(text) {
        Some((key, value)) => {
            if is_store_key(key) {
                Some(KeyRequest::Set(key, value))
            } else {
                None
            }
        }
        None => None,
    }
}

fn get_request(key: &str) -> Option<KeyRequest<'_>>
    ensures { option_map key_request result ≡ store.keyed store.GetKey key.now }
{
    if is_store_key(key) {
        Some(KeyRequest::Get(key))
    } else {
        None
    }
}

fn remove_request(key: &str) -> Option<KeyRequest<'_>>
    ensures { option_map key_request result ≡ store.keyed store.RemoveKey key.now }
{
    if is_store_key(key) {
        Some(KeyRequest::Remove(key))
    } else {
        None
    }
}

/// `get KEY`, `set KEY VALUE` or `remove KEY`.
#[tactic(auto, unfolding(crate::specs::Store::store_request))]
pub fn store_request(text: &str) -> Option<KeyRequest<'_>>
    ensures { option_map key_request result ≡ store.store_request text.now }
{
    if let Some(key) = text.strip_prefix("get ") {
        return get_request(key);
    }
    if let Some(rest) = text.strip_prefix("set ") {
        return set_request(rest);
    }
    match text.strip_prefix("remove ") {
        Some(key) => remove_request(key),
        None => None,
    }
}

/// What a request leaves under a key: a value, nothing, or what was there.
pub(crate) fn leaves<'a>(request: KeyRequest<'a>, key: &str) -> Option<Option<&'a str>>
    ensures { option_map option_copied result ≡ store.leaves key.now (key_request request.entry) }
{
    match request {
        KeyRequest::Get(_) => None,
        KeyRequest::Set(other, value) => {
            if other == key {
                Some(Some(value))
            } else {
                None
            }
        }
        KeyRequest::Remove(other) => { if other == key { Some(None) } else { None } }
    }
}
