//! Numbers as texts write them.

ghost use Rattle.std.specs.Prelude.{◌≡◌};
ghost use Rattle.std.specs.List.{list_all};
ghost use Rattle.std.specs.Char.{is_ascii_digit};
ghost use Rattle.decimal_text.specs.Numbers.{is_numeral, decimal_number, long_decimal_number};

fn has_digits(text: &[u8]) -> bool
    ensures { result ≡ list_all is_ascii_digit text.now }
{
    text.iter().all(|byte| byte.is_ascii_digit())
}

#[tactic(auto, unfolding(crate::specs::Numbers::is_numeral))]
fn is_numeral(text: &[u8]) -> bool
    ensures { result ≡ is_numeral text.now }
{
    !text.is_empty() && has_digits(text) && (text.len() == 1 || text[0] != b'0')
}

/// The number below 2^32 that a text writes in decimal, without sign and without leading zeros.
pub fn decimal_number(text: &[u8]) -> Option<u32>
    ensures { result ≡ decimal_number text.now }
{
    if !is_numeral(text) {
        return None;
    }
    let digits = str::from_utf8(text).unwrap();
    digits.parse::<u32>().ok()
}

/// The number below 2^64 that a text writes in decimal, without sign and without leading zeros.
pub fn long_decimal_number(text: &[u8]) -> Option<u64>
    ensures { result ≡ long_decimal_number text.now }
{
    if !is_numeral(text) {
        return None;
    }
    let digits = str::from_utf8(text).unwrap();
    digits.parse::<u64>().ok()
}
