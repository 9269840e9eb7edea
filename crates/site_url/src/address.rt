//! Hosts that are IP addresses.

ghost use Rattle.std.specs.Prelude.{◌≡◌};
ghost use Rattle.std.specs.List.{list_all};
ghost use Rattle.public_suffix.specs.Labels.{labels, label_count};
ghost use Rattle.site_url.specs.Addresses.{is_octet, is_dotted_quad, is_ip_address};

use decimal_text::decimal_number;

/// Whether a text is a number from 0 to 255 in decimal, without leading zeros.
#[tactic(auto, unfolding(crate::specs::Addresses::is_octet))]
fn is_octet(text: &str) -> bool
    ensures { result ≡ is_octet text.now }
{
    match decimal_number(text.as_bytes()) {
        Some(number) => number < 256,
        None => false,
    }
}

fn has_octets(host: &str) -> bool
    ensures { result ≡ list_all is_octet (labels host.now) }
{
    host.split('.').all(|label| is_octet(label))
}

fn label_count(host: &str) -> usize
    ensures { result ≡ label_count host.now }
{
    host.split('.').count()
}

#[tactic(auto, unfolding(crate::specs::Addresses::is_dotted_quad))]
fn is_dotted_quad(host: &str) -> bool
    ensures { result ≡ is_dotted_quad host.now }
{
    label_count(host) == 4 && has_octets(host)
}

/// Whether a host is an IP address: in brackets, or four numbers with dots between them.
#[tactic(auto, unfolding(crate::specs::Addresses::is_ip_address))]
pub fn is_ip_address(host: &str) -> bool
    ensures { result ≡ is_ip_address host.now }
{
    host.as_bytes().first() == Some(&b'[') || is_dotted_quad(host)
}
