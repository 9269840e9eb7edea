//! The labels of hosts and rules, without memory.

ghost use Rattle.std.specs.Prelude.{◌≡◌, ◌-◌, drop, MatchOption};
ghost use Rattle.std.specs.List.{list_all, zip, before_first};
ghost use Rattle.std.specs.Str.{IsUtf8};
ghost use Rattle.public_suffix.specs.Labels.{labels, label_count, has_empty_label, label_start, is_dot, IsLabelBefore};
ghost use Rattle.public_suffix.specs.RegistrableDomain.{label_fits, fits_last};

/// How many labels a host or a rule has.
pub fn label_count(text: &str) -> usize
    ensures { result ≡ label_count text.now }
{
    text.split('.').count()
}

/// Whether one of a host's labels is empty.
pub fn has_empty_label(text: &str) -> bool
    ensures { result ≡ has_empty_label text.now }
{
    text.split('.').any(|label| label.is_empty())
}

/// A host without its first label and the dot after it, where it has more labels.
pub fn without_first_label(host: &str) -> Option<&str>
    ensures { MatchOption result (label_count host.now ≡ 1)
        (λ rest. IsLabelBefore host.now (before_first is_dot host.now) rest.now × IsUtf8 rest.now) }
{
    match host.split_once('.') {
        Some((_, rest)) => Some(rest),
        None => None,
    }
}

/// Whether a host's label fits a rule's.
fn label_fits(label: &str, rule_label: &str) -> bool
    ensures { result ≡ label_fits (label.now, rule_label.now) }
{
    rule_label == "*" || label == rule_label
}

/// Whether a host's labels after the first `skip` fit a rule's, as far as both go.
fn labels_fit(host: &str, rule: &str, skip: usize) -> bool
    ensures { result ≡ list_all label_fits (zip (drop skip (labels host.now)) (labels rule.now)) }
{
    host.split('.')
        .skip(skip)
        .zip(rule.split('.'))
        .all(|(label, rule_label)| label_fits(label, rule_label))
}

/// Whether a host's last labels fit the labels of a rule.
#[tactic(auto, unfolding(crate::specs::RegistrableDomain::fits_last))]
pub fn fits_last(host: &str, rule: &str) -> bool
    ensures { result ≡ fits_last (labels host.now) (labels rule.now) }
{
    let host_count = label_count(host);
    let rule_count = label_count(rule);
    rule_count <= host_count && labels_fit(host, rule, host_count - rule_count)
}

/// The byte at which a host's labels after the first `count` begin.
#[tactic(auto, using(crate::proofs::LabelStart::label_start_none))]
pub fn label_start(host: &str, count: usize) -> usize
    ensures { result ≡ label_start host.now count }
{
    let mut left = count;
    for (index, byte) in host.as_bytes().iter().enumerate() {
        if left == 0 {
            return index;
        }
        if *byte == b'.' {
            left -= 1;
        }
    }
    host.len()
}
