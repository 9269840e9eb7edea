ghost use Rattle.std.specs.Prelude.{◌≡◌};
ghost use Rattle.mime_kind.specs.ResourcePolicies.{resource_policy};

use crate::field_text::FieldText;
use crate::values::is_joined;
use http_header::HeaderMap;

/// Whose no-cors requests a response lets use it, by its `Cross-Origin-Resource-Policy`.
#[derive(Clone, Copy, Debug, PartialEq, Eq)]
pub enum ResourcePolicy {
    /// Everyone's: there is no such header, or its values, joined, are neither of the two words.
    Any,
    /// Those of its own origin: `same-origin`
    SameOrigin,
    /// Those of its own site: `same-site`
    SameSite,
}

/// The header by which a response names who may use it.
const RESOURCE_POLICY: &str = "cross-origin-resource-policy";

/// The resource policy that the fields tell: the values of all `Cross-Origin-Resource-Policy` headers, joined with `, `,
/// are exactly `same-origin` or `same-site`, in this case, or else it is `Any`. It takes no memory.
#[tactic(auto, unfolding(crate::specs::ResourcePolicies::resource_policy))]
pub fn resource_policy(fields: &HeaderMap<FieldText>) -> ResourcePolicy
    ensures { result ≡ resource_policy fields.now }
{
    if is_joined(fields.get_all(RESOURCE_POLICY), b"same-origin") {
        ResourcePolicy::SameOrigin
    } else if is_joined(fields.get_all(RESOURCE_POLICY), b"same-site") {
        ResourcePolicy::SameSite
    } else {
        ResourcePolicy::Any
    }
}
