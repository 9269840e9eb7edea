/// Which version of the rules a history goes by, and its text.
#[derive(Clone, Copy, Debug, PartialEq, Eq)]
pub enum Policy {
    /// Responses have no resource policy, and B8 is no rule.
    One,
    /// A response's resource policy can block it, by B8.
    Two,
}
