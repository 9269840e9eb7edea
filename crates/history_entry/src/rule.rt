ghost use Rattle.std.specs.Prelude.{◌≡◌};
ghost use Rattle.history_entry.specs.RuleText.{rule_text};

/// The rules by which a message is refused, a navigation or a request ends, or a verdict is given: `K` kills the sender,
/// `G` and `M` drop, `N`, `F`, `L` and `S` deny or end, `A` allows and `B` blocks.
#[derive(Clone, Copy, Debug, PartialEq, Eq)]
pub enum Rule {
    /// The document was never a committed document of the process.
    K1,
    /// The initiator's site is not the lock of the process.
    K2,
    /// The initiator is not the same origin as the document's.
    K3,
    /// The frame was never in the document's group.
    K4,
    /// The frame was never a child of the document's frame.
    K5,
    /// The source is not the same origin as the document's.
    K6,
    /// The origin's site is not the lock of the process.
    K7,
    /// The process never had an order for the navigation.
    K8,
    /// The URL is not that of the order.
    K9,
    /// The origin is not that of the order.
    K10,
    /// The document is not current any more.
    G1,
    /// The frame is removed.
    G2,
    /// The order is not waiting any more.
    G3,
    /// The frame has no document.
    M1,
    /// The target does not take the receiver's origin.
    M2,
    /// The document may not navigate the frame.
    N1,
    /// The text or the `Location` names no URL.
    N2,
    /// The URL is of a class that is not navigated to.
    N3,
    /// 256 navigations were made.
    N4,
    /// The 21st redirect.
    N5,
    /// No process can be had.
    N6,
    /// The wire failed.
    N7,
    /// A status that commits nothing, 204 or 205.
    N8,
    /// The document's frame is sandboxed.
    N9,
    /// The text or the `Location` names no URL that can be fetched.
    F1,
    /// 64 frames were made.
    L1,
    /// 4,096 requests were made.
    L2,
    /// The origin is opaque.
    S1,
    /// The origin has 256 keys.
    S2,
    /// There is no service of this name.
    S3,
    /// The request has none of the service's forms.
    S4,
    /// The chain has the request's own origin.
    A1,
    /// The CORS check passes.
    A2,
    /// The chain has the site of the request's tuple origin.
    A3,
    /// Kind Css or Other, whose body is found to be nothing that blocks it.
    A4,
    /// A protected kind or plain text, whose body does not confirm it.
    A5,
    /// The CORS check fails.
    B1,
    /// A part of a protected kind.
    B2,
    /// `nosniff` on a protected kind or plain text.
    B3,
    /// The body is HTML.
    B4,
    /// The body is XML.
    B5,
    /// The body is JSON.
    B6,
    /// The body, of a kind other than Css, begins with a prefix that keeps it from running as a script.
    B7,
    /// The response's resource policy leaves out the request's origin.
    B8,
}

impl Rule {
    /// Every rule once, in the order in which a summary has them.
    pub const ALL: [Rule; 44] = [
        Rule::K1,
        Rule::K2,
        Rule::K3,
        Rule::K4,
        Rule::K5,
        Rule::K6,
        Rule::K7,
        Rule::K8,
        Rule::K9,
        Rule::K10,
        Rule::G1,
        Rule::G2,
        Rule::G3,
        Rule::M1,
        Rule::M2,
        Rule::N1,
        Rule::N2,
        Rule::N3,
        Rule::N4,
        Rule::N5,
        Rule::N6,
        Rule::N7,
        Rule::N8,
        Rule::N9,
        Rule::F1,
        Rule::L1,
        Rule::L2,
        Rule::S1,
        Rule::S2,
        Rule::S3,
        Rule::S4,
        Rule::A1,
        Rule::A2,
        Rule::A3,
        Rule::A4,
        Rule::A5,
        Rule::B1,
        Rule::B2,
        Rule::B3,
        Rule::B4,
        Rule::B5,
        Rule::B6,
        Rule::B7,
        Rule::B8,
    ];

    /// The code of a rule, as texts have it: a letter and a number.
    pub fn code(self) -> &'static str
        ensures { result.now ≡ rule_text self }
    {
        match self {
            Rule::K1 => "K1",
            Rule::K2 => "K2",
            Rule::K3 => "K3",
            Rule::K4 => "K4",
            Rule::K5 => "K5",
            Rule::K6 => "K6",
            Rule::K7 => "K7",
            Rule::K8 => "K8",
            Rule::K9 => "K9",
            Rule::K10 => "K10",
            Rule::G1 => "G1",
            Rule::G2 => "G2",
            Rule::G3 => "G3",
            Rule::M1 => "M1",
            Rule::M2 => "M2",
            Rule::N1 => "N1",
            Rule::N2 => "N2",
            Rule::N3 => "N3",
            Rule::N4 => "N4",
            Rule::N5 => "N5",
            Rule::N6 => "N6",
            Rule::N7 => "N7",
            Rule::N8 => "N8",
            Rule::N9 => "N9",
            Rule::F1 => "F1",
            Rule::L1 => "L1",
            Rule::L2 => "L2",
            Rule::S1 => "S1",
            Rule::S2 => "S2",
            Rule::S3 => "S3",
            Rule::S4 => "S4",
            Rule::A1 => "A1",
            Rule::A2 => "A2",
            Rule::A3 => "A3",
            Rule::A4 => "A4",
            Rule::A5 => "A5",
            Rule::B1 => "B1",
            Rule::B2 => "B2",
            Rule::B3 => "B3",
            Rule::B4 => "B4",
            Rule::B5 => "B5",
            Rule::B6 => "B6",
            Rule::B7 => "B7",
            Rule::B8 => "B8",
        }
    }
}
