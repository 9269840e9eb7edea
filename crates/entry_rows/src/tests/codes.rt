//! The code of each rule.

use history_entry::Rule;

const CODES: &[(Rule, &str)] = &[
    (Rule::K1, "K1"),
    (Rule::K2, "K2"),
    (Rule::K3, "K3"),
    (Rule::K4, "K4"),
    (Rule::K5, "K5"),
    (Rule::K6, "K6"),
    (Rule::K7, "K7"),
    (Rule::K8, "K8"),
    (Rule::K9, "K9"),
    (Rule::K10, "K10"),
    (Rule::G1, "G1"),
    (Rule::G2, "G2"),
    (Rule::G3, "G3"),
    (Rule::M1, "M1"),
    (Rule::M2, "M2"),
    (Rule::N1, "N1"),
    (Rule::N2, "N2"),
    (Rule::N3, "N3"),
    (Rule::N4, "N4"),
    (Rule::N5, "N5"),
    (Rule::N6, "N6"),
    (Rule::N7, "N7"),
    (Rule::N8, "N8"),
    (Rule::N9, "N9"),
    (Rule::F1, "F1"),
    (Rule::L1, "L1"),
    (Rule::L2, "L2"),
    (Rule::S1, "S1"),
    (Rule::S2, "S2"),
    (Rule::S3, "S3"),
    (Rule::S4, "S4"),
    (Rule::A1, "A1"),
    (Rule::A2, "A2"),
    (Rule::A3, "A3"),
    (Rule::A4, "A4"),
    (Rule::A5, "A5"),
    (Rule::B1, "B1"),
    (Rule::B2, "B2"),
    (Rule::B3, "B3"),
    (Rule::B4, "B4"),
    (Rule::B5, "B5"),
    (Rule::B6, "B6"),
    (Rule::B7, "B7"),
    (Rule::B8, "B8"),
];

#[test]
fn rules_tell_their_codes(rt: HostRuntime) {
    for (rule, code) in CODES {
        assert_eq!(rt; rule.code(), *code);
    }
}
