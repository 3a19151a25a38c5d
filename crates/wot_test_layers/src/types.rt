//! Tests of wot_types: the words of the limits that no row reaches, because a script at them would be too long.
use crate::assertion::expect_that;
use wot_types::{Limit, Limits};

static WORDS: [(Limit, &[u8]); 4] = [
    (Limit::Certificates, b"certificates"),
    (Limit::Octets, b"octets"),
    (Limit::Signatures, b"signatures"),
    (Limit::Verdicts, b"verdicts"),
];

#[test]
fn limits_are_told_by_their_words(rt: HostRuntime) {
    for (limit, word) in &WORDS {
        expect_that(&rt, limit.word() == *word);
    }
    expect_that(&rt, Limits::standard().octets == 268_435_456);
}
