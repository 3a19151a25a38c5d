//! Tests of each subpacket type with its number of octets: what it says, and that one octet less or more is unknown.
use crate::assertion::expect_that;
use crate::signature::bodies::{MADE_2000, PLAIN, says};
use std::alloc::Global;
use std::process::Abort;
use wot_signature::SigFacts;
use wot_types::Fpr;

/// The octets after the type. A row takes the first ones.
static BODY: [u8; 34] = [
    4, 1, 2, 3, 4, 5, 6, 7, 8, 9, 10, 11, 12, 13, 14, 15, 16, 17, 18, 19, 20, 21, 22, 23, 24, 25,
    26, 27, 28, 29, 30, 31, 32, 33,
];

const ISSUER: Fpr = Fpr::V4([
    1, 2, 3, 4, 5, 6, 7, 8, 9, 10, 11, 12, 13, 14, 15, 16, 17, 18, 19, 20,
]);

/// Each type with its number of octets and what it says with these; with one less or one more it is unknown. A reason
/// has at least one octet.
static TYPES: [(u8, u8, Option<SigFacts>); 12] = [
    (2, 3, None),
    (
        2,
        4,
        Some(SigFacts {
            made: 0x04010203,
            ..PLAIN
        }),
    ),
    (2, 5, None),
    (5, 1, None),
    (
        5,
        2,
        Some(SigFacts {
            depth: 4,
            amount: 1,
            ..PLAIN
        }),
    ),
    (5, 3, None),
    (29, 0, None),
    (
        29,
        1,
        Some(SigFacts {
            reason: Some(4),
            ..PLAIN
        }),
    ),
    (33, 20, None),
    (
        33,
        21,
        Some(SigFacts {
            issuer: Some(ISSUER),
            ..PLAIN
        }),
    ),
    (33, 22, None),
    (33, 33, None),
];

/// Whether a certification created at 2000 with one more hashed subpacket says this.
fn says_more(rt: &impl Abort, alloc: Global, kind: u8, size: u8, expected: SigFacts) -> bool {
    let mut hashed = MADE_2000.to_vec(alloc).expect(rt, "memory");
    hashed
        .extend_from_slice(&[size.saturating_add(1), kind])
        .expect(rt, "memory");
    let body = BODY.get(..usize::from(size)).expect(rt, "a size");
    hashed.extend_from_slice(body).expect(rt, "memory");
    says(rt, alloc, &hashed, &[], Some(expected))
}

/// Critical or not, a known subpacket says the same. An unknown one that is critical makes its signature unsound.
#[test]
fn types_have_their_number_of_octets(rt: HostRuntime) {
    let unsound = SigFacts {
        sound: false,
        ..PLAIN
    };
    for (kind, size, known) in &TYPES {
        let (plain, critical) = (known.unwrap_or(PLAIN), known.unwrap_or(unsound));
        expect_that(&rt, says_more(&rt, rt.alloc(), *kind, *size, plain));
        expect_that(
            &rt,
            says_more(&rt, rt.alloc(), *kind | 0x80, *size, critical),
        );
    }
}
