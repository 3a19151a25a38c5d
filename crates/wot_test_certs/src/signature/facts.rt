//! Tests that only the hashed area of a signature says anything about it.
use crate::assertion::expect_that;
use crate::signature::bodies::{MADE_2000, PLAIN, says};
use wot_signature::SigFacts;

/// Hashed areas, and what certifications with them say.
static HASHED: [(&[u8], SigFacts); 9] = [
    (
        &[0x05, 0x02, 0x00, 0x00, 0x07, 0xd0, 0x03, 0x05, 0x01, 0x78],
        SigFacts { depth: 1, ..PLAIN },
    ),
    (
        &[
            0x05, 0x02, 0x00, 0x00, 0x07, 0xd0, 0x05, 0x02, 0x00, 0x00, 0x07, 0xd1,
        ],
        SigFacts {
            made: 2001,
            ..PLAIN
        },
    ),
    (
        &[0x05, 0x02, 0x00, 0x00, 0x07, 0xd0, 0x01, 0xe5],
        SigFacts {
            sound: false,
            ..PLAIN
        },
    ),
    (&[0x05, 0x02, 0x00, 0x00, 0x07, 0xd0, 0x01, 0x65], PLAIN),
    (
        &[
            0x05, 0x02, 0x00, 0x00, 0x07, 0xd0, 0x04, 0x82, 0x00, 0x00, 0x07,
        ],
        SigFacts {
            sound: false,
            ..PLAIN
        },
    ),
    (
        &[],
        SigFacts {
            made: 0,
            sound: false,
            ..PLAIN
        },
    ),
    (
        &[
            0x05, 0x02, 0x00, 0x00, 0x07, 0xd0, 0x03, 0x05, 0x02, 0x3c, 0x02, 0x05, 0x09,
        ],
        SigFacts {
            depth: 2,
            amount: 60,
            ..PLAIN
        },
    ),
    (
        &[
            0x05, 0x02, 0x00, 0x00, 0x07, 0xd0, 0x02, 0x07, 0x00, 0x02, 0x19, 0x01,
        ],
        SigFacts {
            revocable: false,
            primary: true,
            ..PLAIN
        },
    ),
    (
        &[0x05, 0x02, 0x00, 0x00, 0x07, 0xd0, 0x02, 0x06, 0x61],
        SigFacts {
            scoped: true,
            ..PLAIN
        },
    ),
];

#[test]
fn only_hashed_areas_give_facts(rt: HostRuntime) {
    for (hashed, expected) in &HASHED {
        expect_that(&rt, says(&rt, rt.alloc(), hashed, &[], Some(*expected)));
    }
    expect_that(
        &rt,
        says(
            &rt,
            rt.alloc(),
            &MADE_2000,
            &[0x03, 0x05, 0x01, 0x78],
            Some(PLAIN),
        ),
    );
}
