//! Tests of wot_policy: the standard policy by hash algorithm, signature type and time.
use crate::assertion::expect_that;
use wot_policy::{Ask, PolicyRows, admits, standard_rows};

/// The time from which SHA-1 and RIPEMD-160 aren't admitted.
const END: u32 = 1_359_676_800;

/// Each hash number that is ever admitted, and whether it still is from `END` on, for signatures that revoke nothing.
static COUNTED: [(u8, bool); 8] = [
    (2, false),
    (3, false),
    (8, true),
    (9, true),
    (10, true),
    (11, true),
    (12, true),
    (14, true),
];

/// Each signature type of RFC 9580, and some numbers next to those that revoke; and whether it revokes.
static KINDS: [(u8, bool); 18] = [
    (0x00, false),
    (0x01, false),
    (0x02, false),
    (0x10, false),
    (0x13, false),
    (0x18, false),
    (0x19, false),
    (0x1f, false),
    (0x20, true),
    (0x21, false),
    (0x27, false),
    (0x28, true),
    (0x29, false),
    (0x2f, false),
    (0x30, true),
    (0x31, false),
    (0x40, false),
    (0xff, false),
];

fn expected(revokes: bool, hash: u8, made: u32) -> bool {
    for (number, still) in &COUNTED {
        if *number == hash {
            return *still || revokes || made < END;
        }
    }
    false
}

/// Whether the standard policy admits this hash number exactly when it should, at each time and for each type.
fn is_admitted_so(rows: &PolicyRows, hash: u8) -> bool {
    for made in [0, END - 1, END, END + 1, u32::MAX] {
        for (kind, revokes) in &KINDS {
            let ask = Ask {
                kind: *kind,
                hash,
                made,
            };
            if admits(rows, ask) != expected(*revokes, hash, made) {
                return false;
            }
        }
    }
    true
}

#[test]
fn standard_rows_by_kind_and_around_their_end(rt: HostRuntime) {
    let rows = standard_rows();
    for hash in 0..=u8::MAX {
        expect_that(&rt, is_admitted_so(&rows, hash));
    }
}
