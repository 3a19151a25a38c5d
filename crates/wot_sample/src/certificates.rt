//! Certificates of the key T that tests of several crates share. A change of one changes what these tests expect.
use crate::Packet::{self, Signature, UserId};
use crate::Says::{By, Lasts, Made, Scope, Trust};
use crate::{
    A, CASUAL, CERTIFICATION, CERTIFICATION_REVOCATION, DIRECT, KEY_T, PERSONA, POSITIVE, R,
};

/// Two certifications by R. The later one expires after 100 seconds.
pub const SPANS: &[Packet] = &[
    KEY_T,
    DIRECT,
    UserId(b"t"),
    Signature(CERTIFICATION, &[Made(2000), Trust(0, 60), By(R)]),
    Signature(
        CERTIFICATION,
        &[Made(3000), Lasts(100), Trust(0, 120), By(R)],
    ),
];

/// User IDs `t` and `s` with certifications by several issuers, one of which revoked its own.
pub const SEVERAL_ISSUERS: &[Packet] = &[
    KEY_T,
    DIRECT,
    UserId(b"t"),
    Signature(CERTIFICATION, &[Made(2000), Trust(1, 60), By(R)]),
    Signature(POSITIVE, &[Made(2100)]),
    Signature(PERSONA, &[Made(2200), Trust(255, 1), Scope(b"x"), By(A)]),
    UserId(b"s"),
    Signature(CASUAL, &[Made(2300), By(A)]),
    Signature(CERTIFICATION, &[Made(2400), Trust(2, 120), By(R)]),
    Signature(CERTIFICATION_REVOCATION, &[Made(2450), By(R)]),
    Signature(POSITIVE, &[Made(2500), Trust(0, 30), By(R)]),
];

/// User IDs that their own key revoked; `t` was certified again.
pub const OWN_USER_IDS_REVOKED: &[Packet] = &[
    KEY_T,
    DIRECT,
    UserId(b"s"),
    Signature(POSITIVE, &[Made(2000)]),
    Signature(CERTIFICATION_REVOCATION, &[Made(2500)]),
    UserId(b"t"),
    Signature(POSITIVE, &[Made(2000)]),
    Signature(CERTIFICATION_REVOCATION, &[Made(2500)]),
    Signature(POSITIVE, &[Made(3000)]),
    UserId(b"u"),
    Signature(CERTIFICATION_REVOCATION, &[Made(2500)]),
    Signature(CERTIFICATION, &[Made(2000), By(R)]),
];
