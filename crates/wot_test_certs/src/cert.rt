//! Tests of wot_cert: how often a merge calls the policy's closure, and spans of time. The first also
//! counts the edges that wot_live makes, over a certificate with marks.
use crate::assertion::expect_that;
use std::alloc::Global;
use std::cell::Cell;
use std::process::Abort;
use wot_cert::{Assembled, Cert, CertFault, Span, assemble, span};
use wot_live::rows;
use wot_packet::read_packets;
use wot_policy::{Policy, admits, standard_rows};
use wot_sample::Packet::{self, Other, Signature, SignatureByHash, UserId};
use wot_sample::Says::{KeyLasts, Lasts, Made, Primary, Reason, Subpacket};
use wot_sample::{
    ATTRIBUTE, CERTIFICATION, CERTIFICATION_REVOCATION, DIRECT, DIRECT_KEY, KEY_A, KEY_REVOCATION,
    KEY_T, OWN_USER_IDS_REVOKED, POSITIVE, R, SEVERAL_ISSUERS, SPANS, SUBKEY,
};
use wot_types::Steps;
use wot_verdict::{Verdict, Verdicts};

/// A signature that isn't well-formed.
const UNSOUND: Packet = Signature(CERTIFICATION, &[Made(2000), Subpacket(0xe5, b"")]);

/// What is there before the merge.
const HELD: &[Packet] = &[KEY_T, DIRECT, UserId(b"t"), UNSOUND];

/// All of that and eight items more, of which five are well-formed signatures. The policy doesn't admit one of those.
const WHOLE: &[Packet] = &[
    KEY_T,
    DIRECT,
    UserId(b"t"),
    Signature(CERTIFICATION, &[Made(2000)]),
    Signature(CERTIFICATION, &[Made(3000)]),
    SignatureByHash(1, CERTIFICATION, &[Made(4000)]),
    UNSOUND,
    Other(ATTRIBUTE, b"t"),
    DIRECT,
    UNSOUND,
    Other(SUBKEY, b"t"),
    DIRECT,
];

/// The certificates of a text whose packets can be read.
fn assembled(alloc: Global, text: &[u8]) -> Result<Assembled, CertFault> {
    match read_packets(alloc, text) {
        Ok(packets) => {
            if packets.len() < 1 << 28 {
                assemble(alloc, &packets)
            } else {
                Err(CertFault::Memory)
            }
        }
        Err(_) => Err(CertFault::Memory),
    }
}

/// The first certificate of these packets.
fn certificate(rt: &impl Abort, alloc: Global, packets: &[Packet]) -> Cert {
    let text = wot_sample::text(alloc, packets).expect(rt, "memory");
    let found = assembled(alloc, &text).ok().expect(rt, "certificates");
    let first = found.certs.as_slice().first().expect(rt, "a certificate");
    first.duplicate(alloc).expect(rt, "memory")
}

/// How many edges are made for a certificate at 5000 if R made every signature on its user IDs.
fn edges_made(rt: &impl Abort, alloc: Global, cert: &Cert) -> u64 {
    let mut verdicts = Verdicts::new(alloc);
    for uid in cert.user_ids() {
        for sig in uid.sigs() {
            assert!(rt; verdicts.len() < 1000);
            expect_that(rt, verdicts.set(sig.number(), Verdict::Good(R)).is_ok());
        }
    }
    let mut steps = Steps::new();
    assert!(rt; cert.size() < 1000);
    expect_that(rt, rows(alloc, cert, &verdicts, 5000, &mut steps).is_ok());
    steps.made
}

#[test]
fn a_merge_asks_once_and_an_edge_is_made_once(rt: HostRuntime) {
    let table = standard_rows();
    let calls = Cell::new(0u64);
    let mut policy = Policy::new(table, |ask| {
        calls.set(calls.get().wrapping_add(1));
        admits(&table, ask)
    });
    let whole = certificate(&rt, rt.alloc(), WHOLE);
    let mut cert = certificate(&rt, rt.alloc(), HELD);
    assert!(rt; cert.size() < 1000 && whole.size() < 1000);
    expect_that(&rt, cert.merge(rt.alloc(), &whole, &mut policy) == Ok(8));
    expect_that(&rt, policy.asked() == 5 && calls.get() == 5);
    expect_that(&rt, edges_made(&rt, rt.alloc(), &cert) == 1);
}

/// A key that was retired, one that was superseded after that, and one that was compromised.
const RETIRED: &[Packet] = &[
    KEY_A,
    DIRECT,
    Signature(KEY_REVOCATION, &[Made(2001), Reason(3)]),
];

const RETIRED_THEN_SUPERSEDED: &[Packet] = &[
    KEY_A,
    DIRECT,
    Signature(KEY_REVOCATION, &[Made(2000), Reason(3)]),
    Signature(KEY_REVOCATION, &[Made(2001), Reason(1)]),
];

const COMPROMISED: &[Packet] = &[
    KEY_A,
    DIRECT,
    Signature(KEY_REVOCATION, &[Made(9000), Reason(2)]),
];

/// A key that expires by its direct key signature, and one by a self-certification.
const ENDED_BY_DIRECT_KEY: &[Packet] = &[
    KEY_T,
    Signature(DIRECT_KEY, &[Made(1000), KeyLasts(500)]),
    UserId(b"t"),
    Signature(POSITIVE, &[Made(2000), KeyLasts(900)]),
];

const ENDED_BY_USER_ID: &[Packet] = &[
    KEY_T,
    UserId(b"t"),
    Signature(POSITIVE, &[Made(1000), KeyLasts(700)]),
];

/// A user ID that is no longer primary.
const PRIMARY_IS_LOST: &[Packet] = &[
    KEY_T,
    UserId(b"a"),
    Signature(POSITIVE, &[Made(2000), KeyLasts(100), Primary]),
    Signature(POSITIVE, &[Made(2500), KeyLasts(300)]),
    UserId(b"b"),
    Signature(POSITIVE, &[Made(3000), KeyLasts(200)]),
];

/// Revoked in the same second, and before it was created.
const REVOKED_AT_ONCE: &[Packet] = &[
    KEY_T,
    DIRECT,
    UserId(b"t"),
    Signature(CERTIFICATION, &[Made(2000)]),
    Signature(CERTIFICATION_REVOCATION, &[Made(2000)]),
];

const REVOKED_BEFORE: &[Packet] = &[
    KEY_T,
    DIRECT,
    UserId(b"t"),
    Signature(CERTIFICATION, &[Made(2000)]),
    Signature(CERTIFICATION_REVOCATION, &[Made(1999)]),
];

/// Over a hash algorithm that isn't admitted.
const HASH_NOT_ADMITTED: &[Packet] = &[
    KEY_T,
    DIRECT,
    UserId(b"t"),
    SignatureByHash(1, CERTIFICATION, &[Made(2000)]),
];

/// A revocation that expires.
const REVOCATION_EXPIRED: &[Packet] = &[
    KEY_T,
    DIRECT,
    Signature(CERTIFICATION_REVOCATION, &[Made(2000), Lasts(100)]),
];

/// Packets, a time, and the first and the last second of its span.
static CASES: [(&[Packet], u32, u32, u32); 17] = [
    (SPANS, 999, 0, 999),
    (SPANS, 1999, 1000, 1999),
    (SPANS, 2500, 2000, 2999),
    (SPANS, 3050, 3000, 3099),
    (SPANS, 5000, 3100, 4294967295),
    (SEVERAL_ISSUERS, 2460, 2450, 2499),
    (OWN_USER_IDS_REVOKED, 2600, 2500, 2999),
    (RETIRED, 5000, 2001, 4294967295),
    (RETIRED_THEN_SUPERSEDED, 5000, 2001, 4294967295),
    (COMPROMISED, 5000, 1000, 8999),
    (ENDED_BY_DIRECT_KEY, 1200, 1000, 1499),
    (ENDED_BY_USER_ID, 1200, 1000, 1699),
    (PRIMARY_IS_LOST, 5000, 3000, 4294967295),
    (REVOKED_AT_ONCE, 5000, 2000, 4294967295),
    (REVOKED_BEFORE, 5000, 2000, 4294967295),
    (HASH_NOT_ADMITTED, 5000, 2000, 4294967295),
    (REVOCATION_EXPIRED, 2050, 2000, 2099),
];

#[test]
fn spans(rt: HostRuntime) {
    for (packets, t, from, to) in &CASES {
        let expected = Span {
            from: *from,
            to: *to,
        };
        let cert = certificate(&rt, rt.alloc(), packets);
        expect_that(&rt, span(&cert, *t) == expected);
    }
}
