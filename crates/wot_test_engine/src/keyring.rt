//! Tests of wot_keyring: how often the policy is asked, and for how many certificates a change is logged.
ghost use Rattle.wot_keyring_spec.specs.Kept.{IsJudgedBy};
ghost use Rattle.wot_policy.specs.Kept.{IsFaithful, rows_of};

use crate::assertion::expect_that;
use std::alloc::Global;
use wot_keyring::Keyring;
use wot_policy::{Ask, Policy, admits, standard_rows};
use wot_sample::Packet::{self, Other, Signature, SignatureByHash, UserId};
use wot_sample::Says::{Made, Subpacket};
use wot_sample::{A, CERTIFICATION, DIRECT, KEY, KEY_A, KEY_R, KEY_T, R, TRUST};
use wot_types::{Limits, SigNumber};
use wot_verdict::Verdict;

/// The number of the direct key signature of the first key, by SHA-256 of its five fields.
const NUMBER: SigNumber = SigNumber([
    104, 208, 235, 95, 140, 161, 57, 20, 252, 221, 241, 178, 62, 95, 96, 139, 249, 132, 118, 3,
    131, 77, 162, 132, 240, 26, 112, 114, 8, 5, 18, 9,
]);

/// A change of a keyring: packets are imported, the verdict on that signature is set or cleared, or the first key is
/// removed.
#[derive(Clone, Copy)]
enum Change {
    Import(&'static [Packet]),
    Set(Verdict),
    Clear,
    Remove,
}

/// Makes a change in a keyring that changed little. Returns whether it succeeded.
fn alter<F: Fn(Ask) -> bool>(
    alloc: Global,
    keyring: &mut Keyring,
    change: Change,
    policy: &mut Policy<F>,
) -> bool
    requires judged { IsJudgedBy (rows_of policy.old) keyring.old }
    requires faithful { IsFaithful F.Fn policy.old }
    ensures judged { IsJudgedBy (rows_of policy.new) keyring.new }
    ensures faithful { IsFaithful F.Fn policy.new }
{
    if keyring.changes() >= 1000 {
        return false;
    }
    match change {
        Change::Import(packets) => match wot_sample::text(alloc, packets) {
            Some(octets) => {
                octets.len() < 1000 && keyring.import(alloc, &octets, policy).is_ok()
            }
            None => false,
        },
        Change::Set(verdict) => keyring.set_verdict(NUMBER, verdict).is_ok(),
        Change::Clear => keyring.clear_verdict(&NUMBER).is_ok(),
        Change::Remove => keyring.remove(&R).is_ok(),
    }
}

/// How many entries the log has for the last change that was counted.
fn logged_last(keyring: &Keyring) -> usize {
    match keyring.changed_since(keyring.changes().saturating_sub(1)) {
        Some(logged) => logged.len(),
        None => usize::MAX,
    }
}

/// Whether the change succeeded, how often the policy has been asked, and how many entries the last change logged.
type State = (bool, u64, usize);

/// The first state that isn't the expected one.
fn first_other<F: Fn(Ask) -> bool>(
    alloc: Global,
    keyring: &mut Keyring,
    rows: &[(Change, State)],
    policy: &mut Policy<F>,
) -> Option<State>
    requires judged { IsJudgedBy (rows_of policy.old) keyring.old }
    requires faithful { IsFaithful F.Fn policy.old }
{
    for case in rows {
        let done = alter(alloc, keyring, case.0, policy);
        let state = (done, policy.asked(), logged_last(keyring));
        if state != case.1 {
            return Some(state);
        }
    }
    None
}

/// Two keys, and then a packet that has no place there.
const REFUSED: &[Packet] = &[KEY_R, KEY_A, Other(8, b"\x00")];

/// Two keys, and between them one that can't be parsed: its version is 3.
const WITH_SKIPPED: &[Packet] = &[
    KEY_R,
    Other(TRUST, b"\x00\x00"),
    Other(KEY, b"\x03\x00\x00\x03\xe8\x01"),
    KEY_A,
];

/// The first key with a direct key signature.
const WITH_DIRECT: &[Packet] = &[KEY_R, DIRECT];

/// Another key with a direct key signature, and on its user ID an invalid certification.
const WITH_UNSOUND: &[Packet] = &[
    KEY_T,
    DIRECT,
    UserId(b"t"),
    Signature(CERTIFICATION, &[Made(2000), Subpacket(0xe5, b"")]),
];

/// That key with a certification of the hash number 1.
const WITH_OLD_HASH: &[Packet] = &[
    KEY_T,
    UserId(b"t"),
    SignatureByHash(1, CERTIFICATION, &[Made(2000)]),
];

/// The first key three times, each with another user ID; the first and the last have the same direct key signature.
const THREE_TIMES: &[Packet] = &[
    KEY_R,
    DIRECT,
    UserId(b"t"),
    KEY_R,
    UserId(b"u"),
    KEY_R,
    DIRECT,
    UserId(b"v"),
];

/// The policy is asked about each well-formed signature once, when it is new. A change is logged for the certificates
/// that it brings or alters, a change of a verdict for the one that has the signature then. What is refused and what
/// alters nothing asks nothing and logs nothing.
static CHANGES: [(Change, State); 17] = [
    (Change::Set(Verdict::Good(R)), (true, 0, 0)),
    (Change::Import(WITH_SKIPPED), (true, 0, 2)),
    (Change::Import(WITH_SKIPPED), (true, 0, 2)),
    (Change::Import(WITH_DIRECT), (true, 1, 1)),
    (Change::Import(WITH_DIRECT), (true, 1, 1)),
    (Change::Import(&[]), (false, 1, 1)),
    (Change::Import(REFUSED), (false, 1, 1)),
    (Change::Set(Verdict::Bad), (true, 1, 1)),
    (Change::Remove, (true, 1, 1)),
    (Change::Set(Verdict::Good(A)), (true, 1, 0)),
    (Change::Import(&[KEY_R]), (true, 1, 1)),
    (Change::Clear, (true, 1, 0)),
    (Change::Clear, (false, 1, 0)),
    (Change::Import(WITH_UNSOUND), (true, 2, 1)),
    (Change::Import(WITH_OLD_HASH), (true, 3, 1)),
    (Change::Remove, (true, 3, 1)),
    (Change::Import(THREE_TIMES), (true, 4, 1)),
];

#[test]
fn what_changes_ask_and_log(rt: HostRuntime) {
    let rows = standard_rows();
    let mut policy = Policy::new(rows, |ask| admits(&rows, ask));
    let mut keyring = Keyring::new(rt.alloc(), Limits::standard());
    expect_that(
        &rt,
        first_other(rt.alloc(), &mut keyring, &CHANGES, &mut policy).is_none(),
    );
}
