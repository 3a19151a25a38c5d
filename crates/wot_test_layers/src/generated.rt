//! Tests of wot_gen: scripts, compared with the text and the digests that a Python program gave.
use crate::assertion::expect_that;
use sha2::{Digest, Sha256};
use std::alloc::Global;
use std::process::Abort;
use wot_gen::script;

/// The script of the start 7 and one key, in pieces, as a Python program with hashlib computes it.
static SINGLE: [&str; 12] = [
    "import c626043b9aca001b63cbe1e459320dd7044c3cd7f43c661ce6984080bab12a02953aeb70673e29cbc227041f1b0800",
    "1d05023b9aca001621043563ca707db33566cec6b808619003ac27efbb3400000000",
    "cd17757365722030203c7530406578616d706c652e6f72673e\n",
    "verdict 79924e47dec9b2e9b96fda0ae4b84f42b5451b2dd8a5eb98fb64c6f5ff181627",
    " good 3563ca707db33566cec6b808619003ac27efbb34\n",
    "view a time 1200000000\n",
    "view a root 3563ca707db33566cec6b808619003ac27efbb34 120\n",
    "view b time 1200000000\n",
    "view b root 3563ca707db33566cec6b808619003ac27efbb34 60\n",
    "view b root 3563ca707db33566cec6b808619003ac27efbb34 60\n",
    "ask a 3563ca707db33566cec6b808619003ac27efbb34 120 user 0 <u0@example.org>\n",
    "ask b 3563ca707db33566cec6b808619003ac27efbb34 60 user 0 <u0@example.org>\n",
];

/// A start and a count, and the lines and the SHA-256 of their script, by the same program.
static SCRIPTS: [(u64, u32, u64, &str); 2] = [
    (
        7,
        50,
        368,
        "48b680d7c9105c1c5b73c94948017a13923bc65a1629ce9221a482b813fce6c4",
    ),
    (
        u64::MAX,
        21,
        157,
        "4f8b954fda609d6372ff83fc5d42bcce3c805be1126638fa4d474a38c2005dfa",
    ),
];

/// The script of one key is appended to what was there.
fn is_appended(rt: &impl Abort, alloc: Global) -> bool {
    let mut out = Vec::from_slice(alloc, b"# before\n").expect(rt, "memory");
    let mut wanted = out.clone().expect(rt, "memory");
    let lines = script(alloc, 7, 1, &mut out).expect(rt, "memory");
    for piece in &SINGLE {
        wanted
            .extend_from_slice(piece.as_bytes())
            .expect(rt, "memory");
    }
    lines == 9 && out == wanted
}

#[test]
fn one_key_behind_other_text(rt: HostRuntime) {
    expect_that(&rt, is_appended(&rt, rt.alloc()));
}

/// Whether this is the SHA-256 of the octets, in digits.
fn has_digest(octets: &[u8], digest: &str) -> bool {
    let mut digits = [0u8; 64];
    let _ = hex::encode_to_slice(Sha256::digest(octets).as_slice(), &mut digits);
    digits.as_slice() == digest.as_bytes()
}

#[test]
fn scripts_of_a_start_and_a_count(rt: HostRuntime) {
    for (start, count, lines, digest) in &SCRIPTS {
        let mut out = Vec::new(rt.alloc());
        expect_that(
            &rt,
            script(rt.alloc(), *start, *count, &mut out) == Ok(*lines),
        );
        expect_that(&rt, has_digest(&out, digest));
    }
}
