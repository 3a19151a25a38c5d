//! Tests of wot_key: what it reads of the keys of the standard, and their key IDs.
use crate::assertion::expect_that;
use wot_key::{fingerprint, key_id, read_key};

/// A key's body, its version, when it was created, its public key algorithm, and its key ID.
type Sample = (&'static [u8], u8, u32, u8, [u8; 8]);

/// The keys of RFC 9580, appendix A.1 and A.3.
static SAMPLES: [Sample; 2] = [
    (
        b"\x04\x53\xf3\x5f\x0b\x16\x09\x2b\x06\x01\x04\x01\xda\x47\x0f\x01\x01\x07\x40\x3f\x09\x89\x94\xbd\xd9\
          \x16\xed\x40\x53\x19\x79\x34\xe4\xa8\x7c\x80\x73\x3a\x12\x80\xd6\x2f\x80\x10\x99\x2e\x43\xee\x3b\x24\
          \x06",
        4,
        1408458507,
        22,
        *b"\x8c\xfd\xe1\x21\x97\x96\x5a\x9a",
    ),
    (
        b"\x06\x63\x87\x7f\xe3\x1b\x00\x00\x00\x20\xf9\x4d\xa7\xbb\x48\xd6\x0a\x61\xe5\x67\x70\x6a\x65\x87\xd0\
          \x33\x19\x99\xbb\x9d\x89\x1a\x08\x24\x2e\xad\x84\x54\x3d\xf8\x95\xa3",
        6,
        1669824483,
        27,
        *b"\xcb\x18\x6c\x4f\x06\x09\xa6\x97",
    ),
];

#[test]
fn keys_of_the_standard(rt: HostRuntime) {
    for (body, version, created, algorithm, id) in &SAMPLES {
        let key = read_key(body).expect(&rt, "a key");
        expect_that(&rt, key.version == *version && key.created == *created);
        expect_that(&rt, key.algorithm == *algorithm);
        let fpr = fingerprint(body).expect(&rt, "a key");
        expect_that(&rt, key_id(&fpr).as_slice() == id.as_slice());
    }
}
