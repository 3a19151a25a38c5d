//! The key under which an answer is kept: a 64-bit hash of the question. Two questions with the same key replace each
//! other's answer, which costs time and nothing else.
use crate::asked::Asked;

/// The key under which an answer is kept: the 64-bit hash of Fowler, Noll and Vo (FNV-1a) of what is wanted, the target
/// and the user ID. Questions with the same key replace each other's answer.
pub fn key_of(asked: &Asked<'_>) -> u64 {
    let key: u64 = 0xcbf29ce484222325 ^ (asked.wanted as u64);
    mixed(mixed(key, asked.target.octets()), asked.uid)
}

fn mixed(key: u64, octets: &[u8]) -> u64 {
    let mut key = key;
    for octet in octets {
        key = (key ^ (*octet as u64)).wrapping_mul(0x100000001b3);
    }
    key
}
