//! The work of each bench: the calls of `hex`, `sha1`, `sha2` and `memchr` over random octets. Each returns a number
//! that it found, which `main` prints.
use memchr::memchr_iter;
use sha1::Sha1;
use sha2::{Digest, Sha256};
use std::alloc::{AllocError, Global};

/// Octets as random as those of keys and signatures: each 32 are the digest of those before.
pub fn octets_of(alloc: Global, size: usize) -> Result<Vec<u8>, AllocError> {
    let mut octets = Vec::new(alloc);
    let mut digest = Sha256::digest([0x5au8].as_slice());
    for _ in 0..size.div_ceil(32) {
        octets.extend_from_slice(digest.as_slice())?;
        digest = Sha256::digest(digest.as_slice());
    }
    octets.truncate(size);
    Ok(octets)
}

/// How many octets were decoded from their digits.
fn decode(alloc: Global, digits: &[u8], count: usize) -> u64 {
    let mut read = 0u64;
    for _ in 0..count {
        if let Ok(octets) = hex::decode(alloc, digits) {
            read = read.wrapping_add(octets.len() as u64);
        }
    }
    read
}

pub fn hex(alloc: Global, octets: &[u8], count: usize) -> u64 {
    match hex::encode(alloc, octets) {
        Ok(digits) => decode(alloc, digits.as_bytes(), count),
        Err(_) => 0,
    }
}

/// The sum of the digests' first octets.
pub fn sha1(octets: &[u8], count: usize) -> u64 {
    let mut sum = 0u64;
    for _ in 0..count {
        let mut hasher = Sha1::new();
        hasher.update(octets);
        sum = sum.wrapping_add(u64::from(hasher.finalize()[0]));
    }
    sum
}

/// The sum of the SHA-256 digests' first octets.
pub fn sha2(octets: &[u8], count: usize) -> u64 {
    let mut sum = 0u64;
    for _ in 0..count {
        sum = sum.wrapping_add(u64::from(Sha256::digest(octets)[0]));
    }
    sum
}

/// How many line feeds the search finds.
pub fn memchr(octets: &[u8], count: usize) -> u64 {
    let mut found = 0u64;
    for _ in 0..count {
        for _ in memchr_iter(b'\n', octets) {
            found = found.wrapping_add(1);
        }
    }
    found
}
