//! What the kit's own crates take alone, for the scripts in `bench/`, which compare the program with it. No part of the
//! product. `wot_bench WHAT SIZE COUNT` does WHAT to SIZE octets, COUNT times, and prints a number that it found. WHAT
//! is `hex`, which reads their digits, `sha1`, `sha2`, or `memchr`, which searches for line feeds.
#![tactic(auto)]

mod digests;

use std::alloc::Global;
use std::{env, io};

/// The word at a place, or none.
fn word(words: &[String], place: usize) -> &str {
    match words.get(place) {
        Some(word) => word.as_str(),
        None => "",
    }
}

fn number(words: &[String], place: usize) -> usize {
    word(words, place).parse::<usize>().unwrap_or(0)
}

/// What was found. 0 if no bench has that name.
fn bench(alloc: Global, name: &str, octets: &[u8], count: usize) -> u64 {
    match name {
        "hex" => digests::hex(alloc, octets, count),
        "sha1" => digests::sha1(octets, count),
        "sha2" => digests::sha2(octets, count),
        "memchr" => digests::memchr(octets, count),
        _ => 0,
    }
}

fn main(rt: HostRuntime) -> io::Result<()> {
    let mut words = Vec::new(rt.alloc());
    for word in env::args(&rt)? {
        words.push(word)?;
    }
    let octets = digests::octets_of(rt.alloc(), number(&words, 2))?;
    let found = bench(rt.alloc(), word(&words, 1), &octets, number(&words, 3));
    println!(rt; "{found}")
}
