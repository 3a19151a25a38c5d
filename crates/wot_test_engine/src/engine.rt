//! Sources, sinks and certificate directories in memory for tests of whole runs.
use std::alloc::Global;
use std::process::Abort;
use wot_certd::{MemoryShelf, Shelf};
use wot_engine::run_words;
use wot_io::{MemorySink, MemorySource, Sink, Source};
use wot_policy::{Policy, admits, standard_rows};
use wot_sample::Packet;
use wot_types::Name;

pub(crate) fn owned(rt: &impl Abort, alloc: Global, words: &[&str]) -> Vec<String> {
    let mut all = Vec::new(alloc);
    for word in words {
        let word = String::from_str(alloc, word).expect(rt, "memory");
        all.push(word).expect(rt, "memory");
    }
    all
}

/// A source that returns five octets a read, and fails in the reads with these numbers.
pub(crate) fn source_of(
    rt: &impl Abort,
    alloc: Global,
    script: &[u8],
    fails: &[u64],
) -> MemorySource {
    let script = script.to_vec(alloc).expect(rt, "memory");
    let fails = fails.to_vec(alloc).expect(rt, "memory");
    MemorySource::new(script, 5, fails)
}

/// A sink that takes three octets a write, and fails in the writes with these numbers.
pub(crate) fn sink_of(rt: &impl Abort, alloc: Global, fails: &[u64]) -> MemorySink {
    let fails = fails.to_vec(alloc).expect(rt, "memory");
    MemorySink::new(alloc, 3, 8192, fails).expect(rt, "memory")
}

/// The status of a run under the standard policy.
pub(crate) fn status_of<S: Source, K: Sink, D: Shelf>(
    alloc: Global,
    words: &[String],
    input: &mut S,
    output: &mut K,
    shelf: &mut D,
) -> u8 {
    let rows = standard_rows();
    let mut policy = Policy::new(rows, |ask| admits(&rows, ask));
    run_words(alloc, words, input, output, shelf, &mut policy)
}

/// An entry: its name, and its packets.
pub(crate) type Row = (Name, &'static [Packet]);

/// A certificate directory with these entries. Its calls with these numbers fail, some of them late.
pub(crate) fn shelf_of(
    rt: &impl Abort,
    alloc: Global,
    entries: &[Row],
    fails: &[u64],
    late: &[u64],
) -> MemoryShelf {
    let fails = fails.to_vec(alloc).expect(rt, "memory");
    let late = late.to_vec(alloc).expect(rt, "memory");
    let mut shelf = MemoryShelf::new(alloc, fails, late);
    for (name, packets) in entries {
        let text = wot_sample::text(alloc, packets).expect(rt, "memory");
        shelf.put(*name, text).expect(rt, "memory");
    }
    shelf
}
