//! Tests of a generated run: its three lines, as the plain model prints them, and writes that fail.
use crate::assertion::expect_that;
use crate::engine::{owned, shelf_of, sink_of, source_of, status_of};
use std::alloc::Global;
use std::process::Abort;
use wot_certd::Shelf;
use wot_io::Source;
use wot_types::Name;

/// What is printed about the script of the start 7 and of 12 keys, as the plain model prints it.
static TOLD: &[u8] = b"gen 7 12 lines 90\namounts 2161\n\
    transcript c40141de642fca20d9a8ee5e5d7242b3d0b591689054d331a7388d12dd6c448c\n";

/// Writes that fail, the status, and how much of the text is written.
static ENDS: [(&[u64], u8, usize); 3] = [(&[], 0, 107), (&[1], 4, 0), (&[3], 4, 6)];

/// Whether the run ends as it should, with writes that fail: with this status, and with this many octets of the text
/// written. Neither the source nor the directory, whose first call fails, is called.
fn ends_so(rt: &impl Abort, alloc: Global, fails: &[u64], wanted: u8, size: usize) -> bool {
    let words = owned(rt, alloc, &["gen", "7", "12"]);
    let mut input = source_of(rt, alloc, b"keys\n", &[]);
    let mut output = sink_of(rt, alloc, fails);
    let mut shelf = shelf_of(rt, alloc, &[], &[1], &[]);
    let status = status_of(alloc, &words, &mut input, &mut output, &mut shelf);
    let untouched = input.read(&mut [0; 5]) == Ok(5) && shelf.read(&Name::TrustRoot).is_err();
    let written = output.written();
    status == wanted && untouched && written.len() == size && TOLD.starts_with(written)
}

#[test]
fn a_generated_run(rt: HostRuntime) {
    for (fails, status, size) in &ENDS {
        expect_that(&rt, ends_so(&rt, rt.alloc(), fails, *status, *size));
    }
}
