//! Tests that the replies to the lines of one read are written together, and before the next read.
ghost use Rattle.std.specs.Prelude.{None};

use crate::assertion::expect_that;
use crate::engine::{owned, shelf_of, status_of};
use std::alloc::Global;
use std::process::Abort;
use wot_io::{Failed, MemorySource, Sink, Source};

/// Takes all that it is offered, and keeps how many octets each write was offered.
#[derive(Drop)]
struct Counting {
    offered: Vec<usize>,
    faults: u64,
}

impl Sink for Counting {
    ghost written = { λ _. None };

    ghost faults = { λ s. s.faults };

    fn write(&mut self, piece: &[u8]) -> Result<usize, Failed> {
        match self.offered.push(piece.len()) {
            Ok(()) => Ok(piece.len()),
            Err(_) => {
                self.faults = self.faults.saturating_add(1);
                Err(Failed)
            }
        }
    }
}

/// A source of this many lines `keys` that returns this many octets a read.
fn lines_of(rt: &impl Abort, alloc: Global, count: usize, piece: usize) -> MemorySource {
    assert!(rt; piece > 0);
    let mut script = Vec::new(alloc);
    for _ in 0..count {
        script.extend_from_slice(b"keys\n").expect(rt, "memory");
    }
    MemorySource::new(script, piece, Vec::new(alloc))
}

/// How many lines there are, how many octets a read returns, and how many octets each write is offered. The reply to
/// each line has seven.
type Case = (usize, usize, &'static [usize]);

static CASES: [Case; 3] = [
    (1000, 65_536, &[7000]),
    (6, 7, &[7, 7, 14, 7, 7]),
    // 9,363 replies have more than 65,536 octets. They are written before the line after theirs is answered.
    (10_000, 65_536, &[65_541, 4459]),
];

/// Whether the writes of a run over an empty certificate directory are those of the case.
fn is_written(rt: &impl Abort, alloc: Global, case: &Case) -> bool {
    let (count, piece, sizes) = *case;
    let words = owned(rt, alloc, &["run"]);
    let mut input = lines_of(rt, alloc, count, piece);
    let mut output = Counting {
        offered: Vec::new(alloc),
        faults: 0,
    };
    let mut shelf = shelf_of(rt, alloc, &[], &[], &[]);
    let status = status_of(alloc, &words, &mut input, &mut output, &mut shelf);
    status == 0 && output.offered.as_slice() == sizes
}

#[test]
fn replies_are_written_together(rt: HostRuntime) {
    for case in &CASES {
        expect_that(&rt, is_written(&rt, rt.alloc(), case));
    }
}
