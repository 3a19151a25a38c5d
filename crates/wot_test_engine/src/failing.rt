//! Tests of runs over devices that fail, and over inputs without an end: the exit status, what was written, and what is
//! left of a directory's entry.
ghost use Rattle.std.specs.Prelude.{None};

use crate::assertion::expect_that;
use crate::engine::{Row, owned, shelf_of, sink_of, source_of, status_of};
use std::alloc::Global;
use std::process::Abort;
use wot_certd::{Given, MemoryShelf, Shelf};
use wot_io::{Failed, Sink, Source};
use wot_sample::{KEY, KEY_R, KEY_T, Packet, T};
use wot_types::{Fpr, Name};

/// A script with the numbers of the reads, writes and directory calls that fail, and of those calls that fail late. The
/// result: the status, what is written, and what is left under T's name, which is nothing if there is no entry. The
/// source returns five octets a read, the sink takes three a write.
#[derive(Clone, Copy)]
struct Case {
    script: &'static str,
    reads: &'static [u64],
    writes: &'static [u64],
    entries: &'static [Row],
    calls: &'static [u64],
    late: &'static [u64],
    status: u8,
    written: &'static str,
    left: &'static [Packet],
}

const T_NAME: Name = Name::Cert(T);

/// The Ed25519 key of RFC 9580, appendix A.1, under its fingerprint.
const FIELD: Row = (
    Name::Cert(Fpr::V4(
        *b"\xc9\x59\xbd\xba\xfa\x32\xa2\xf8\x9a\x15\x3b\x67\x8c\xfd\xe1\x21\x97\x96\x5a\x9a",
    )),
    &[Packet::Other(
        KEY,
        b"\x04\x53\xf3\x5f\x0b\x16\x09\x2b\x06\x01\x04\x01\xda\x47\x0f\x01\x01\x07\x40\x3f\x09\x89\x94\xbd\
          \xd9\x16\xed\x40\x53\x19\x79\x34\xe4\xa8\x7c\x80\x73\x3a\x12\x80\xd6\x2f\x80\x10\x99\x2e\x43\xee\
          \x3b\x24\x06",
    )],
);

/// Another key under T's name.
const MISFILED: Row = (T_NAME, &[KEY_R]);

const KEYS: Case = Case {
    script: "keys\n",
    reads: &[],
    writes: &[],
    entries: &[FIELD, MISFILED],
    calls: &[],
    late: &[],
    status: 0,
    written: "keys 0\n",
    left: &[KEY_R],
};

const TWICE: Case = Case {
    script: "keys\nkeys\n",
    written: "keys 0\nkeys 0\n",
    ..KEYS
};

const LOAD: Case = Case {
    script: "load c959bdbafa32a2f89a153b678cfde12197965a9a
load c959bdbafa32a2f89a153b678cfde12197965a9a
keys
",
    written: "ok taken 1 skipped 0 new 1
ok taken 1 skipped 0 new 0
keys 1
key c959bdbafa32a2f89a153b678cfde12197965a9a 0 0
",
    ..KEYS
};

/// Each stop leaves a prefix of what the same script writes if nothing fails. A directory that fails stops nothing.
static CASES: [Case; 22] = [
    KEYS,
    TWICE,
    LOAD,
    Case {
        reads: &[1],
        status: 3,
        written: "",
        ..TWICE
    },
    Case {
        reads: &[2],
        status: 3,
        written: "keys 0\n",
        ..TWICE
    },
    Case {
        reads: &[3],
        status: 3,
        ..TWICE
    },
    Case {
        reads: &[4],
        ..TWICE
    },
    // A line that was begun when the read failed isn't answered.
    Case {
        script: "keys\nkeys",
        reads: &[3],
        status: 3,
        written: "keys 0\n",
        ..TWICE
    },
    Case {
        writes: &[1],
        status: 4,
        written: "",
        ..KEYS
    },
    Case {
        writes: &[2],
        status: 4,
        written: "key",
        ..KEYS
    },
    Case {
        writes: &[3],
        status: 4,
        written: "keys 0",
        ..KEYS
    },
    Case {
        writes: &[4],
        status: 4,
        written: "keys 0\n",
        ..TWICE
    },
    // Of two devices that fail, the one that fails first is reported.
    Case {
        reads: &[2],
        writes: &[3],
        status: 4,
        written: "keys 0",
        ..TWICE
    },
    Case {
        reads: &[2],
        writes: &[4],
        status: 3,
        written: "keys 0\n",
        ..TWICE
    },
    Case {
        calls: &[1],
        written: "fault shelf
ok taken 1 skipped 0 new 1
keys 1
key c959bdbafa32a2f89a153b678cfde12197965a9a 0 0
",
        ..LOAD
    },
    // What was loaded stays if a later call fails.
    Case {
        calls: &[2],
        written: "ok taken 1 skipped 0 new 1
fault shelf
keys 1
key c959bdbafa32a2f89a153b678cfde12197965a9a 0 0
",
        ..LOAD
    },
    Case {
        calls: &[1, 2],
        written: "fault shelf\nfault shelf\nkeys 0\n",
        ..LOAD
    },
    // A certificate and another's key under a name, a failing call, and an entry that isn't there.
    Case {
        script: "load c959bdbafa32a2f89a153b678cfde12197965a9a
load 3c98b8180e0fcaca1032499082a5de8fa5d98232
load 3c98b8180e0fcaca1032499082a5de8fa5d98232
load 7f35c8dbd6b3eb2ffd59cbdd2e41ea291212ac38
",
        calls: &[3],
        written: "ok taken 1 skipped 0 new 1\nrefused misfiled\nfault shelf\nrefused absent\n",
        ..LOAD
    },
    // A call that fails counts; other lines make no call.
    Case {
        script: "keys
load c959bdbafa32a2f89a153b678cfde12197965a9a
#load c959bdbafa32a2f89a153b678cfde12197965a9a
load c959bdbafa32a2f89a153b678cfde12197965a9a
",
        calls: &[1],
        written: "keys 0\nfault shelf\nok taken 1 skipped 0 new 1\n",
        ..LOAD
    },
    // The replacement of an entry fails, and puts nothing; or it fails late, and puts its octets.
    Case {
        script: "import c60704000003e81b04\nstore 3c98b8180e0fcaca1032499082a5de8fa5d98232\nkeys\n",
        entries: &[],
        calls: &[2],
        written: "ok taken 1 skipped 0 new 1\nfault shelf\nkeys 1\nkey 3c98b8180e0fcaca1032499082a5de8fa5d98232 0 0\n",
        left: &[],
        ..KEYS
    },
    Case {
        script: "import c60704000003e81b04\nstore 3c98b8180e0fcaca1032499082a5de8fa5d98232\n",
        entries: &[],
        calls: &[2],
        late: &[2],
        written: "ok taken 1 skipped 0 new 1\nfault shelf\n",
        left: &[KEY_T],
        ..KEYS
    },
    // If the certificate isn't there, `store` makes no call, so the first call is that of `load`.
    Case {
        script: "store 3c98b8180e0fcaca1032499082a5de8fa5d98232
load 3c98b8180e0fcaca1032499082a5de8fa5d98232
load 3c98b8180e0fcaca1032499082a5de8fa5d98232
",
        entries: &[(T_NAME, &[KEY_T])],
        calls: &[1],
        written: "refused absent\nfault shelf\nok taken 1 skipped 0 new 1\n",
        left: &[KEY_T],
        ..KEYS
    },
];

/// Whether T's entry has these octets, or is missing if none are given.
fn is_left(shelf: &mut MemoryShelf, wanted: &[u8]) -> bool {
    match shelf.read(&T_NAME) {
        Ok(Given::Bytes(octets)) => octets.as_slice() == wanted && !wanted.is_empty(),
        Ok(Given::Absent) => wanted.is_empty(),
        _ => false,
    }
}

/// Whether a case ends as it should.
fn ends_so(rt: &impl Abort, alloc: Global, case: &Case) -> bool {
    let words = owned(rt, alloc, &["run", "folder"]);
    let mut input = source_of(rt, alloc, case.script.as_bytes(), case.reads);
    let mut output = sink_of(rt, alloc, case.writes);
    let mut shelf = shelf_of(rt, alloc, case.entries, case.calls, case.late);
    let status = status_of(alloc, &words, &mut input, &mut output, &mut shelf);
    let left = wot_sample::text(alloc, case.left).expect(rt, "memory");
    let replied = status == case.status && output.written() == case.written.as_bytes();
    replied && is_left(&mut shelf, &left)
}

#[test]
fn devices_that_fail(rt: HostRuntime) {
    for case in &CASES {
        expect_that(&rt, ends_so(&rt, rt.alloc(), case));
    }
}

/// The octets from one line feed to the next.
const LINE: u64 = 65536;

/// Returns `#` forever, with a line feed at every 65,536th octet.
#[derive(Drop)]
struct Endless {
    given: u64,
}

impl Source for Endless {
    ghost left = { λ _. None };

    ghost faults = { λ _. 0 };

    fn read(&mut self, to: &mut [u8]) -> Result<usize, Failed> {
        let rest = LINE - self.given % LINE;
        let n = to.len().min(usize::try_from(rest).unwrap_or(0));
        let (piece, _) = to.split_at_mut(n);
        let _ = piece.fill(b'#');
        let last = n.wrapping_sub(1);
        if n as u64 == rest && last < piece.len() {
            piece[last] = b'\n';
        }
        self.given = self.given.wrapping_add(n as u64);
        Ok(n)
    }
}

/// Takes nothing, and counts that as an error.
#[derive(Drop)]
struct Refusing {
    faults: u64,
}

impl Sink for Refusing {
    ghost written = { λ _. None };

    ghost faults = { λ s. s.faults };

    fn write(&mut self, _: &[u8]) -> Result<usize, Failed> {
        self.faults = self.faults.saturating_add(1);
        Ok(0)
    }
}

/// An input without an end is abandoned after 2^30 octets, with the status 6, and nothing is written.
#[test]
fn endless_comments(rt: HostRuntime) {
    let words = owned(&rt, rt.alloc(), &["run"]);
    let mut input = Endless { given: 0 };
    let mut output = sink_of(&rt, rt.alloc(), &[]);
    let mut shelf = shelf_of(&rt, rt.alloc(), &[], &[], &[]);
    expect_that(
        &rt,
        status_of(rt.alloc(), &words, &mut input, &mut output, &mut shelf) == 6,
    );
    expect_that(
        &rt,
        input.given == 1_073_741_824 && output.written().is_empty(),
    );
}

/// An error is counted once.
#[test]
fn a_sink_that_takes_nothing(rt: HostRuntime) {
    let words = owned(&rt, rt.alloc(), &["run"]);
    let mut input = source_of(&rt, rt.alloc(), KEYS.script.as_bytes(), &[]);
    let mut output = Refusing { faults: 0 };
    let mut shelf = shelf_of(&rt, rt.alloc(), &[], &[], &[]);
    expect_that(
        &rt,
        status_of(rt.alloc(), &words, &mut input, &mut output, &mut shelf) == 4,
    );
    expect_that(&rt, output.faults == 1);
}
