//! Tests of wot_io: the lines of an input in all sizes, reads and writes that fail, and what each call was offered.
ghost use Rattle.std.specs.Prelude.{None};

use crate::assertion::expect_that;
use std::alloc::Global;
use std::process::Abort;
use wot_io::{
    Failed, Line, Lines, LinesFault, MemorySink, MemorySource, Sink, Source, StdSink, StdSource,
    write_all,
};

/// What `next` returns up to the end, or up to the fourth error, as text: a line is `t..|`, or `T|` if it is as long as
/// a line may be; `l` is `Long`, `.` the end, `r` and `m` are the errors. A `!` follows if `text` has something after
/// another result than `Text`.
fn answers<S: Source>(rt: &impl Abort, alloc: Global, source: &mut S) -> Vec<u8> {
    let mut lines = Lines::new(alloc).expect(rt, "memory");
    let mut seen = Vec::new(alloc);
    let mut faults = 0u8;
    for _ in 0..1000 {
        let answer = lines.next(source);
        tell(rt, answer, lines.text(), &mut seen);
        if answer.is_err() {
            faults = faults.saturating_add(1);
        }
        if answer == Ok(Line::End) || faults == 4 {
            break;
        }
    }
    seen
}

fn tell(rt: &impl Abort, answer: Result<Line, LinesFault>, text: &[u8], seen: &mut Vec<u8>) {
    let word = match answer {
        Ok(Line::Text) => return tell_text(rt, text, seen),
        Ok(Line::Long) => b'l',
        Ok(Line::End) => b'.',
        Err(LinesFault::ReadFault) => b'r',
        Err(LinesFault::TooMuch) => b'm',
    };
    seen.push(word).expect(rt, "memory");
    if !text.is_empty() {
        seen.push(b'!').expect(rt, "memory");
    }
}

/// How long a line may be.
const LONGEST: usize = 16_777_216;

fn tell_text(rt: &impl Abort, text: &[u8], seen: &mut Vec<u8>) {
    if text.len() == LONGEST {
        seen.push(b'T').expect(rt, "memory");
    } else {
        seen.push(b't').expect(rt, "memory");
        seen.extend_from_slice(text).expect(rt, "memory");
    }
    seen.push(b'|').expect(rt, "memory");
}

static PARTS: [(&[u8], &[u8]); 9] = [
    (b"", b"."),
    (b"\n", b"t|."),
    (b"keys", b"tkeys|."),
    (b"keys\n", b"tkeys|."),
    (b"\n\nab\n\n", b"t|t|tab|t|."),
    (b"a\r\n\rb\r", b"ta\r|t\rb\r|."),
    (
        b"# a comment\nimport 00\nkeys",
        b"t# a comment|timport 00|tkeys|.",
    ),
    (b"12345\n1234\n123456\n", b"t12345|t1234|t123456|."),
    (b"\0\xff\n\x0b\n", b"t\0\xff|t\x0b|."),
];

/// What is returned for these octets, in pieces of this size, if the read of this number fails.
fn network(rt: &impl Abort, alloc: Global, input: &[u8], piece: usize, failing: u64) -> Vec<u8> {
    let input = input.to_vec(alloc).expect(rt, "memory");
    let fails = [failing].to_vec(alloc).expect(rt, "memory");
    let mut source = MemorySource::new(input, piece.max(1), fails);
    answers(rt, alloc, &mut source)
}

#[test]
fn lines_are_the_parts_between_line_feeds(rt: HostRuntime) {
    for (input, want) in &PARTS {
        for piece in [1, 5, 65536] {
            expect_that(
                &rt,
                network(&rt, rt.alloc(), input, piece, 0).as_slice() == *want,
            );
        }
    }
}

/// Octets, the read that fails, and what is returned.
static FAULTS: [(&[u8], u64, &[u8]); 5] = [
    (b"ab\ncd\nef\n", 1, b"rrrr"),
    (b"ab\ncd\nef\n", 2, b"tab|rrrr"),
    (b"ab\ncd\nef\n", 3, b"tab|tcd|tef|rrrr"),
    (b"ab\ncd\nef", 3, b"tab|tcd|rrrr"),
    (b"ab\ncd\nef", 5, b"tab|tcd|tef|."),
];

#[test]
fn a_read_fault_is_answered_again(rt: HostRuntime) {
    for (input, failing, want) in &FAULTS {
        expect_that(
            &rt,
            network(&rt, rt.alloc(), input, 5, *failing).as_slice() == *want,
        );
    }
}

/// This many octets, with line feeds at these places, in pieces of this size. It records how much room was offered
/// last, and whether it ever was other than a whole piece.
#[derive(Drop)]
struct Long<'a> {
    size: u64,
    feeds: &'a [u64],
    piece: usize,
    at: u64,
    offered: usize,
    whole: bool,
}

impl Source for Long<'_> {
    ghost left = { λ _. None };

    ghost faults = { λ _. 0 };

    fn read(&mut self, to: &mut [u8]) -> Result<usize, Failed> {
        self.whole = self.whole && self.offered == 65536;
        self.offered = to.len();
        let left = self.size.saturating_sub(self.at);
        let n = self
            .piece
            .min(to.len())
            .min(usize::try_from(left).unwrap_or(0));
        let (prefix, _) = to.split_at_mut(n);
        let _ = prefix.fill(b'x');
        for feed in self.feeds {
            let place = usize::try_from(feed.wrapping_sub(self.at)).unwrap_or(n);
            if place < prefix.len() {
                prefix[place] = b'\n';
            }
        }
        self.at = self.at.wrapping_add(n as u64);
        Ok(n)
    }
}

const MOST: u64 = 1_073_741_824;

/// A size, the places of line feeds, the size of pieces, and what is returned.
static LONG_INPUTS: [(u64, &[u64], usize, &[u8]); 8] = [
    (16_777_220, &[16_777_216, 16_777_218], 65536, b"T|tx|tx|."),
    (16_777_220, &[16_777_217, 16_777_219], 65536, b"ltx|."),
    (16_777_216, &[], 65535, b"T|."),
    (16_777_217, &[], 65535, b"l."),
    (MOST - 1, &[MOST - 3], 65535, b"ltx|."),
    (MOST, &[MOST - 3], 65535, b"lmmmm"),
    (MOST, &[MOST - 3, MOST - 1], 65536, b"ltx|mmmm"),
    (MOST + 1, &[], 65536, b"mmmm"),
];

fn long_source<'a>(size: u64, feeds: &'a [u64], piece: usize) -> Long<'a> {
    Long {
        size,
        feeds,
        piece,
        at: 0,
        offered: 65536,
        whole: true,
    }
}

#[test]
fn long_lines_and_many_octets(rt: HostRuntime) {
    for (size, feeds, piece, want) in &LONG_INPUTS {
        let mut source = long_source(*size, feeds, *piece);
        expect_that(
            &rt,
            answers(&rt, rt.alloc(), &mut source).as_slice() == *want,
        );
        expect_that(&rt, source.at <= MOST);
    }
}

#[test]
fn each_read_offers_a_whole_piece_or_what_remains(rt: HostRuntime) {
    let mut source = long_source(MOST, &[], 65535);
    expect_that(
        &rt,
        answers(&rt, rt.alloc(), &mut source).as_slice() == b"mmmm".as_slice(),
    );
    expect_that(
        &rt,
        source.at == MOST && source.whole && source.offered == 16384,
    );
}

/// Takes this many octets of each piece, and records how many it was offered.
#[derive(Drop)]
struct Recorder {
    piece: usize,
    offered: Vec<usize>,
    faults: u64,
}

impl Sink for Recorder {
    ghost written = { λ _. None };

    ghost faults = { λ s. s.faults };

    fn write(&mut self, piece: &[u8]) -> Result<usize, Failed> {
        let n = self.piece.min(piece.len());
        if self.offered.push(piece.len()).is_err() || n == 0 {
            self.faults = self.faults.saturating_add(1);
        }
        Ok(n)
    }
}

/// The size of pieces, octets, whether all are written, and how many each write was offered.
static OFFERS: [(usize, &[u8], bool, &[usize]); 4] = [
    (2, b"abcde", true, &[5, 3, 1]),
    (9, b"abcde", true, &[5]),
    (2, b"", true, &[]),
    (0, b"abcde", false, &[5]),
];

fn is_offered(alloc: Global, piece: usize, octets: &[u8], want: bool, offers: &[usize]) -> bool {
    let mut sink = Recorder {
        piece,
        offered: Vec::new(alloc),
        faults: 0,
    };
    write_all(&mut sink, octets).is_ok() == want && sink.offered.as_slice() == offers
}

#[test]
fn each_write_offers_all_that_remain(rt: HostRuntime) {
    for (piece, octets, want, offers) in &OFFERS {
        expect_that(&rt, is_offered(rt.alloc(), *piece, octets, *want, offers));
    }
}

/// The room of a sink, the write that fails, whether all is written, and what is.
static PREFIXES: [(usize, u64, bool, &[u8]); 5] = [
    (100, 9, true, b"abcdefgh"),
    (100, 1, false, b""),
    (100, 3, false, b"abcdef"),
    (7, 9, false, b"abcdefg"),
    (0, 9, false, b""),
];

/// Whether a sink with this room takes all of eight octets, and which, where the write of this number fails.
fn takes(
    rt: &impl Abort,
    alloc: Global,
    room: usize,
    failing: u64,
    want: bool,
    written: &[u8],
) -> bool {
    let fails = [failing].to_vec(alloc).expect(rt, "memory");
    let mut sink = MemorySink::new(alloc, 3, room, fails).expect(rt, "memory");
    write_all(&mut sink, b"abcdefgh").is_ok() == want && sink.written() == written
}

#[test]
fn a_write_fault_leaves_a_prefix(rt: HostRuntime) {
    for (room, failing, want, written) in &PREFIXES {
        expect_that(&rt, takes(&rt, rt.alloc(), *room, *failing, *want, written));
    }
}

#[test]
fn standard_forms(rt: HostRuntime) {
    let mut source = StdSource::new(rt.stdin());
    expect_that(&rt, source.read(&mut []) == Ok(0));
    let mut sink = StdSink::new(rt.stdout());
    expect_that(&rt, sink.write(b"") == Ok(0));
    expect_that(&rt, sink.write(b"\n") == Ok(1));
}
