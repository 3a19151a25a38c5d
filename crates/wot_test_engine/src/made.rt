//! Tests of how many edges questions make: at least those in use, and at most the signatures of what was altered since
//! the last question of the same view.
ghost use Rattle.std.specs.Prelude.{◌≡◌};
ghost use Rattle.wot_keyring_spec.specs.Kept.{IsJudgedBy};
ghost use Rattle.wot_policy.specs.Kept.{IsFaithful, rows_of};

use crate::assertion::expect_that;
use std::alloc::Global;
use wot_certd::MemoryShelf;
use wot_engine::Machine;
use wot_gen::script;
use wot_policy::{Ask, Policy, admits, standard_rows};

/// From this line on, counted from 0: the least and the most edges that are made.
type Bounds = (u32, u64, u64);

/// R certifies the user ID t of T. No certificate has the signature of the verdicts on the number 9.
const ONCE: &str = "import c60704000003e81b01c210041f1b0800060502000003e800000000
import c60704000003e81b04c210041f1b0800060502000003e800000000cd0174c21004101b0800060502000007d000000000
verdict 68d0eb5f8ca13914fcddf1b23e5f608bf9847603834da284f01a707208051209 good 7f35c8dbd6b3eb2ffd59cbdd2e41ea291212ac38
verdict 6f340f6bdd375d28b7edb40f930d95bf4ad33f807483dfd6a9600c1af4e334bd good 3c98b8180e0fcaca1032499082a5de8fa5d98232
verdict 7331b37825bdca65502938381c08cd08d9da47de1940c67bdae7bdf1dfab72d5 good 7f35c8dbd6b3eb2ffd59cbdd2e41ea291212ac38
view p time 5000
view p root 7f35c8dbd6b3eb2ffd59cbdd2e41ea291212ac38 120
ask p 3c98b8180e0fcaca1032499082a5de8fa5d98232 120 t
verdict 0000000000000000000000000000000000000000000000000000000000000009 bad
ask p 3c98b8180e0fcaca1032499082a5de8fa5d98232 1 t
verdict 0000000000000000000000000000000000000000000000000000000000000009 good 7f35c8dbd6b3eb2ffd59cbdd2e41ea291212ac38
ask p 3c98b8180e0fcaca1032499082a5de8fa5d98232 2 t
ask p 3c98b8180e0fcaca1032499082a5de8fa5d98232 2 t
view q time 1500
view q root 7f35c8dbd6b3eb2ffd59cbdd2e41ea291212ac38 255
ask q 3c98b8180e0fcaca1032499082a5de8fa5d98232 120 t
view q time 2000
ask q 3c98b8180e0fcaca1032499082a5de8fa5d98232 120 t
view q time 1999
ask q 3c98b8180e0fcaca1032499082a5de8fa5d98232 120 t
view p root 7f35c8dbd6b3eb2ffd59cbdd2e41ea291212ac38 50
ask p 3c98b8180e0fcaca1032499082a5de8fa5d98232 120 t
view s time 5000
list s 1
ask s 3c98b8180e0fcaca1032499082a5de8fa5d98232 120 t
list z 1
drop 7f35c8dbd6b3eb2ffd59cbdd2e41ea291212ac38
ask p 3c98b8180e0fcaca1032499082a5de8fa5d98232 120 t
";

/// The replies to these lines.
const REPLIES: &str = "ok taken 1 skipped 0 new 2
ok taken 1 skipped 0 new 4
ok
ok
ok
ok
ok
amount 120 paths 1
path 120 steps 1 root 7f35c8dbd6b3eb2ffd59cbdd2e41ea291212ac38
step 7f35c8dbd6b3eb2ffd59cbdd2e41ea291212ac38 3c98b8180e0fcaca1032499082a5de8fa5d98232 0 120 t
ok
amount 120 paths 1
path 120 steps 1 root 7f35c8dbd6b3eb2ffd59cbdd2e41ea291212ac38
step 7f35c8dbd6b3eb2ffd59cbdd2e41ea291212ac38 3c98b8180e0fcaca1032499082a5de8fa5d98232 0 120 t
ok
amount 120 paths 1
path 120 steps 1 root 7f35c8dbd6b3eb2ffd59cbdd2e41ea291212ac38
step 7f35c8dbd6b3eb2ffd59cbdd2e41ea291212ac38 3c98b8180e0fcaca1032499082a5de8fa5d98232 0 120 t
amount 120 paths 1
path 120 steps 1 root 7f35c8dbd6b3eb2ffd59cbdd2e41ea291212ac38
step 7f35c8dbd6b3eb2ffd59cbdd2e41ea291212ac38 3c98b8180e0fcaca1032499082a5de8fa5d98232 0 120 t
ok
ok
amount 0 paths 0
ok
amount 120 paths 1
path 120 steps 1 root 7f35c8dbd6b3eb2ffd59cbdd2e41ea291212ac38
step 7f35c8dbd6b3eb2ffd59cbdd2e41ea291212ac38 3c98b8180e0fcaca1032499082a5de8fa5d98232 0 120 t
ok
amount 0 paths 0
ok
amount 50 paths 1
path 50 steps 1 root 7f35c8dbd6b3eb2ffd59cbdd2e41ea291212ac38
step 7f35c8dbd6b3eb2ffd59cbdd2e41ea291212ac38 3c98b8180e0fcaca1032499082a5de8fa5d98232 0 120 t
ok
list 0
amount 0 paths 0
refused view
ok
amount 0 paths 0
";

/// The edge is made for a view's first question at a time when the certification counts, and not again.
static MADE_ONCE: [Bounds; 4] = [(0, 0, 0), (7, 1, 1), (17, 2, 2), (23, 3, 3)];

/// The lines of the script of the start 7 and of 50 keys with its first two questions and its last eight, as the plain
/// model counts edges and signatures. The first question of each of two views makes the edges into all certificates,
/// and each of the last eight those into the one that was altered before it.
static MADE: [Bounds; 11] = [
    (0, 0, 0),
    (252, 134, 197),
    (253, 268, 394),
    (353, 271, 398),
    (355, 274, 402),
    (357, 276, 406),
    (359, 278, 410),
    (361, 281, 414),
    (363, 284, 418),
    (365, 287, 422),
    (367, 290, 426),
];

/// Whether this many edges may be made up to this line.
fn may_be_made(bounds: &[Bounds], number: u32, made: u64) -> bool {
    let mut may = false;
    for (from, least, most) in bounds {
        if *from <= number {
            may = *least <= made && made <= *most;
        }
    }
    may
}

/// Appends the first line of a text, without its line feed. Returns the rest, or none if there is no line feed.
fn put_line<'a>(text: &'a [u8], line: &mut Vec<u8>) -> Option<&'a [u8]> {
    let mut rest = text;
    while let Some((octet, others)) = rest.split_first() {
        if *octet == b'\n' {
            return Some(others);
        }
        line.push(*octet).ok()?;
        rest = others;
    }
    None
}

/// Hands the lines of a text to a fresh machine, and appends their replies. Returns how many lines there are, or none
/// if another number of edges is made up to a line.
fn play<F: Fn(Ask) -> bool>(
    alloc: Global,
    machine: &mut Machine,
    text: &[u8],
    bounds: &[Bounds],
    policy: &mut Policy<F>,
    out: &mut Vec<u8>,
) -> Option<u32>
    requires fresh { machine.old.engine.keyring.changes ≡ 0 }
    requires unturned { machine.old.engine.revisions.count ≡ 0 }
    requires judged { IsJudgedBy (rows_of policy.old) machine.old.engine.keyring }
    requires faithful { IsFaithful F.Fn policy.old }
{
    let mut shelf = MemoryShelf::new(alloc, Vec::new(alloc), Vec::new(alloc));
    let mut line = Vec::new(alloc);
    let mut rest = text;
    for number in 0..1000 {
        line.clear();
        let Some(others) = put_line(rest, &mut line) else {
            return Some(number);
        };
        rest = others;
        machine.line(&line, &mut shelf, policy, out).ok()?;
        if !may_be_made(bounds, number, machine.made()) {
            return None;
        }
    }
    None
}

/// Plays a text under the standard policy.
fn played(alloc: Global, text: &[u8], bounds: &[Bounds], out: &mut Vec<u8>) -> Option<u32> {
    let rows = standard_rows();
    let mut policy = Policy::new(rows, |ask| admits(&rows, ask));
    let mut machine = Machine::new(alloc);
    play(alloc, &mut machine, text, bounds, &mut policy, out)
}

#[test]
fn edges_are_made_once(rt: HostRuntime) {
    let mut out = Vec::new(rt.alloc());
    let count = played(rt.alloc(), ONCE.as_bytes(), &MADE_ONCE, &mut out);
    expect_that(
        &rt,
        count == Some(28) && out.as_slice() == REPLIES.as_bytes(),
    );
}

/// As many edges are made as may be, for all the questions of the script of 50 keys.
#[test]
fn edges_of_a_generated_script(rt: HostRuntime) {
    let mut text = Vec::new(rt.alloc());
    expect_that(&rt, script(rt.alloc(), 7, 50, &mut text).ok() == Some(368));
    let mut out = Vec::new(rt.alloc());
    expect_that(&rt, played(rt.alloc(), &text, &MADE, &mut out) == Some(368));
}
