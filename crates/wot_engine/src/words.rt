//! The top call, whose contract is what the program promises.
//!
//! It uses `run` and `generate`. `specs/Promises.antt` has what its clauses say beside the headline. A change here
//! or there changes the rows of `docs/PROOF.md` under "The clauses".
ghost use Rattle.std.specs.Prelude.{◌≡◌};
ghost use Rattle.wot_policy.specs.Kept.{IsFaithful, rows_of};
ghost use Rattle.wot_plain.specs.Both.{ends, itself};
ghost use Rattle.wot_engine.specs.Ends.{status_at};
ghost use Rattle.wot_engine.specs.Promises.{Generates, HasCauses, HasStatus, Writes};
ghost use Rattle.wot_engine.specs.RunAsks.{RunAsks};
ghost use Rattle.wot_engine.specs.RunDoes.{AreOfRun, Done, WritesAll};

use crate::form::{Form, form_of};
use crate::generated::generate;
use crate::run::{Stop, run};
use std::alloc::Global;
use wot_certd::Shelf;
use wot_io::{Sink, Source};
use wot_laws::each_line_has_one_outcome;
use wot_policy::{Ask, Policy};

/// Runs the program with the words after its name, and returns its exit status: 0 if the input was read to its end and
/// every reply was written, 2 if the arguments are wrong, 3 after a failed read, 4 after a failed write, 5 if memory
/// ran out, and 6 if 2^30 octets were taken before the input ended.
///
/// Each reply is written completely before more is read. The replies to the lines that one read brought are written
/// together. `shelf` is the certificate directory, from which `load` reads and to which `store` writes. The policy says
/// which signatures are admitted, and is asked once for each well-formed signature that an import or a load adds.
///
/// `gen X N` uses neither the input nor the certificate directory. It makes a script from X and N, answers it with an
/// empty directory in memory, and writes three lines about it. The status is 0, 4 or 5.
pub fn run_words<S: Source, K: Sink, D: Shelf, F: Fn(Ask) -> bool>(
    alloc: Global,
    words: &[String],
    input: &mut S,
    output: &mut K,
    shelf: &mut D,
    policy: &mut Policy<F>,
) -> u8
    requires faithful { IsFaithful F.Fn policy.old }

    // The headline: if the input was read to its end, its whole transcript was written.
    ensures whole { Done 0 words.now result → WritesAll (rows_of policy.old)
        (ends S.left input) (ends K.written output) (ends D.world shelf) }

    // What is written and taken with each status, and how the certificate directory is left.
    ensures writes { Writes result words.now (rows_of policy.old)
        (ends S.left input) (ends K.written output) (ends D.world shelf) }

    // A generated run writes its three lines.
    ensures generates { Generates result words.now (rows_of policy.old)
        (ends itself input) (ends K.written output) (ends itself shelf) }

    // What each status means, and what it comes from.
    ensures status { HasStatus result words.now (ends itself input) (ends itself output) (ends itself shelf) }
    ensures causes { HasCauses result words.now (S.left input.old) (ends S.faults input) (ends K.faults output) }

    // The policy keeps its rows. It is asked once for each well-formed signature that an import or a load adds, and for
    // nothing else. With status 0 this covers all lines, with 3 and 6 all complete lines that were taken, and with 4
    // and 5 the first lines up to some line.
    ensures faithful { IsFaithful F.Fn policy.new }
    ensures rows { rows_of policy.new ≡ rows_of policy.old }
    ensures asked { AreOfRun words.now → RunAsks result
        (ends S.left input) (ends K.written output) (ends D.world shelf) (ends itself policy) }
{
    each_line_has_one_outcome();
    match form_of(words) {
        None => 2,
        Some(Form::Run) => status_of(run(alloc, input, output, shelf, policy)),
        Some(Form::Generate(start, count)) => status_of(generate(
            alloc, start, count, output, policy,
        )),
    }
}

/// The exit status of a run that ended so.
fn status_of(ended: Result<(), Stop>) -> u8
    ensures { result ≡ status_at ended }
{
    match ended {
        Ok(()) => 0,
        Err(Stop::Read) => 3,
        Err(Stop::Write) => 4,
        Err(Stop::Memory) => 5,
        Err(Stop::TooMuch) => 6,
    }
}
