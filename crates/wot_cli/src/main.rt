//! The program: it passes its arguments, its standard input and output, the certificate directory and the standard
//! policy to wot_engine. All rules are in the layers below; only the default directory and the status for unreadable
//! arguments are decided here.
#![tactic(auto)]

ghost use Rattle.std.specs.Prelude.{◌≡◌, ◌⊎◌, ◌↔◌, map, string_bytes};
ghost use Rattle.std.specs.IoError.{error_kind};
ghost use Rattle.wot_cli.specs.Folder.{folder_named};

use std::env;
use std::io::{self, ErrorKind};
use std::process::ExitCode;
use std::rt::Env;
use wot_certd::FolderShelf;
use wot_engine::run_words;
use wot_io::{StdSink, StdSource};
use wot_policy::{Policy, admits, standard_rows};

/// The arguments after the program's name.
fn words_of<R: Env + AllocGlobal>(rt: &R) -> io::Result<Vec<String>> {
    let mut words = Vec::new(rt.alloc());
    for word in env::args(rt)?.skip(1) {
        words.push(word)?;
    }
    Ok(words)
}

/// The path of the certificate directory: the second argument, or `pgp.cert.d` in the current directory.
fn folder_of(words: &[String]) -> &str
    ensures folder { result.now ≡ folder_named (map string_bytes words.now) }
{
    match words {
        [_, folder, ..] => folder,
        _ => "pgp.cert.d",
    }
}

/// The status if there are no arguments to run on: 5 if out of memory for them, and 2 if one isn't UTF-8.
fn status_without_words(error: &io::Error) -> u8
    ensures memory { (result ≡ 5) ↔ (error_kind error.now ≡ ErrorKind.OutOfMemory) }
    ensures other { (result ≡ 5) ⊎ (result ≡ 2) }
{
    if error.kind() == ErrorKind::OutOfMemory {
        5
    } else {
        2
    }
}

/// Exits with the engine's status. Without arguments it has a status of its own, and 5 if out of memory for the
/// certificate directory.
fn main(rt: HostRuntime) -> ExitCode {
    let words = match words_of(&rt) {
        Ok(words) => words,
        Err(e) => return ExitCode::from(status_without_words(&e)),
    };
    let Ok(mut shelf) = FolderShelf::new(rt.alloc(), &rt, folder_of(&words)) else {
        return ExitCode::from(5);
    };
    let mut input = StdSource::new(rt.stdin());
    let mut output = StdSink::new(rt.stdout());
    let rows = standard_rows();
    let mut policy = Policy::new(rows, |ask| admits(&rows, ask));
    let status = run_words(
        rt.alloc(),
        &words,
        &mut input,
        &mut output,
        &mut shelf,
        &mut policy,
    );
    ExitCode::from(status)
}
