//! Tests of wot_certd: the directory in memory and on disk, with calls that fail early and late. It writes only below a
//! new temporary directory.
use crate::assertion::expect_that;
use std::alloc::Global;
use std::process::Abort;
use std::rt::{Env, Files};
use std::{env, fs};
use wot_certd::{FolderShelf, Given, MemoryShelf, Shelf, ShelfFault};
use wot_types::{Fpr, Name};

const CERT: Name = Name::Cert(Fpr::V4(
    *b"\xc9\x59\xbd\xba\xfa\x32\xa2\xf8\x9a\x15\x3b\x67\x8c\xfd\xe1\x21\x97\x96\x5a\x9a",
));

const PLACE: &str = "c9/59bdbafa32a2f89a153b678cfde12197965a9a";

/// What a read should return. The result is dropped here only, so that the drop is proved once.
#[derive(Clone, Copy)]
enum Wanted<'a> {
    Octets(&'a [u8]),
    Absent,
    Failed,
}

/// Whether a read returns this.
fn reads<S: Shelf>(shelf: &mut S, name: &Name, wanted: Wanted<'_>) -> bool {
    match (shelf.read(name), wanted) {
        (Ok(Given::Bytes(given)), Wanted::Octets(octets)) => given.as_slice() == octets,
        (Ok(Given::Absent), Wanted::Absent) => true,
        (Err(ShelfFault::Failed), Wanted::Failed) => true,
        _ => false,
    }
}

fn gives<S: Shelf>(shelf: &mut S, name: &Name, octets: &[u8]) -> bool {
    reads(shelf, name, Wanted::Octets(octets))
}

fn is_absent<S: Shelf>(shelf: &mut S, name: &Name) -> bool {
    reads(shelf, name, Wanted::Absent)
}

fn fails<S: Shelf>(shelf: &mut S, name: &Name) -> bool {
    reads(shelf, name, Wanted::Failed)
}

const FAILED: Result<(), ShelfFault> = Err(ShelfFault::Failed);

/// A shelf in memory whose third, fourth and sixth calls fail, the sixth late.
fn failing_shelf(rt: &impl Abort, alloc: Global) -> MemoryShelf {
    let fails = [3, 4, 6].to_vec(alloc).expect(rt, "memory");
    let late = [2, 6].to_vec(alloc).expect(rt, "memory");
    let mut shelf = MemoryShelf::new(alloc, fails, late);
    let entry = [7].to_vec(alloc).expect(rt, "memory");
    shelf.put(CERT, entry).expect(rt, "memory");
    shelf
}

/// A call that fails early leaves the entry, and one that fails late has replaced it.
fn calls_answer(shelf: &mut MemoryShelf) -> bool {
    gives(shelf, &CERT, b"\x07")
        && is_absent(shelf, &Name::TrustRoot)
        && fails(shelf, &CERT)
        && shelf.replace(&CERT, b"\x08") == FAILED
        && gives(shelf, &CERT, b"\x07")
        && shelf.replace(&CERT, b"\x09") == FAILED
        && gives(shelf, &CERT, b"\x09")
        && shelf.replace(&CERT, b"").is_ok()
        && gives(shelf, &CERT, b"")
        && is_absent(shelf, &Name::TrustRoot)
}

#[test]
fn calls_of_a_shelf_in_memory(rt: HostRuntime) {
    let mut shelf = failing_shelf(&rt, rt.alloc());
    expect_that(&rt, calls_answer(&mut shelf));
}

/// Creates a directory of its own for a test.
fn new_folder<R: Files + Env + Abort + AllocGlobal>(rt: &R) -> Option<String> {
    let base = env::temp_dir(rt).expect(rt, "a folder");
    for number in 0..1000u32 {
        let folder = format!(in rt.alloc(); "{}/wot_certd_{number}", base.display()).expect(
            rt, "memory",
        );
        if fs::create_dir(rt, folder.as_str()).is_ok() {
            return Some(folder);
        }
    }
    None
}

/// A missing file, and one that is written and replaced.
fn is_written<R: Files + AllocGlobal>(shelf: &mut FolderShelf<'_, R>) -> bool {
    is_absent(shelf, &CERT)
        && shelf.replace(&CERT, b"\x01\x02").is_ok()
        && gives(shelf, &CERT, b"\x01\x02")
        && shelf.replace(&CERT, b"\x03").is_ok()
        && gives(shelf, &CERT, b"\x03")
}

/// That, and a directory in the place of a file.
fn is_a_shelf<R: Files + Abort + AllocGlobal>(rt: &R, base: &str) -> bool {
    let mut shelf = FolderShelf::new(rt.alloc(), rt, base).expect(rt, "memory");
    let written = is_written(&mut shelf);
    let place = format!(in rt.alloc(); "{base}/trust-root").expect(rt, "memory");
    fs::create_dir(rt, place.as_str()).expect(rt, "a folder");
    written
        && fails(&mut shelf, &Name::TrustRoot)
        && shelf.replace(&Name::TrustRoot, b"\x04") == FAILED
}

/// The entry is a file at its path, and what couldn't replace it is gone.
fn has_its_file<R: Files + Abort + AllocGlobal>(rt: &R, base: &str) -> bool {
    let file = format!(in rt.alloc(); "{base}/{PLACE}").expect(rt, "memory");
    let octets = fs::read(rt, file.as_str()).expect(rt, "a file");
    let left = format!(in rt.alloc(); "{base}/_trust-root.0").expect(rt, "memory");
    let is_left = fs::exists(rt, left.as_str()).expect(rt, "an answer");
    octets.as_slice() == b"\x03".as_slice() && !is_left
}

/// Files without permission to read, and files at the size limit and above it, are tested with the program over a
/// prepared directory.
#[test]
fn a_folder(rt: HostRuntime) {
    let folder = new_folder(&rt).expect(&rt, "a folder");
    let base = format!(in rt.alloc(); "{folder}/pgp.cert.d").expect(&rt, "memory");
    expect_that(&rt, is_a_shelf(&rt, &base));
    expect_that(&rt, has_its_file(&rt, &base));
    expect_that(&rt, fs::remove_dir_all(&rt, folder.as_str()).is_ok());
}
