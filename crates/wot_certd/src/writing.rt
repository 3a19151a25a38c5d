//! Files of a directory, read and replaced. The system's calls have no contract: which paths are read, replaced and
//! removed is proved here, and what is done with them is tested over the built program (`tests/suites/directory`).
//!
//! It uses std's files, the places of `name` and the conditions of `changing`. A change here changes what a
//! crash can leave in a user's directory.
ghost use Rattle.std.specs.Prelude.{◌≡◌, Some, IfOk, IfSome, OnErr, OnOk, length, string_bytes};
ghost use Rattle.wot_certd.specs.Errors.{IsMissing};
ghost use Rattle.wot_certd.specs.Names.{path_in, place_beside, entry_place, IsNoEntry};
ghost use Rattle.wot_certd.specs.Shelf.{FitsEntry, IsReadAs};
ghost use Rattle.wot_certd.specs.World.{entry_answer};

use crate::changing::{Stored, fill, put_in_place, remove_new_file, remove_new_folder};
use crate::shelf::LONGEST;
use crate::{Given, name_beside, name_of};
use std::alloc::Global;
use std::fs::{self, File, OpenFile};
use std::io::{self, ErrorKind, Read};
use std::rt::Files;
use wot_types::{Memory, Name};

/// How many octets are read at a time.
const PIECE: usize = 16384;

/// How many names are tried for a new file before the write fails.
const TRIES: u32 = 1000;

/// The path of a place in a directory.
fn joined(alloc: Global, folder: &str, place: &str) -> io::Result<String>
    ensures { IfOk result (λ path. string_bytes path ≡ path_in folder.now place.now) }
{
    let mut path = String::from_str(alloc, folder)?;
    path.push_str("/")?;
    path.push_str(place)?;
    Ok(path)
}

/// The path of an entry.
pub fn path_of(alloc: Global, folder: &str, name: &Name) -> io::Result<String>
    ensures { IfOk result (λ path. string_bytes path ≡ path_in folder.now (entry_place name.now)) }
{
    match name_of(alloc, name) {
        Ok(place) => joined(alloc, folder, &place),
        Err(Memory) => Err(io::Error::from(ErrorKind::OutOfMemory)),
    }
}

/// The path of a new file next to an entry.
fn path_beside(alloc: Global, folder: &str, name: &Name, number: u32) -> io::Result<String>
    ensures place { IfOk result (λ path. string_bytes path ≡ path_in folder.now (place_beside name.now number)) }
    ensures apart { IfOk result (λ path. IsNoEntry folder.now (string_bytes path)) }
{
    match name_beside(alloc, name, number) {
        Ok(place) => joined(alloc, folder, &place),
        Err(Memory) => Err(io::Error::from(ErrorKind::OutOfMemory)),
    }
}

/// Reads an entry's file. The entry is absent if the file or its folder doesn't exist. Links are followed. Anything but
/// a regular file is an error, and isn't opened: a FIFO would block, and a device may never end. `_folder` and `_name`
/// say which entry is at the path.
pub fn read_entry<R: Files>(
    files: &R,
    alloc: Global,
    _folder: &str,
    _name: &Name,
    path: &str,
) -> io::Result<Given>
    requires place { path.now ≡ path_in _folder.now (entry_place _name.now) }
    ensures within { IfOk result (λ given. FitsEntry given) }
{
    match fs::metadata(files, path) {
        Ok(about) if about.is_file() => read_file(files, alloc, path),
        Ok(_) => Err(io::Error::from(ErrorKind::InvalidInput)),
        Err(e) => absent_if_missing(e),
    }
}

/// An entry is absent if its file, or the file's folder, doesn't exist. Any other error stays one: what can't be read
/// is never taken for absent.
fn absent_if_missing(error: io::Error) -> io::Result<Given>
    ensures absent { IfOk result (λ given. given ≡ Given.Absent) }
    ensures missing { OnOk result (IsMissing error) }
    ensures other { OnErr result (IsMissing error → ⊥) }
{
    if error.kind() == ErrorKind::NotFound {
        return Ok(Given::Absent);
    }
    Err(error)
}

/// Reads a regular file, which another program may remove before it is opened.
fn read_file<R: Files>(files: &R, alloc: Global, path: &str) -> io::Result<Given>
    ensures within { IfOk result (λ given. FitsEntry given) }
{
    match fs::open(files, path) {
        Ok(mut file) => read_all(alloc, &mut file),
        Err(e) => absent_if_missing(e),
    }
}

/// Reads to the end, or until there are more octets than an entry may have. If what is left of the file is known, the
/// result is what a read of an entry with these octets returns.
fn read_all<F: Read>(alloc: Global, file: &mut F) -> io::Result<Given>
    ensures within { IfOk result (λ given. FitsEntry given) }
    ensures answers { IfOk result (λ given. IfSome (F.remaining file.old) (λ octets.
        IsReadAs given (entry_answer (Some octets)))) }
{
    let mut octets = Vec::new(alloc);
    let mut piece = [0u8; PIECE];
    while octets.len() <= LONGEST {
        let n = file.read(&mut piece)?;
        if n == 0 {
            return Ok(Given::Bytes(octets));
        }
        let (front, _) = piece.split_at(n);
        octets.extend_from_slice(front)?;
    }
    Ok(Given::Long)
}

/// Replaces an entry's file: a new file is written next to the old one and renamed over it. Creates missing folders. On
/// failure neither the new file nor a folder that was created for it is left.
pub fn write_entry<'a, R: Files>(
    files: &R,
    alloc: Global,
    folder: &str,
    name: &'a Name,
    octets: &'a [u8],
) -> io::Result<Stored<'a>>
    ensures stored { IfOk result (λ stored. (stored.name.now ≡ name.now) × (stored.octets.now ≡ octets.now)) }
{
    let path = path_of(alloc, folder, name)?;
    let Some((parent, _)) = path.rsplit_once('/') else {
        return Err(io::Error::from(ErrorKind::InvalidInput));
    };
    let there = length_there(files, parent)?;
    let done = match fs::create_dir_all(files, parent) {
        Ok(()) => write_beside(files, alloc, folder, name, &path, octets),
        Err(e) => Err(e),
    };
    match done {
        Ok(stored) => {
            sync_folders(files, parent, there)?;
            Ok(stored)
        }
        Err(e) => {
            remove_folders(files, parent, there);
            Err(e)
        }
    }
}

/// Writes a new file next to the old one, and renames it.
fn write_beside<'a, R: Files>(
    files: &R,
    alloc: Global,
    folder: &str,
    name: &'a Name,
    path: &str,
    octets: &'a [u8],
) -> io::Result<Stored<'a>>
    requires place { path.now ≡ path_in folder.now (entry_place name.now) }
    ensures stored { IfOk result (λ stored. (stored.name.now ≡ name.now) × (stored.octets.now ≡ octets.now)) }
{
    let (beside, mut out) = open_beside(files, alloc, folder, name)?;
    let done = match fill(&mut out, octets) {
        Ok(filled) => put_in_place(files, folder, name, filled, beside.as_str(), path),
        Err(e) => Err(e),
    };
    if done.is_err() {
        let _ = remove_new_file(files, folder, beside.as_str());
    }
    done
}

/// Opens a new file next to an entry, under the first free number.
fn open_beside<R: Files>(
    files: &R,
    alloc: Global,
    folder: &str,
    name: &Name,
) -> io::Result<(String, R::File)>
    ensures apart { IfOk result (λ opened. IsNoEntry folder.now (string_bytes opened.0)) }
{
    for number in 0..TRIES {
        let beside = path_beside(alloc, folder, name, number)?;
        match File::create_new(files, beside.as_str()) {
            Ok(out) => return Ok((beside, out)),
            Err(e) if e.kind() == ErrorKind::AlreadyExists => {}
            Err(e) => return Err(e),
        }
    }
    Err(io::Error::from(ErrorKind::AlreadyExists))
}

/// The prefix of a path up to this offset, if it is the path of a folder. None if no name ends there.
fn folder_to(path: &str, end: usize) -> Option<&str>
    ensures long { IfSome result (λ folder. length folder.now ≡ end) }
{
    match path.split_at_checked(end) {
        Some((folder, rest)) if rest.is_empty() || rest.starts_with('/') => Some(folder),
        _ => None,
    }
}

/// The length of the longest prefix of a path that is an existing folder; 0 if there is none.
fn length_there<R: Files>(files: &R, path: &str) -> io::Result<usize> {
    for end in (1..=path.len()).rev() {
        if let Some(folder) = folder_to(path, end) {
            if fs::exists(files, folder)? {
                return Ok(end);
            }
        }
    }
    Ok(0)
}

/// Removes the folders of a path, innermost first, except those that existed before. One that isn't empty stays.
fn remove_folders<R: Files>(files: &R, path: &str, there: usize) {
    for end in (1..=path.len()).rev() {
        if end <= there {
            return;
        }
        if let Some(folder) = folder_to(path, end) {
            let _ = remove_new_folder(files, there, folder);
        }
    }
}

/// Waits until the system has stored the names in the last folder of a path, and in each folder in which one was
/// created.
fn sync_folders<R: Files>(files: &R, path: &str, there: usize) -> io::Result<()> {
    sync_folder(files, path)?;
    for end in (1..path.len()).rev() {
        if end < there {
            return Ok(());
        }
        if let Some(folder) = folder_to(path, end) {
            sync_folder(files, folder)?;
        }
    }
    sync_first(files, path, there)
}

/// Waits until the system has stored the name of the path's first folder, if that is new.
fn sync_first<R: Files>(files: &R, path: &str, there: usize) -> io::Result<()> {
    if there > 0 {
        return Ok(());
    }
    if path.starts_with('/') {
        sync_folder(files, "/")
    } else {
        sync_folder(files, ".")
    }
}

/// Waits until the system has stored the names in a folder.
fn sync_folder<R: Files>(files: &R, folder: &str) -> io::Result<()> {
    let opened = fs::open(files, folder)?;
    OpenFile::sync_all(&opened)
}
