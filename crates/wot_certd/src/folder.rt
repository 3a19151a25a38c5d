//! The certificate directory in the file system. Contracts see its path, how often it failed, and how many entries were
//! replaced. A real directory's contents aren't known in advance.
//!
//! `writing` reads and writes the files. `main` in `wot_cli` makes one for a run; `tests/suites/directory` tests it
//! over the built program.
ghost use Rattle.std.specs.Prelude.{◌≡◌, ◌≤◌, None, Ok, IfOk, IsOk, MatchBool, OnOk, IsErrOf};
ghost use Rattle.wot_io.specs.Counts.{Rose, next_count};
ghost use Rattle.wot_certd.specs.Errors.{IsOwnWant};
ghost use Rattle.wot_certd.specs.Shelf.{FitsEntry};

use crate::changing::Stored;
use crate::writing::{path_of, read_entry, write_entry};
use crate::{Given, Shelf, ShelfFault};
use std::alloc::Global;
use std::io::{self, ErrorKind};
use std::marker::Model;
use std::rt::Files;
use wot_types::{Memory, Name};

/// A certificate directory in the file system. Contracts see its path, how often it failed, and how many entries were
/// replaced.
#[derive(Drop)]
pub struct FolderShelf<'a, R: Files> {
    files: &'a R,
    alloc: Global,
    folder: String,
    faults: u64,
    stores: u64,
}

impl<'a, R: Files> Model for FolderShelf<'a, R> {
    ghost use Rattle.std.specs.Prelude.{string_bytes};
    ghost use Rattle.wot_certd.specs.Stored.{FolderState};

    ghost Value = { FolderState };

    ghost view = { λ a. record { folder = string_bytes a.folder; faults = a.faults; stores = a.stores } };
}

impl<'a, R: Files> FolderShelf<'a, R> {
    /// The directory in this folder, which needn't exist. `files` is the runtime of `main`.
    pub fn new(alloc: Global, files: &'a R, folder: &str) -> Result<FolderShelf<'a, R>, Memory>
        ensures { IfOk result (λ shelf. shelf ≡ record { folder = folder.now; faults = 0; stores = 0 }) }
    {
        let folder = String::from_str(alloc, folder)?;
        Ok(FolderShelf {
            files,
            alloc,
            folder,
            faults: 0,
            stores: 0,
        })
    }

    /// Sorts an error. If the program itself ran out of memory, it is `Memory`. Every error that the system reports is
    /// a fault and is counted, even if the system is out of memory.
    fn fault_of(&mut self, error: &io::Error) -> ShelfFault
        ensures cause { result ≡ ShelfFault.Failed → self.new.faults ≡ next_count self.old.faults }
        ensures wanting { result ≡ ShelfFault.Memory → self.new ≡ self.old }
        ensures later { self.old.faults ≤ self.new.faults }
        ensures others { (self.new.folder ≡ self.old.folder) × (self.new.stores ≡ self.old.stores) }
        ensures own { result ≡ ShelfFault.Memory → IsOwnWant error.now }
        ensures failed { result ≡ ShelfFault.Failed → IsOwnWant error.now → ⊥ }
    {
        if is_own_want(error) {
            return ShelfFault::Memory;
        }
        self.faults = self.faults.saturating_add(1);
        ShelfFault::Failed
    }

    /// The result of a call, with its error sorted. A call that failed never succeeds here.
    fn sorted<T: Drop>(&mut self, done: io::Result<T>) -> Result<T, ShelfFault>
        ensures done { IfOk result (λ value. done ≡ Ok value) }
        ensures failed { OnOk done (IsOk result) }
        ensures same { OnOk result (self.new ≡ self.old) }
        ensures counted { IsErrOf result ShelfFault.Failed → self.new.faults ≡ next_count self.old.faults }
        ensures wanting { IsErrOf result ShelfFault.Memory → self.new ≡ self.old }
        ensures later { self.old.faults ≤ self.new.faults }
        ensures others { (self.new.folder ≡ self.old.folder) × (self.new.stores ≡ self.old.stores) }
    {
        match done {
            Ok(value) => Ok(value),
            Err(e) => Err(self.fault_of(&e)),
        }
    }

    /// Counts an entry that was replaced. Only a store of these octets under this name can be counted.
    fn count(&mut self, _stored: &Stored<'_>, _name: &Name, _octets: &[u8])
        requires name { _stored.now.name.now ≡ _name.now }
        requires octets { _stored.now.octets.now ≡ _octets.now }
        ensures counted { self.new.stores ≡ next_count self.old.stores }
        ensures others { (self.new.folder ≡ self.old.folder) × (self.new.faults ≡ self.old.faults) }
    {
        self.stores = self.stores.saturating_add(1);
    }
}

/// Whether the program itself ran out of memory: the system reported no error.
fn is_own_want(error: &io::Error) -> bool
    ensures { MatchBool result (IsOwnWant error.now) (IsOwnWant error.now → ⊥) }
{
    error.kind() == ErrorKind::OutOfMemory && error.raw_os_error().is_none()
}

/// Every error of the system is a fault, except that a file to be read, or its folder, doesn't exist.
impl<R: Files> Shelf for FolderShelf<'_, R> {
    ghost world = { λ _. None };

    ghost faults = { λ shelf. shelf.faults };

    fn read(&mut self, name: &Name) -> Result<Given, ShelfFault>
        ensures within { IfOk result (λ given. FitsEntry given) }
        ensures later { self.old.faults ≤ self.new.faults }
        ensures cause { IsErrOf result ShelfFault.Failed → Rose self.old.faults self.new.faults }

        // What the trait leaves open.
        ensures same { OnOk result (self.new ≡ self.old) }
        ensures counted { IsErrOf result ShelfFault.Failed → self.new.faults ≡ next_count self.old.faults }
        ensures wanting { IsErrOf result ShelfFault.Memory → self.new ≡ self.old }
        ensures others { (self.new.folder ≡ self.old.folder) × (self.new.stores ≡ self.old.stores) }
    {
        let read = read_at(self.files, self.alloc, &self.folder, name);
        self.sorted(read)
    }

    /// Writes and syncs a new file next to the old one, renames it over the old one, and syncs the folders.
    fn replace(&mut self, name: &Name, bytes: &[u8]) -> Result<(), ShelfFault>
        ensures later { self.old.faults ≤ self.new.faults }
        ensures cause { IsErrOf result ShelfFault.Failed → Rose self.old.faults self.new.faults }

        // What the trait leaves open. Each success is a store of these octets under this name (`count`).
        ensures stored { OnOk result (self.new.stores ≡ next_count self.old.stores) }
        ensures same { OnOk result (self.new.faults ≡ self.old.faults) }
        ensures counted { IsErrOf result ShelfFault.Failed → self.new.faults ≡ next_count self.old.faults }
        ensures wanting { IsErrOf result ShelfFault.Memory → self.new ≡ self.old }
        ensures failed { IsErrOf result ShelfFault.Failed → self.new.stores ≡ self.old.stores }
        ensures folder { self.new.folder ≡ self.old.folder }
    {
        let done = write_entry(self.files, self.alloc, &self.folder, name, bytes);
        let stored = self.sorted(done)?;
        self.count(&stored, name, bytes);
        Ok(())
    }
}

fn read_at<R: Files>(files: &R, alloc: Global, folder: &str, name: &Name) -> io::Result<Given>
    ensures within { IfOk result (λ given. FitsEntry given) }
{
    let path = path_of(alloc, folder, name)?;
    read_entry(files, alloc, folder, name, &path)
}
