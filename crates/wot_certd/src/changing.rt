//! The calls that move or remove something in a directory, each with what it may touch.
//!
//! The system's calls have no contract, so nothing is said of what these do. But each has a condition, which `writing`
//! has to show: only a new file is moved or removed, it is moved only to the place of its entry, and only a folder that
//! wasn't there before is removed. So a failed store leaves the old entry, and what isn't an entry stays. Nothing but
//! `fill` makes a `Filled`, and nothing but `put_in_place` a `Stored`, and both say which octets they are about. So a
//! store that reports success has written all octets of its entry to a file, and renamed that over the entry.
ghost use Rattle.std.specs.Io.KnownBytes.{Appends};
ghost use Rattle.std.specs.Prelude.{◌≡◌, ◌<◌, IfOk, OnOk, length};
ghost use Rattle.wot_certd.specs.Names.{IsNoEntry, path_in, entry_place};

use std::fs::{self, OpenFile};
use std::io::{self, Write};
use std::rt::Files;
use wot_types::Name;

/// A new file has these octets, and the system has stored them.
#[derive(Drop)]
pub struct Filled<'a> {
    octets: &'a [u8],
}

/// The entry of this name was replaced by these octets.
#[derive(Drop)]
pub struct Stored<'a> {
    name: &'a Name,
    octets: &'a [u8],
}

/// Writes all octets to a new file, and waits until the system has stored them.
pub fn fill<'a, F: Write + OpenFile>(out: &mut F, octets: &'a [u8]) -> io::Result<Filled<'a>>
    ensures written { OnOk result (Appends (F.contents out.old) (F.contents out.new) octets.now) }
    ensures octets { IfOk result (λ filled. filled.octets.now ≡ octets.now) }
{
    out.write_all(octets)?;
    out.sync_all()?;
    Ok(Filled { octets })
}

/// Renames a new file over an entry. `_folder` and `name` say which entry that is.
pub fn put_in_place<'a, R: Files>(
    files: &R,
    _folder: &str,
    name: &'a Name,
    filled: Filled<'a>,
    from: &str,
    to: &str,
) -> io::Result<Stored<'a>>
    requires new { IsNoEntry _folder.now from.now }
    requires place { to.now ≡ path_in _folder.now (entry_place name.now) }
    ensures stored { IfOk result (λ stored.
        (stored.name.now ≡ name.now) × (stored.octets.now ≡ filled.entry.octets.now)) }
{
    fs::rename(files, from, to)?;
    Ok(Stored {
        name,
        octets: filled.octets,
    })
}

/// Removes a new file. `_folder` is the directory, of which it must be no entry.
pub fn remove_new_file<R: Files>(files: &R, _folder: &str, path: &str) -> io::Result<()>
    requires new { IsNoEntry _folder.now path.now }
{
    fs::remove_file(files, path)
}

/// Removes a folder of a path of which the first `_there` octets existed before. It stays if it isn't empty.
pub fn remove_new_folder<R: Files>(files: &R, _there: usize, folder: &str) -> io::Result<()>
    requires new { _there < length folder.now }
{
    fs::remove_dir(files, folder)
}
