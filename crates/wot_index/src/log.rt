//! The log of changes: which certificates were altered since a count of changes. `Keyring::changed_since` reads it, so
//! that a refresh of a network costs what changed. If memory is short, the log restarts, and the network is refreshed
//! by a walk over the keyring instead.
ghost use Rattle.std.specs.Prelude.{◌≡◌, ◌≤◌, ◌<◌, [], true, nat_lt, MatchBool, ℕ};
ghost use Rattle.std.specs.Prelude.{vec_len, vec_capacity, ◌++◌, ◌∷◌};
ghost use Rattle.wot_types.specs.declared.fpr.Fpr.{Fpr as TheFpr};
ghost use Rattle.wot_keyring_spec.specs.Keyring.{is_fpr};
ghost use Rattle.wot_index.specs.Log.{is_listed, is_logged_at, is_named_in, AreRising, LogsAt};

use std::alloc::Global;
use wot_cert::Cert;
use wot_types::Fpr;

/// The least number of entries to reserve room for.
const LEAST: usize = 64;

/// Fingerprints of altered certificates, with the stamps that they were given. When the reserved room is used up, the
/// log restarts: logging never allocates.
#[derive(Drop)]
pub struct Log {
    /// The log covers only stamps above this one.
    pub from: u64,
    pub entries: Vec<(u64, Fpr)>,
}

impl Log {
    /// The log of no changes. Doesn't allocate.
    pub fn new(alloc: Global) -> Log
        ensures from { result.from ≡ 0 }
        ensures empty { result.entries.items ≡ [] }
    {
        Log {
            from: 0,
            entries: Vec::new(alloc),
        }
    }
}

/// Reserves room for this many more entries and one for each certificate, unless the log already has so much. If out of
/// memory, the log just restarts sooner.
pub fn make_room(log: &mut Log, more: usize, kept: usize)
    ensures from { log.new.from ≡ log.old.from }
    ensures entries { log.new.entries.items ≡ log.old.entries.items }
{
    let wanted = more.max(kept).max(LEAST);
    if log.entries.capacity() < wanted {
        let _ = log.entries.reserve(wanted);
    }
}

/// Drops all entries. The log covers only stamps above this one from now on.
pub fn begin_anew(log: &mut Log, stamp: u64)
    ensures from { log.new.from ≡ stamp }
    ensures empty { log.new.entries.items ≡ [] }
{
    log.entries.clear();
    log.from = stamp;
}

/// Appends an entry. The log has room.
fn put(log: &mut Log, stamp: u64, fpr: Fpr)
    requires room { vec_len log.old.entries < vec_capacity log.old.entries }
    ensures from { log.new.from ≡ log.old.from }
    ensures entries { log.new.entries.items ≡ log.old.entries.items ++ (stamp, fpr) ∷ [] }
{
    let _ = log.entries.push((stamp, fpr));
}

/// Logs that a certificate was given a stamp, which is at least as high as any before. Doesn't allocate.
pub fn log_at(log: &mut Log, stamp: u64, fpr: Fpr)
    requires from { log.old.from ≤ stamp }
    ensures logged { LogsAt stamp (is_fpr fpr) log.old log.new }
{
    if log.entries.len() < log.entries.capacity() {
        put(log, stamp, fpr);
    } else {
        begin_anew(log, stamp);
    }
}

/// Logs that these certificates were given a stamp.
pub fn log_all(log: &mut Log, stamp: u64, certs: &[Cert])
    requires from { log.old.from ≤ stamp }
    ensures logged { LogsAt stamp (is_named_in certs.now) log.old log.new }
{
    let mut left = certs;
    'left: while let Some((cert, rest)) = left.split_first() {
        log_at(log, stamp, cert.fpr());
        left = rest;
    }
}

/// Logs that these certificates were given a stamp, if anything was added to them.
pub fn log_union(log: &mut Log, fresh: u64, stamp: u64, certs: &[Cert])
    requires from { log.old.from ≤ stamp }
    ensures logged { MatchBool (nat_lt 0 fresh)
        (LogsAt stamp (is_named_in certs.now) log.old log.new) (log.new ≡ log.old) }
{
    if fresh > 0 {
        log_all(log, stamp, certs);
    }
}

/// The entries with a stamp above the count.
pub fn since(entries: &[(u64, Fpr)], count: u64) -> &[(u64, Fpr)]
    requires rising { AreRising entries.now }
    ensures since { (s : ℕ) (fpr : TheFpr) → count < s → is_logged_at s fpr entries.now ≡ true
        → is_listed fpr result.now ≡ true }
{
    let start = entries.partition_point(|entry| entry.0 <= count);
    let (_, rest) = entries.split_at(start);
    rest
}
