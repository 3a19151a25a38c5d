//! The steps of a refresh: each certificate that may be stale is looked at, and its line is made if it is. The
//! keyring's log of changes says which ones these are; without it all certificates are looked at. `Network::refresh`
//! uses it.
ghost use Rattle.std.specs.Prelude.{◌<◌, OnOk, IfSome};
ghost use Rattle.wot_types.specs.declared.fpr.Fpr.{Fpr as TheFpr};
ghost use Rattle.wot_cert.specs.Span.{InSpan};
ghost use Rattle.wot_keyring_spec.specs.Kept.{AreNamed, AreSortedByFpr, AreStamped};
ghost use Rattle.wot_index.specs.Log.{HasChangedSince, is_listed};
ghost use Rattle.wot_network.specs.Net.{AreKnown};
ghost use Rattle.wot_network.specs.Refreshing.{Advances, AreDone, AreDoneBut, AreKept, IsDone, IsProgress};
ghost use Rattle.wot_network.specs.Refreshing.{KeepsPresent};

use crate::making::make;
use crate::table::{Table, forget, forget_absent, is_done, narrow, put, rises, window_of};
use std::alloc::Global;
use wot_cert::Span;
use wot_keyring::Keyring;
use wot_types::{Fpr, Memory, Steps};

/// A keyring, and the time for which the network is made.
#[derive(Clone, Copy)]
pub(crate) struct Moment<'a> {
    pub(crate) keyring: &'a Keyring,
    pub(crate) t: u32,
}

/// A law: the certificates of a keyring are under their own fingerprints, and sorted.
pub(crate) fn ordered(keyring: &Keyring)
    ensures sorted { AreSortedByFpr keyring.now.certs }
    ensures named { AreNamed keyring.now.certs }
    ensures stamped { AreStamped keyring.now.changes keyring.now.certs }
{
    let _ = keyring.len();
}

/// Makes the line of a certificate unless it has a current one. Removes the line if the certificate isn't kept.
fn look_at(
    alloc: Global,
    lines: &mut Table,
    window: &mut Span,
    at: &Moment<'_>,
    fpr: &Fpr,
    steps: &mut Steps,
) -> Result<(), Memory>
    requires sorted { AreSortedByFpr at.now.keyring.now.certs }
    requires kept { AreKept at.now.keyring.now window.old lines.old.entries }
    ensures kept { AreKept at.now.keyring.now window.new lines.new.entries }
    ensures progress { IsProgress at.now.keyring.now at.now.t
        lines.old.entries lines.new.entries steps.old.made steps.new.made }
    ensures advances { OnOk result
        (Advances at.now.keyring.now at.now.t lines.old.entries lines.new.entries steps.old.made steps.new.made) }
    ensures done { OnOk result (IsDone at.now.keyring.now at.now.t lines.new.entries fpr.now) }
{
    let stamp = at.keyring.stamp(fpr);
    let Some(cert) = at.keyring.get(fpr) else {
        rises(lines);
        forget(lines, fpr);
        return Ok(());
    };
    if is_done(lines, fpr, stamp, at.t) {
        return Ok(());
    }
    let line = make(alloc, cert, at.keyring.verdicts(), stamp, at.t, steps)?;
    let span = line.span();
    put(lines, *fpr, line)?;
    *window = narrow(*window, span);
    Ok(())
}

/// Looks at every certificate.
fn look_at_all(
    alloc: Global,
    lines: &mut Table,
    window: &mut Span,
    at: &Moment<'_>,
    steps: &mut Steps,
) -> Result<(), Memory>
    requires sorted { AreSortedByFpr at.now.keyring.now.certs }
    requires named { AreNamed at.now.keyring.now.certs }
    requires kept { AreKept at.now.keyring.now window.old lines.old.entries }
    ensures kept { AreKept at.now.keyring.now window.new lines.new.entries }
    ensures progress { IsProgress at.now.keyring.now at.now.t
        lines.old.entries lines.new.entries steps.old.made steps.new.made }
    ensures advances { OnOk result
        (Advances at.now.keyring.now at.now.t lines.old.entries lines.new.entries steps.old.made steps.new.made) }
    ensures done { OnOk result (AreDone at.now.keyring.now at.now.t lines.new.entries) }
{
    'certs: for cert in at.keyring.certs() {
        look_at(alloc, lines, window, at, &cert.fpr(), steps)?;
    }
    *window = window_of(lines);
    Ok(())
}

/// Looks at these certificates. No others are stale.
fn look_at_changed(
    alloc: Global,
    lines: &mut Table,
    window: &mut Span,
    at: &Moment<'_>,
    changed: &[(u64, Fpr)],
    steps: &mut Steps,
) -> Result<(), Memory>
    requires sorted { AreSortedByFpr at.now.keyring.now.certs }
    requires kept { AreKept at.now.keyring.now window.old lines.old.entries }
    requires others { AreDoneBut at.now.keyring.now at.now.t lines.old.entries
        (λ (q : TheFpr). is_listed q changed.now) }
    ensures kept { AreKept at.now.keyring.now window.new lines.new.entries }
    ensures progress { IsProgress at.now.keyring.now at.now.t
        lines.old.entries lines.new.entries steps.old.made steps.new.made }
    ensures advances { OnOk result
        (Advances at.now.keyring.now at.now.t lines.old.entries lines.new.entries steps.old.made steps.new.made) }
    ensures done { OnOk result (AreDone at.now.keyring.now at.now.t lines.new.entries) }
{
    let mut left = changed;
    'left: while let Some((entry, rest)) = left.split_first() {
        look_at(alloc, lines, window, at, &entry.1, steps)?;
        left = rest;
    }
    Ok(())
}

/// The only certificates that may be stale, if they are known without a walk: `t` is in the window, and the log goes
/// back far enough.
fn may_be_stale<'a>(
    keyring: &'a Keyring,
    window: &Span,
    count: u64,
    t: u32,
) -> Option<&'a [(u64, Fpr)]>
    ensures inside { IfSome result (λ changed. InSpan window.now t) }
    ensures since { IfSome result (λ changed. HasChangedSince keyring.now count changed.now) }
{
    if window.from <= t && t <= window.to {
        return keyring.changed_since(count);
    }
    None
}

/// Looks at each certificate that may be stale. A certificate with a stamp up to the count has a line of that stamp.
pub(crate) fn look_at_stale(
    alloc: Global,
    lines: &mut Table,
    window: &mut Span,
    count: u64,
    at: &Moment<'_>,
    steps: &mut Steps,
) -> Result<(), Memory>
    requires sorted { AreSortedByFpr at.now.keyring.now.certs }
    requires named { AreNamed at.now.keyring.now.certs }
    requires kept { AreKept at.now.keyring.now window.old lines.old.entries }
    requires stamped { AreStamped at.now.keyring.now.changes at.now.keyring.now.certs }
    requires known { AreKnown at.now.keyring.now count lines.old.entries }
    ensures kept { AreKept at.now.keyring.now window.new lines.new.entries }
    ensures progress { IsProgress at.now.keyring.now at.now.t
        lines.old.entries lines.new.entries steps.old.made steps.new.made }
    ensures advances { OnOk result
        (Advances at.now.keyring.now at.now.t lines.old.entries lines.new.entries steps.old.made steps.new.made) }
    ensures done { OnOk result (AreDone at.now.keyring.now at.now.t lines.new.entries) }
{
    match may_be_stale(at.keyring, window, count, at.t) {
        Some(changed) => look_at_changed(alloc, lines, window, at, changed, steps),
        None => look_at_all(alloc, lines, window, at, steps),
    }
}

/// Removes the lines of certificates that aren't kept. If there are as many lines as certificates, there are none.
pub(crate) fn drop_absent(lines: &mut Table, keyring: &Keyring, t: u32)
    requires sorted { AreSortedByFpr keyring.now.certs }
    requires done { AreDone keyring.now t lines.old.entries }
    ensures present { KeepsPresent keyring.now lines.old.entries lines.new.entries }
{
    rises(lines);
    if lines.len() != keyring.len() {
        forget_absent(lines, keyring);
    }
}
