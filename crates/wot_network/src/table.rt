//! The lines by fingerprint, one small call for each use of the map, and the window: the times that are within the span
//! of every line. `refreshing` and `network` work on it through these calls only.
ghost use Rattle.std.specs.Prelude.{◌≡◌, OnOk, OnErr};
ghost use Rattle.std.specs.BTreeMap.{insert_entry};
ghost use Rattle.std.specs.List.Sorted.{IsStrictlySortedBy};
ghost use Rattle.std.specs.Map.{keys_of, remove_entry};
ghost use Rattle.std.specs.Option.{option_copied};
ghost use Rattle.wot_types.specs.Fpr.{fpr_cmp};
ghost use Rattle.wot_keyring_spec.specs.Keyring.{is_fpr};
ghost use Rattle.wot_network.specs.Net.{has_current, line_at, marks_of};
ghost use Rattle.wot_network.specs.Refreshing.{AreOpen, IsInside, KeepsPresent};

use crate::line::NetLine;
use std::alloc::Global;
use std::collections::BTreeMap;
use wot_cert::Span;
use wot_keyring::Keyring;
use wot_types::{Fpr, Memory};

pub(crate) type Table = BTreeMap<Fpr, NetLine, Global>;

pub(crate) fn find<'a>(lines: &'a Table, fpr: &Fpr) -> Option<&'a NetLine>
    ensures found { option_copied result ≡ line_at lines.now.entries fpr.now }
{
    lines.get(fpr)
}

/// Whether a certificate with this stamp has a current line.
pub(crate) fn is_done(lines: &Table, fpr: &Fpr, stamp: u64, t: u32) -> bool
    ensures done { result ≡ has_current (marks_of lines.now.entries) t fpr.now stamp }
{
    match find(lines, fpr) {
        Some(line) => line.is_current(stamp, t),
        None => false,
    }
}

/// A law: the fingerprints rise.
pub(crate) fn rises(lines: &Table)
    ensures sorted { IsStrictlySortedBy fpr_cmp (keys_of lines.now.entries) }
{
    let _ = lines.len();
}

/// Sets or replaces a line. On `Memory` nothing changes.
pub(crate) fn put(lines: &mut Table, fpr: Fpr, line: NetLine) -> Result<(), Memory>
    ensures entries { OnOk result (lines.new.entries ≡ insert_entry fpr_cmp lines.old.entries fpr line) }
    ensures same { OnErr result (lines.new.entries ≡ lines.old.entries) }
{
    lines.insert(fpr, line)?;
    Ok(())
}

/// Removes a line. Doesn't allocate.
pub(crate) fn forget(lines: &mut Table, fpr: &Fpr)
    ensures entries { lines.new.entries ≡ remove_entry (is_fpr fpr.now) lines.old.entries }
{
    let _ = lines.remove(fpr);
}

/// Removes the lines of certificates that aren't kept. Doesn't allocate.
pub(crate) fn forget_absent(lines: &mut Table, keyring: &Keyring)
    ensures present { KeepsPresent keyring.now lines.old.entries lines.new.entries }
{
    lines.retain(|fpr, _| keyring.get(fpr).is_some());
}

/// The times in both spans.
pub(crate) fn narrow(window: Span, span: Span) -> Span
    ensures window { IsInside result window }
    ensures span { IsInside result span }
{
    Span {
        from: window.from.max(span.from),
        to: window.to.min(span.to),
    }
}

/// The times that are within the span of every line.
pub(crate) fn window_of(lines: &Table) -> Span
    ensures open { AreOpen result lines.now.entries }
{
    let mut window = Span {
        from: 0,
        to: u32::MAX,
    };
    'lines: for (_, line) in lines.iter() {
        window = narrow(window, line.span());
    }
    window
}
