//! The network and its refresh. The contract of `refresh` says both that the result is the certification network of the
//! keyring at `t` and that only stale certificates cost anything. wot_cache uses these two facts.
ghost use Rattle.std.specs.Prelude.{◌≡◌, ◌≤◌, ◌+◌, ℕ, List, min, [], OnOk, OnErr};
ghost use Rattle.std.specs.Option.{option_copied};
ghost use Rattle.wot_keyring_spec.specs.Keyring.{Keyring as KeyringOf, certificates_in};
ghost use Rattle.wot_network.specs.Local.{IsLocal};
ghost use Rattle.wot_edge.specs.Lawful.{AreEntries};
ghost use Rattle.wot_edge.specs.Record.{IsRecord};
ghost use Rattle.wot_network.specs.Net.{Net, AreLawful, AreMarksOf, Fits, IsRight, StayCurrent};
ghost use Rattle.wot_network.specs.Net.{line_at, marks_of, stale_edges, stale_signatures, network_for};

use crate::laws::{record_is_lawful, records_agree};
use crate::line::NetLine;
use crate::refreshing::{Moment, drop_absent, look_at_stale, ordered};
use crate::roads::NetRoads;
use crate::table::{Table, find};
use std::alloc::Global;
use std::collections::BTreeMap;
use std::marker::Model;
use wot_cert::Span;
use wot_keyring::Keyring;
use wot_types::{Fpr, Memory, Steps};

/// The certification network of a keyring at a time: the edges into each certificate, and its standing.
#[derive(Drop)]
pub struct Network {
    time: u32,
    /// The keyring's count of changes at the last refresh.
    count: u64,
    /// Times that are within the span of every line.
    window: Span,
    lines: Table,
    alloc: Global,
}

impl Model for Network {
    ghost use Rattle.wot_edge.specs.Lawful.{AreEntries};
    ghost use Rattle.wot_edge.specs.Record.{IsRecord};
    ghost use Rattle.wot_network.specs.Net.{Net, AreLawful};
    ghost use Rattle.wot_network.specs.Refreshing.{AreOpen};

    ghost Value = { Net };

    ghost view = { λ a. record { time = a.time; count = a.count; lines = a.lines.entries } };

    ghost invariant = { λ a. AreLawful a.lines.entries × AreOpen a.window a.lines.entries };
}

impl Network {
    ghost use Rattle.wot_network.specs.Roads.{present_of};

    /// An empty network with the time `t`. It fits every keyring. Doesn't allocate.
    pub fn new(alloc: Global, t: u32) -> Network
        ensures time { result.time ≡ t }
        ensures empty { (result.count ≡ 0) × (result.lines ≡ []) }
        ensures fits { (k : KeyringOf) → Fits result k }
    {
        Network {
            time: t,
            count: 0,
            window: Span {
                from: 0,
                to: u32::MAX,
            },
            lines: BTreeMap::new(alloc),
            alloc,
        }
    }

    /// The time of the last refresh.
    pub fn time(&self) -> u32
        ensures time { result ≡ self.now.time }
    {
        self.time
    }

    /// Brings the network up to date with this keyring at `t`. Lines are made only for stale certificates: those
    /// altered since their line was made, those whose span doesn't include `t`, and those without a line. If `t` is
    /// within all spans and the keyring's log goes back to the last refresh, no other certificate is looked at. After
    /// `Memory` each line still holds for its stamp and its span, and the network keeps the time and the count of the
    /// last refresh.
    pub fn refresh(&mut self, keyring: &Keyring, t: u32, steps: &mut Steps) -> Result<(), Memory>
        requires fits { Fits self.old keyring.now }
        ensures right { OnOk result (IsRight self.new keyring.now t) }
        ensures fits { Fits self.new keyring.now }
        ensures marks { OnOk result (AreMarksOf (marks_of self.new.lines) keyring.now t) }
        ensures stay { StayCurrent keyring.now t (marks_of self.old.lines) (marks_of self.new.lines) }
        ensures kept { OnErr result ((self.new.time ≡ self.old.time) × (self.new.count ≡ self.old.count)) }
        ensures made_least { OnOk result (
            min (steps.old.made + stale_edges (marks_of self.old.lines) t keyring.now) u64.MAX ≤ steps.new.made) }
        ensures made_most { steps.new.made ≤ steps.old.made + stale_signatures (marks_of self.old.lines) t keyring.now }
        ensures never_less { steps.old.made ≤ steps.new.made }
    {
        ordered(keyring);
        look_at_stale(
            self.alloc,
            &mut self.lines,
            &mut self.window,
            self.count,
            &Moment { keyring, t },
            steps,
        )?;
        drop_absent(&mut self.lines, keyring, t);
        self.time = t;
        self.count = keyring.changes();
        Ok(())
    }

    /// The roads of the network, which has to be up to date with this keyring.
    pub fn roads<'a>(&'a self, keyring: &'a Keyring) -> NetRoads<'a>
        requires right { IsRight self.now keyring.now self.now.time }
        ensures keyring { (present_of result).keyring ≡ keyring.now }
        ensures time { (present_of result).time ≡ self.now.time }
        ensures entries { (u : List ℕ) → AreEntries (network_for (present_of result) u) }
        ensures lawful { (u : List ℕ) → IsRecord (network_for (present_of result) u) }
        ensures local { IsLocal (certificates_in keyring.now) keyring.now.verdicts self.now.time
            (network_for (present_of result)) }
    {
        record_is_lawful();
        records_agree();
        ordered(keyring);
        NetRoads {
            network: self,
            keyring,
        }
    }

    /// The line of the certificate of a fingerprint.
    pub(crate) fn line(&self, fpr: &Fpr) -> Option<&NetLine>
        ensures found { option_copied result ≡ line_at self.now.lines fpr.now }
        ensures lawful { AreLawful self.now.lines }
    {
        find(&self.lines, fpr)
    }

    pub(crate) fn allocator(&self) -> Global {
        self.alloc
    }
}
