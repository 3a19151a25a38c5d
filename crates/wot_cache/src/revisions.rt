//! The revisions of views: how often each was opened or changed. Cursors compare revisions to know whether they are
//! stale, so each change of a view has to raise its revision.
ghost use Rattle.std.specs.Prelude.{◌≡◌, ◌<◌, ◌-◌, ◌^◌, None, true, is_some, OnOk, OnErr};
ghost use Rattle.wot_cache.specs.Marks.{IsForgotten};
ghost use Rattle.wot_cache.specs.Revisions.{no_revisions, revision_at, turned, without_revision, Revisions as TheTurns};

use std::alloc::Global;
use std::collections::BTreeMap;
use std::marker::Model;
use wot_types::{Memory, ViewName};

/// The counter of revisions, and for each open view its value when the view was last opened or changed.
#[derive(Drop)]
pub struct Revisions {
    count: u64,
    each: BTreeMap<ViewName, u64, Global>,
}

impl Model for Revisions {
    ghost use Rattle.wot_cache.specs.Revisions.{Revisions as TheTurns};

    ghost Value = { TheTurns };

    ghost view = { λ a. record { count = a.count; each = a.each.entries } };
}

impl Revisions {
    /// No revisions yet.
    pub fn new(alloc: Global) -> Revisions
        ensures none { result ≡ no_revisions }
    {
        Revisions {
            count: 0,
            each: BTreeMap::new(alloc),
        }
    }

    /// The counter's value.
    pub fn count(&self) -> u64
        ensures count { result ≡ self.now.count }
    {
        self.count
    }

    /// The revision of a view; `None` if it has none.
    pub fn of(&self, view: &ViewName) -> Option<u64>
        ensures revision { result ≡ revision_at self.now view.now }
    {
        match self.each.get(view) {
            Some(revision) => Some(*revision),
            None => None,
        }
    }

    /// The first revision of a view, when it is opened. After `Memory` nothing changed.
    pub fn begin(&mut self, view: ViewName) -> Result<(), Memory>
        requires countable { self.old.count < 2 ^ 64 - 1 }
        requires first { revision_at self.old view ≡ None }
        ensures begun { OnOk result (self.new ≡ turned view self.old) }
        ensures kept { OnErr result (self.new ≡ self.old) }
    {
        self.each.insert(view, self.count + 1)?;
        self.count += 1;
        Ok(())
    }

    /// Undoes the first revision of a view, whose opening failed.
    pub fn take_back(&mut self, view: &ViewName)
        requires some { 0 < self.old.count }
        ensures back { (before : TheTurns) → revision_at before view.now ≡ None → self.old ≡ turned view.now before →
            self.new ≡ before }
    {
        let _ = self.each.remove(view);
        self.count -= 1;
    }

    /// The next revision of an open view.
    pub fn raise(&mut self, view: &ViewName)
        requires countable { self.old.count < 2 ^ 64 - 1 }
        requires further { is_some (revision_at self.old view.now) ≡ true }
        ensures raised { self.new ≡ turned view.now self.old }
    {
        self.count += 1;
        match self.each.get_mut(view) {
            Some(revision) => *revision = self.count,
            None => unreachable!(),
        }
    }

    /// Forgets the revision of a view.
    pub fn forget(&mut self, view: &ViewName)
        ensures forgotten { self.new ≡ without_revision view.now self.old }
        ensures gone { IsForgotten view.now self.old.each self.new.each }
    {
        let _ = self.each.remove(view);
    }
}
