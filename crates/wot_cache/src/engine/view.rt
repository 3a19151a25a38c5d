//! Views: opened, moved in time, given roots, closed, and read. Each change of a view is one revision of it, which
//! cursors compare; closing one forgets its network and its answers. A rule about views changes here and in
//! specs/Views.antt.
ghost use Rattle.std.specs.Prelude.{◌≡◌, ◌≢◌, ◌<◌, ◌-◌, ◌^◌, [], length, false, true};
ghost use Rattle.std.specs.Prelude.{None, Err, is_ok, is_some, IfSome, OnOk, OnErr};
ghost use Rattle.std.specs.Option.{option_copied, option_map};
ghost use Rattle.wot_edge.specs.Roots.{IsRoots, root_amount};
ghost use Rattle.wot_cache.specs.Marks.{IsForgotten};
ghost use Rattle.wot_cache.specs.State.{marks_at, OtherMarksStay};
ghost use Rattle.wot_cache.specs.Revisions.{revision_at, IsOneRevision, IsOneClosing};
ghost use Rattle.wot_cache.specs.Views.{view_at, with_time, time_fault, with_root, root_fault, without_view};
ghost use Rattle.wot_cache.specs.Views.{TellsFault};

use crate::view::{NoView, View, ViewFault};
use crate::{Engine, networks, views};
use wot_answers::forget;
use wot_edge::Roots;
use wot_types::{Fpr, Limit, Memory, ViewName};

impl Engine {
    /// Opens a view without roots at this time (in seconds since 1970), or moves the time of an open view, which keeps
    /// its roots. A view that is opened, or whose time changes, gets a new revision. `Full` comes if the number of
    /// views is at its limit.
    pub fn view_time(&mut self, view: &ViewName, t: u32) -> Result<(), ViewFault>
        requires turnable { self.old.revisions.count < 2 ^ 64 - 1 }
        ensures timed { OnOk result (self.new.views ≡ with_time self.old.views view.now t) }
        ensures turned { OnOk result
            (IsOneRevision view.now self.old.views self.old.revisions self.new.views self.new.revisions) }
        ensures fault { TellsFault result (time_fault self.old.keyring.limits self.old.views view.now) }
        ensures kept { OnErr result (self.new ≡ self.old) }
        ensures keyring { self.new.keyring ≡ self.old.keyring }
        ensures marks { self.new.marks ≡ self.old.marks }
        ensures answers { self.new.answers ≡ self.old.answers }
        // A view that is opened has no marks.
        ensures unmarked { view_at self.old.views view.now ≡ None → marks_at self.new view.now ≡ [] }
    {
        if self.time(view) == Some(t) {
            return Ok(());
        }
        if views::move_time(&mut self.networked.views, view, t) {
            self.revisions.raise(view);
            return Ok(());
        }
        if self.networked.keyring.limits().views <= self.networked.views.len() as u64 {
            return Err(ViewFault::Full(Limit::Views));
        }
        self.open(view, t)
    }

    fn open(&mut self, view: &ViewName, t: u32) -> Result<(), ViewFault>
        requires turnable { self.old.revisions.count < 2 ^ 64 - 1 }
        requires closed { view_at self.old.views view.now ≡ None }
        requires room { length self.old.views < self.old.keyring.limits.views }
        ensures opened { OnOk result (self.new.views ≡ with_time self.old.views view.now t) }
        ensures turned { OnOk result
            (IsOneRevision view.now self.old.views self.old.revisions self.new.views self.new.revisions) }
        ensures fault { OnErr result (result ≡ Err ViewFault.Memory) }
        ensures kept { OnErr result (self.new ≡ self.old) }
        ensures keyring { self.new.keyring ≡ self.old.keyring }
        ensures marks { self.new.marks ≡ self.old.marks }
        ensures answers { self.new.answers ≡ self.old.answers }
    {
        self.revisions.begin(view.duplicate(self.alloc)?)?;
        let opened = View {
            time: t,
            roots: Roots::new(self.alloc),
        };
        match views::open(self.alloc, &mut self.networked.views, view, opened) {
            Ok(()) => Ok(()),
            Err(Memory) => {
                self.revisions.take_back(view);
                Err(ViewFault::Memory)
            }
        }
    }

    /// Sets the amount of a root in an open view; 0 removes the root. A root needs no certificate in the keyring. A
    /// view whose roots change gets a new revision. `View` comes if the view isn't open, `Absent` if there is no root
    /// to remove, and `Full` if the number of the view's roots is at its limit.
    pub fn view_root(&mut self, view: &ViewName, fpr: &Fpr, amount: u8) -> Result<(), ViewFault>
        requires turnable { self.old.revisions.count < 2 ^ 64 - 1 }
        ensures rooted { OnOk result (self.new.views ≡ with_root self.old.views view.now fpr.now amount) }
        ensures turned { OnOk result
            (IsOneRevision view.now self.old.views self.old.revisions self.new.views self.new.revisions) }
        ensures fault { TellsFault result
            (root_fault self.old.keyring.limits (view_at self.old.views view.now) fpr.now amount) }
        ensures kept { OnErr result (self.new ≡ self.old) }
        ensures keyring { self.new.keyring ≡ self.old.keyring }
        ensures marks { self.new.marks ≡ self.old.marks }
        ensures answers { self.new.answers ≡ self.old.answers }
    {
        if let Some(fault) = self.root_fault(view, fpr, amount) {
            return Err(fault);
        }
        if self.has_root(view, fpr, amount) {
            return Ok(());
        }
        views::set_amount(&mut self.networked.views, view, *fpr, amount)?;
        self.revisions.raise(view);
        Ok(())
    }

    /// Whether a root has this amount in a view.
    fn has_root(&self, view: &ViewName, fpr: &Fpr, amount: u8) -> bool
        requires allowed { root_fault self.now.keyring.limits (view_at self.now.views view.now) fpr.now amount ≡ None }
        ensures same { result ≡ true → with_root self.now.views view.now fpr.now amount ≡ self.now.views }
        ensures other { result ≡ false →
            IfSome (view_at self.now.views view.now) (λ v. root_amount v.roots fpr.now ≢ amount) }
    {
        match views::find(&self.networked.views, view) {
            Some(open) => {
                let _count = open.roots.len();
                open.roots.get(fpr) == amount
            }
            None => false,
        }
    }

    /// Why a root's amount can't be set, other than out of memory.
    fn root_fault(&self, view: &ViewName, fpr: &Fpr, amount: u8) -> Option<ViewFault>
        ensures fault { result ≡ root_fault self.now.keyring.limits (view_at self.now.views view.now) fpr.now amount }
        ensures roots { IfSome (view_at self.now.views view.now) (λ v. IsRoots v.roots) }
    {
        let Some(view) = views::find(&self.networked.views, view) else {
            return Some(ViewFault::View);
        };
        let count = view.roots.len() as u64;
        if view.roots.get(fpr) > 0 {
            return None;
        }
        if amount == 0 {
            return Some(ViewFault::Absent);
        }
        if self.networked.keyring.limits().roots <= count {
            return Some(ViewFault::Full(Limit::Roots));
        }
        None
    }

    /// Closes a view and forgets its roots. Takes no memory. The counter of revisions doesn't change.
    pub fn view_close(&mut self, view: &ViewName) -> Result<(), NoView>
        ensures closed { OnOk result (self.new.views ≡ without_view self.old.views view.now) }
        ensures turned { OnOk result
            (IsOneClosing view.now self.old.views self.old.revisions self.new.views self.new.revisions) }
        ensures absent { is_ok result ≡ is_some (view_at self.old.views view.now) }
        ensures kept { OnErr result (self.new ≡ self.old) }
        ensures keyring { self.new.keyring ≡ self.old.keyring }
        ensures others { OtherMarksStay view.now self.old self.new }
        ensures forgotten { OnOk result (marks_at self.new view.now ≡ []) }
        ensures answers { OnOk result (IsForgotten view.now self.old.answers self.new.answers) }
    {
        if views::find(&self.networked.views, view).is_none() {
            return Err(NoView);
        }
        views::close(&mut self.networked.views, view);
        networks::forget(&mut self.networked.networks, view);
        forget(&mut self.answers, view);
        self.revisions.forget(view);
        Ok(())
    }

    /// How often views were opened, or changed their time or roots.
    pub fn revisions(&self) -> u64
        ensures revisions { result ≡ self.now.revisions.count }
    {
        self.revisions.count()
    }

    /// The revision at which a view was last opened or changed. `None` exactly if it isn't open.
    pub fn revision(&self, view: &ViewName) -> Option<u64>
        ensures revision { result ≡ revision_at self.now.revisions view.now }
        ensures open { is_some result ≡ is_some (view_at self.now.views view.now) }
    {
        self.revisions.of(view)
    }

    /// The time of an open view, in seconds since 1970.
    pub fn time(&self, view: &ViewName) -> Option<u32>
        ensures time { result ≡ option_map (λ v. v.time) (view_at self.now.views view.now) }
    {
        match views::find(&self.networked.views, view) {
            Some(view) => Some(view.time),
            None => None,
        }
    }

    /// The roots of an open view.
    pub fn roots(&self, view: &ViewName) -> Option<&Roots>
        ensures roots { option_copied result ≡ option_map (λ v. v.roots) (view_at self.now.views view.now) }
    {
        match views::find(&self.networked.views, view) {
            Some(view) => Some(&view.roots),
            None => None,
        }
    }
}
