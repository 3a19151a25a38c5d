//! The map of views, one small call for each use of it. `engine` works on it through these calls only.
ghost use Rattle.std.specs.Prelude.{◌≡◌, OnOk, OnErr, is_some, true};
ghost use Rattle.std.specs.Option.{option_copied};
ghost use Rattle.std.specs.BTreeMap.{insert_entry};
ghost use Rattle.wot_types.specs.ViewName.{view_name_cmp};
ghost use Rattle.wot_cache.specs.Marks.{IsForgotten};
ghost use Rattle.wot_cache.specs.Views.{view_at, without_view, MovesTime, SetsAmount};

use crate::view::View;
use std::alloc::Global;
use std::collections::BTreeMap;
use wot_types::{Fpr, Memory, ViewName};

pub type Views = BTreeMap<ViewName, View, Global>;

/// The view of this name, if it is open.
pub fn find<'a>(views: &'a Views, name: &ViewName) -> Option<&'a View>
    ensures found { option_copied result ≡ view_at views.now.entries name.now }
{
    views.get(name)
}

/// Opens a view that isn't open.
pub fn open(alloc: Global, views: &mut Views, name: &ViewName, view: View) -> Result<(), Memory>
    ensures opened { OnOk result (views.new.entries ≡ insert_entry view_name_cmp views.old.entries name.now view) }
    ensures kept { OnErr result (views.new.entries ≡ views.old.entries) }
{
    views.insert(name.duplicate(alloc)?, view)?;
    Ok(())
}

/// Moves the time of an open view; false if it isn't open.
pub fn move_time(views: &mut Views, name: &ViewName, t: u32) -> bool
    ensures moved { MovesTime result name.now t views.old.entries views.new.entries }
{
    match views.get_mut(name) {
        Some(view) => {
            view.time = t;
            true
        }
        None => false,
    }
}

/// Sets a root's amount in an open view; 0 removes the root.
pub fn set_amount(views: &mut Views, name: &ViewName, fpr: Fpr, amount: u8) -> Result<(), Memory>
    requires open { is_some (view_at views.old.entries name.now) ≡ true }
    ensures set { OnOk result (SetsAmount name.now fpr amount views.old.entries views.new.entries) }
    ensures kept { OnErr result (views.new.entries ≡ views.old.entries) }
{
    match views.get_mut(name) {
        Some(view) => view.roots.set(fpr, amount),
        None => unreachable!(),
    }
}

/// Closes a view.
pub fn close(views: &mut Views, name: &ViewName)
    ensures closed { views.new.entries ≡ without_view views.old.entries name.now }
    ensures gone { IsForgotten name.now views.old.entries views.new.entries }
{
    let _ = views.remove(name);
}
