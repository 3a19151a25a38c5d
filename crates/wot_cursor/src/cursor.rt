//! One cursor. It only changes by `advance`, which wot_machine calls after a piece was written.
ghost use Rattle.std.specs.Prelude.{◌≡◌, Some};
ghost use Rattle.std.specs.Option.{option_copied};
ghost use Rattle.wot_cursor.specs.Cursors.{begun};

use crate::stamps::Stamps;
use std::marker::Model;
use wot_types::{Place, ViewName};

/// How far one listing has come, and what it lists.
#[derive(Drop)]
pub struct Cursor {
    view: ViewName,
    wanted: u32,
    stamps: Stamps,
    place: Option<Place>,
}

impl Model for Cursor {
    ghost use Rattle.wot_cursor.specs.Cursors.{Cursor as TheCursor};

    ghost Value = { TheCursor };

    ghost view = { λ a. record { view = a.view; wanted = a.wanted; stamps = a.stamps; place = a.place } };
}

impl Cursor {
    /// A cursor before the first of the bindings that reach the wanted amount in a view.
    pub(crate) fn new(view: ViewName, wanted: u32, stamps: Stamps) -> Cursor
        ensures begun { result ≡ begun view wanted stamps }
    {
        Cursor {
            view,
            wanted,
            stamps,
            place: None,
        }
    }

    /// The view whose bindings are listed.
    pub fn view(&self) -> &ViewName
        ensures view { result.now ≡ self.now.view }
    {
        &self.view
    }

    /// The amount that a binding has to reach.
    pub fn wanted(&self) -> u32
        ensures wanted { result ≡ self.now.wanted }
    {
        self.wanted
    }

    /// The stamps at the start of the listing.
    pub fn stamps(&self) -> Stamps
        ensures stamps { result ≡ self.now.stamps }
    {
        self.stamps
    }

    /// The last binding that was listed. `None` before the first.
    pub fn place(&self) -> Option<&Place>
        ensures place { option_copied result ≡ self.now.place }
    {
        self.place.as_ref()
    }

    /// Makes the binding the last one that was listed.
    pub(crate) fn advance(&mut self, place: Place)
        ensures advanced { self.new ≡ record self.old { place = Some place } }
    {
        self.place = Some(place);
    }
}
