//! The two numbers that say what a listing depends on. wot_cache counts a view's revisions; the keyring counts its
//! changes.

/// What a listing depends on: the keyring's count of changes, and the revision of its view.
#[derive(Clone, Copy, Debug, PartialEq, Eq)]
pub struct Stamps {
    pub keyring: u64,
    pub view: u64,
}

/// Whether a listing is current; if not, the first stamp that differs, before and now.
#[derive(Clone, Copy, Debug, PartialEq, Eq)]
pub enum Age {
    /// Both stamps are the same.
    Same,
    /// The keyring was changed.
    Keyring(u64, u64),
    /// The view was changed, or closed and opened again.
    View(u64, u64),
}
