//! The standing of a key as a value. `governing` makes it, `usable` decides by it, and `wot_explain` finds its words by
//! it.
/// Whether a key stands at a time, and what ends it.
#[derive(Clone, Copy, Debug, PartialEq, Eq)]
pub struct Standing {
    /// Whether a self-signature governs it.
    pub has: bool,
    /// When the key was created, in seconds since 1970.
    pub created: u32,
    /// When it expires by the governing signature; `None` if it doesn't, or no signature governs.
    pub end: Option<u64>,
    /// Whether it is hard revoked.
    pub hard: bool,
    /// When the first soft revocation was created, if there is one.
    pub soft: Option<u32>,
}
