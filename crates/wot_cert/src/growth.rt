//! The log of a merge in place: what was inserted, and where. `wot_component` writes and reads its steps, and
//! `wot_keyring` keeps it until an import can't fail any more.
ghost use Rattle.std.specs.Prelude.{◌≡◌, []};

use crate::Adds;
use std::alloc::Global;
use wot_component::PartStep;

/// What a certificate grew by, in the order of insertion: enough to undo it without memory.
#[derive(Drop)]
pub struct Growth {
    /// How many components and signatures are new.
    pub items: u64,
    pub(crate) before: Adds,
    pub(crate) direct: Vec<usize>,
    pub(crate) user_ids: Vec<PartStep>,
    pub(crate) attributes: Vec<PartStep>,
    pub(crate) subkeys: Vec<PartStep>,
}

impl Growth {
    /// An empty log for a certificate with these totals. Takes no memory.
    pub(crate) fn new(alloc: Global, before: Adds) -> Growth
        ensures direct { result.direct.items ≡ [] }
        ensures user_ids { result.user_ids.items ≡ [] }
        ensures attributes { result.attributes.items ≡ [] }
        ensures subkeys { result.subkeys.items ≡ [] }
        ensures before { result.before ≡ before }
    {
        Growth {
            items: 0,
            before,
            direct: Vec::new(alloc),
            user_ids: Vec::new(alloc),
            attributes: Vec::new(alloc),
            subkeys: Vec::new(alloc),
        }
    }
}
