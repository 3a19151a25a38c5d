//! A binding as a place in a listing. `wot_explain` continues a listing behind one; `wot_cursor` keeps one for each
//! cursor.
use crate::{Fpr, UserId};

/// The place in a listing of bindings right after this user ID of this key.
#[derive(Debug, Drop, PartialEq, Eq)]
pub struct Place {
    pub fpr: Fpr,
    pub uid: UserId,
}
