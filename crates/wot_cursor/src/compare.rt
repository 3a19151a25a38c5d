//! Whether a cursor is stale: the stamps that it started with, compared with the current ones. wot_machine replies with
//! the pair of numbers that differ.
ghost use Rattle.std.specs.Prelude.{◌≡◌};
ghost use Rattle.wot_cursor.specs.Age.{age_of};

use crate::stamps::{Age, Stamps};

/// Compares the stamps at the start of a listing with the current ones.
pub fn age(was: Stamps, now: Stamps) -> Age
    ensures first { result ≡ age_of was now }
{
    if was.keyring != now.keyring {
        return Age::Keyring(was.keyring, now.keyring);
    }
    if was.view != now.view {
        return Age::View(was.view, now.view);
    }
    Age::Same
}
