//! User IDs as values: contracts see the list of octets. Nothing parses them. Certificates, questions, listings and
//! cursors hold them, so a change here proves all of these again.
ghost use Rattle.std.specs.Prelude.{◌≡◌, IfOk};

use crate::Memory;
use std::alloc::Global;
use std::marker::Model;

/// A user ID (RFC 9580, section 5.11): any octets, mostly a name and a mail address in UTF-8.
#[derive(Debug, Drop)]
pub struct UserId {
    octets: Vec<u8>,
}

impl Model for UserId {
    ghost use Rattle.std.specs.Prelude.{List, ℕ};

    ghost Value = { List ℕ };

    ghost view = { λ a. a.octets.items };
}

impl UserId {
    /// A copy of these octets.
    pub fn new(alloc: Global, octets: &[u8]) -> Result<UserId, Memory>
        ensures copied { IfOk result (λ uid. uid ≡ octets.now) }
    {
        let octets = Vec::from_slice(alloc, octets)?;
        Ok(UserId { octets })
    }

    /// The octets.
    pub fn octets(&self) -> &[u8]
        ensures whole { result.now ≡ self.now }
    {
        self.octets.as_slice()
    }
}

impl PartialEq for UserId {
    ghost use Rattle.std.specs.Prelude.{nat_eq};
    ghost use Rattle.std.specs.Cmp.Lexicographic.{pointwise};
    ghost use Rattle.std.specs.Cmp.{partial_equiv_from_equiv};
    ghost use Rattle.std.proofs.lemmas.Cmp.{nat_list_eq_equiv};

    ghost eq = { pointwise nat_eq };

    ghost laws = { partial_equiv_from_equiv nat_list_eq_equiv };

    fn eq(&self, other: &UserId) -> bool {
        self.octets() == other.octets()
    }
}

impl Eq for UserId {
    ghost use Rattle.std.proofs.lemmas.Cmp.{nat_list_eq_equiv};

    ghost laws = { nat_list_eq_equiv };
}
