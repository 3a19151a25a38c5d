//! A list of certificates that contracts see as a list. `assemble` returns one, and `wot_keyring` imports it.
use crate::Cert;
use std::alloc::Global;
use std::marker::Model;

/// Certificates, in the order of their packets.
#[derive(Drop)]
pub struct CertList {
    items: Vec<Cert, Global>,
}

impl Model for CertList {
    ghost use Rattle.std.specs.Prelude.{List};
    ghost use Rattle.wot_component.specs.Certificate.{Certificate};

    ghost Value = { List Certificate };

    ghost view = { λ list. list.items.items };
}

impl CertList {
    ghost use Rattle.std.specs.Prelude.{◌≡◌};

    /// The list of these certificates, without a copy.
    pub fn new(items: Vec<Cert>) -> CertList
        ensures items { result ≡ items.items }
    {
        CertList { items }
    }

    pub fn as_slice(&self) -> &[Cert]
        ensures items { result.now ≡ self.now }
    {
        self.items.as_slice()
    }

    pub fn into_vec(self) -> Vec<Cert>
        ensures items { result.items ≡ self }
    {
        self.items
    }
}
