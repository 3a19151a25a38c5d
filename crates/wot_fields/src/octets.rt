//! A list of octets, made from a vector and turned back into one without a copy. Contracts see it as a list. The octets
//! of `import`, `export` and `dump` are such lists.
ghost use Rattle.std.specs.Prelude.{◌≡◌, [], ◌∷◌, ◌++◌, OnOk, OnErr, IfOk};
ghost use Rattle.wot_fields.specs.Fields.{octets_of_hex};

use hex::FromHexError;
use std::alloc::Global;
use std::marker::Model;
use wot_types::Memory;

/// A list of octets.
#[derive(Drop)]
pub struct Octets {
    octets: Vec<u8>,
}

impl Model for Octets {
    ghost use Rattle.std.specs.Prelude.{List, ℕ};

    ghost Value = { List ℕ };

    ghost view = { λ a. a.octets.items };
}

impl Octets {
    /// No octets.
    pub fn new(alloc: Global) -> Octets
        ensures none { result ≡ [] }
    {
        Octets {
            octets: Vec::new(alloc),
        }
    }

    /// These octets, without a copy.
    pub fn from_vec(octets: Vec<u8>) -> Octets
        ensures same { result ≡ octets.items }
    {
        Octets { octets }
    }

    /// The octets, without a copy.
    pub fn into_vec(self) -> Vec<u8>
        ensures same { result.items ≡ self }
    {
        let Octets { octets } = self;
        octets
    }

    /// Appends one octet. After `Memory` the list is unchanged.
    pub fn push(&mut self, octet: u8) -> Result<(), Memory>
        ensures pushed { OnOk result (self.new ≡ self.old ++ octet ∷ []) }
        ensures kept { OnErr result (self.new ≡ self.old) }
    {
        self.octets.push(octet)?;
        Ok(())
    }

    /// The octets in order.
    pub fn items(&self) -> &[u8]
        ensures whole { result.now ≡ self.now }
    {
        self.octets.as_slice()
    }
}

/// Reads octets, of two hexadecimal digits each, in either case.
pub fn read_hex(alloc: Global, digits: &[u8]) -> Result<Option<Octets>, Memory>
    ensures { IfOk result (λ octets. octets ≡ octets_of_hex digits.now) }
{
    match hex::decode(alloc, digits) {
        Ok(octets) => Ok(Some(Octets::from_vec(octets))),
        Err(FromHexError::OutOfMemory) => Err(Memory),
        Err(_) => Ok(None),
    }
}
