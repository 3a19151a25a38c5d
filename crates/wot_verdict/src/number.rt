//! The number of a signature: a digest of the signature and of what it is on.
//!
//! It uses the contract of `sha2` and `specs/Number.antt`. Verifiers compute it too (`docs/PROTOCOL.md`), so a
//! change breaks every kept verdict.
ghost use Rattle.std.specs.Prelude.{◌≡◌, ◌<◌, ◌^◌, ◌++◌, ℕ, List, length};
ghost use Rattle.sha2.specs.Hashers.{Holds256};
ghost use Rattle.wot_verdict.specs.Number.{IsBegunOn, IsNumberBy, field, number_of as number_at};

use sha2::{Digest, Sha256};
use wot_types::SigNumber;

fn feed(hasher: &mut Sha256, octets: &[u8])
    requires { length octets.now < 2 ^ 32 }
    ensures { (text : List ℕ) → Holds256 hasher.old text → Holds256 hasher.new (text ++ field octets.now) }
{
    hasher.update(&(octets.len() as u32).to_be_bytes());
    hasher.update(octets);
}

/// A copy of a hasher. It takes no memory.
fn copy_of(hasher: &Sha256) -> Sha256
    ensures { result ≡ hasher.now }
{
    match hasher.clone() {
        Ok(copy) => copy,
        Err(_) => unreachable!(),
    }
}

/// Numbers the signatures on one component. What their numbers share is digested once.
#[derive(Drop)]
pub struct Numbering {
    hasher: Sha256,
}

impl Numbering {
    /// Digests the key and the component. `kind` and `component` are as in [`number_of`].
    #[tactic(auto, unfolding(crate::specs::Number::IsBegunOn))]
    pub fn on(key: &[u8], kind: u8, component: &[u8]) -> Numbering
        requires key { length key.now < 2 ^ 32 }
        requires component { length component.now < 2 ^ 32 }
        ensures begun { IsBegunOn key.now kind component.now result }
    {
        let mut hasher = Sha256::new();
        feed(&mut hasher, b"wot1");
        feed(&mut hasher, key);
        feed(&mut hasher, &[kind]);
        feed(&mut hasher, component);
        Numbering { hasher }
    }

    /// The number of a signature on the component.
    #[tactic(auto, unfolding(crate::specs::Number::IsBegunOn, crate::specs::Number::number_of))]
    pub fn number(&self, signature: &[u8]) -> SigNumber
        requires signature { length signature.now < 2 ^ 32 }
        ensures number { IsNumberBy self.now signature.now result }
    {
        let mut hasher = copy_of(&self.hasher);
        feed(&mut hasher, signature);
        SigNumber(hasher.finalize())
    }
}

/// The number of a signature on a component: SHA-256 (FIPS 180-4) over five fields, each after its length in four
/// octets.
///
/// `kind` is 0 for a signature on the key itself, 1 on a user ID, 2 on a user attribute and 3 on a subkey. `component`
/// is the body of the component that the signature is on, empty for the key itself.
pub fn number_of(key: &[u8], kind: u8, component: &[u8], signature: &[u8]) -> SigNumber
    requires key { length key.now < 2 ^ 32 }
    requires component { length component.now < 2 ^ 32 }
    requires signature { length signature.now < 2 ^ 32 }
    ensures number { result ≡ number_at key.now kind component.now signature.now }
{
    let numbering = Numbering::on(key, kind, component);
    numbering.number(signature)
}
