//! What a search looked at, as it was then: each fingerprint with its stamp in the keyring and its amount as a root. As
//! long as both are unchanged, so is the answer.
ghost use Rattle.std.specs.Prelude.{◌≡◌, true, map, IfOk};
ghost use Rattle.wot_answers.specs.Looked.{AreStill, look};

use std::alloc::Global;
use wot_edge::Roots;
use wot_keyring::Keyring;
use wot_search::Consulted;
use wot_types::{Fpr, Memory};

/// A consulted fingerprint, with its stamp in the keyring and its amount as a root (0 if it is none).
#[derive(Clone, Copy)]
pub struct Looked {
    pub fpr: Fpr,
    pub stamp: u64,
    pub amount: u8,
}

/// Whether all stamps and root amounts are unchanged.
pub fn are_still(looked: &[Looked], keyring: &Keyring, roots: &Roots) -> bool
    ensures still { result ≡ true → AreStill keyring.now roots.now looked.now }
{
    let mut rest = looked;
    'rest: while let Some((first, later)) = rest.split_first() {
        if keyring.stamp(&first.fpr) != first.stamp || roots.get(&first.fpr) != first.amount {
            return false;
        }
        rest = later;
    }
    true
}

/// The consulted fingerprints, each with its stamp and its amount as a root.
pub fn look_at(
    alloc: Global,
    consulted: &Consulted,
    keyring: &Keyring,
    roots: &Roots,
) -> Result<Vec<Looked>, Memory>
    ensures looked { IfOk result (λ looked. looked.items ≡ map (look keyring.now roots.now) consulted.now) }
{
    let mut looked = Vec::new(alloc);
    'fprs: for fpr in consulted.iter() {
        let stamp = keyring.stamp(&fpr);
        let amount = roots.get(&fpr);
        looked.push(Looked { fpr, stamp, amount })?;
    }
    Ok(looked)
}
