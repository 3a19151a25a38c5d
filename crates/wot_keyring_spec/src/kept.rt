//! A certificate as the keyring keeps it, with its stamp, and how one is found and removed. wot_network compares stamps
//! to find what is stale. The rooms of the keyring look certificates up here alone.
ghost use Rattle.std.specs.Prelude.{◌≡◌};
ghost use Rattle.std.specs.Option.{option_copied};
ghost use Rattle.std.specs.Map.{lookup, remove_entry};
ghost use Rattle.wot_keyring_spec.specs.Keyring.{is_fpr};
ghost use Rattle.wot_keyring_spec.specs.Kept.{AreSortedByFpr};

use std::alloc::Global;
use std::collections::BTreeMap;
use wot_cert::Cert;
use wot_types::Fpr;

/// A certificate of the keyring. Its stamp is the count of changes at which it was last altered.
#[derive(Drop)]
pub struct Kept {
    pub cert: Cert,
    pub stamp: u64,
}

/// The certificate of a fingerprint, with its stamp.
pub fn find<'a>(certs: &'a BTreeMap<Fpr, Kept, Global>, fpr: &Fpr) -> Option<&'a Kept>
    ensures found { option_copied result ≡ lookup (is_fpr fpr.now) certs.now.entries }
{
    certs.get(fpr)
}

/// Removes the certificate of a fingerprint.
pub fn take_out(certs: &mut BTreeMap<Fpr, Kept, Global>, fpr: &Fpr)
    ensures out { certs.new.entries ≡ remove_entry (is_fpr fpr.now) certs.old.entries }
    ensures sorted { AreSortedByFpr certs.new.entries }
{
    let _ = certs.remove(fpr);
}
