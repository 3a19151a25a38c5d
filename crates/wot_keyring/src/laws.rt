//! Laws of the definitions. Each function does nothing: its contract is the law. wot_network and wot_cache call them to
//! use that "later" is an order.
ghost use Rattle.wot_keyring_spec.specs.Keyring.{Keyring};
ghost use Rattle.wot_keyring_spec.specs.Later.{IsLater};

/// A keyring is later than itself, and "later" is transitive.
pub fn later_is_order()
    ensures itself { (k : Keyring) → IsLater k k }
    ensures further { (old mid new : Keyring) → IsLater old mid → IsLater mid new → IsLater old new }
{}
