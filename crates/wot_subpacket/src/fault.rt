//! Why octets aren't a list of subpackets. `Area::new` returns it; `wot_signature` takes a signature with such a hashed
//! area as malformed.
/// Why octets aren't a list of subpackets. The first fault from the beginning is returned.
#[derive(Clone, Copy, Debug, PartialEq, Eq)]
pub enum AreaFault {
    /// Octets of a length are missing.
    CutLength,
    /// A length is 0, so there is no type.
    Zero,
    /// Fewer octets are left than the length says.
    CutBody,
}
