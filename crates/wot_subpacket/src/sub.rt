//! A subpacket, borrowed from its area. `wot_signature` decides what each type means; nothing here does.
/// A subpacket of a signature, borrowed from its area.
#[derive(Clone, Copy, Debug, PartialEq, Eq)]
pub struct Sub<'a> {
    /// Whether a reader that doesn't know the type has to reject the signature.
    pub critical: bool,
    /// The type, below 128.
    pub kind: u8,
    /// The octets after the type.
    pub body: &'a [u8],
}
