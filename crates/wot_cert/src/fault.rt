//! The errors of this crate: why packets aren't certificates, and why two certificates weren't merged.
//!
//! `first_fault` and `Cert` return them; `docs/PROTOCOL.md` has the refusals that `wot_machine` makes of them.
/// Why a list of packets isn't a list of certificates.
#[derive(Clone, Copy, Debug, PartialEq, Eq)]
pub enum CertFault {
    /// A compressed packet.
    Compressed,
    /// A secret key, or a secret subkey.
    Secret,
    /// A packet of any other type that has no place in a certificate: its type and its offset.
    Kind(u8, usize),
    /// A signature or a component before the first key: its offset.
    Order(usize),
    /// No key at all, and no other fault.
    Empty,
    /// No memory was found.
    Memory,
}

/// Why two certificates weren't merged.
#[derive(Clone, Copy, Debug, PartialEq, Eq)]
pub enum MergeFault {
    /// Their key bodies differ.
    Clash,
    /// No memory was found.
    Memory,
}
