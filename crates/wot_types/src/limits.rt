//! The limits on what a keyring and its views hold, the standard values, and the word for each limit in a refusal.
//!
//! Values and words are defined in `specs/Limits.antt`. A change of a value also changes `docs/PROTOCOL.md` and the
//! model.
ghost use Rattle.std.specs.Prelude.{◌≡◌};
ghost use Rattle.wot_types.specs.Limits.{limit_word, standard_limits};

/// What a keyring and its views may hold at most.
#[derive(Clone, Copy, Debug, PartialEq, Eq)]
pub struct Limits {
    /// The size of one certificate, in octets of its export.
    pub certificate: u64,
    /// The certificates that are kept.
    pub certificates: u64,
    /// The sum of the sizes of all certificates.
    pub octets: u64,
    /// The signatures that are kept.
    pub signatures: u64,
    /// The verdicts that are kept.
    pub verdicts: u64,
    /// The open views.
    pub views: u64,
    /// The roots in one view.
    pub roots: u64,
}

impl Limits {
    /// The program's own limits.
    pub fn standard() -> Limits
        ensures standard { result ≡ standard_limits }
    {
        Limits {
            certificate: 4_194_304,
            certificates: 65_536,
            octets: 268_435_456,
            signatures: 1_048_576,
            verdicts: 2_097_152,
            views: 16,
            roots: 64,
        }
    }
}

/// A limit that a change would exceed. If it would exceed several, the first in this order is reported.
#[derive(Clone, Copy, Debug, PartialEq, Eq)]
pub enum Limit {
    Certificate,
    Certificates,
    Octets,
    Signatures,
    Verdicts,
    Views,
    Roots,
}

impl Limit {
    /// The word for the limit in a refusal.
    pub fn word(self) -> &'static [u8]
        ensures word { result.now ≡ limit_word self }
    {
        match self {
            Limit::Certificate => b"certificate",
            Limit::Certificates => b"certificates",
            Limit::Octets => b"octets",
            Limit::Signatures => b"signatures",
            Limit::Verdicts => b"verdicts",
            Limit::Views => b"views",
            Limit::Roots => b"roots",
        }
    }
}
