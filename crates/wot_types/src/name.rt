//! The names of entries in a certificate directory. `wot_certd` says which file an entry is; `load` and `store` of
//! `wot_machine` use these names.
use crate::Fpr;

/// The name of an entry of a certificate directory.
#[derive(Clone, Copy, Debug, PartialEq, Eq, PartialOrd, Ord)]
pub enum Name {
    /// The certificate with this fingerprint.
    Cert(Fpr),
    /// The special name `trust-root`.
    TrustRoot,
}
