//! One verdict: whether a signature verifies, and by which key. Outside programs verify signatures; the engine trusts
//! what they report.
use wot_types::Fpr;

/// What a verifier reported about a signature number.
#[derive(Clone, Copy, Debug, PartialEq, Eq)]
pub enum Verdict {
    /// The signature verifies with the key of this fingerprint.
    Good(Fpr),
    /// It verifies with no key.
    Bad,
}
