//! What a policy is asked, and the tables of rows that answer it.
//!
//! It uses `specs/Admits.antt`, which follows RFC 9580, sections 5.2.1 and 9.5. `standard` has the rows of the
//! program; `docs/PROFILE.md` explains them.
ghost use Rattle.std.specs.Prelude.{◌≡◌};
ghost use Rattle.wot_policy.specs.Admits.{admits as admits_by, is_revoking as takes_back};

/// Revocations of a key, of a subkey and of a certification (RFC 9580, section 5.2.1).
const KEY_REVOCATION: u8 = 0x20;

const SUBKEY_REVOCATION: u8 = 0x28;

const CERTIFICATION_REVOCATION: u8 = 0x30;

/// What a policy is asked about a signature.
#[derive(Clone, Copy, Debug, PartialEq, Eq)]
pub struct Ask {
    /// The signature type (RFC 9580, section 5.2.1).
    pub kind: u8,
    /// The number of its hash algorithm (RFC 9580, section 9.5).
    pub hash: u8,
    /// When it was created, in seconds since 1970.
    pub made: u32,
}

/// For which creation times a hash algorithm counts.
#[derive(Clone, Copy, Debug, PartialEq, Eq)]
pub enum Row {
    Never,
    /// Only before this moment, in seconds since 1970.
    Before(u32),
    Always,
}

/// The rows that decide which signatures count. Item h of either list is the row of hash algorithm h.
#[derive(Clone, Copy, Debug, PartialEq, Eq)]
pub struct PolicyRows {
    /// For signature types other than revocations.
    pub plain: [Row; 256],
    /// For revocations of a key, a subkey or a certification.
    pub revoking: [Row; 256],
}

/// Whether signatures of this type are revocations.
fn is_revoking(kind: u8) -> bool
    ensures { result ≡ takes_back kind }
{
    matches!(
        kind,
        KEY_REVOCATION | SUBKEY_REVOCATION | CERTIFICATION_REVOCATION
    )
}

/// Whether the rows admit what is asked.
pub fn admits(rows: &PolicyRows, ask: Ask) -> bool
    ensures by_row { result ≡ admits_by rows.now ask }
{
    let for_kind = if is_revoking(ask.kind) {
        &rows.revoking
    } else {
        &rows.plain
    };
    match for_kind[ask.hash as usize] {
        Row::Never => false,
        Row::Before(moment) => ask.made < moment,
        Row::Always => true,
    }
}
