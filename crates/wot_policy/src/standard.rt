//! The standard rows: which hash algorithms count, for which signature types, and until when.
//!
//! They use `specs/Standard.antt`. A change here changes answers, and `docs/PROFILE.md`, which states the rows.
ghost use Rattle.std.specs.Prelude.{◌≡◌, ℕ, ◌<◌, slice_index_or};
ghost use Rattle.wot_policy.specs.declared.rows.Row.TheVariants.{Never};
ghost use Rattle.wot_policy.specs.Standard.{IsStandard, found_in, table_with};

use crate::{PolicyRows, Row};

/// The first moment of 1 February 2013, in seconds since 1970.
const FEBRUARY_2013: u32 = 1_359_676_800;

/// The standard rows (RFC 9580, section 9.5, has the numbers). Signatures over SHA-2 and SHA-3 count. Signatures over
/// SHA-1 and RIPEMD-160 count if they were created before February 2013. Revocations over these count whenever they
/// were created, so that no revocation by an old key is lost. Nothing else counts.
pub fn standard_rows() -> PolicyRows
    ensures standard { IsStandard result }
{
    PolicyRows {
        plain: rows_with(Row::Before(FEBRUARY_2013)),
        revoking: rows_with(Row::Always),
    }
}

/// The rows in which SHA-1 and RIPEMD-160 have the row `old`.
fn rows_with(old: Row) -> [Row; 256]
    ensures { (hash : ℕ) → hash < 256 → slice_index_or result hash Never ≡ found_in (table_with old) hash }
{
    let mut rows = [Row::Never; 256];
    for hash in 0..rows.len() {
        rows[hash] = row_with(old, hash);
    }
    rows
}

fn row_with(old: Row, hash: usize) -> Row
    ensures { result ≡ found_in (table_with old) hash }
{
    match hash {
        // SHA-1, RIPEMD-160
        2 | 3 => old,
        // SHA2-256, SHA2-384, SHA2-512, SHA2-224, SHA3-256, SHA3-512
        8 | 9 | 10 | 11 | 12 | 14 => Row::Always,
        _ => Row::Never,
    }
}
