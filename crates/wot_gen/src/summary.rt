//! The three lines that are printed about a run of the script. wot_engine writes them instead of the replies; benches
//! and tests compare them with those of other programs.
ghost use Rattle.std.specs.Prelude.{◌≡◌, ◌++◌, OnErr, OnOk};
ghost use Rattle.hex.specs.Hex.{encode_lower};
ghost use Rattle.wot_gen.specs.Summary.{summary_text};

use std::alloc::Global;
use wot_types::Memory;

/// Appends the digits of a digest.
fn put_digits(digest: &[u8; 32], text: &mut Vec<u8>) -> Result<(), Memory>
    ensures { OnOk result (text.new.items ≡ text.old.items ++ encode_lower digest.now) }
{
    let mut digits = [0u8; 64];
    let _ = hex::encode_to_slice(digest.as_slice(), &mut digits);
    text.extend_from_slice(&digits)?;
    Ok(())
}

/// What is said about a run of the generated script.
#[derive(Clone, Copy)]
pub struct Summary {
    pub start: u64,
    pub count: u32,
    /// How many lines the script has.
    pub lines: u64,
    /// The sum of the amounts in the replies to its questions.
    pub amounts: u64,
    /// The SHA-256 of the transcript.
    pub digest: [u8; 32],
}

/// Appends the three lines: one with the start, the count and the number of lines, one with the sum of the amounts, and
/// one with the digest in 64 digits. On `Memory` `out` is unchanged.
pub fn put_summary(alloc: Global, summary: &Summary, out: &mut Vec<u8>) -> Result<(), Memory>
    ensures put { OnOk result (out.new.items ≡ out.old.items ++ summary_text summary.now) }
    ensures kept { OnErr result (out.new.items ≡ out.old.items) }
{
    let (start, count) = (summary.start, summary.count);
    let (lines, amounts) = (summary.lines, summary.amounts);
    let numbers = format!(in alloc;
        "gen {start} {count} lines {lines}\namounts {amounts}\ntranscript "
    )?;
    let mut text = Vec::from_slice(alloc, numbers.as_bytes())?;
    put_digits(&summary.digest, &mut text)?;
    text.push(b'\n')?;
    out.extend_from_slice(&text)?;
    Ok(())
}
