//! Pieces that lines are printed from: words, numbers, fingerprints, hexadecimal octets, user IDs.
//!
//! It uses `hex`, `itoa` and `specs/Pieces.antt`. All that is printed goes through `put_pieces`, which appends
//! everything or nothing.
ghost use Rattle.std.specs.Prelude.{◌≡◌, ◌∷◌, []};
ghost use Rattle.std.specs.Fmt.{decimal};
ghost use Rattle.hex.specs.Hex.{encode_lower};
ghost use Rattle.wot_fields.specs.Appends.{Appends};
ghost use Rattle.wot_fields.specs.Pieces.{piece_text, pieces_text};
ghost use Rattle.wot_fields.specs.Uid.{escape, escaped};

use wot_types::{Fpr, Memory, SigNumber};

/// A part of a line that is printed.
#[derive(Clone, Copy)]
pub enum Piece<'a> {
    /// These octets as they are.
    Text(&'a [u8]),
    /// A decimal number.
    Decimal(u64),
    /// The digits of a fingerprint.
    Key(&'a Fpr),
    /// The digits of a signature number.
    Signature(&'a SigNumber),
    /// Two digits for each octet.
    Hex(&'a [u8]),
    /// A user ID with its escapes.
    Uid(&'a [u8]),
}

/// Appends octets. As with every call of this file, `out` is unchanged after `Memory`, which occurs only if the
/// capacity was too small, and the capacity never shrinks.
pub fn put_text(text: &[u8], out: &mut Vec<u8>) -> Result<(), Memory>
    ensures { Appends text.now out.old out.new result }
{
    out.extend_from_slice(text)?;
    Ok(())
}

fn put_decimal(number: u64, out: &mut Vec<u8>) -> Result<(), Memory>
    ensures { Appends (decimal number) out.old out.new result }
{
    let mut buffer = itoa::Buffer::new();
    put_text(buffer.format(number).as_bytes(), out)
}

fn put_octet_digits(octet: u8, out: &mut Vec<u8>) -> Result<(), Memory>
    ensures { Appends (encode_lower (octet ∷ [])) out.old out.new result }
{
    let mut digits = [0u8; 2];
    let _ = hex::encode_to_slice([octet].as_slice(), &mut digits);
    put_text(&digits, out)
}

fn put_hex(octets: &[u8], out: &mut Vec<u8>) -> Result<(), Memory>
    ensures { Appends (encode_lower octets.now) out.old out.new result }
{
    let start = out.len();
    for octet in octets {
        if let Err(fault) = put_octet_digits(*octet, out) {
            out.truncate(start);
            return Err(fault);
        }
    }
    Ok(())
}

/// `\x` and two digits.
fn escape_of(octet: u8) -> [u8; 4]
    ensures { result ≡ 92 ∷ 120 ∷ encode_lower (octet ∷ []) }
{
    let mut digits = [0u8; 2];
    let _ = hex::encode_to_slice([octet].as_slice(), &mut digits);
    [b'\\', b'x', digits[0], digits[1]]
}

fn put_escape(octet: u8, out: &mut Vec<u8>) -> Result<(), Memory>
    ensures { Appends (escape octet) out.old out.new result }
{
    if octet == b'\\' {
        return put_text(b"\\\\", out);
    }
    if 0x20 <= octet && octet <= 0x7e {
        return put_text(&[octet], out);
    }
    put_text(&escape_of(octet), out)
}

#[tactic(auto, unfolding(crate::specs::Uid::escaped))]
fn put_uid(octets: &[u8], out: &mut Vec<u8>) -> Result<(), Memory>
    ensures { Appends (escaped octets.now) out.old out.new result }
{
    let start = out.len();
    for octet in octets {
        if let Err(fault) = put_escape(*octet, out) {
            out.truncate(start);
            return Err(fault);
        }
    }
    Ok(())
}

fn put_piece(piece: &Piece<'_>, out: &mut Vec<u8>) -> Result<(), Memory>
    ensures { Appends (piece_text piece.now) out.old out.new result }
{
    match piece {
        Piece::Text(text) => put_text(text, out),
        Piece::Decimal(number) => put_decimal(*number, out),
        Piece::Key(fpr) => fpr.print(out),
        Piece::Signature(number) => number.print(out),
        Piece::Hex(octets) => put_hex(octets, out),
        Piece::Uid(octets) => put_uid(octets, out),
    }
}

/// Appends pieces, one after another.
pub fn put_pieces(pieces: &[Piece<'_>], out: &mut Vec<u8>) -> Result<(), Memory>
    ensures { Appends (pieces_text pieces.now) out.old out.new result }
{
    let start = out.len();
    for piece in pieces {
        if let Err(fault) = put_piece(piece, out) {
            out.truncate(start);
            return Err(fault);
        }
    }
    Ok(())
}
