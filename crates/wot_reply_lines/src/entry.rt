//! The name of an entry of the certificate directory, as `load` has it: a fingerprint, or `trust-root`.
//!
//! It uses `specs/Entry.antt`; a further kind of entry is a row in each function and in `laws`.
ghost use Rattle.std.specs.Prelude.{◌≡◌};
ghost use Rattle.wot_reply_lines.specs.Entry.{entry_of, entry_text};
ghost use Rattle.wot_fields.specs.Pieces.{piece_text};

use wot_fields::Piece;
use wot_types::{Fpr, Name};

/// Reads the name of an entry.
pub fn read_entry(text: &[u8]) -> Option<Name>
    ensures { result ≡ entry_of text.now }
{
    if let Some(fpr) = Fpr::read(text) {
        return Some(Name::Cert(fpr));
    }
    if text == b"trust-root".as_slice() {
        return Some(Name::TrustRoot);
    }
    None
}

/// The piece that spells the name of an entry.
pub fn entry_piece(name: &Name) -> Piece<'_>
    ensures { piece_text result ≡ entry_text name.now }
{
    match name {
        Name::Cert(fpr) => Piece::Key(fpr),
        Name::TrustRoot => Piece::Text(b"trust-root"),
    }
}
