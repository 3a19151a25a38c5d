//! First lines that several replies have: with a count, with a number, stale, refused.
//!
//! It uses `wot_fields`, `lines` and `specs/Lines.antt`. `wot_script` prints each reply with one of these, or with
//! pieces of its own.
ghost use Rattle.std.specs.Prelude.{◌∷◌, [], ◌++◌, codes};
ghost use Rattle.std.specs.Fmt.{decimal};
ghost use Rattle.std.specs.List.{flat_map};
ghost use Rattle.wot_reply_lines.specs.Lines.{refused, stale};
ghost use Rattle.wot_fields.specs.Appends.{Appends};
ghost use Rattle.wot_fields.specs.Texts.{joined_line};

use crate::Lines;
use crate::lines::{Printed, put_headed};
use wot_fields::{Piece, put_pieces};
use wot_types::Memory;

/// Appends a line with a word and a count, and the lines after it.
pub fn put_counted<T: Printed>(
    word: &[u8],
    count: u64,
    lines: &Lines<T>,
    out: &mut Vec<u8>,
) -> Result<(), Memory>
    ensures { Appends (joined_line (word.now ∷ decimal count ∷ []) ++ flat_map T.text lines.now)
        out.old out.new result }
{
    use Piece::{Decimal, Text};
    put_headed(&[Text(word), Decimal(count), Text(b"\n")], lines, out)
}

/// Appends a line with words and a number.
pub fn put_number(words: &[u8], number: u64, out: &mut Vec<u8>) -> Result<(), Memory>
    ensures { Appends (joined_line (words.now ∷ decimal number ∷ [])) out.old out.new result }
{
    use Piece::{Decimal, Text};
    put_pieces(&[Text(words), Decimal(number), Text(b"\n")], out)
}

/// Appends a line that says what is stale: the word, its number then, and its number now.
pub fn put_stale(word: &[u8], was: u64, now: u64, out: &mut Vec<u8>) -> Result<(), Memory>
    ensures { Appends (stale word.now was now) out.old out.new result }
{
    use Piece::{Decimal, Text};
    put_pieces(
        &[
            Text(b"stale "),
            Text(word),
            Decimal(was),
            Text(b" "),
            Decimal(now),
            Text(b"\n"),
        ],
        out,
    )
}

/// Appends a refusal of one word.
pub fn put_refused(word: &[u8], out: &mut Vec<u8>) -> Result<(), Memory>
    ensures { Appends (refused (word.now ∷ [])) out.old out.new result }
{
    put_pieces(
        &[
            Piece::Text(b"refused "),
            Piece::Text(word),
            Piece::Text(b"\n"),
        ],
        out,
    )
}

/// Appends a refusal of a packet: the word, a number, and the offset.
pub fn put_refused_at(
    word: &[u8],
    number: u8,
    offset: usize,
    out: &mut Vec<u8>,
) -> Result<(), Memory>
    ensures { Appends (refused (word.now ∷ decimal number ∷ codes " " ∷ decimal offset ∷ [])) out.old out.new result }
{
    use Piece::{Decimal, Text};
    let number = Decimal(u64::from(number));
    let offset = Decimal(offset as u64);
    put_pieces(
        &[
            Text(b"refused "),
            Text(word),
            number,
            Text(b" "),
            offset,
            Text(b"\n"),
        ],
        out,
    )
}
