//! The lines of replies that have several: paths and steps, bindings, reasons, pending signatures, keys.
//!
//! It has their types, and prints them by `specs/Lines.antt`. It uses `wot_fields`, and `wot_script` puts the
//! first line in front of them. What `wot_plain` and the crates above it define speaks of these types.
ghost use Rattle.std.specs.Prelude.{◌≡◌, ◌++◌, ℕ, List};
ghost use Rattle.std.specs.List.{flat_map};
ghost use Rattle.wot_fields.specs.Appends.{Appends};
ghost use Rattle.wot_fields.specs.Pieces.{piece_text, pieces_text};
ghost use Rattle.wot_reply_lines.specs.Lines.{answer_line, bind_line, hint_text, key_line, pending_line, reason_line};

use crate::Lines;
use crate::words::reason_word;
use wot_fields::{Piece, put_pieces};
use wot_types::{Fpr, Memory, SigNumber, UserId};

/// A line of an answer.
#[derive(Drop)]
pub enum AnswerLine {
    /// A path: its amount, the number of its steps, its root.
    Path(u8, u8, Fpr),
    /// An edge of the path: issuer, target, depth, amount, user ID.
    Step(Fpr, Fpr, u8, u8, UserId),
}

/// A binding: the sum of its answer, its key, its user ID.
#[derive(Drop)]
pub struct BindLine(pub u32, pub Fpr, pub UserId);

/// Why a certification counts, or doesn't.
#[derive(Clone, Copy)]
pub enum ReasonLine {
    /// Its number, and the number of the first word that applies.
    Word(SigNumber, u8),
    /// Its number, and the usable edge that it is: issuer, depth, amount.
    Edge(SigNumber, Fpr, u8, u8),
}

/// A signature without a verdict: its number, its certificate, and a hint at its issuer.
#[derive(Clone, Copy)]
pub struct PendingLine(pub SigNumber, pub Fpr, pub Hint);

/// What a signature says about its issuer.
#[derive(Clone, Copy)]
pub enum Hint {
    /// The fingerprint.
    Full(Fpr),
    /// The key ID.
    Short([u8; 8]),
    /// Neither.
    Nothing,
}

/// A certificate: its fingerprint, the number of its user IDs, the number of its signatures.
#[derive(Clone, Copy)]
pub struct KeyLine(pub Fpr, pub u64, pub u64);

/// A line of a reply after its first.
pub trait Printed {
    /// Its octets, with its line feed.
    ghost text: { Self → List ℕ };

    /// Appends these octets.
    fn put(&self, out: &mut Vec<u8>) -> Result<(), Memory>
        ensures { Appends (text self.now) out.old out.new result };
}

fn put_path(amount: u8, steps: u8, root: &Fpr, out: &mut Vec<u8>) -> Result<(), Memory>
    ensures { Appends (answer_line (AnswerLine.Path amount steps root.now)) out.old out.new result }
{
    use Piece::{Decimal, Key, Text};
    let amount = Decimal(u64::from(amount));
    let steps = Decimal(u64::from(steps));
    put_pieces(
        &[
            Text(b"path "),
            amount,
            Text(b" steps "),
            steps,
            Text(b" root "),
            Key(root),
            Text(b"\n"),
        ],
        out,
    )
}

impl Printed for AnswerLine {
    ghost text = { answer_line };

    fn put(&self, out: &mut Vec<u8>) -> Result<(), Memory> {
        use Piece::{Decimal, Key, Text, Uid};
        match self {
            AnswerLine::Path(amount, steps, root) => put_path(*amount, *steps, root, out),
            AnswerLine::Step(issuer, target, depth, amount, uid) => {
                let depth = Decimal(u64::from(*depth));
                let amount = Decimal(u64::from(*amount));
                let uid = Uid(uid.octets());
                put_pieces(
                    &[
                        Text(b"step "),
                        Key(issuer),
                        Text(b" "),
                        Key(target),
                        Text(b" "),
                        depth,
                        Text(b" "),
                        amount,
                        Text(b" "),
                        uid,
                        Text(b"\n"),
                    ],
                    out,
                )
            }
        }
    }
}

impl Printed for BindLine {
    ghost text = { bind_line };

    fn put(&self, out: &mut Vec<u8>) -> Result<(), Memory> {
        use Piece::{Decimal, Key, Text, Uid};
        let sum = Decimal(u64::from(self.0));
        let uid = Uid(self.2.octets());
        put_pieces(
            &[
                Text(b"bind "),
                sum,
                Text(b" "),
                Key(&self.1),
                Text(b" "),
                uid,
                Text(b"\n"),
            ],
            out,
        )
    }
}

impl Printed for ReasonLine {
    ghost text = { reason_line };

    fn put(&self, out: &mut Vec<u8>) -> Result<(), Memory> {
        use Piece::{Decimal, Key, Signature, Text};
        match self {
            ReasonLine::Word(number, word) => {
                let number = Signature(number);
                let word = Text(reason_word(*word));
                put_pieces(
                    &[Text(b"cert "), number, Text(b" "), word, Text(b"\n")],
                    out,
                )
            }
            ReasonLine::Edge(number, issuer, depth, amount) => {
                let depth = Decimal(u64::from(*depth));
                let amount = Decimal(u64::from(*amount));
                put_pieces(
                    &[
                        Text(b"cert "),
                        Signature(number),
                        Text(b" edge "),
                        Key(issuer),
                        Text(b" "),
                        depth,
                        Text(b" "),
                        amount,
                        Text(b"\n"),
                    ],
                    out,
                )
            }
        }
    }
}

/// The piece that prints a hint.
fn hint_piece(hint: &Hint) -> Piece<'_>
    ensures { piece_text result ≡ hint_text hint.now }
{
    match hint {
        Hint::Full(fpr) => Piece::Key(fpr),
        Hint::Short(octets) => Piece::Hex(octets),
        Hint::Nothing => Piece::Text(b"-"),
    }
}

impl Printed for PendingLine {
    ghost text = { pending_line };

    fn put(&self, out: &mut Vec<u8>) -> Result<(), Memory> {
        use Piece::{Key, Signature, Text};
        let hint = hint_piece(&self.2);
        put_pieces(
            &[
                Text(b"sig "),
                Signature(&self.0),
                Text(b" "),
                Key(&self.1),
                Text(b" "),
                hint,
                Text(b"\n"),
            ],
            out,
        )
    }
}

impl Printed for KeyLine {
    ghost text = { key_line };

    fn put(&self, out: &mut Vec<u8>) -> Result<(), Memory> {
        use Piece::{Decimal, Key, Text};
        put_pieces(
            &[
                Text(b"key "),
                Key(&self.0),
                Text(b" "),
                Decimal(self.1),
                Text(b" "),
                Decimal(self.2),
                Text(b"\n"),
            ],
            out,
        )
    }
}

fn put_lines<T: Printed>(lines: &[T], out: &mut Vec<u8>) -> Result<(), Memory>
    ensures { Appends (flat_map T.text lines.now) out.old out.new result }
{
    let start = out.len();
    for line in lines {
        if let Err(fault) = line.put(out) {
            out.truncate(start);
            return Err(fault);
        }
    }
    Ok(())
}

/// Appends a first line, made of these pieces, and the lines after it.
pub fn put_headed<T: Printed>(
    head: &[Piece<'_>],
    lines: &Lines<T>,
    out: &mut Vec<u8>,
) -> Result<(), Memory>
    ensures { Appends (pieces_text head.now ++ flat_map T.text lines.now) out.old out.new result }
{
    let start = out.len();
    put_pieces(head, out)?;
    if let Err(fault) = put_lines(lines.items(), out) {
        out.truncate(start);
        return Err(fault);
    }
    Ok(())
}
