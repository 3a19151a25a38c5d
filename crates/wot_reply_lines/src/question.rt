//! What is asked in a line: FPR N UID, as in `ask`, `absence` and `watch`, and a number after a name, as in `list`.
//!
//! It uses `wot_fields` and `specs/Question.antt`. A further field of a question changes both, `laws`, and
//! every command that asks one.
ghost use Rattle.std.specs.Prelude.{◌≡◌, ◌∷◌, [], IfOk};
ghost use Rattle.std.specs.Fmt.{decimal};
ghost use Rattle.wot_reply_lines.specs.Question.{asking, question_of};
ghost use Rattle.wot_fields.specs.Appends.{Appends};
ghost use Rattle.wot_fields.specs.Texts.{joined};

use std::alloc::Global;
use wot_fields::Piece::{Decimal, Key, Text, Uid};
use wot_fields::{cut_field, put_pieces, read_positive, read_uid};
use wot_types::{Fpr, Memory, UserId, ViewName};

/// A question to a view: the key, the amount that is wanted, and the user ID.
#[derive(Drop)]
pub struct Question {
    pub fpr: Fpr,
    pub wanted: u32,
    pub uid: UserId,
}

/// Reads a question.
#[tactic(auto, unfolding(crate::specs::Question::question_of))]
pub fn read_question(alloc: Global, text: &[u8]) -> Result<Option<Question>, Memory>
    ensures { IfOk result (λ question. question ≡ question_of text.now) }
{
    let Some(first) = cut_field(text) else {
        return Ok(None);
    };
    let Some(fpr) = Fpr::read(first.field) else {
        return Ok(None);
    };
    let Some(second) = cut_field(first.rest) else {
        return Ok(None);
    };
    let Some(wanted) = read_positive(u32::MAX, second.field) else {
        return Ok(None);
    };
    let Some(uid) = read_uid(alloc, second.rest)? else {
        return Ok(None);
    };
    Ok(Some(Question { fpr, wanted, uid }))
}

/// Appends a question to a view, after a word.
pub fn put_question<'a>(
    word: &'a [u8],
    view: &'a ViewName,
    fpr: &'a Fpr,
    wanted: u32,
    uid: &'a UserId,
    out: &mut Vec<u8>,
) -> Result<(), Memory>
    ensures { Appends (asking word.now view.now fpr.now wanted uid.now) out.old out.new result }
{
    let view = Text(view.octets());
    let fpr = Key(fpr);
    let wanted = Decimal(u64::from(wanted));
    let uid = Uid(uid.octets());
    let space = Text(b" ");
    put_pieces(
        &[Text(word), view, space, fpr, space, wanted, space, uid],
        out,
    )
}

/// Appends a word, a name, what follows it, and a number.
pub fn put_numbered<'a>(
    word: &'a [u8],
    name: &'a ViewName,
    middle: &'a [u8],
    number: u32,
    out: &mut Vec<u8>,
) -> Result<(), Memory>
    ensures { Appends (joined (word.now ∷ name.now ∷ middle.now ∷ decimal number ∷ [])) out.old out.new result }
{
    let name = Text(name.octets());
    let number = Decimal(u64::from(number));
    put_pieces(&[Text(word), name, Text(middle), number], out)
}
