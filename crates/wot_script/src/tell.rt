//! `print_reply`: a reply to its octets.
//!
//! It uses `wot_fields`, `numbered` and `wot_reply_lines`, which prints refusals and the lines after a first one,
//! and `specs/Replies.antt`. Whatever a client reads is printed here; `docs/PROTOCOL.md` specifies it.
ghost use Rattle.std.specs.Prelude.{◌≡◌, ◌<◌, ◌≤◌, ◌+◌, ◌++◌, length, vec_len, vec_capacity, true};
ghost use Rattle.std.specs.Prelude.{OnOk, OnErr, IsOk};
ghost use Rattle.wot_fields.specs.Appends.{Appends};
ghost use Rattle.wot_script.specs.Replies.{HasWords, is_refusal, is_short, reply_text};

use crate::numbered::{reply_number, reply_words};
use crate::short::short_replies_fit;
use crate::{AnswerLines, ClaimLines, LabelLines, ReasonLines, Reply};
use wot_fields::{Piece, put_pieces, put_text};
use wot_reply_lines::{
    put_claimed, put_counted, put_headed, put_number, put_refused, put_refused_at, put_stale,
    target_word,
};
use wot_types::{Memory, ViewName};

#[tactic(auto, unfolding(crate::specs::Replies::reply_text))]
fn put_amount(sum: u32, paths: u64, lines: &AnswerLines, out: &mut Vec<u8>) -> Result<(), Memory>
    ensures { Appends (reply_text (Reply.Amount sum paths lines.now)) out.old out.new result }
{
    use Piece::{Decimal, Text};
    let sum = Decimal(u64::from(sum));
    let paths = Decimal(paths);
    put_headed(
        &[Text(b"amount "), sum, Text(b" paths "), paths, Text(b"\n")],
        lines,
        out,
    )
}

#[tactic(auto, unfolding(crate::specs::Replies::reply_text))]
fn put_explained(word: u8, count: u64, lines: &ReasonLines, out: &mut Vec<u8>) -> Result<(), Memory>
    ensures { Appends (reply_text (Reply.Explained word count lines.now)) out.old out.new result }
{
    use Piece::{Decimal, Text};
    let word = Text(target_word(word));
    let count = Decimal(count);
    put_headed(
        &[Text(b"explain "), word, Text(b" "), count, Text(b"\n")],
        lines,
        out,
    )
}

#[tactic(auto, unfolding(crate::specs::Replies::reply_text))]
fn put_missed(
    sum: u32,
    claims: &ClaimLines,
    labels: &LabelLines,
    out: &mut Vec<u8>,
) -> Result<(), Memory>
    ensures { Appends (reply_text (Reply.Missed sum claims.now labels.now)) out.old out.new result }
{
    use Piece::{Decimal, Text};
    let sum = Decimal(u64::from(sum));
    let head = [Text(b"absence missed "), sum, Text(b"\n"), Text(b"claim ")];
    put_claimed(&head, claims, labels, &[Text(b"\n")], out)
}

#[tactic(auto, unfolding(crate::specs::Replies::reply_text))]
fn put_watch_amount(watch: &ViewName, sum: u32, out: &mut Vec<u8>) -> Result<(), Memory>
    ensures { Appends (reply_text (Reply.WatchAmount watch.now sum)) out.old out.new result }
{
    use Piece::{Decimal, Text};
    let watch = Text(watch.octets());
    let sum = Decimal(u64::from(sum));
    put_pieces(
        &[Text(b"watch "), watch, Text(b" amount "), sum, Text(b"\n")],
        out,
    )
}

#[tactic(auto, unfolding(crate::specs::Replies::reply_text))]
fn put_refusal(reply: &Reply, out: &mut Vec<u8>) -> Result<(), Memory>
    requires { is_refusal reply.now ≡ true }
    ensures { Appends (reply_text reply.now) out.old out.new result }
{
    use Piece::{Decimal, Text};
    match reply {
        Reply::Long => put_refused(b"long", out),
        Reply::Line => put_refused(b"line", out),
        Reply::View => put_refused(b"view", out),
        Reply::Packet(why, offset) => put_refused_at(b"packet ", *why, *offset, out),
        Reply::Compressed => put_refused(b"compressed", out),
        Reply::Secret => put_refused(b"secret", out),
        Reply::Kind(kind, offset) => put_refused_at(b"kind ", *kind, *offset, out),
        Reply::Order(offset) => {
            put_pieces(
                &[
                    Text(b"refused order "),
                    Decimal(*offset as u64),
                    Text(b"\n"),
                ],
                out,
            )
        }
        Reply::Empty => put_refused(b"empty", out),
        Reply::Misfiled => put_refused(b"misfiled", out),
        Reply::Clash => put_refused(b"clash", out),
        Reply::Absent => put_refused(b"absent", out),
        Reply::Full(limit) => {
            put_pieces(
                &[Text(b"refused full "), Text(limit.word()), Text(b"\n")],
                out,
            )
        }
        Reply::NoCursor => put_refused(b"cursor", out),
        Reply::FullCursors => put_refused(b"full cursors", out),
        Reply::NoWatch => put_refused(b"watch", out),
        Reply::FullWatches => put_refused(b"full watches", out),
        _ => unreachable!(),
    }
}

#[tactic(auto, unfolding(crate::specs::Replies::reply_text))]
fn put_reply(reply: &Reply, out: &mut Vec<u8>) -> Result<(), Memory>
    ensures { Appends (reply_text reply.now) out.old out.new result }
{
    use Piece::{Decimal, Hex, Text};
    if let Some(number) = reply_number(reply) {
        return put_number(reply_words(reply), number, out);
    }
    match reply {
        Reply::Taken(taken, skipped, new) => {
            put_pieces(
                &[
                    Text(b"ok taken "),
                    Decimal(*taken),
                    Text(b" skipped "),
                    Decimal(*skipped),
                    Text(b" new "),
                    Decimal(*new),
                    Text(b"\n"),
                ],
                out,
            )
        }
        Reply::Done => put_text(b"ok\n", out),
        Reply::Amount(sum, paths, lines) => put_amount(*sum, *paths, lines, out),
        Reply::List(count, lines) => put_counted(b"list ", *count, lines, out),
        Reply::Explained(word, count, lines) => put_explained(*word, *count, lines, out),
        Reply::Pending(count, lines) => put_counted(b"pending ", *count, lines, out),
        Reply::Keys(count, lines) => put_counted(b"keys ", *count, lines, out),
        Reply::Export(octets) => put_pieces(
            &[Text(b"export "), Hex(octets.items()), Text(b"\n")],
            out,
        ),
        Reply::Dump(count, lines) => {
            put_pieces(
                &[
                    Text(b"dump "),
                    Decimal(*count),
                    Text(b"\n"),
                    Text(lines.items()),
                ],
                out,
            )
        }
        Reply::Missed(sum, claims, labels) => put_missed(*sum, claims, labels, out),
        Reply::CheckedNoPaths => put_text(b"checked no paths\n", out),
        Reply::CheckedNoTable => put_text(b"checked no table\n", out),
        Reply::Shelf => put_text(b"fault shelf\n", out),
        Reply::Piece(count, lines) => put_counted(b"piece ", *count, lines, out),
        Reply::StaleKeyring(was, now) => put_stale(b"keyring ", *was, *now, out),
        Reply::StaleView(was, now) => put_stale(b"view ", *was, *now, out),
        Reply::WatchAmount(watch, sum) => put_watch_amount(watch, *sum, out),
        Reply::WatchGone(watch) => {
            put_pieces(
                &[Text(b"watch "), Text(watch.octets()), Text(b" gone\n")],
                out,
            )
        }
        _ => put_refusal(reply, out),
    }
}

/// Appends the octets of a reply, with its line feeds. After `Memory`, `out` is unchanged.
pub fn print_reply(reply: &Reply, out: &mut Vec<u8>) -> Result<(), Memory>
    // Every number of a word in an explanation has a word.
    requires words { HasWords reply.now }
    ensures appended { OnOk result (out.new.items ≡ out.old.items ++ reply_text reply.now) }
    ensures kept { OnErr result (out.new.items ≡ out.old.items) }
    // A reply of one line, except that of `export`, has at most 128 octets, and takes no memory if there is room for
    // these.
    ensures short { is_short reply.now ≡ true → length (reply_text reply.now) ≤ 128 }
    ensures room { is_short reply.now ≡ true → vec_len out.old + 128 ≤ vec_capacity out.old → IsOk result }
    // It fails only if the capacity was too small.
    ensures full { OnErr result (vec_capacity out.old < vec_len out.old + length (reply_text reply.now)) }
    ensures grows { vec_capacity out.old ≤ vec_capacity out.new }
{
    short_replies_fit(reply);
    put_reply(reply, out)
}
