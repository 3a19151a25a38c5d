//! A law: replies of one line are short, so that they can be printed into reserved room when memory runs out. It uses
//! `specs/Replies.antt`; `tell` uses it, and a longer word or reply breaks it.
ghost use Rattle.std.specs.Prelude.{◌≡◌, ◌≤◌, length, true};
ghost use Rattle.wot_script.specs.Replies.{is_short, reply_text};

use crate::Reply;
use crate::numbered::reply_number;
use wot_reply_lines::laws::{decimals_fit, names_fit, words_fit};

/// A law: a reply of one line, other than that of `export`, has at most 128 octets.
#[tactic(auto, unfolding(crate::specs::Replies::reply_text))]
pub fn short_replies_fit(reply: &Reply)
    ensures { is_short reply.now ≡ true → length (reply_text reply.now) ≤ 128 }
{
    if let Some(number) = reply_number(reply) {
        decimals_fit(number);
        return;
    }
    match reply {
        Reply::Taken(taken, skipped, new) => {
            decimals_fit(*taken);
            decimals_fit(*skipped);
            decimals_fit(*new);
        }
        Reply::Amount(sum, paths, _) => {
            decimals_fit(u64::from(*sum));
            decimals_fit(*paths);
        }
        Reply::Explained(word, count, _) => {
            words_fit(*word);
            decimals_fit(*count);
        }
        Reply::List(count, _)
        | Reply::Pending(count, _)
        | Reply::Keys(count, _)
        | Reply::Dump(count, _)
        | Reply::Piece(count, _) => decimals_fit(*count),
        Reply::StaleKeyring(was, now) | Reply::StaleView(was, now) => {
            decimals_fit(*was);
            decimals_fit(*now);
        }
        Reply::Packet(number, offset) | Reply::Kind(number, offset) => {
            decimals_fit(u64::from(*number));
            decimals_fit(*offset as u64);
        }
        Reply::Order(offset) => decimals_fit(*offset as u64),
        Reply::WatchAmount(watch, sum) => {
            names_fit(watch);
            decimals_fit(u64::from(*sum));
        }
        Reply::WatchGone(watch) => names_fit(watch),
        _ => {}
    }
}
