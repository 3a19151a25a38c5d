//! The replies of one line that ends with a number: the words before it, and the number.
//!
//! The tables are in `specs/Replies.antt`, and `tell` and `short` go by them. A further reply of this kind is a row in
//! `reply_text` and in both tables there, and a row in each of the two functions here.
ghost use Rattle.std.specs.Prelude.{◌≡◌};
ghost use Rattle.wot_script.specs.Replies.{number_of, words_before};

use crate::Reply;

/// The words before the number; no octets for any other reply.
pub fn reply_words(reply: &Reply) -> &'static [u8]
    ensures { result.now ≡ words_before reply.now }
{
    match reply {
        Reply::Stored(_) => b"ok stored ",
        Reply::Reached(_) => b"absence reached ",
        Reply::CheckedYes(_) => b"checked yes ",
        _ => b"",
    }
}

/// The number; `None` for any other reply.
pub fn reply_number(reply: &Reply) -> Option<u64>
    ensures { result ≡ number_of reply.now }
{
    match reply {
        Reply::Stored(octets) => Some(*octets),
        Reply::Reached(sum) => Some(u64::from(*sum)),
        Reply::CheckedYes(sum) => Some(u64::from(*sum)),
        _ => None,
    }
}
