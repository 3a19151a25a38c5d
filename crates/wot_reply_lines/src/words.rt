//! The words of `explain`: why a key isn't a valid target, and why a certification doesn't count.
//!
//! The tables are in `specs/Words.antt`; `wot_explain` decides which word applies, and `docs/PROTOCOL.md` explains
//! each.
ghost use Rattle.std.specs.Prelude.{◌≡◌};
ghost use Rattle.wot_reply_lines.specs.Words.{reason_words, target_words, word_at};

/// The word of this number for why a key isn't a valid target; `ok` if it is one.
pub fn target_word(number: u8) -> &'static [u8]
    ensures { result.now ≡ word_at target_words number }
{
    match number {
        0 => b"ok",
        1 => b"standing",
        2 => b"young",
        3 => b"ended",
        4 => b"hard",
        5 => b"soft",
        6 => b"uid",
        _ => b"",
    }
}

/// The word of this number for why a certification isn't a usable edge; `edge` if it is one.
pub fn reason_word(number: u8) -> &'static [u8]
    ensures { result.now ≡ word_at reason_words number }
{
    match number {
        0 => b"edge",
        1 => b"unsound",
        2 => b"unjudged",
        3 => b"bad",
        4 => b"foreign",
        5 => b"policy",
        6 => b"early",
        7 => b"expired",
        8 => b"revoked",
        9 => b"older",
        10 => b"issuer-absent",
        11 => b"issuer-standing",
        12 => b"issuer-young",
        13 => b"issuer-ended",
        14 => b"issuer-hard",
        15 => b"issuer-soft",
        _ => b"",
    }
}
