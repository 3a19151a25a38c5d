//! Lines of a text in memory, cut as those of an input are. `wot_engine` cuts the generated script with it.
ghost use Rattle.std.specs.Prelude.{◌≡◌, ◌<◌, ◌∷◌, length};
ghost use Rattle.wot_io.specs.Input.{lines_of};

use crate::find::find_feed;

/// The first line of a text, without its line feed, and the rest of the text.
pub fn first_line(text: &[u8]) -> (&[u8], &[u8])
    requires some { 0 < length text.now }
    ensures first { lines_of text.now ≡ result.0.now ∷ lines_of result.1.now }
    ensures shorter { length result.1.now < length text.now }
{
    match find_feed(text) {
        Some(i) => (&text[..i], &text[i + 1..]),
        None => text.split_at(text.len()),
    }
}
