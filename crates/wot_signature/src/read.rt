//! `read_signature`: a signature body to its facts.
//!
//! It uses `read_body` and `notes`, and `specs/Signature.antt`. Everything above that decides by a signature
//! starts here.
ghost use Rattle.std.specs.Prelude.{◌≡◌, is_some};
ghost use Rattle.wot_signature.specs.Signature.{facts_of, is_readable};

use crate::SigFacts;
use crate::notes::notes_of;
use crate::read_body::read_body_of;

/// The facts of a signature body, taken from the hashed area only. `None` if the body can't be parsed: its version is
/// neither 4 nor 6, a part is missing, or the hashed area isn't a list of subpackets.
#[tactic(auto, unfolding(crate::specs::Signature::facts_of, crate::specs::Signature::is_readable))]
pub fn read_signature(body: &[u8]) -> Option<SigFacts>
    ensures facts { result ≡ facts_of body.now }
    ensures readable { is_some result ≡ is_readable body.now }
{
    let reading = read_body_of(body)?;
    let notes = notes_of(reading.kind, reading.hash, &reading.hashed);
    Some(notes.facts())
}
