//! Skips the rest of a line that is too long.
//!
//! It uses `Intake` and `Buffer`. `Lines::next` calls it when `fill` found no line feed within the longest line.
ghost use Rattle.std.specs.Prelude.{◌≡◌, ◌+◌, ◌<◌, ◌≤◌, ◌^◌, [], length, OnOk, OnErr, IsErrOf};
ghost use Rattle.wot_io.specs.Counts.{Rose};
ghost use Rattle.wot_io.specs.Input.{HasNoFeed};
ghost use Rattle.wot_io.specs.Filled.{IsNear};
ghost use Rattle.wot_io.specs.Fill.{Shortens, SkipsLong, Stops, Took};

use crate::buffer::Buffer;
use crate::find::find_feed;
use crate::intake::Intake;
use crate::{LinesFault, Source};

/// Skips a line that is too long and whose beginning is buffered. Afterwards what follows the line is buffered.
#[tactic(auto, using(crate::proofs::Rules::passing))]
pub fn skip_long<S: Source>(
    buffer: &mut Buffer,
    intake: &mut Intake,
    from: &mut S,
) -> Result<(), LinesFault>
    requires no_feed { HasNoFeed buffer.old.held }
    requires many { 16777216 < length buffer.old.held }
    requires within { intake.old.taken ≤ 2 ^ 30 }
    ensures ok { OnOk result (SkipsLong buffer.old.held (S.left from.old) intake.old.taken
        buffer.new.held (S.left from.new) intake.new.taken) }
    ensures err { OnErr result
        (Stops buffer.old.held (S.left from.old) intake.old.taken (S.left from.new) intake.new.taken) }
    ensures took { Took (S.left from.old) intake.old.taken (S.left from.new) intake.new.taken }
    ensures near { OnOk result (IsNear buffer.new.held (S.last from.new)) }
    ensures falls { OnOk result (Shortens intake.old.taken buffer.old.held intake.new.taken buffer.new.held) }
    ensures silent { buffer.new.text ≡ [] }
    ensures within { intake.new.taken ≤ 2 ^ 30 }
    ensures empty { OnErr result (buffer.new.held ≡ []) }
    ensures too_much { IsErrOf result LinesFault.TooMuch → intake.new.taken ≡ 2 ^ 30 }
    ensures open { IsErrOf result LinesFault.ReadFault → intake.new.taken < 2 ^ 30 }
    ensures later { S.faults from.old ≤ S.faults from.new }
    ensures cause { IsErrOf result LinesFault.ReadFault → Rose (S.faults from.old) (S.faults from.new) }
{
    buffer.clear();
    'pieces: loop {
        intake.take(buffer.held(), from)?;
        let piece = intake.piece();
        if piece.is_empty() {
            return Ok(());
        }
        if let Some(i) = find_feed(piece) {
            let (_, rest) = piece.split_at(i + 1);
            buffer.append(rest);
            return Ok(());
        }
    }
}
