//! The outcome of a line before it is written: its reply, and where a cursor is once that was written. wot_machine
//! applies the move only after writing.
ghost use Rattle.std.specs.Prelude.{◌≡◌, None, Ok, IfOk, is_ok};
ghost use Rattle.wot_plain.specs.Pacing.{settled};

use wot_cursor::Cursors;
use wot_script::Reply;
use wot_types::{Memory, Place, ViewName};

/// The last binding that a cursor returned.
#[derive(Drop)]
pub struct CursorMove {
    pub cursor: ViewName,
    pub place: Place,
}

/// A reply before it is written. If it is a piece, the cursor moves only once it is written, so that the piece is sent
/// again after running out of memory.
#[derive(Drop)]
pub struct DraftReply {
    pub reply: Reply,
    pub moved: Option<CursorMove>,
}

/// A reply that moves no cursor.
pub fn alone(reply: Reply) -> DraftReply
    ensures reply { result.reply ≡ reply }
    ensures moved { result.moved ≡ None }
{
    DraftReply { reply, moved: None }
}

/// A reply that moves no cursor, or out of memory.
pub fn without_move(reply: Result<Reply, Memory>) -> Result<DraftReply, Memory>
    ensures reported { IfOk reply (λ r. result ≡ Ok (record { reply = r; moved = None })) }
    ensures same { is_ok result ≡ is_ok reply }
{
    match reply {
        Ok(reply) => Ok(alone(reply)),
        Err(Memory) => Err(Memory),
    }
}

/// Moves the cursor.
pub fn move_cursor(moved: Option<CursorMove>, cursors: &mut Cursors)
    ensures settled { cursors.new ≡ settled moved cursors.old }
{
    if let Some(CursorMove { cursor, place }) = moved {
        let _ = cursors.advance(&cursor, place);
    }
}
