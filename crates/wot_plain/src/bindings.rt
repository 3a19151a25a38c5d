//! The lines of bindings, of which a reply to `list` has all, and a piece of a cursor some.
//! It uses wot_explain for the bindings; wot_command and wot_cursor_commands print them.
ghost use Rattle.std.specs.Prelude.{◌≡◌, map, IfOk};
ghost use Rattle.wot_plain.specs.Listing.{bind_line};

use std::alloc::Global;
use wot_explain::Bind;
use wot_script::{BindLine, BindLines};
use wot_types::Memory;

/// A line for each of these bindings.
pub fn bind_lines(alloc: Global, binds: Vec<Bind>) -> Result<BindLines, Memory>
    ensures lines { IfOk result (λ lines. lines ≡ map bind_line binds.items) }
{
    let mut lines = BindLines::new(alloc);
    'binds: for bind in binds {
        lines.push(BindLine(bind.sum, bind.fpr, bind.uid))?;
    }
    Ok(lines)
}
