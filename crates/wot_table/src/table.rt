//! A table and its one call that can be refused. All other calls are those of std's map. A change here touches
//! wot_cursor and wot_watch.
ghost use Rattle.std.specs.Prelude.{◌≡◌, false, true, not, IfOk, OnErr};
ghost use Rattle.wot_table.specs.Table.{is_full, with_entry};

use std::alloc::Global;
use std::collections::BTreeMap;
use wot_types::{Memory, ViewName};

/// Values by name.
pub type Table<T> = BTreeMap<ViewName, T, Global>;

/// Sets or replaces the value of a name, unless that is one more than `most`. Returns whether there was room. On an
/// error, or without room, the table is unchanged.
pub fn put<T: Drop>(
    table: &mut Table<T>,
    most: usize,
    name: ViewName,
    value: T,
) -> Result<bool, Memory>
    ensures room { IfOk result (λ room. room ≡ not (is_full most table.old.entries name)) }
    ensures short { OnErr result (is_full most table.old.entries name ≡ false) }
    ensures put { IfOk result (λ room. room ≡ true → table.new.entries ≡ with_entry table.old.entries name value) }
    ensures full { IfOk result (λ room. room ≡ false → table.new.entries ≡ table.old.entries) }
    ensures kept { OnErr result (table.new.entries ≡ table.old.entries) }
{
    if table.len() >= most && !table.contains_key(&name) {
        return Ok(false);
    }
    table.insert(name, value)?;
    Ok(true)
}
