//! The replies. `wot_reply_lines` has the types of the lines in them.
//!
//! `specs/Replies.antt` defines how each is printed. `wot_machine` makes them, and its definitions speak of replies as
//! these values; clients parse what `print_reply` makes of them.
use crate::{
    AnswerLines, BindLines, ClaimLines, KeyLines, LabelLines, Octets, PendingLines, ReasonLines,
};
use wot_types::{Limit, ViewName};

/// The reply to a line.
#[derive(Drop)]
pub enum Reply {
    /// To `import`: the key packets that can be parsed, those that can't, and what wasn't held before.
    Taken(u64, u64, u64),
    /// To `store`: the size of the entry that was written, in octets.
    Stored(u64),
    /// To `drop`, `verdict`, `view`, `cursor` with `over` or `close`, and `watch` with `off`.
    Done,
    /// To `ask`: the sum of the amounts, the number of paths, and each path with its steps.
    Amount(u32, u64, AnswerLines),
    /// To `list`: the number of bindings, and a line for each.
    List(u64, BindLines),
    /// To `explain`: the number of the target's word, the number of signatures, and a line for each.
    Explained(u8, u64, ReasonLines),
    /// To `pending`: the number of signatures, and a line for each.
    Pending(u64, PendingLines),
    /// To `keys`: the number of certificates, and a line for each.
    Keys(u64, KeyLines),
    /// To `export`.
    Export(Octets),
    /// To `dump`: the number of commands, and their lines with line feeds.
    Dump(u64, Octets),
    /// To `absence`, if the answer reaches the wanted amount: its sum.
    Reached(u32),
    /// To `absence`, if it doesn't: its sum, its paths, and the least table that proves that no path is left after
    /// them.
    Missed(u32, ClaimLines, LabelLines),
    /// To `check`: the sum of the paths. No further path is left.
    CheckedYes(u32),
    /// To `check`: some path isn't valid, or has another amount.
    CheckedNoPaths,
    /// To `check`: the paths are right, but the table doesn't show that no further path is left.
    CheckedNoTable,
    /// The line is too long.
    Long,
    /// The line is no command.
    Line,
    /// The view isn't open.
    View,
    /// The certificate directory failed.
    Shelf,
    /// The first fault of the packets: its number and its offset.
    Packet(u8, usize),
    /// A packet of compressed data.
    Compressed,
    /// A secret key.
    Secret,
    /// A packet of another type: the type and its offset.
    Kind(u8, usize),
    /// A packet that belongs to a certificate, before the first key: its offset.
    Order(usize),
    /// No key.
    Empty,
    /// The entry of the certificate directory isn't exactly the certificate of its name.
    Misfiled,
    /// Two key bodies with one fingerprint.
    Clash,
    /// The named thing isn't there.
    Absent,
    /// The change would exceed this limit.
    Full(Limit),
    /// To `cursor` with `next`: the number of bindings, and a line for each.
    Piece(u64, BindLines),
    /// The keyring has changed since the cursor started: the count of changes then, and now.
    StaleKeyring(u64, u64),
    /// The view has changed since the cursor started: its count of changes then, and now.
    StaleView(u64, u64),
    /// There is no such cursor.
    NoCursor,
    /// There are already as many cursors as allowed.
    FullCursors,
    /// To `watch` with `on`, and after a line that changes it: the sum of the watch's answer.
    WatchAmount(ViewName, u32),
    /// The view of the watch isn't open.
    WatchGone(ViewName),
    /// There is no such watch.
    NoWatch,
    /// There are already as many watches as allowed.
    FullWatches,
}
