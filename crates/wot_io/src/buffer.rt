//! The octets that were read and aren't part of a line yet, and the current line. `fill` appends to it, `skip_long` and
//! `Lines::next` take from it. The longest line is set here; `docs/PROTOCOL.md` states that limit.
ghost use Rattle.std.specs.Prelude.{◌≡◌, ◌+◌, ◌<◌, ◌≤◌, [], ◌++◌, length, take, drop, IfOk};

use crate::intake::PIECE;
use std::alloc::Global;
use std::marker::Model;
use wot_types::Memory;

/// The most octets of a line, without its line feed.
pub const LONGEST: usize = 16777216;

/// The octets that were read and not yet returned, and the current line. Both lie in one vector, so returning a line
/// moves no octet.
#[derive(Drop)]
pub struct Buffer {
    octets: Vec<u8>,
    start: usize,
    text_start: usize,
    text_end: usize,
}

impl Model for Buffer {
    ghost use Rattle.wot_io.specs.ReaderState.{Holding};

    ghost Value = { Holding };

    ghost use Rattle.wot_io.specs.Parts.{holding_of, IsBuffer};

    ghost view = { holding_of };

    ghost invariant = { IsBuffer };
}

impl Buffer {
    /// Reserves room for the longest line and for one piece more, in which a line turns out to be too long.
    pub fn new(alloc: Global) -> Result<Buffer, Memory>
        ensures { IfOk result (λ buffer. buffer ≡ record { held = []; text = [] }) }
    {
        Ok(Buffer {
            octets: Vec::with_capacity(alloc, LONGEST + PIECE)?,
            start: 0,
            text_start: 0,
            text_end: 0,
        })
    }

    /// The octets that weren't returned yet.
    pub fn held(&self) -> &[u8]
        ensures { result.now ≡ self.now.held }
    {
        let (_, held) = self.octets.split_at(self.start);
        held
    }

    /// The current line.
    pub fn text(&self) -> &[u8]
        ensures { result.now ≡ self.now.text }
    {
        &self.octets[self.text_start..self.text_end]
    }

    /// Makes the first `size` octets the current line, and drops the line feed after them.
    pub fn give(&mut self, size: usize)
        requires { size < length self.old.held }
        ensures text { self.new.text ≡ take size self.old.held }
        ensures held { self.new.held ≡ drop (size + 1) self.old.held }
    {
        self.text_start = self.start;
        self.text_end = self.start + size;
        self.start = self.text_end + 1;
    }

    /// Drops the first `size` octets and the line feed after them.
    pub fn skip(&mut self, size: usize)
        requires { size < length self.old.held }
        ensures text { self.new.text ≡ [] }
        ensures held { self.new.held ≡ drop (size + 1) self.old.held }
    {
        self.text_start = self.text_end;
        self.start += size + 1;
    }

    /// Makes all octets the current line.
    pub fn give_all(&mut self)
        ensures text { self.new.text ≡ self.old.held }
        ensures held { self.new.held ≡ [] }
    {
        self.text_start = self.start;
        self.text_end = self.octets.len();
        self.start = self.text_end;
    }

    /// Leaves no current line.
    pub fn give_none(&mut self)
        ensures text { self.new.text ≡ [] }
        ensures held { self.new.held ≡ self.old.held }
    {
        self.text_start = self.text_end;
    }

    /// Drops all octets and the current line.
    pub fn clear(&mut self)
        ensures { self.new ≡ record { held = []; text = [] } }
    {
        self.octets.clear();
        self.start = 0;
        self.text_start = 0;
        self.text_end = 0;
    }

    /// Appends octets. There is no current line afterwards.
    pub fn append(&mut self, piece: &[u8])
        requires { length self.old.held + length piece.now ≤ 16842752 }
        ensures text { self.new.text ≡ [] }
        ensures held { self.new.held ≡ self.old.held ++ piece.now }
    {
        self.text_start = 0;
        self.text_end = 0;
        let start = self.start;
        self.start = 0;
        let _ = self.octets.drain(..start);
        let _ = self.octets.extend_from_slice(piece);
    }
}
