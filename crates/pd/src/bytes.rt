//! The bytes of a message: at most thirty, in the value itself.
//! A contract reads them as a list; the room behind them is zero, so that equal lists are equal values.
ghost use Rattle.std.specs.Prelude.{◌≡◌, ◌+◌, ◌≤◌, ◌↔◌, [], ◌++◌, length, IsOk, OnOk, OnErr, nat_le};
ghost use Rattle.pd.specs.Lengths.{longest};
ghost use Rattle.pd.specs.Room.{HasRoom};

use std::error::Error;
use std::fmt;

/// The most bytes that a message has, its two header bytes among them.
pub const LONGEST: usize = 30;

/// The fewest bytes of a message: its header.
pub const SHORTEST: usize = 2;

#[derive(Clone, Copy)]
pub struct Bytes {
    len: usize,
    room: [u8; LONGEST],
    ghost laid_out: { HasRoom longest 0 len room },
}

/// More bytes than a message has.
#[derive(Clone, Copy, Debug, PartialEq, Eq)]
pub struct TooLong;

impl Bytes {
    ghost use Rattle.pd.specs.Held.{held};

    pub fn new() -> Bytes
        ensures { held result ≡ [] }
    {
        Bytes {
            len: 0,
            room: [0; LONGEST],
        }
    }

    pub fn len(&self) -> usize
        ensures held { result ≡ length (held self.now) }
        ensures most { result ≤ longest }
    {
        self.len
    }

    pub fn as_slice(&self) -> &[u8]
        ensures held { result.now ≡ held self.now }
        ensures most { length (held self.now) ≤ longest }
    {
        &self.room[..self.len]
    }

    pub fn has_room_for(&self, more: usize) -> bool
        ensures told { result ≡ nat_le (length (held self.now) + more) longest }
        ensures most { length (held self.now) ≤ longest }
    {
        more <= LONGEST - self.len
    }

    /// Appends all of `more`, or nothing where they are too many.
    pub fn append(&mut self, more: &[u8]) -> Result<(), TooLong>
        ensures when { IsOk result ↔ (length (held self.old) + length more.now ≤ longest) }
        ensures ok { OnOk result (held self.new ≡ held self.old ++ more.now) }
        ensures err { OnErr result (self.new ≡ self.old) }
    {
        if !self.has_room_for(more.len()) {
            return Err(TooLong);
        }
        let end = self.len + more.len();
        self.room[self.len..end].copy_from_slice(more);
        self.len = end;
        Ok(())
    }
}

impl fmt::Display for TooLong {
    ghost use Rattle.std.specs.Prelude.{Some};
    ghost use Rattle.pd.specs.Texts.{too_long_text};

    ghost output = { λ _. Some too_long_text };

    fn fmt<W: fmt::Write>(&self, f: &mut fmt::Formatter<W>) -> fmt::Result {
        f.write_str("more than 30 bytes")
    }
}

impl Error for TooLong {}
