//! The kinds of what is sent and received, with the numbers that registers give them.
//! 0 to 4 are messages, named by their start of packet; 5 and 6 are signals without bytes.
ghost use Rattle.std.specs.Prelude.{◌≡◌, Some};
ghost use Rattle.pd.specs.Kinds.{number_of, is_message, Numbered};
ghost use Rattle.pd.specs.Texts.{unknown_kind_text};

use std::error::Error;
use std::fmt;

#[derive(Clone, Copy, Debug, PartialEq, Eq)]
pub enum Kind {
    Sop = 0,
    SopPrime = 1,
    SopDoublePrime = 2,
    SopDebugPrime = 3,
    SopDebugDoublePrime = 4,
    HardReset = 5,
    CableReset = 6,
}

/// A number that stands for no kind.
#[derive(Clone, Copy, Debug, PartialEq, Eq)]
pub struct UnknownKind;

impl Kind {
    /// Whether this has bytes; the others are resets.
    pub fn is_message(self) -> bool
        ensures { result ≡ is_message (number_of self) }
    {
        !matches!(self, Kind::HardReset | Kind::CableReset)
    }
}

impl From<Kind> for u8 {
    ghost from_gives = { λ kind number. number ≡ number_of kind };

    fn from(kind: Kind) -> u8 {
        kind as u8
    }
}

impl TryFrom<u8> for Kind {
    type Error = UnknownKind;

    ghost try_from_gives = { Numbered };

    fn try_from(number: u8) -> Result<Kind, UnknownKind> {
        match number {
            0 => Ok(Kind::Sop),
            1 => Ok(Kind::SopPrime),
            2 => Ok(Kind::SopDoublePrime),
            3 => Ok(Kind::SopDebugPrime),
            4 => Ok(Kind::SopDebugDoublePrime),
            5 => Ok(Kind::HardReset),
            6 => Ok(Kind::CableReset),
            _ => Err(UnknownKind),
        }
    }
}

impl fmt::Display for UnknownKind {
    ghost output = { λ _. Some unknown_kind_text };

    fn fmt<W: fmt::Write>(&self, f: &mut fmt::Formatter<W>) -> fmt::Result {
        f.write_str("no kind has this number")
    }
}

impl Error for UnknownKind {}
