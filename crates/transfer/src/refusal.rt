//! Why a call is refused, with the number that port managers and traces know it by, and in words.
//! Says which refusals are errors at the bus interface; refuses nothing itself.
ghost use Rattle.std.specs.Prelude.{◌≡◌, Some};
ghost use Rattle.transfer.specs.Refusals.{refusal_number, is_interface_error};
ghost use Rattle.transfer.specs.Texts.{refusal_text};

use std::error::Error;
use std::fmt;

#[derive(Clone, Copy, Debug, PartialEq, Eq)]
pub enum Refusal {
    NoRegister = 1,
    NotListed = 2,
    WrongDirection = 3,
    WrongLength = 4,
    WrongCount = 5,
    BufferOverrun = 6,
    UnknownCommand = 7,
    UnknownType = 8,
    LacksCapability = 9,
    NeedNotMet = 10,
    NothingToSend = 11,
    SendingUnderWay = 12,
    ReaderTooShort = 13,
    OutOfRange = 14,
    NotOnTheLine = 15,
}

/// The rule speaks in numbers: 1 to 12.
const LAST_INTERFACE_ERROR: u8 = 12;

impl Refusal {
    /// Whether the refused transfer was an error at the bus interface, and so is a fault.
    pub fn is_interface_error(self) -> bool
        ensures { result ≡ is_interface_error self }
    {
        u8::from(self) <= LAST_INTERFACE_ERROR
    }
}

impl From<Refusal> for u8 {
    ghost from_gives = { λ refusal number. number ≡ refusal_number refusal };

    fn from(refusal: Refusal) -> u8 {
        refusal as u8
    }
}

impl fmt::Display for Refusal {
    ghost output = { λ refusal. Some (refusal_text refusal) };

    fn fmt<W: fmt::Write>(&self, f: &mut fmt::Formatter<W>) -> fmt::Result {
        f.write_str(match self {
            Refusal::NoRegister => "no register byte",
            Refusal::NotListed => "address not listed",
            Refusal::WrongDirection => "direction not listed",
            Refusal::WrongLength => "bytes not as listed",
            Refusal::WrongCount => "count unlike the bytes after it",
            Refusal::BufferOverrun => "transmit buffer would pass 30 bytes",
            Refusal::UnknownCommand => "unknown COMMAND value",
            Refusal::UnknownType => "sending of type 7",
            Refusal::LacksCapability => "capability lacking",
            Refusal::NeedNotMet => "what the command needs is not so",
            Refusal::NothingToSend => "under 2 bytes to send",
            Refusal::SendingUnderWay => "a sending is under way",
            Refusal::ReaderTooShort => "reader's buffer below the bytes wanted",
            Refusal::OutOfRange => "reported value or length outside its range",
            Refusal::NotOnTheLine => "nothing on the line that could finish",
        })
    }
}

impl Error for Refusal {}
