//! What a value written to TRANSMIT asks for, taken out of its bits once.
//! Says by value what it takes out; knows of no sender.
ghost use Rattle.std.specs.Prelude.{◌≡◌};
ghost use Rattle.sender.specs.Transmit.{type_of, TakenApart};

use pd::Kind;
use transfer::Refusal;

/// The type stands in bits 2..0.
const TYPE_MASK: u8 = 0b111;

/// The retries stand in bits 5..4.
const RETRIES_LOWEST_BIT: u8 = 4;

const RETRIES_MASK: u8 = 0b11;

/// A sending asked for: what is to be sent, and how often it may be started again.
#[derive(Clone, Copy, Debug, PartialEq, Eq)]
pub struct Transmit {
    pub kind: Kind,
    pub retries: u8,
}

/// The type of sending that a value asks for, also where there is none of that number.
pub fn type_of(value: u8) -> u8
    ensures { result ≡ type_of value }
{
    value & TYPE_MASK
}

/// Refused for a type that there is not.
impl TryFrom<u8> for Transmit {
    type Error = Refusal;

    ghost try_from_gives = { TakenApart };

    fn try_from(value: u8) -> Result<Transmit, Refusal> {
        let kind = Kind::try_from(type_of(value)).map_err(|_| Refusal::UnknownType)?;
        let retries = value >> RETRIES_LOWEST_BIT & RETRIES_MASK;
        Ok(Transmit { kind, retries })
    }
}
