//! The two header bytes that begin every message, as the USB Power Delivery Specification lays them out.
//! Reads fields by shifts and masks, and makes the header of the GoodCRC that a port gives.
ghost use Rattle.std.specs.Prelude.{◌≡◌, true};
ghost use Rattle.pd.specs.Headers.{message_id, is_good_crc, good_crc};

use crate::bits::{above, field};
use crate::kind::Kind;

#[derive(Clone, Copy, Debug, PartialEq, Eq)]
pub struct Header {
    pub low: u8,
    pub high: u8,
}

/// The message type of a GoodCRC.
const GOOD_CRC: u8 = 1;

impl Header {
    pub fn message_id(self) -> u8
        ensures { result ≡ message_id self }
    {
        field(self.high, 1, 3)
    }

    /// Whether this begins a GoodCRC: that message type, no data objects, not extended.
    pub fn is_good_crc(self) -> bool
        ensures { result ≡ is_good_crc self }
    {
        field(self.low, 0, 5) == GOOD_CRC && field(self.high, 4, 4) == 0
    }

    /// The GoodCRC given to a message of this kind and header, by MESSAGE_HEADER_INFO `info`.
    pub fn good_crc(info: u8, kind: Kind, received: Header) -> Header
        ensures given { result ≡ good_crc info kind received }
        ensures is_a_good_crc { is_good_crc result ≡ true }
        ensures has_the_messages_id { message_id result ≡ message_id received }
    {
        let (data_role, plug) = match kind {
            Kind::Sop => (field(info, 3, 1), field(info, 0, 1)),
            _ => (0, field(info, 4, 1)),
        };
        let revision = field(info, 1, 2);
        Header {
            low: above(revision, 6, above(data_role, 5, GOOD_CRC)),
            high: above(received.message_id(), 1, plug),
        }
    }
}
