//! A message or signal with its bytes, at most thirty of them by its type.
//! Made from raw numbers and bytes, or not at all; judges a frame's range and form, and acts on nothing.
ghost use Rattle.std.specs.Prelude.{◌≡◌, ◌≤◌, length};
ghost use Rattle.pd.specs.Lengths.{longest};
ghost use Rattle.pd.specs.Kinds.{number_of};
ghost use Rattle.pd.specs.Messages.{content, contents, empty, of_kind, arrived, in_range, well_formed, header};

use crate::bytes::{Bytes, LONGEST, SHORTEST};
use crate::header::Header;
use crate::kind::Kind;

#[derive(Clone, Copy)]
pub struct Message {
    kind: Kind,
    bytes: Bytes,
}

/// Whether a frame has a type and a length that a frame can have.
fn is_in_range(kind: Kind, bytes: &[u8]) -> bool
    ensures { result ≡ in_range (number_of kind) bytes.now }
{
    kind.is_message() && (SHORTEST..=LONGEST).contains(&bytes.len())
}

impl Message {
    /// Of these bytes, if there are at most thirty.
    pub fn new(kind: Kind, bytes: &[u8]) -> Option<Message>
        ensures { contents result ≡ of_kind kind bytes.now }
    {
        let mut held = Bytes::new();
        held.append(bytes).ok()?;
        Some(Message::holding(kind, held))
    }

    /// Of bytes that are known not to be too many.
    pub fn holding(kind: Kind, bytes: Bytes) -> Message
        ensures { result ≡ record { kind = kind; bytes = bytes } }
    {
        Message { kind, bytes }
    }

    /// A signal, or a message that has no bytes yet.
    pub fn without_bytes(kind: Kind) -> Message
        ensures { content result ≡ empty kind }
    {
        Message::holding(kind, Bytes::new())
    }

    /// The frame that arrived, if it is in range.
    pub fn arrived(number: u8, bytes: &[u8]) -> Option<Message>
        ensures { contents result ≡ arrived number bytes.now }
    {
        let kind = Kind::try_from(number).ok()?;
        if !is_in_range(kind, bytes) {
            return None;
        }
        Message::new(kind, bytes)
    }

    pub fn kind(&self) -> Kind
        ensures { result ≡ (content self.now).kind }
    {
        self.kind
    }

    pub fn bytes(&self) -> &[u8]
        ensures held { result.now ≡ (content self.now).bytes }
        ensures most { length (content self.now).bytes ≤ longest }
    {
        self.bytes.as_slice()
    }

    /// Its first two bytes, 0 where it has fewer.
    pub fn header(&self) -> Header
        ensures { result ≡ header (content self.now).bytes }
    {
        match self.bytes() {
            [] => Header { low: 0, high: 0 },
            [low] => Header { low: *low, high: 0 },
            [low, high, ..] => Header {
                low: *low,
                high: *high,
            },
        }
    }

    /// Whether this is a frame that a port may take for one.
    pub fn is_well_formed(&self) -> bool
        ensures { result ≡ well_formed (content self.now) }
    {
        is_in_range(self.kind, self.bytes())
    }
}
