//! A sender: the transmit buffer and the one sending that may be under way.
//! Says what a sending is doing and how it ends; the call in which it ends tells so.
ghost use Rattle.std.specs.Prelude.{◌≡◌, ◌≤◌, [], length};
ghost use Rattle.pd.specs.Lengths.{longest};
ghost use Rattle.transfer.specs.Refusals.{first_holding, refused_or};
ghost use Rattle.sender.specs.Append.{append_rows, appending};
ghost use Rattle.sender.specs.Sendings.{sending_of, at_power_on, with_buffer, discarding};
ghost use Rattle.sender.specs.Sendings.{is_under_way, reset_under_way, hard_reset_under_way};

mod acceptance;
mod life;

pub use life::{Course, Event};
use pd::{Bytes, Kind, Message};
use std::{fmt, mem};
use transfer::Refusal;

/// The Ticks from a start of a message to Line Finished.
const START_TICKS: u8 = 20;

/// The Ticks of the wait for a GoodCRC.
const WAIT_TICKS: u8 = 10;

/// The Ticks from the acceptance of a reset to Line Finished.
const SIGNALLING_TICKS: u8 = 50;

/// What is under way: the span that the sending is in, with the Ticks that are left of it.
/// Idle is a state like the others, and no `None`: all four are matched together with what happens.
#[derive(Clone, Copy)]
pub(crate) enum State {
    Idle,
    /// A message, from a start to Line Finished.
    Starting {
        sent: Message,
        retries: u8,
        left: u8,
    },
    /// A message, from Line Finished to its GoodCRC.
    Waiting {
        sent: Message,
        retries: u8,
        left: u8,
    },
    /// A reset, from its acceptance to Line Finished.
    Signalling {
        sent: Message,
        left: u8,
    },
}

/// How a sending ended.
#[derive(Clone, Copy, Debug, PartialEq, Eq)]
pub enum End {
    Succeeded,
    Failed,
    Discarded,
    Signalled,
}

/// What a taken write to TRANSMIT leads to: a sending to put on the line, and the end of one.
/// Neither for a value that `judge` refuses, since acting cannot.
#[derive(Clone, Copy)]
pub struct Accepted {
    pub started: Option<Message>,
    pub ended: Option<End>,
}

#[derive(Clone, Copy)]
pub struct Sender {
    buffer: Bytes,
    under: State,
}

impl Sender {
    pub fn new() -> Sender
        ensures { sending_of result ≡ at_power_on }
    {
        Sender {
            buffer: Bytes::new(),
            under: State::Idle,
        }
    }

    /// Whether so many bytes more fit into the transmit buffer.
    pub fn room_for(&self, count: usize) -> Result<(), Refusal>
        ensures judged { result ≡ refused_or (first_holding (append_rows (length (sending_of self.now).buffer) count)) tt }
        ensures most { length (sending_of self.now).buffer ≤ longest }
    {
        if self.buffer.has_room_for(count) {
            Ok(())
        } else {
            Err(Refusal::BufferOverrun)
        }
    }

    /// Appends to the transmit buffer, all bytes or none.
    pub fn append(&mut self, bytes: &[u8]) -> Result<(), Refusal>
        ensures { record { after = sending_of self.new; answer = result } ≡ appending bytes.now (sending_of self.old) }
    {
        self.buffer
            .append(bytes)
            .map_err(|_| Refusal::BufferOverrun)
    }

    /// Empties the transmit buffer.
    pub fn empty(&mut self)
        ensures { sending_of self.new ≡ with_buffer [] (sending_of self.old) }
    {
        self.buffer = Bytes::new();
    }

    /// Ends whatever is under way.
    pub(crate) fn discard(&mut self) -> Option<End>
        ensures { record { after = sending_of self.new; ended = result } ≡ discarding (sending_of self.old) }
    {
        match mem::replace(&mut self.under, State::Idle) {
            State::Idle => None,
            _ => Some(End::Discarded),
        }
    }

    fn is_under_way(&self) -> bool
        ensures { result ≡ is_under_way (sending_of self.now).under }
    {
        !matches!(self.under, State::Idle)
    }

    /// Whether a reset is being signalled.
    pub(crate) fn is_resetting(&self) -> bool
        ensures { result ≡ reset_under_way (sending_of self.now).under }
    {
        matches!(self.under, State::Signalling { .. })
    }

    pub(crate) fn hard_reset_under_way(&self) -> bool
        ensures { result ≡ hard_reset_under_way (sending_of self.now).under }
    {
        matches!(&self.under, State::Signalling { sent, .. } if sent.kind() == Kind::HardReset)
    }
}

impl fmt::Display for End {
    ghost use Rattle.std.specs.Prelude.{Some};
    ghost use Rattle.sender.specs.Texts.{end_text};

    ghost output = { λ end. Some (end_text end) };

    fn fmt<W: fmt::Write>(&self, f: &mut fmt::Formatter<W>) -> fmt::Result {
        f.write_str(match self {
            End::Succeeded => "a sending succeeded",
            End::Failed => "a sending failed",
            End::Discarded => "a sending was discarded",
            End::Signalled => "a reset was signalled",
        })
    }
}
