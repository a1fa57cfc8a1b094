//! What a write to TRANSMIT does: it is refused, or a sending is accepted.
//! Judging and acting are apart, so that a refused write alters nothing.
ghost use Rattle.std.specs.Prelude.{◌≡◌, Some};
ghost use Rattle.pd.specs.Kinds.{number_of};
ghost use Rattle.pd.specs.Messages.{content, contents};
ghost use Rattle.transfer.specs.Refusals.{first_holding, refused_or};
ghost use Rattle.sender.specs.Sendings.{sending_of, under_of, with_buffer};
ghost use Rattle.sender.specs.Transmit.{waits_for, transmit_rows, transmitting, accepting, accepted, begun, buffer_after};

use crate::sender::{Accepted, End, SIGNALLING_TICKS, START_TICKS, Sender, State};
use crate::transmit::Transmit;
use pd::{Bytes, Kind, Message, SHORTEST};
use std::mem;
use transfer::Refusal;

/// A sending with its first span before it.
fn begun(message: &Message, retries: u8) -> State
    ensures { under_of result ≡ begun (content message.now) retries }
{
    if message.kind().is_message() {
        State::Starting {
            sent: *message,
            retries,
            left: START_TICKS,
        }
    } else {
        State::Signalling {
            sent: *message,
            left: SIGNALLING_TICKS,
        }
    }
}

impl Sender {
    fn waits_for(&self, kind: Kind) -> bool
        ensures { result ≡ waits_for (number_of kind) (sending_of self.now).under }
    {
        if kind == Kind::HardReset {
            self.hard_reset_under_way()
        } else {
            self.is_under_way()
        }
    }

    /// Whether a write of `value` to TRANSMIT is taken.
    pub fn judge(&self, value: u8) -> Result<(), Refusal>
        ensures { result ≡ refused_or (first_holding (transmit_rows (sending_of self.now) value)) tt }
    {
        let kind = Transmit::try_from(value)?.kind;
        if kind.is_message() && self.buffer.len() < SHORTEST {
            return Err(Refusal::NothingToSend);
        }
        if self.waits_for(kind) {
            return Err(Refusal::SendingUnderWay);
        }
        Ok(())
    }

    /// Acts on a write of `value` to TRANSMIT that is taken; `held_back` while ALERT bit 2 or 3 is 1.
    pub fn transmit(&mut self, value: u8, held_back: bool) -> Accepted
        ensures { record { after = sending_of self.new; started = contents result.started; ended = result.ended } ≡ transmitting value held_back (sending_of self.old) }
    {
        match Transmit::try_from(value) {
            Ok(asked) => self.accept(asked, held_back),
            Err(_) => Accepted {
                started: None,
                ended: None,
            },
        }
    }

    fn accept(&mut self, asked: Transmit, held_back: bool) -> Accepted
        ensures { record { after = sending_of self.new; started = contents result.started; ended = result.ended } ≡ accepting (Some asked.kind) asked.retries held_back (sending_of self.old) }
    {
        let earlier = self.discard();
        let message = self.take_message(asked.kind);
        if held_back && asked.kind != Kind::HardReset {
            return Accepted {
                started: None,
                ended: Some(End::Discarded),
            };
        }
        self.under = begun(&message, asked.retries);
        Accepted {
            started: Some(message),
            ended: earlier,
        }
    }

    /// A message with the buffered bytes, which leave the buffer, or a reset without bytes.
    fn take_message(&mut self, kind: Kind) -> Message
        ensures taken { content result ≡ accepted kind (sending_of self.old).buffer }
        ensures left { sending_of self.new ≡ with_buffer (buffer_after kind (sending_of self.old).buffer) (sending_of self.old) }
    {
        if !kind.is_message() {
            return Message::without_bytes(kind);
        }
        Message::holding(kind, mem::replace(&mut self.buffer, Bytes::new()))
    }
}
