//! A write transfer: decoded, judged, and only then acted on.
//! Judging alters nothing; acting refuses nothing.
ghost use Rattle.std.specs.Prelude.{◌≡◌, false, None};
ghost use Rattle.pd.specs.Messages.{contents};
ghost use Rattle.port.specs.View.{view};
ghost use Rattle.sender.specs.Transmit.{transmit_rows};
ghost use Rattle.port.specs.Steps.{obeyed, reset_by, on_line_after, discard_noted, without_end, reacted, acted, write_unsettled};
ghost use Rattle.transfer.specs.Decode.{asked, byte, word};
ghost use Rattle.transfer.specs.Refusals.{first_holding, refused_or};
ghost use Rattle.port.specs.Outcomes.{OnlyFaulted};
ghost use Rattle.port.specs.Writes.{taking_rows, write_outcome};
ghost use Rattle.registers.specs.Writes.{effect_of};

use crate::answer::Answer;
use crate::port::Port;
use front_end::FrontEnd;
use pd::{Kind, Message};
use registers::{DISCARDED, Effect, FRAME_WAITS};
use sender::{End, Transmit};
use transfer::{Refusal, WriteRequest, address, decode_write};

impl<F: FrontEnd> Port<F> {
    // Apart from `judge`, since with its line there that goal stays open.
    fn judge_transmit(&self, value: u8) -> Result<Option<Effect>, Refusal>
        ensures { result ≡ refused_or (first_holding (transmit_rows (view F.meaning self.now).sending value)) None }
    {
        self.sender.judge(value).map(|()| None)
    }

    /// Why a request that is well transferred is refused, or what it does beside what it stores.
    fn judge(&self, request: WriteRequest<'_>) -> Result<Option<Effect>, Refusal>
        ensures { result ≡ refused_or (first_holding (taking_rows F.CAPABILITIES (view F.meaning self.now) (asked request.entry))) (effect_of (asked request.entry) (F.meaning self.now.front).path) }
    {
        match request {
            WriteRequest::Append(bytes) => self.sender.room_for(bytes.len()).map(|()| None),
            WriteRequest::Byte {
                register: address::TRANSMIT,
                value,
                ..
            } => self.judge_transmit(value),
            _ => registers::judge(request, self.told()),
        }
    }

    fn obey(&mut self, effect: Option<Effect>)
        ensures { view F.meaning self.new ≡ obeyed F.CAPABILITIES effect (view F.meaning self.old) }
    {
        self.registers.detect(effect);
        match effect {
            Some(Effect::Switch(path)) => self.front.set_path(path),
            Some(Effect::Arm) => self.receiver.arm(),
            Some(Effect::Empty) => self.sender.empty(),
            Some(Effect::Detect(_)) | None => {}
        }
    }

    /// A Hard Reset to be sent drops what waits and what would be received.
    fn reset_reception(&mut self, value: u8)
        ensures { view F.meaning self.new ≡ reset_by value (view F.meaning self.old) }
    {
        if Transmit::try_from(value).is_ok_and(|asked| asked.kind == Kind::HardReset) {
            self.receiver.reset();
            self.registers.unmark(FRAME_WAITS);
        }
    }

    fn put_on_line(&mut self, started: Option<Message>)
        ensures { view F.meaning self.new ≡ on_line_after (contents started) (view F.meaning self.old) }
    {
        if let Some(message) = started {
            self.front.send(&message);
        }
    }

    fn note_discard(&mut self, ended: Option<End>)
        ensures { view F.meaning self.new ≡ discard_noted ended (view F.meaning self.old) }
    {
        if ended.is_some() {
            self.registers.mark(DISCARDED);
        }
    }

    /// Accepts a sending, held back while ALERT bit 2 or 3 is 1.
    fn transmit(&mut self, value: u8) -> Option<End>
        ensures { record { view = view F.meaning self.new; ended = result } ≡ reacted F.CAPABILITIES (byte 0x50 value false) (view F.meaning self.old) }
    {
        let accepted = self.sender.transmit(value, self.registers.hold_back());
        self.reset_reception(value);
        self.put_on_line(accepted.started);
        self.note_discard(accepted.ended);
        accepted.ended
    }

    fn react_to_byte(&mut self, register: u8, value: u8) -> Option<End>
        ensures { record { view = view F.meaning self.new; ended = result } ≡ reacted F.CAPABILITIES (byte register value false) (view F.meaning self.old) }
    {
        match register {
            address::TCPC_CONTROL | address::POWER_CONTROL => self
                .front
                .set_vconn(self.registers.vconn()),
            address::ROLE_CONTROL => self.front.set_terminations(self.registers.terminations()),
            address::MESSAGE_HEADER_INFO => self.receiver.set_info(value),
            address::RECEIVE_DETECT => self.receiver.set_detect(value),
            address::TRANSMIT => return self.transmit(value),
            _ => {}
        }
        None
    }

    fn react_to_word(&mut self, register: u8, value: u16)
        ensures { without_end (view F.meaning self.new) ≡ reacted F.CAPABILITIES (word register value) (view F.meaning self.old) }
    {
        if register == address::ALERT && value & FRAME_WAITS != 0 {
            self.receiver.release();
            if self.receiver.has_waiting() {
                self.registers.mark(FRAME_WAITS);
            }
        }
    }

    /// What a taken request does beside the registers that it stores.
    fn react(&mut self, request: WriteRequest<'_>) -> Option<End>
        ensures { record { view = view F.meaning self.new; ended = result } ≡ reacted F.CAPABILITIES (asked request.entry) (view F.meaning self.old) }
    {
        match request {
            WriteRequest::Byte {
                register,
                value,
                ..
            } => self.react_to_byte(register, value),
            WriteRequest::Word { register, value } => {
                self.react_to_word(register, value);
                None
            }
            WriteRequest::Append(bytes) => {
                // Judged before, so there is room.
                let _ = self.sender.append(bytes);
                None
            }
        }
    }

    fn act(&mut self, request: WriteRequest<'_>, effect: Option<Effect>) -> Option<End>
        ensures { record { view = view F.meaning self.new; ended = result } ≡ acted F.CAPABILITIES (asked request.entry) effect (view F.meaning self.old) }
    {
        self.registers.store(request);
        self.obey(effect);
        self.react(request)
    }

    /// Takes a write, or refuses it and leaves all as it was.
    #[tactic(auto, using(crate::proofs::Writing::stations))]
    fn take_write(&mut self, transfer: &[u8]) -> Result<Answer, Refusal>
        ensures { record { view = view F.meaning self.new; answer = result } ≡ write_unsettled F.CAPABILITIES (view F.meaning self.old) transfer.now }
    {
        let request = decode_write(transfer)?;
        let effect = self.judge(request)?;
        let ended = self.act(request, effect);
        Ok(Answer::taken(ended))
    }

    /// A write transfer of any bytes.
    #[tactic(auto, using(crate::proofs::Cases::unsettled_cases, crate::proofs::Settling::left), unfolding(crate::specs::Writes::write_outcome, crate::specs::Steps::write_unsettled))]
    pub fn write(&mut self, transfer: &[u8]) -> Result<Answer, Refusal>
        ensures outcome { record { view = view F.meaning self.new; answer = result } ≡ write_outcome F.CAPABILITIES (view F.meaning self.old) transfer.now }
        ensures refused_alters_the_fault_alone { OnlyFaulted result (view F.meaning self.old) (view F.meaning self.new) }
    {
        let before = self.begin();
        let outcome = self.take_write(transfer);
        self.conclude(&before, outcome)
    }
}
