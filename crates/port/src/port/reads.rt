//! A read: judged, then shown at the front of the reader's buffer.
//! A taken read alters nothing but that buffer.
ghost use Rattle.std.specs.Prelude.{◌≡◌, ◌≤◌, true, length, is_err, Ok};
ghost use Rattle.transfer.specs.Refusals.{refused_or};
ghost use Rattle.port.specs.Outcomes.{OnlyFaulted};
ghost use Rattle.port.specs.Reads.{value_of, shown, filled, read_refusal, read_outcome, buffer_after, Shown};
ghost use Rattle.port.specs.View.{view};

use crate::port::Port;
use front_end::FrontEnd;
use transfer::{Refusal, address, decode_read};

impl<F: FrontEnd> Port<F> {
    fn value_at(&self, register: u8) -> u16
        ensures { result ≡ value_of F.CAPABILITIES (view F.meaning self.now) register }
    {
        match register {
            address::MESSAGE_HEADER_INFO => u16::from(self.receiver.info()),
            address::RECEIVE_DETECT => u16::from(self.receiver.detect()),
            _ => self.registers.value_at(register, self.told()),
        }
    }

    /// Shows the bytes wanted, or refuses and leaves the buffer.
    #[tactic(auto, using(crate::proofs::Cases::refused_or_cases))]
    fn show(&self, register: u8, wanted: usize, buffer: &mut [u8]) -> Result<usize, Refusal>
        ensures answer { result ≡ refused_or (read_refusal register wanted buffer.old) wanted }
        ensures buffer { buffer.new ≡ filled (read_refusal register wanted buffer.old) (shown F.CAPABILITIES (view F.meaning self.now) register wanted) wanted buffer.old }
    {
        decode_read(register, wanted, buffer.len())?;
        let shown = &mut buffer[..wanted];
        if register == address::RECEIVE_BUFFER {
            self.receiver.show(shown);
        } else {
            shown.copy_from_slice(&self.value_at(register).to_le_bytes()[..wanted]);
        }
        Ok(wanted)
    }

    /// A read of `wanted` bytes at `register`; answers how many bytes it wrote.
    #[tactic(auto, using(crate::proofs::Cases::refused_or_cases, crate::proofs::Settling::left, crate::proofs::Settling::only_faulted), unfolding(crate::specs::Reads::read_outcome, crate::specs::Reads::buffer_after))]
    pub fn read(&mut self, register: u8, wanted: usize, buffer: &mut [u8]) -> Result<usize, Refusal>
        ensures outcome { record { view = view F.meaning self.new; answer = result } ≡ read_outcome (view F.meaning self.old) register wanted buffer.old }
        ensures buffer { buffer.new ≡ buffer_after F.CAPABILITIES (view F.meaning self.old) register wanted buffer.old }
        ensures refused_alters_the_fault_alone { OnlyFaulted result (view F.meaning self.old) (view F.meaning self.new) }
        ensures refused_leaves_the_buffer { is_err result ≡ true → buffer.new ≡ buffer.old }
        ensures taken_shows_the_bytes_alone { result ≡ Ok wanted → Shown F.CAPABILITIES register wanted (view F.meaning self.old) (view F.meaning self.new) buffer.old buffer.new }
    {
        let before = self.begin();
        let outcome = self.show(register, wanted, buffer);
        self.conclude(&before, outcome)
    }
}
