//! A receiver: RECEIVE_DETECT, MESSAGE_HEADER_INFO, RxOneMore and the frames that wait.
//! Stores the registers as they are written and shows the oldest frame as the receive buffer reads.
ghost use Rattle.std.specs.Prelude.{◌≡◌, ◌≤◌, true, length, is_ok};
ghost use Rattle.pd.specs.Messages.{content};
ghost use Rattle.receiver.specs.Receiving.{receiving, at_power_on, is_waiting, released, after_hard_reset, keeping};
ghost use Rattle.receiver.specs.Receiving.{with_detect, with_info, with_armed};
ghost use Rattle.receiver.specs.Waiting.{shown_frame, shown_bytes, padded};
ghost use Rattle.receiver.specs.Capacity.{capacity};

use crate::queue::{Queue, QueueFull};
use pd::Message;

/// RECEIVE_DETECT where no frame type and no Hard Reset is enabled.
const NONE_ENABLED: u8 = 0x00;

/// MESSAGE_HEADER_INFO at power on: revision 2.0, every role 0.
const INFO_AT_POWER_ON: u8 = 0x02;

#[derive(Clone, Copy)]
pub struct Receiver {
    /// RECEIVE_DETECT.
    detect: u8,
    /// MESSAGE_HEADER_INFO.
    info: u8,
    /// Whether RxOneMore is armed.
    armed: bool,
    /// The frames that wait, oldest first.
    frames: Queue,
}

impl Receiver {
    pub fn new() -> Receiver
        ensures { receiving result ≡ at_power_on }
    {
        Receiver {
            detect: NONE_ENABLED,
            info: INFO_AT_POWER_ON,
            armed: false,
            frames: Queue::new(),
        }
    }

    /// RECEIVE_DETECT.
    pub fn detect(&self) -> u8
        ensures { result ≡ (receiving self.now).detect }
    {
        self.detect
    }

    /// MESSAGE_HEADER_INFO.
    pub fn info(&self) -> u8
        ensures { result ≡ (receiving self.now).info }
    {
        self.info
    }

    /// Whether a frame waits.
    pub fn has_waiting(&self) -> bool
        ensures told { result ≡ is_waiting (receiving self.now) }
        ensures most { length (receiving self.now).frames ≤ capacity }
    {
        !self.frames.as_slice().is_empty()
    }

    pub fn set_detect(&mut self, value: u8)
        ensures { receiving self.new ≡ with_detect value (receiving self.old) }
    {
        self.detect = value;
    }

    pub fn set_info(&mut self, value: u8)
        ensures { receiving self.new ≡ with_info value (receiving self.old) }
    {
        self.info = value;
    }

    /// Arms RxOneMore.
    pub fn arm(&mut self)
        ensures { receiving self.new ≡ with_armed true (receiving self.old) }
    {
        self.armed = true;
    }

    /// Lets go of the oldest frame, if any.
    pub fn release(&mut self)
        ensures { receiving self.new ≡ released (receiving self.old) }
    {
        self.frames.release();
    }

    /// What a Hard Reset, sent or heard, does to reception.
    pub fn reset(&mut self)
        ensures { receiving self.new ≡ after_hard_reset (receiving self.old) }
    {
        self.frames = Queue::new();
        self.detect = NONE_ENABLED;
        self.armed = false;
    }

    /// The frame waits last, or nothing changes where there is no room for it.
    pub fn keep(&mut self, frame: Message) -> Result<(), QueueFull>
        ensures { record { after = receiving self.new; waits = is_ok result } ≡ keeping (content frame) (receiving self.old) }
    {
        self.frames.push(frame)
    }

    /// Fills `buffer` with the receive buffer's first bytes.
    pub fn show(&self, buffer: &mut [u8])
        ensures { buffer.new ≡ padded (length buffer.old) (shown_bytes (receiving self.now).frames) }
    {
        match self.frames.as_slice() {
            [] => buffer.fill(0),
            [oldest, ..] => show_frame(buffer, oldest),
        }
    }
}

/// A frame as it is read: how many bytes follow, its type, its bytes; then zeros.
fn show_frame(buffer: &mut [u8], frame: &Message)
    ensures { buffer.new ≡ padded (length buffer.old) (shown_frame (content frame.now)) }
{
    let bytes = frame.bytes();
    fill_from(buffer, &[bytes.len() as u8 + 1, frame.kind().into()]);
    if let [_, _, rest @ ..] = buffer {
        fill_from(rest, bytes);
    }
}

/// As many of `bytes` as there is room for, then zeros.
fn fill_from(buffer: &mut [u8], bytes: &[u8])
    ensures { buffer.new ≡ padded (length buffer.old) bytes.now }
{
    let (front, behind) = buffer.split_at_mut(bytes.len().min(buffer.len()));
    front.copy_from_slice(&bytes[..front.len()]);
    behind.fill(0);
}
