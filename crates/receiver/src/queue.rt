//! The frames that wait, oldest first, at most as many as the capacity; a full queue keeps what it has.
//! Knows of no register. A contract reads a list; the slots behind it are blank, so that equal lists are equal values.
ghost use Rattle.std.specs.Prelude.{◌≡◌, ◌≤◌, [], map, length, drop, is_ok};
ghost use Rattle.pd.specs.Room.{HasRoom};
ghost use Rattle.receiver.specs.Capacity.{capacity};
ghost use Rattle.receiver.specs.Slots.{blank};

use pd::{Kind, Message};
use std::error::Error;
use std::fmt;

/// The most frames that wait. They lie in the value itself, since nothing here may allocate.
const CAPACITY: usize = 2;

#[derive(Clone, Copy)]
pub(crate) struct Queue {
    count: usize,
    slots: [Message; CAPACITY],
    ghost laid_out: { HasRoom capacity blank count slots },
}

/// As many frames wait as can.
#[derive(Clone, Copy, Debug, PartialEq, Eq)]
pub struct QueueFull;

impl Queue {
    ghost use Rattle.pd.specs.Messages.{content};
    ghost use Rattle.receiver.specs.Waiting.{queued, has_room, with_last};

    /// What stands in a slot where no frame waits.
    #[tactic(auto, using(pd::specs::Messages::same_message, crate::specs::Slots::blank_is_empty))]
    fn blank() -> Message
        ensures { result ≡ blank }
    {
        Message::without_bytes(Kind::Sop)
    }

    pub(crate) fn new() -> Queue
        ensures { queued result ≡ [] }
    {
        Queue {
            count: 0,
            slots: [Queue::blank(); CAPACITY],
        }
    }

    pub(crate) fn as_slice(&self) -> &[Message]
        ensures held { map content result.now ≡ queued self.now }
        ensures most { length (queued self.now) ≤ capacity }
    {
        &self.slots[..self.count]
    }

    /// The frame waits last, or nothing changes where there is no room for it.
    pub(crate) fn push(&mut self, frame: Message) -> Result<(), QueueFull>
        ensures waiting { queued self.new ≡ with_last (content frame) (queued self.old) }
        ensures told { is_ok result ≡ has_room (queued self.old) }
    {
        if self.count == CAPACITY {
            return Err(QueueFull);
        }
        self.slots[self.count] = frame;
        self.count += 1;
        Ok(())
    }

    /// The oldest goes, if any.
    pub(crate) fn release(&mut self)
        ensures { queued self.new ≡ drop 1 (queued self.old) }
    {
        if self.count > 0 {
            // A blank in its place, so that one comes behind the others.
            self.slots[0] = Queue::blank();
            self.slots.rotate_left(1);
            self.count -= 1;
        }
    }
}

impl fmt::Display for QueueFull {
    ghost use Rattle.std.specs.Prelude.{Some};
    ghost use Rattle.receiver.specs.Texts.{queue_full_text};

    ghost output = { λ _. Some queue_full_text };

    fn fmt<W: fmt::Write>(&self, f: &mut fmt::Formatter<W>) -> fmt::Result {
        f.write_str("no frame more can wait")
    }
}

impl Error for QueueFull {}
