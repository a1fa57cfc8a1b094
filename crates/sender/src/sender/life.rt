//! The life of a sending: a Tick passes, the line has finished, or a GoodCRC came.
//! Tells what became of the sending; what the front end is to do follows from that.
ghost use Rattle.std.specs.Prelude.{◌≡◌, ◌-◌, ◌<◌, Some};
ghost use Rattle.pd.specs.Messages.{content};
ghost use Rattle.sender.specs.Life.{acknowledges, moved, happening};
ghost use Rattle.sender.specs.Sendings.{sending_of, none};

use crate::sender::{End, START_TICKS, Sender, State, WAIT_TICKS};
use pd::{Kind, Message};

/// What can happen to the sending under way.
#[derive(Clone, Copy, Debug, PartialEq, Eq)]
pub enum Event {
    Tick,
    LineFinished,
    /// A GoodCRC of this kind, with this MessageID.
    GoodCrc { kind: Kind, id: u8 },
}

/// What became of the sending under way.
#[derive(Clone, Copy, Debug, PartialEq, Eq)]
pub enum Course {
    GoesOn,
    StartsAgain,
    Ended(End),
}

/// One Tick less of a span, which goes on.
fn goes_on(left: &mut u8) -> Option<Course>
    requires { 0 < left.old }
    ensures span { left.new ≡ left.old - 1 }
    ensures course { result ≡ Some Course.GoesOn }
{
    *left -= 1;
    Some(Course::GoesOn)
}

fn acknowledges(kind: Kind, id: u8, message: &Message) -> bool
    ensures { result ≡ acknowledges kind id (content message.now) }
{
    kind == message.kind() && id == message.header().message_id()
}

impl Sender {
    fn end(&mut self, end: End) -> Option<Course>
        ensures { record { after = sending_of self.new; course = result } ≡ moved none (Some (Course.Ended end)) (sending_of self.old) }
    {
        self.under = State::Idle;
        Some(Course::Ended(end))
    }

    /// What an event makes of the sending under way; nothing where there is none that it concerns.
    pub fn happen(&mut self, event: Event) -> Option<Course>
        ensures { record { after = sending_of self.new; course = result } ≡ happening event (sending_of self.old) }
    {
        match (&mut self.under, event) {
            // An arm each: no proof follows one `left` lent out of three states.
            (State::Starting { left, .. }, Event::Tick) if *left > 1 => goes_on(left),
            (State::Waiting { left, .. }, Event::Tick) if *left > 1 => goes_on(left),
            (State::Signalling { left, .. }, Event::Tick) if *left > 1 => goes_on(left),
            (
                &mut (State::Starting { sent, retries, .. } | State::Waiting { sent, retries, .. }),
                Event::Tick,
            ) if retries > 0 => {
                self.under = State::Starting {
                    sent,
                    retries: retries - 1,
                    left: START_TICKS,
                };
                Some(Course::StartsAgain)
            }
            (
                State::Starting { .. } | State::Waiting { .. } | State::Signalling { .. },
                Event::Tick,
            ) => self.end(End::Failed),
            (&mut State::Starting { sent, retries, .. }, Event::LineFinished) => {
                self.under = State::Waiting {
                    sent,
                    retries,
                    left: WAIT_TICKS,
                };
                Some(Course::GoesOn)
            }
            (State::Signalling { .. }, Event::LineFinished) => self.end(End::Signalled),
            (State::Waiting { sent, .. }, Event::GoodCrc { kind, id })
                if acknowledges(kind, id, sent) => self.end(End::Succeeded),
            _ => None,
        }
    }
}
