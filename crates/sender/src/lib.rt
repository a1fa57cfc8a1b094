//! What concerns transmission: the transmit buffer, and the sending under way.
//! Drives no front end: it tells what is to be put on the line.
#![tactic(auto)]

mod sender;
mod transmit;

pub use sender::{Accepted, Course, End, Event, Sender};
pub use transmit::{Transmit, type_of};
