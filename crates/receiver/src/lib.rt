//! What concerns reception: the frames that wait to be read, and the registers that rule reception.
//! Judges no frame: who gives it one has decided that it is acknowledged.
#![tactic(auto)]

mod queue;
mod receiver;

pub use queue::QueueFull;
pub use receiver::Receiver;
