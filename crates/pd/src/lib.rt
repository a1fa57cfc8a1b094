//! What stands on the CC wire: kinds of messages and signals, their bytes, headers, GoodCRCs.
//! Knows of no register and no front end.
#![tactic(auto)]

mod bits;
mod bytes;
mod header;
mod kind;
mod message;

pub use bytes::{Bytes, LONGEST, SHORTEST, TooLong};
pub use header::Header;
pub use kind::{Kind, UnknownKind};
pub use message::Message;
