//! From the bytes of a transfer to a request, or to a refusal with its number.
//! Has the one list of registers; knows of no register's value and of no front end.
#![tactic(auto)]

pub mod address;
mod decode;
mod list;
mod refusal;

pub use decode::{ReadRequest, WriteRequest, decode_read, decode_write};
pub use list::register_count;
pub use refusal::Refusal;
