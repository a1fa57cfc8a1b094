//! The register file: what is stored, what follows from it, and what a write or a report does to it.
//! Plain values: knows the capabilities and the path that it is told, touches no front end.
#![tactic(auto)]

mod alerts;
mod command;
mod file;
mod front;
mod reads;
mod reports;
mod status;
mod writes;

pub use alerts::{Before, DISCARDED, FRAME_WAITS, INTERFACE_ERROR};
pub use command::Effect;
pub use file::{Identifiers, Level, Registers};
pub use front::Front;
pub use reports::Trip;
pub use writes::judge;
