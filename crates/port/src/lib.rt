//! A port controller over any front end: a transfer or a report comes in, is judged, acted on, answered.
//! Owns its front end from power on to power off.
#![tactic(auto)]

mod answer;
mod port;

pub use answer::{Answer, Disposition, Report};
pub use port::Port;
pub use registers::Identifiers;
