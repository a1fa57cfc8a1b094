//! What a port stands on: the switches and the line of one USB Type-C connector.
//! Says what a front end means and what each order does to that; drives no hardware itself.
#![tactic(auto)]

mod face;
mod line;
mod parts;
mod words;

pub use face::{FrontEnd, LendsLine};
pub use line::{BoardLine, MOST_STARTS, OnLine, OnLineRef, Starts};
pub use parts::{Capabilities, Path, RpValue, Termination, Terminations, Vconn};
