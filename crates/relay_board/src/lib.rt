//! The relay board: a front end that can switch everything.
//! Keeps one bit for each switch, and counts the starts made on its line.
#![tactic(auto)]

mod board;
mod pin;
mod starts;
mod switches;

pub use board::RelayBoard;
