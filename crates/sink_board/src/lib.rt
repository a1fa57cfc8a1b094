//! The sink board: a front end that can sink and nothing else.
//! Keeps one code for its whole setting, and counts the starts left on its line.
#![tactic(auto)]

mod board;
mod code;
mod starts;
mod switches;

pub use board::SinkBoard;
