//! Examples of docs/PORT-OTHER.md and of what callers may do, run: a crate of its own, since a crate with tests is proved twice.
#![tactic(auto)]

#[cfg(test)]
mod alike;
#[cfg(test)]
mod boards;
#[cfg(test)]
mod callers;
#[cfg(test)]
mod transfers;
#[cfg(test)]
mod wire;
