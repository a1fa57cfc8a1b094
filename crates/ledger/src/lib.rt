//! The ledger of one port, and what is to hold of it after every run: every list of calls from power on.
//! Definitions alone, in specs/: no function carries a law yet.
#![tactic(auto)]
