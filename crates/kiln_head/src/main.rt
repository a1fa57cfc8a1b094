//! One head after the other: found as it was left, powered on, configured by its port manager, powered off.
#![tactic(auto)]

mod calls;
mod head;
mod outputs;
mod script;

use relay_board::RelayBoard;
use sink_board::SinkBoard;
use std::io;

fn main(rt: HostRuntime) -> io::Result<()> {
    head::run::<RelayBoard>(&rt, "relay board")?;
    println!(rt; "")?;
    head::run::<SinkBoard>(&rt, "sink board")
}
