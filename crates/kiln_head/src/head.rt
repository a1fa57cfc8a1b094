//! A head from the state in which it is found to power off, each step printed.
use crate::calls::{Told, make};
use crate::outputs::Outputs;
use crate::script::{Call, START_UP, Step};
use front_end::{FrontEnd, Path};
use pd::{Kind, Message};
use port::{Identifiers, Port};
use std::io;
use transfer::address;

const IDENTIFIERS: Identifiers = Identifiers {
    vendor: 0x1FC9,
    product: 0x0051,
    device: 0x0001,
};

const READ_ALERT: Call = Call::Read {
    register: address::ALERT,
    wanted: 2,
};

/// What a service technician left behind: the path on and a sending on the line.
fn switch_by_hand<F: FrontEnd>(front: &mut F) {
    front.set_path(Path::Sink);
    front.send(&Message::without_bytes(Kind::HardReset));
    front.again();
}

/// ALERT, the pin and what the front end shows.
fn print_state<F: FrontEnd>(rt: &HostRuntime, port: &mut Port<F>) -> io::Result<()> {
    let alert = Told(make(port, READ_ALERT));
    let pin = if port.alert_asserted() {
        "asserted"
    } else {
        "released"
    };
    let outputs = Outputs::of(port.front());
    println!(rt; "    ALERT {alert}, Alert# {pin}; {outputs}")
}

/// The script, call by call.
fn play_script<F: FrontEnd>(rt: &HostRuntime, port: &mut Port<F>) -> io::Result<()> {
    for Step { aim, call } in START_UP {
        let told = Told(make(port, call));
        println!(rt; "  {aim}: {call}: {told}")?;
        print_state(rt, port)?;
    }
    Ok(())
}

/// A head on a board of this kind.
pub(crate) fn run<F: FrontEnd + Default + Drop>(rt: &HostRuntime, name: &str) -> io::Result<()> {
    let mut front = F::default();
    switch_by_hand(&mut front);
    let found = Outputs::of(&front);
    println!(rt; "{name}, as found: {found}")?;
    let Identifiers {
        vendor,
        product,
        device,
    } = IDENTIFIERS;
    println!(rt;
        "powered on as vendor {vendor:04X}h, product {product:04X}h, device {device:04X}h"
    )?;
    let mut port = Port::power_on(front, IDENTIFIERS);
    let first = print_state(rt, &mut port);
    let script = play_script(rt, &mut port);
    let front = port.power_off();
    first?;
    script?;
    let off = Outputs::of(&front);
    let verdict = if off.are_safe() { "safe" } else { "NOT SAFE" };
    println!(rt; "powered off: {off}")?;
    println!(rt; "outputs handed back: {verdict}")
}
