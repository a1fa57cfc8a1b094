//! How a front end changes hands: each port has its own, and gets it back before it is powered on again.
//! What must not be done with a port stands in refused/, as edits of this file.
#![tactic(auto)]

ghost use Rattle.std.specs.Prelude.{◌≡◌};
ghost use Rattle.front_end.specs.Meaning.{safe};

use front_end::FrontEnd;
use port::{Identifiers, Port};

/// COMMAND 33h: start VBUS detection.
const DETECT_VBUS: [u8; 2] = [0x23, 0x33];

const FIRST: Identifiers = Identifiers {
    vendor: 1,
    product: 2,
    device: 3,
};

const SECOND: Identifiers = Identifiers { device: 4, ..FIRST };

/// Powered on, written to, powered off, and the same again with the front end that came back.
pub fn power_cycle<F: FrontEnd>(front: F) -> F
    ensures { F.meaning result ≡ safe }
{
    let mut port = Port::power_on(front, FIRST);
    let _ = port.write(&DETECT_VBUS);
    let front = port.power_off();
    let mut port = Port::power_on(front, FIRST);
    let _ = port.write(&DETECT_VBUS);
    port.power_off()
}

/// Two ports at a time, each on a front end of its own.
pub fn side_by_side<F: FrontEnd>(left: F, right: F) -> (F, F)
    ensures { (F.meaning result.0 ≡ safe) × (F.meaning result.1 ≡ safe) }
{
    let first = Port::power_on(left, FIRST);
    let second = Port::power_on(right, SECOND);
    (first.power_off(), second.power_off())
}
