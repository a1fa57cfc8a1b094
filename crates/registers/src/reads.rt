//! What a read of the register file gives.
//! Shows; alters nothing.
ghost use Rattle.std.specs.Prelude.{◌≡◌};
ghost use Rattle.registers.specs.Reads.{capability_word, contents, content_at};

use crate::file::Registers;
use crate::front::Front;
use front_end::Capabilities;
use transfer::address;

const PD_INTERFACE_REVISION: u16 = 0x2013;

/// Bits 9..8 and 7..5 of DEVICE_CAPABILITIES_1: the roles that are supported.
const SOURCE_ROLES: u16 = 0x0200;

const SINK_ROLES: u16 = 0x0040;

fn capability_word(has: Capabilities) -> u16
    ensures { result ≡ capability_word has }
{
    let roles = if has.default_source {
        SOURCE_ROLES
    } else {
        SINK_ROLES
    };
    u16::from(has.default_source)
        + 2 * u16::from(has.nondefault_source)
        + 4 * u16::from(has.sink)
        + 8 * u16::from(has.vconn)
        + roles
}

impl Registers {
    /// The value of a register of the file; 0 for any other address.
    pub fn value_at(&self, register: u8, front: Front) -> u16
        ensures { result ≡ content_at register (contents front self.now) }
    {
        match register {
            address::VENDOR_ID => self.identifiers.vendor,
            address::PRODUCT_ID => self.identifiers.product,
            address::DEVICE_ID => self.identifiers.device,
            address::PD_INTERFACE_REV => PD_INTERFACE_REVISION,
            address::ALERT => self.alert,
            address::ALERT_MASK => self.alert_mask,
            address::POWER_STATUS_MASK => u16::from(self.power_status_mask),
            address::FAULT_STATUS_MASK => u16::from(self.fault_status_mask),
            address::TCPC_CONTROL => u16::from(self.tcpc_control),
            address::ROLE_CONTROL => u16::from(self.role_control),
            address::POWER_CONTROL => u16::from(self.power_control),
            address::CC_STATUS => u16::from(self.cc_status()),
            address::POWER_STATUS => u16::from(self.power_status(front.path)),
            address::FAULT_STATUS => u16::from(self.fault_status),
            address::DEVICE_CAPABILITIES_1 => capability_word(front.has),
            _ => 0,
        }
    }
}
