//! What a write transfer does to the register file, and when its value is refused.
//! Judging alters nothing; storing refuses nothing.
ghost use Rattle.std.specs.Prelude.{◌≡◌, false};
ghost use Rattle.transfer.specs.Decode.{asked, byte};
ghost use Rattle.transfer.specs.Refusals.{first_holding, refused_or};
ghost use Rattle.registers.specs.Writes.{value_rows, effect_of, stored, bad_role, detecting};

use crate::alerts::INTERFACE_ERROR;
use crate::command::{Effect, command};
use crate::file::{Level, Registers};
use crate::front::Front;
use crate::status::ENABLE_VCONN;
use front_end::{Capabilities, RpValue, Termination, Terminations};
use transfer::{Refusal, WriteRequest, address};

/// Rp value 3, or Rp on a pin of a front end that cannot source.
fn is_bad_role(has: Capabilities, role_control: u8) -> bool
    ensures { result ≡ bad_role has role_control }
{
    let pins = Terminations::from(role_control);
    pins.rp == RpValue::Reserved
        || (!has.default_source && (pins.cc1 == Termination::Rp || pins.cc2 == Termination::Rp))
}

/// What a write does beside the registers that it stores, if anything, or why its value is refused.
pub fn judge(request: WriteRequest<'_>, front: Front) -> Result<Option<Effect>, Refusal>
    ensures { result ≡ refused_or (first_holding (value_rows front (asked request.entry))) (effect_of (asked request.entry) front.path) }
{
    let WriteRequest::Byte {
        register,
        value,
        ..
    } = request
    else {
        return Ok(None);
    };
    match register {
        address::COMMAND => command(value, front),
        address::ROLE_CONTROL if is_bad_role(front.has, value) => Err(Refusal::LacksCapability),
        address::POWER_CONTROL if value & ENABLE_VCONN != 0 && !front.has.vconn => {
            Err(Refusal::LacksCapability)
        }
        _ => Ok(None),
    }
}

impl Registers {
    fn store_byte(&mut self, register: u8, value: u8)
        ensures { self.new ≡ stored (byte register value false) self.old }
    {
        match register {
            address::POWER_STATUS_MASK => self.power_status_mask = value,
            address::FAULT_STATUS_MASK => self.fault_status_mask = value,
            address::TCPC_CONTROL => self.tcpc_control = value,
            address::ROLE_CONTROL => {
                self.role_control = value;
                self.cc1_level = Level::Zero;
                self.cc2_level = Level::Zero;
            }
            address::POWER_CONTROL => self.power_control = value,
            address::FAULT_STATUS => self.fault_status &= !value,
            _ => {}
        }
    }

    /// Stores what a taken write stores; a one in an undefined bit is a fault.
    pub fn store(&mut self, request: WriteRequest<'_>)
        ensures { self.new ≡ stored (asked request.entry) self.old }
    {
        match request {
            WriteRequest::Byte {
                register,
                value,
                stray,
            } => {
                self.store_byte(register, value);
                if stray {
                    self.raise_fault(INTERFACE_ERROR);
                }
            }
            WriteRequest::Word {
                register: address::ALERT,
                value,
            } => self.unmark(value),
            WriteRequest::Word {
                register: address::ALERT_MASK,
                value,
            } => self.alert_mask = value,
            WriteRequest::Word { .. } | WriteRequest::Append(_) => {}
        }
    }

    /// Switches VBUS detection, if that is the effect.
    pub fn detect(&mut self, effect: Option<Effect>)
        ensures { self.new ≡ detecting effect self.old }
    {
        if let Some(Effect::Detect(on)) = effect {
            self.detection = on;
        }
    }
}
