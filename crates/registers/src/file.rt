//! What the register file stores, and its power-on values.
//! Plain values: nothing that follows from them is worked out here.
ghost use Rattle.std.specs.Prelude.{◌≡◌};
ghost use Rattle.registers.specs.File.{powered_on};
ghost use Rattle.registers.specs.Reports.{GivesLevel};
ghost use Rattle.registers.specs.Status.{level_code};

use transfer::Refusal;

/// A level reported for a CC pin.
#[derive(Clone, Copy, Debug, PartialEq, Eq)]
pub enum Level {
    Zero = 0,
    One = 1,
    Two = 2,
    Three = 3,
}

impl From<Level> for u8 {
    ghost from_gives = { λ level code. code ≡ level_code level };

    fn from(level: Level) -> u8 {
        level as u8
    }
}

impl TryFrom<u8> for Level {
    type Error = Refusal;

    ghost try_from_gives = { GivesLevel };

    fn try_from(number: u8) -> Result<Level, Refusal> {
        match number {
            0 => Ok(Level::Zero),
            1 => Ok(Level::One),
            2 => Ok(Level::Two),
            3 => Ok(Level::Three),
            _ => Err(Refusal::OutOfRange),
        }
    }
}

/// What a port identifies itself by.
#[derive(Clone, Copy, Debug, PartialEq, Eq)]
pub struct Identifiers {
    pub vendor: u16,
    pub product: u16,
    pub device: u16,
}

#[derive(Clone, Copy, Debug)]
pub struct Registers {
    pub(crate) identifiers: Identifiers,
    pub(crate) alert: u16,
    pub(crate) alert_mask: u16,
    pub(crate) power_status_mask: u8,
    pub(crate) fault_status_mask: u8,
    pub(crate) tcpc_control: u8,
    pub(crate) role_control: u8,
    pub(crate) power_control: u8,
    pub(crate) fault_status: u8,
    pub(crate) detection: bool,
    pub(crate) vbus: bool,
    pub(crate) cc1_level: Level,
    pub(crate) cc2_level: Level,
}

impl Registers {
    pub fn power_on(identifiers: Identifiers) -> Registers
        ensures { result ≡ powered_on identifiers }
    {
        Registers {
            identifiers,
            alert: 0x0200,
            alert_mask: 0xFFFF,
            power_status_mask: 0xFF,
            fault_status_mask: 0xFF,
            tcpc_control: 0x00,
            role_control: 0x0A,
            power_control: 0x60,
            fault_status: 0x80,
            detection: true,
            vbus: false,
            cc1_level: Level::Zero,
            cc2_level: Level::Zero,
        }
    }
}
