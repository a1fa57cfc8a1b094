//! What is reported from the connector: CC levels, VBUS and faults, as raw numbers that are judged here.
//! A report that is refused alters nothing.
ghost use Rattle.std.specs.Prelude.{◌≡◌, ◌==◌, ◌^◌, true, false, IfOk, IfErr};
ghost use Rattle.transfer.specs.declared.refusal.Refusal.TheVariants.{OutOfRange};
ghost use Rattle.registers.specs.Reports.{bad_level, level_of, told, levels_refusal, with_levels, vbus_refusal, with_vbus};
ghost use Rattle.registers.specs.Reports.{GivesFault, fault_number, fault_refusal, with_fault, trip_of};

use crate::file::{Level, Registers};
use crate::status::ENABLE_VCONN;
use front_end::Termination;
use transfer::Refusal;

/// What a fault turns off.
#[derive(Clone, Copy, Debug, PartialEq, Eq)]
pub enum Trip {
    Vconn,
    Vbus,
}

/// A fault; its number is that of its FAULT_STATUS bit.
#[derive(Clone, Copy, Debug, PartialEq, Eq)]
enum Fault {
    Vconn = 1,
    OverVoltage = 2,
    OverCurrent = 3,
    ForcedOff = 6,
}

impl TryFrom<u8> for Fault {
    type Error = Refusal;

    ghost try_from_gives = { GivesFault };

    fn try_from(number: u8) -> Result<Fault, Refusal> {
        match number {
            1 => Ok(Fault::Vconn),
            2 => Ok(Fault::OverVoltage),
            3 => Ok(Fault::OverCurrent),
            6 => Ok(Fault::ForcedOff),
            _ => Err(Refusal::OutOfRange),
        }
    }
}

impl Fault {
    fn bit(self) -> u8
        ensures { result ≡ 2 ^ fault_number self }
    {
        1 << self as u8
    }

    fn trip(self) -> Trip
        ensures { result ≡ trip_of (fault_number self) }
    {
        match self {
            Fault::Vconn => Trip::Vconn,
            Fault::OverVoltage | Fault::OverCurrent | Fault::ForcedOff => Trip::Vbus,
        }
    }
}

/// The level that a number stands for on a pin with this termination.
fn level_on(number: u8, pin: Termination) -> Result<Level, Refusal>
    ensures taken { IfOk result (λ level. (bad_level number pin ≡ false) × (level ≡ level_of number)) }
    ensures refused { IfErr result (λ refusal. (bad_level number pin ≡ true) × (refusal ≡ OutOfRange)) }
{
    match (Level::try_from(number)?, pin) {
        (Level::Three, Termination::Rp) => Err(Refusal::OutOfRange),
        (level, _) => Ok(level),
    }
}

impl Registers {
    pub fn report_levels(&mut self, cc1: u8, cc2: u8) -> Result<(), Refusal>
        ensures { record { registers = self.new; answer = result } ≡ told (levels_refusal cc1 cc2 self.old) (with_levels (level_of cc1) (level_of cc2) self.old) tt self.old }
    {
        let pins = self.terminations();
        let cc1_level = level_on(cc1, pins.cc1)?;
        let cc2_level = level_on(cc2, pins.cc2)?;
        self.cc1_level = cc1_level;
        self.cc2_level = cc2_level;
        Ok(())
    }

    pub fn report_vbus(&mut self, number: u8) -> Result<(), Refusal>
        ensures { record { registers = self.new; answer = result } ≡ told (vbus_refusal number) (with_vbus (number == 1) self.old) tt self.old }
    {
        self.vbus = match number {
            0 => false,
            1 => true,
            _ => return Err(Refusal::OutOfRange),
        };
        Ok(())
    }

    /// Sets the fault's bit, and tells what is to be turned off.
    pub fn report_fault(&mut self, number: u8) -> Result<Trip, Refusal>
        ensures { record { registers = self.new; answer = result } ≡ told (fault_refusal number) (with_fault number self.old) (trip_of number) self.old }
    {
        let fault = Fault::try_from(number)?;
        if fault == Fault::Vconn {
            self.power_control &= !ENABLE_VCONN;
        }
        self.raise_fault(fault.bit());
        Ok(fault.trip())
    }
}
