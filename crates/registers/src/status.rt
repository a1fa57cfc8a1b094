//! What follows from the register file: terminations, VCONN, the status registers and the Alert# pin.
//! Formulas; nothing here is stored.
ghost use Rattle.std.specs.Prelude.{◌≡◌, ◌<◌};
ghost use Rattle.front_end.specs.Codes.{terminations_of};
ghost use Rattle.registers.specs.Status.{vconn_of, shown, cc_status, power_status, asserted};

use crate::file::{Level, Registers};
use front_end::{Path, Termination, Terminations, Vconn};

/// Bit 0 of POWER_CONTROL.
pub(crate) const ENABLE_VCONN: u8 = 0x01;

/// Bit 0 of TCPC_CONTROL.
const PLUG_ORIENTATION: u8 = 0x01;

/// What CC_STATUS shows of a pin.
fn shown(termination: Termination, carries_vconn: bool, level: Level) -> u8
    ensures small { result < 4 }
    ensures shown { result ≡ shown termination carries_vconn level }
{
    match termination {
        Termination::Rp | Termination::Rd if !carries_vconn => level.into(),
        _ => 0,
    }
}

impl Registers {
    /// What the front end's terminations have to be.
    pub fn terminations(&self) -> Terminations
        ensures { result ≡ terminations_of self.now.role_control }
    {
        self.role_control.into()
    }

    /// What the front end's VCONN has to be.
    pub fn vconn(&self) -> Vconn
        ensures { result ≡ vconn_of self.now }
    {
        if self.power_control & ENABLE_VCONN == 0 {
            Vconn::Off
        } else if self.tcpc_control & PLUG_ORIENTATION == 0 {
            Vconn::Cc2
        } else {
            Vconn::Cc1
        }
    }

    #[tactic(auto, unfolding(crate::specs::Status::cc_status))]
    pub(crate) fn cc_status(&self) -> u8
        ensures { result ≡ cc_status self.now }
    {
        let pins = self.terminations();
        let vconn = self.vconn();
        shown(pins.cc1, vconn == Vconn::Cc1, self.cc1_level)
            + 4 * shown(pins.cc2, vconn == Vconn::Cc2, self.cc2_level)
    }

    #[tactic(auto, unfolding(crate::specs::Status::power_status))]
    pub(crate) fn power_status(&self, path: Path) -> u8
        ensures { result ≡ power_status self.now path }
    {
        u8::from(path.is_sinking())
            + 2 * u8::from(self.vconn() != Vconn::Off)
            + 4 * u8::from(self.vbus && self.detection)
            + 8 * u8::from(self.detection)
            + 16 * u8::from(path.is_sourcing())
            + 32 * u8::from(path == Path::NondefaultSource)
    }

    /// Whether Alert# is asserted.
    pub fn alert_asserted(&self) -> bool
        ensures { result ≡ asserted self.now }
    {
        self.alert & self.alert_mask != 0
    }
}
