//! FAULT_STATUS and ALERT: what raises a fault, what is marked, and what rises by a change.
//! The one place that sets ALERT bits 0, 1 and 9, and the one that sets FAULT_STATUS bits.
ghost use Rattle.std.specs.Prelude.{◌≡◌};
ghost use Rattle.registers.specs.Alerts.{faulted, marked, unmarked, settled, holds_back};

use crate::file::Registers;
use front_end::Path;

/// FAULT_STATUS bit 0: a transfer was refused, or a one was written to an undefined bit.
pub const INTERFACE_ERROR: u8 = 0x01;

/// ALERT bit 2: a frame waits.
pub const FRAME_WAITS: u16 = 0x0004;

/// ALERT bit 5: a sending was discarded.
pub const DISCARDED: u16 = 0x0020;

/// ALERT bits 1, 3 and 9.
const POWER_STATUS_CHANGED: u16 = 0x0002;

const RESET_HEARD: u16 = 0x0008;

const FAULT_ROSE: u16 = 0x0200;

/// No sending but a Hard Reset passes while one of these stands.
const HOLD_BACK: u16 = FRAME_WAITS | RESET_HEARD;

/// The register file and the path as they were when a call began.
#[derive(Clone, Copy, Debug)]
pub struct Before {
    pub registers: Registers,
    pub path: Path,
}

impl Registers {
    /// Sets FAULT_STATUS bits.
    pub fn raise_fault(&mut self, bits: u8)
        ensures { self.new ≡ faulted bits self.old }
    {
        self.fault_status |= bits;
    }

    /// Sets ALERT bits that tell of frames and sendings.
    pub fn mark(&mut self, bits: u16)
        ensures { self.new ≡ marked bits self.old }
    {
        self.alert |= bits;
    }

    /// Clears ALERT bits.
    pub fn unmark(&mut self, bits: u16)
        ensures { self.new ≡ unmarked bits self.old }
    {
        self.alert &= !bits;
    }

    /// Whether an alert stands that no sending but a Hard Reset may pass.
    pub fn hold_back(&self) -> bool
        ensures { result ≡ holds_back self.now }
    {
        self.alert & HOLD_BACK != 0
    }

    /// What `settle` is to be told when the call that begins here ends.
    pub fn before(&self, path: Path) -> Before
        ensures { result ≡ record { registers = self.now; path = path } }
    {
        Before {
            registers: *self,
            path,
        }
    }

    /// Raises the ALERT bits for what changed in the call since `before`, masks as they are now.
    #[tactic(auto, unfolding(crate::specs::Alerts::risen))]
    pub fn settle(&mut self, before: &Before, path: Path)
        ensures { self.new ≡ settled before.now.registers before.now.path self.old path }
    {
        let was = &before.registers;
        let cc = was.cc_status() != self.cc_status();
        let power = (was.power_status(before.path) ^ self.power_status(path))
            & self.power_status_mask
            != 0;
        let fault = self.fault_status & !was.fault_status & self.fault_status_mask != 0;
        self.alert |= u16::from(cc)
            + POWER_STATUS_CHANGED * u16::from(power)
            + FAULT_ROSE * u16::from(fault);
    }
}
