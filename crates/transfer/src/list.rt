//! The list of registers: the one place that knows addresses, widths, directions and defined bits.
//! Every transfer is looked up here; what a register holds is not known here.
ghost use Rattle.std.specs.Prelude.{◌≡◌, ◌==◌, ℕ, true, IfOk, find};
ghost use Rattle.transfer.specs.Refusals.{first_holding, refused_or};
ghost use Rattle.transfer.specs.Registers.{listed, width_at, takes, allows, list_rows, told_by_address, Sound};

use crate::address;
use crate::refusal::Refusal;

/// How many bytes a register has after its address.
#[derive(Clone, Copy, Debug, PartialEq, Eq)]
pub(crate) enum Width {
    /// With its defined bits; wider registers have all of theirs.
    Byte { defined: u8 },
    Word,
    UpTo32,
    /// A count byte, and as many bytes as it tells.
    Counted,
}

impl Width {
    /// Whether so many bytes may be read or written.
    pub(crate) fn takes(self, bytes: usize) -> bool
        ensures { result ≡ takes self bytes }
    {
        match self {
            Width::Byte { .. } => bytes == 1,
            Width::Word => bytes == 2,
            Width::UpTo32 => (1..=32).contains(&bytes),
            Width::Counted => bytes >= 1,
        }
    }
}

#[derive(Clone, Copy, Debug, PartialEq, Eq)]
pub(crate) enum Direction {
    Read,
    Write,
}

/// The directions in which a register may be accessed.
#[derive(Clone, Copy, Debug, PartialEq, Eq)]
pub(crate) enum Access {
    ReadOnly,
    WriteOnly,
    ReadWrite,
}

impl Access {
    pub(crate) fn allows(self, direction: Direction) -> bool
        ensures { result ≡ allows self direction }
    {
        match direction {
            Direction::Read => self != Access::WriteOnly,
            Direction::Write => self != Access::ReadOnly,
        }
    }
}

#[derive(Clone, Copy, Debug, PartialEq, Eq)]
pub(crate) struct Register {
    pub(crate) address: u8,
    pub(crate) width: Width,
    pub(crate) access: Access,
}

const ALL: u8 = 0xFF;

const REGISTERS: [Register; 21] = [
    Register {
        address: address::VENDOR_ID,
        width: Width::Word,
        access: Access::ReadOnly,
    },
    Register {
        address: address::PRODUCT_ID,
        width: Width::Word,
        access: Access::ReadOnly,
    },
    Register {
        address: address::DEVICE_ID,
        width: Width::Word,
        access: Access::ReadOnly,
    },
    Register {
        address: address::PD_INTERFACE_REV,
        width: Width::Word,
        access: Access::ReadOnly,
    },
    Register {
        address: address::ALERT,
        width: Width::Word,
        access: Access::ReadWrite,
    },
    Register {
        address: address::ALERT_MASK,
        width: Width::Word,
        access: Access::ReadWrite,
    },
    Register {
        address: address::POWER_STATUS_MASK,
        width: Width::Byte { defined: ALL },
        access: Access::ReadWrite,
    },
    Register {
        address: address::FAULT_STATUS_MASK,
        width: Width::Byte { defined: ALL },
        access: Access::ReadWrite,
    },
    Register {
        address: address::TCPC_CONTROL,
        width: Width::Byte {
            defined: 0b0000_0001,
        },
        access: Access::ReadWrite,
    },
    Register {
        address: address::ROLE_CONTROL,
        width: Width::Byte {
            defined: 0b0011_1111,
        },
        access: Access::ReadWrite,
    },
    Register {
        address: address::POWER_CONTROL,
        width: Width::Byte {
            defined: 0b0110_0001,
        },
        access: Access::ReadWrite,
    },
    Register {
        address: address::CC_STATUS,
        width: Width::Byte { defined: ALL },
        access: Access::ReadOnly,
    },
    Register {
        address: address::POWER_STATUS,
        width: Width::Byte { defined: ALL },
        access: Access::ReadOnly,
    },
    Register {
        address: address::FAULT_STATUS,
        width: Width::Byte { defined: ALL },
        access: Access::ReadWrite,
    },
    Register {
        address: address::COMMAND,
        width: Width::Byte { defined: ALL },
        access: Access::WriteOnly,
    },
    Register {
        address: address::DEVICE_CAPABILITIES_1,
        width: Width::Word,
        access: Access::ReadOnly,
    },
    Register {
        address: address::MESSAGE_HEADER_INFO,
        width: Width::Byte {
            defined: 0b0001_1111,
        },
        access: Access::ReadWrite,
    },
    Register {
        address: address::RECEIVE_DETECT,
        width: Width::Byte {
            defined: 0b0011_1111,
        },
        access: Access::ReadWrite,
    },
    Register {
        address: address::RECEIVE_BUFFER,
        width: Width::UpTo32,
        access: Access::ReadOnly,
    },
    Register {
        address: address::TRANSMIT,
        width: Width::Byte {
            defined: 0b0011_0111,
        },
        access: Access::WriteOnly,
    },
    Register {
        address: address::TRANSMIT_BUFFER,
        width: Width::Counted,
        access: Access::WriteOnly,
    },
];

/// The first of `list` at `address`.
fn first_at(list: &[Register], address: u8) -> Option<Register>
    ensures { result ≡ find (λ r. r.address == address) list.now }
{
    list.iter()
        .find(|register| register.address == address)
        .copied()
}

#[tactic(auto, unfolding(crate::specs::Registers::listed))]
fn find(address: u8) -> Option<Register>
    ensures { result ≡ listed address }
{
    first_at(&REGISTERS, address)
}

/// What the list says of so many bytes at an address: its register's width, or refusal 2, 3 or 4.
#[tactic(auto, using(crate::proofs::Apart::listed_told))]
pub(crate) fn listed_for(address: u8, direction: Direction, bytes: usize) -> Result<Width, Refusal>
    ensures judged { result ≡ refused_or (first_holding (list_rows address direction bytes)) (width_at address) }
    ensures told_by_address { IfOk result (λ width. told_by_address address direction width ≡ true) }
{
    let found = find(address).ok_or(Refusal::NotListed)?;
    if !found.access.allows(direction) {
        return Err(Refusal::WrongDirection);
    }
    if !found.width.takes(bytes) {
        return Err(Refusal::WrongLength);
    }
    Ok(found.width)
}

/// How many registers there are, each at an address of its own.
pub fn register_count() -> usize
    ensures counted { result ≡ 21 }
    ensures each_at_an_address_of_its_own { Sound }
{
    REGISTERS.len()
}
