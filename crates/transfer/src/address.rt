//! The addresses of the 21 registers.
//! Numbers and nothing else, since a transfer may name any number; the list says which of them stand for what.
pub const VENDOR_ID: u8 = 0x00;

pub const PRODUCT_ID: u8 = 0x02;

pub const DEVICE_ID: u8 = 0x04;

pub const PD_INTERFACE_REV: u8 = 0x0A;

pub const ALERT: u8 = 0x10;

pub const ALERT_MASK: u8 = 0x12;

pub const POWER_STATUS_MASK: u8 = 0x14;

pub const FAULT_STATUS_MASK: u8 = 0x15;

pub const TCPC_CONTROL: u8 = 0x19;

pub const ROLE_CONTROL: u8 = 0x1A;

pub const POWER_CONTROL: u8 = 0x1C;

pub const CC_STATUS: u8 = 0x1D;

pub const POWER_STATUS: u8 = 0x1E;

pub const FAULT_STATUS: u8 = 0x1F;

pub const COMMAND: u8 = 0x23;

pub const DEVICE_CAPABILITIES_1: u8 = 0x24;

pub const MESSAGE_HEADER_INFO: u8 = 0x2E;

pub const RECEIVE_DETECT: u8 = 0x2F;

pub const RECEIVE_BUFFER: u8 = 0x30;

pub const TRANSMIT: u8 = 0x50;

pub const TRANSMIT_BUFFER: u8 = 0x51;
