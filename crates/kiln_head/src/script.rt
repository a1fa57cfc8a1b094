//! What a port manager and a supply do to a head that starts up, good and bad.
use port::Report;

#[derive(Clone, Copy)]
pub(crate) enum Call {
    Write(&'static [u8]),
    Read { register: u8, wanted: usize },
    Report(Report),
}

/// A call, and what it is made for.
#[derive(Clone, Copy)]
pub(crate) struct Step {
    pub(crate) aim: &'static str,
    pub(crate) call: Call,
}

pub(crate) const START_UP: [Step; 25] = [
    Step {
        aim: "clear the power-on alert",
        call: Call::Write(&[0x10, 0x00, 0x02]),
    },
    Step {
        aim: "clear the power-on fault",
        call: Call::Write(&[0x1F, 0x80]),
    },
    Step {
        aim: "read the capabilities",
        call: Call::Read {
            register: 0x24,
            wanted: 2,
        },
    },
    Step {
        aim: "present Rd on both pins",
        call: Call::Write(&[0x1A, 0x0A]),
    },
    Step {
        aim: "a supply is attached on CC1",
        call: Call::Report(Report::CcLevels { cc1: 2, cc2: 0 }),
    },
    Step {
        aim: "read CC_STATUS",
        call: Call::Read {
            register: 0x1D,
            wanted: 1,
        },
    },
    Step {
        aim: "VBUS comes up",
        call: Call::Report(Report::Vbus(1)),
    },
    Step {
        aim: "sink from VBUS",
        call: Call::Write(&[0x23, 0x55]),
    },
    Step {
        aim: "read POWER_STATUS",
        call: Call::Read {
            register: 0x1E,
            wanted: 1,
        },
    },
    Step {
        aim: "clear all alerts",
        call: Call::Write(&[0x10, 0xFF, 0xFF]),
    },
    Step {
        aim: "power the cable on CC2",
        call: Call::Write(&[0x1C, 0x61]),
    },
    Step {
        aim: "VCONN trips",
        call: Call::Report(Report::Fault(1)),
    },
    Step {
        aim: "receive from the supply",
        call: Call::Write(&[0x2F, 0x21]),
    },
    Step {
        aim: "fill the transmit buffer",
        call: Call::Write(&[0x51, 0x02, 0x42, 0x10]),
    },
    Step {
        aim: "send it, with three retries",
        call: Call::Write(&[0x50, 0x30]),
    },
    Step {
        aim: "send another while it is under way",
        call: Call::Write(&[0x50, 0x06]),
    },
    Step {
        aim: "reset the supply instead",
        call: Call::Write(&[0x50, 0x05]),
    },
    Step {
        aim: "write nothing at all",
        call: Call::Write(&[]),
    },
    Step {
        aim: "write at an address that is not listed",
        call: Call::Write(&[0x18, 0x00]),
    },
    Step {
        aim: "write a status register",
        call: Call::Write(&[0x1D]),
    },
    Step {
        aim: "write half of ALERT",
        call: Call::Write(&[0x10, 0x00]),
    },
    Step {
        aim: "miscount the transmit buffer",
        call: Call::Write(&[0x51, 0x03, 0x4D, 0x04]),
    },
    Step {
        aim: "ask for the Rp value that is reserved",
        call: Call::Write(&[0x1A, 0x3A]),
    },
    Step {
        aim: "source while sinking",
        call: Call::Write(&[0x23, 0x77]),
    },
    Step {
        aim: "a level that no pin has",
        call: Call::Report(Report::CcLevels { cc1: 4, cc2: 0 }),
    },
];
