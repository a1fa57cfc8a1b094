//! What a port is told by the head, and what it answers.
//! Reports carry raw numbers: judging them is the port's.
ghost use Rattle.std.specs.Prelude.{◌≡◌};
ghost use Rattle.port.specs.Outcomes.{taken_with};

use sender::End;
use std::fmt;

#[derive(Clone, Copy, Debug, PartialEq, Eq)]
pub enum Disposition {
    Taken,
    Ignored,
}

/// The answer to a call that is not refused.
#[derive(Clone, Copy, Debug, PartialEq, Eq)]
pub struct Answer {
    pub disposition: Disposition,
    /// How a sending ended, if one did.
    pub ended: Option<End>,
    /// The GoodCRC's two bytes, if a frame was acknowledged.
    pub good_crc: Option<(u8, u8)>,
}

impl Answer {
    pub(crate) fn taken(ended: Option<End>) -> Answer
        ensures { result ≡ taken_with ended }
    {
        Answer {
            disposition: Disposition::Taken,
            ended,
            good_crc: None,
        }
    }
}

/// What happened at the connector.
#[derive(Clone, Copy, Debug, PartialEq, Eq)]
pub enum Report {
    CcLevels { cc1: u8, cc2: u8 },
    Vbus(u8),
    Fault(u8),
}

impl fmt::Display for Report {
    ghost use Rattle.std.specs.Prelude.{Some};
    ghost use Rattle.port.specs.Texts.{report_text};

    ghost output = { λ report. Some (report_text report) };

    fn fmt<W: fmt::Write>(&self, f: &mut fmt::Formatter<W>) -> fmt::Result {
        match self {
            Report::CcLevels { cc1, cc2 } => write!(f, "CC levels {cc1} and {cc2}"),
            Report::Vbus(number) => write!(f, "VBUS {number}"),
            Report::Fault(number) => write!(f, "fault {number}"),
        }
    }
}
