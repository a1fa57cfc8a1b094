//! The relay board as a front end: every capability, and one bit for each switch.
//! Touches its own switches and its own line.
ghost use Rattle.std.specs.Prelude.{◌≡◌};
ghost use Rattle.front_end.specs.Meaning.{safe};
ghost use Rattle.relay_board.specs.Relays.{relay_meaning, everything};
ghost use Rattle.std.proofs.Common.{rules};

use crate::pin::Pin;
use crate::starts::Made;
use crate::switches::RelaySwitches;
use front_end::{
    BoardLine, Capabilities, FrontEnd, LendsLine, OnLine, OnLineRef, Path, RpValue, Termination,
    Terminations, Vconn,
};
use pd::Message;

#[derive(Drop)]
pub struct RelayBoard {
    switches: RelaySwitches,
    line: BoardLine<Made>,
}

impl RelayBoard {
    /// A board whose switches are all open and whose line is idle.
    pub fn new() -> RelayBoard
        ensures { relay_meaning result ≡ safe }
    {
        RelayBoard {
            switches: RelaySwitches {
                cc1: Pin::from(Termination::Open),
                cc2: Pin::from(Termination::Open),
                rp_low: false,
                rp_high: false,
                vconn_cc1: false,
                vconn_cc2: false,
                sink: false,
                source: false,
                raised: false,
            },
            line: BoardLine::new(),
        }
    }
}

impl Default for RelayBoard {
    ghost is_default = { λ board. relay_meaning board ≡ safe };

    fn default() -> RelayBoard {
        RelayBoard::new()
    }
}

impl FrontEnd for RelayBoard {
    const CAPABILITIES: Capabilities = Capabilities {
        default_source: true,
        nondefault_source: true,
        sink: true,
        vconn: true,
    };

    ghost CAPABILITIES = { everything };

    ghost meaning = { relay_meaning };

    ghost nondefault_source_implies_default_source = { Prim.search rules };

    fn set_terminations(&mut self, terminations: Terminations) {
        let (high, low) = match terminations.rp {
            RpValue::Default => (false, false),
            RpValue::Medium => (false, true),
            RpValue::High => (true, false),
            RpValue::Reserved => (true, true),
        };
        self.switches.cc1 = terminations.cc1.into();
        self.switches.cc2 = terminations.cc2.into();
        self.switches.rp_high = high;
        self.switches.rp_low = low;
    }

    fn set_vconn(&mut self, vconn: Vconn) {
        let (cc1, cc2) = match vconn {
            Vconn::Off => (false, false),
            Vconn::Cc1 => (true, false),
            Vconn::Cc2 => (false, true),
        };
        // Break before make: no moment has both switches closed.
        self.switches.vconn_cc1 = false;
        self.switches.vconn_cc2 = cc2;
        self.switches.vconn_cc1 = cc1;
    }

    fn set_path(&mut self, path: Path) {
        let (sink, source, raised) = match path {
            Path::Off => (false, false, false),
            Path::Sink => (true, false, false),
            Path::DefaultSource => (false, true, false),
            Path::NondefaultSource => (false, true, true),
        };
        // Break before make: no moment has sink and source closed, or a raised source that is open.
        self.switches.raised = false;
        self.switches.source = false;
        self.switches.sink = sink;
        self.switches.source = source;
        self.switches.raised = raised;
    }

    fn send(&mut self, message: &Message) {
        self.line.send(message);
    }

    fn again(&mut self) {
        self.line.again();
    }

    fn quiet(&mut self) {
        self.line.quiet();
    }

    fn terminations(&self) -> Terminations {
        let rp = match (self.switches.rp_high, self.switches.rp_low) {
            (false, false) => RpValue::Default,
            (false, true) => RpValue::Medium,
            (true, false) => RpValue::High,
            (true, true) => RpValue::Reserved,
        };
        Terminations {
            cc1: self.switches.cc1.into(),
            cc2: self.switches.cc2.into(),
            rp,
        }
    }

    fn vconn(&self) -> Vconn {
        if self.switches.vconn_cc1 {
            Vconn::Cc1
        } else if self.switches.vconn_cc2 {
            Vconn::Cc2
        } else {
            Vconn::Off
        }
    }

    fn path(&self) -> Path {
        match (
            self.switches.sink,
            self.switches.source,
            self.switches.raised,
        ) {
            (true, _, _) => Path::Sink,
            (false, true, true) => Path::NondefaultSource,
            (false, true, false) => Path::DefaultSource,
            (false, false, _) => Path::Off,
        }
    }

    fn line(&self) -> Option<OnLine> {
        self.line.copied()
    }
}

impl LendsLine for RelayBoard {
    fn on_line(&self) -> Option<OnLineRef<'_>> {
        self.line.on_line()
    }
}
