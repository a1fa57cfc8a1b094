//! The sink board as a front end. A path that it lacks, and any VCONN, leave it as it was.
ghost use Rattle.std.specs.Prelude.{◌≡◌};
ghost use Rattle.front_end.specs.Meaning.{safe};
ghost use Rattle.sink_board.specs.Sinks.{sink_meaning, sink_alone};
ghost use Rattle.std.proofs.Common.{rules};

use crate::code;
use crate::starts::Left;
use crate::switches::SinkSwitches;
use front_end::{
    BoardLine, Capabilities, FrontEnd, LendsLine, OnLine, OnLineRef, Path, Terminations, Vconn,
};
use pd::Message;

#[derive(Drop)]
pub struct SinkBoard {
    switches: SinkSwitches,
    line: BoardLine<Left>,
}

impl SinkBoard {
    /// A board whose pins are open, that does not sink and whose line is idle.
    pub fn new() -> SinkBoard
        ensures { sink_meaning result ≡ safe }
    {
        SinkBoard {
            switches: SinkSwitches {
                code: code::coded(Terminations::OPEN, false),
            },
            line: BoardLine::new(),
        }
    }
}

impl Default for SinkBoard {
    ghost is_default = { λ board. sink_meaning board ≡ safe };

    fn default() -> SinkBoard {
        SinkBoard::new()
    }
}

impl FrontEnd for SinkBoard {
    const CAPABILITIES: Capabilities = Capabilities {
        default_source: false,
        nondefault_source: false,
        sink: true,
        vconn: false,
    };

    ghost CAPABILITIES = { sink_alone };

    ghost meaning = { sink_meaning };

    ghost nondefault_source_implies_default_source = { Prim.search rules };

    fn set_terminations(&mut self, terminations: Terminations) {
        let sinks = code::sinks(self.switches.code);
        self.switches.code = code::coded(terminations, sinks);
    }

    fn set_vconn(&mut self, _vconn: Vconn) {}

    fn set_path(&mut self, path: Path) {
        let terminations = Terminations::from(self.switches.code);
        match path {
            Path::Off => self.switches.code = code::coded(terminations, false),
            Path::Sink => self.switches.code = code::coded(terminations, true),
            Path::DefaultSource | Path::NondefaultSource => {}
        }
    }

    fn send(&mut self, message: &Message) {
        self.line.send(message);
    }

    fn again(&mut self) {
        self.line.again();
    }

    fn quiet(&mut self) {
        self.line.quiet();
    }

    fn terminations(&self) -> Terminations {
        self.switches.code.into()
    }

    fn vconn(&self) -> Vconn {
        Vconn::Off
    }

    fn path(&self) -> Path {
        if code::sinks(self.switches.code) {
            Path::Sink
        } else {
            Path::Off
        }
    }

    fn line(&self) -> Option<OnLine> {
        self.line.copied()
    }
}

impl LendsLine for SinkBoard {
    fn on_line(&self) -> Option<OnLineRef<'_>> {
        self.line.on_line()
    }
}
