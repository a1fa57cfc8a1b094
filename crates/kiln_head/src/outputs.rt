//! What a front end shows at its connector, in words.
ghost use Rattle.std.specs.Prelude.{◌≡◌, Decides};
ghost use Rattle.front_end.specs.Meaning.{safe};
ghost use Rattle.kiln_head.specs.Shown.{shown};

use front_end::{FrontEnd, OnLine, Path, Terminations, Vconn};
use std::fmt;

#[derive(Clone, Copy)]
pub(crate) struct Outputs {
    terminations: Terminations,
    vconn: Vconn,
    path: Path,
    line: Option<OnLine>,
}

impl Outputs {
    pub(crate) fn of<F: FrontEnd>(front: &F) -> Outputs
        ensures { shown result ≡ F.meaning front.now }
    {
        Outputs {
            terminations: front.terminations(),
            vconn: front.vconn(),
            path: front.path(),
            line: front.line(),
        }
    }

    /// Whether these are the outputs that a powered-off head has to leave.
    pub(crate) fn are_safe(&self) -> bool
        ensures { Decides result (shown self.now ≡ safe) }
    {
        self.terminations == Terminations::OPEN
            && self.vconn == Vconn::Off
            && self.path == Path::Off
            && self.line.is_none()
    }
}

impl fmt::Display for Outputs {
    fn fmt<W: fmt::Write>(&self, f: &mut fmt::Formatter<W>) -> fmt::Result {
        let Terminations { cc1, cc2, rp } = self.terminations;
        write!(
            f,
            "CC1 {cc1}, CC2 {cc2}, Rp value {}; VCONN {}; VBUS path {}; line ",
            u8::from(rp),
            self.vconn,
            self.path
        )?;
        match self.line {
            None => write!(f, "idle"),
            Some(OnLine { message, starts }) => write!(
                f,
                "sending type {}, {} bytes, started {starts} times",
                u8::from(message.kind()),
                message.bytes().len()
            ),
        }
    }
}
