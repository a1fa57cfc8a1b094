//! The trait of every front end: its capabilities, its meaning in four parts, and what alters each part.
//! Each order alters its own part alone; no order is refused, and a question alters nothing.
ghost use Rattle.std.specs.Prelude.{◌≡◌};
ghost use Rattle.pd.specs.Messages.{content};
ghost use Rattle.front_end.specs.Meaning.{Meaning, Graded, idle, started, again_line, on_line, on_line_ref};
ghost use Rattle.front_end.specs.Meaning.{with_terminations, with_vconn, with_path, with_line};
ghost use Rattle.front_end.specs.declared.parts.Capabilities.{Capabilities};

use crate::line::{OnLine, OnLineRef};
use crate::parts::{Capabilities, Path, Terminations, Vconn};
use pd::Message;

pub trait FrontEnd {
    /// What this kind of front end can switch, fixed once and for all.
    const CAPABILITIES: Capabilities;

    ghost CAPABILITIES: { Capabilities };

    ghost meaning: { Self → Meaning };

    fn set_terminations(&mut self, terminations: Terminations)
        ensures { meaning self.new ≡ with_terminations terminations (meaning self.old) };

    /// VCONN that it lacks leaves it as it was.
    fn set_vconn(&mut self, vconn: Vconn)
        ensures { meaning self.new ≡ with_vconn CAPABILITIES vconn (meaning self.old) };

    /// A path that it lacks leaves it as it was.
    fn set_path(&mut self, path: Path)
        ensures { meaning self.new ≡ with_path CAPABILITIES path (meaning self.old) };

    /// The sending is on the line with one start, in place of what was there.
    fn send(&mut self, message: &Message)
        ensures { meaning self.new ≡ with_line (started (content message.now)) (meaning self.old) };

    /// One start more, up to four; nothing on an idle line.
    fn again(&mut self)
        ensures { meaning self.new ≡ with_line (again_line (meaning self.old).line) (meaning self.old) };

    fn quiet(&mut self)
        ensures { meaning self.new ≡ with_line idle (meaning self.old) };

    fn terminations(&self) -> Terminations
        ensures { result ≡ (meaning self.now).terminations };

    fn vconn(&self) -> Vconn
        ensures { result ≡ (meaning self.now).vconn };

    fn path(&self) -> Path
        ensures { result ≡ (meaning self.now).path };

    /// The sending on the line, as a value of its own: the front end may keep it in any form. None on an idle line.
    fn line(&self) -> Option<OnLine>
        ensures { on_line result ≡ (meaning self.now).line };

    ghost nondefault_source_implies_default_source: { Graded CAPABILITIES };
}

/// A front end that keeps the message on its line as such, and lends it to who reads it where it lies.
pub trait LendsLine: FrontEnd {
    fn on_line(&self) -> Option<OnLineRef<'_>>
        ensures { on_line_ref result ≡ (Self.meaning self.now).line };
}
