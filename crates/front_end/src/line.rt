//! The line of a board: what is on it, and how often that was started.
//! One line for every board, whatever the board counts: starts made, starts left.
ghost use Rattle.std.specs.Prelude.{◌≡◌, ℕ, ◌+◌, min};
ghost use Rattle.pd.specs.Messages.{content};
ghost use Rattle.front_end.specs.Meaning.{idle, started, again_line, on_line, on_line_ref};
ghost use Rattle.front_end.specs.Lines.{carried};
ghost use Rattle.front_end.specs.Starts.{most_starts};

use pd::Message;

/// The most starts of a sending: one and three retries.
pub const MOST_STARTS: u8 = 4;

/// A sending on the line, and how often it was started.
#[derive(Clone, Copy)]
pub struct OnLine {
    pub message: Message,
    pub starts: u8,
}

/// The same with its message lent, for who reads it where it lies.
#[derive(Clone, Copy)]
pub struct OnLineRef<'a> {
    pub message: &'a Message,
    pub starts: u8,
}

/// How a board keeps the number of starts of the sending on its line.
pub trait Starts: Copy {
    ghost made: { Self → ℕ };

    /// A sending that was started once.
    fn first() -> Self
        ensures { made result ≡ 1 };

    /// One start more, up to the most.
    fn again(self) -> Self
        ensures { made result ≡ min most_starts (made self + 1) };

    fn made(self) -> u8
        ensures { result ≡ made self };
}

/// What a board keeps of its line.
#[derive(Drop)]
pub struct BoardLine<S: Starts> {
    sending: Option<(Message, S)>,
}

impl<S: Starts> BoardLine<S> {
    pub fn new() -> BoardLine<S>
        ensures { carried S.made result ≡ idle }
    {
        BoardLine { sending: None }
    }

    /// In place of what was there.
    pub fn send(&mut self, message: &Message)
        ensures { carried S.made self.new ≡ started (content message.now) }
    {
        self.sending = Some((*message, S::first()));
    }

    pub fn again(&mut self)
        ensures { carried S.made self.new ≡ again_line (carried S.made self.old) }
    {
        if let Some((_, starts)) = &mut self.sending {
            *starts = starts.again();
        }
    }

    pub fn quiet(&mut self)
        ensures { carried S.made self.new ≡ idle }
    {
        self.sending = None;
    }

    /// What is on the line, lent.
    pub fn on_line(&self) -> Option<OnLineRef<'_>>
        ensures { on_line_ref result ≡ carried S.made self.now }
    {
        let (message, counted) = self.sending.as_ref()?;
        Some(OnLineRef {
            message,
            starts: counted.made(),
        })
    }

    /// What is on the line, copied.
    pub fn copied(&self) -> Option<OnLine>
        ensures { on_line result ≡ carried S.made self.now }
    {
        let (message, starts) = self.sending?;
        Some(OnLine {
            message,
            starts: starts.made(),
        })
    }
}
