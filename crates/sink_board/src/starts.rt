//! The starts of the sending on the sink board's line, as it counts them: those left after the first.
//! Touches no line itself.
ghost use Rattle.std.specs.Prelude.{◌<◌, ◌-◌};
ghost use Rattle.front_end.specs.Starts.{most_starts};

use front_end::{MOST_STARTS, Starts};

#[derive(Clone, Copy)]
pub(crate) struct Left {
    count: u8,
    ghost limit: { count < most_starts },
}

impl Starts for Left {
    ghost made = { λ starts. most_starts - starts.count };

    fn first() -> Left {
        Left {
            count: MOST_STARTS - 1,
        }
    }

    fn again(self) -> Left {
        Left {
            count: self.count.saturating_sub(1),
        }
    }

    fn made(self) -> u8 {
        MOST_STARTS - self.count
    }
}
