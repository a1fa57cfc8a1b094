//! The starts of the sending on the relay board's line, as it counts them: those made.
//! Touches no line itself.
ghost use Rattle.std.specs.Prelude.{◌<◌, ◌≤◌};
ghost use Rattle.front_end.specs.Starts.{most_starts};

use front_end::{MOST_STARTS, Starts};

#[derive(Clone, Copy)]
pub(crate) struct Made {
    count: u8,
    ghost begun: { 0 < count },
    ghost limit: { count ≤ most_starts },
}

impl Starts for Made {
    ghost made = { λ starts. starts.count };

    fn first() -> Made {
        Made { count: 1 }
    }

    fn again(self) -> Made {
        Made {
            count: MOST_STARTS.min(self.count + 1),
        }
    }

    fn made(self) -> u8 {
        self.count
    }
}
