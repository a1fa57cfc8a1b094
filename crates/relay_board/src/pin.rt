//! The three resistors of one CC pin, by the termination that they make.
//! By its type no pin has two of them switched in; with none, the pin is open.
ghost use Rattle.std.specs.Prelude.{true, ◌≡◌};
ghost use Rattle.relay_board.specs.Exclusive.{at_most_one};

use front_end::Termination;

#[derive(Clone, Copy)]
pub(crate) struct Pin {
    ra: bool,
    rp: bool,
    rd: bool,
    ghost single: { at_most_one ra rp rd ≡ true },
}

impl From<Termination> for Pin {
    ghost use Rattle.relay_board.specs.Pins.{pin_of};

    ghost from_gives = { λ termination pin. pin_of pin ≡ termination };

    fn from(termination: Termination) -> Pin {
        let (ra, rp, rd) = match termination {
            Termination::Ra => (true, false, false),
            Termination::Rp => (false, true, false),
            Termination::Rd => (false, false, true),
            Termination::Open => (false, false, false),
        };
        Pin { ra, rp, rd }
    }
}

impl From<Pin> for Termination {
    ghost use Rattle.relay_board.specs.Pins.{pin_of};

    ghost from_gives = { λ pin termination. termination ≡ pin_of pin };

    fn from(pin: Pin) -> Termination {
        match (pin.ra, pin.rp, pin.rd) {
            (true, _, _) => Termination::Ra,
            (_, true, _) => Termination::Rp,
            (_, _, true) => Termination::Rd,
            (false, false, false) => Termination::Open,
        }
    }
}
