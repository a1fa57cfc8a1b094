//! The switches of the relay board, one bit each.
//! By its type VCONN is on one pin at most, and nothing sinks and sources at once, at any moment.
ghost use Rattle.std.specs.Prelude.{true, ◌≡◌};
ghost use Rattle.relay_board.specs.Exclusive.{not_both, only_with};

use crate::pin::Pin;

#[derive(Drop)]
pub(crate) struct RelaySwitches {
    pub(crate) cc1: Pin,
    pub(crate) cc2: Pin,
    pub(crate) rp_low: bool,
    pub(crate) rp_high: bool,
    pub(crate) vconn_cc1: bool,
    pub(crate) vconn_cc2: bool,
    pub(crate) sink: bool,
    pub(crate) source: bool,
    pub(crate) raised: bool,
    ghost one_pin_powered: { not_both vconn_cc1 vconn_cc2 ≡ true },
    ghost one_direction: { not_both sink source ≡ true },
    ghost raised_while_sourcing: { only_with raised source ≡ true },
}
