//! The switches of the sink board, in one code.
ghost use Rattle.std.specs.Prelude.{◌<◌};
ghost use Rattle.sink_board.specs.Codes.{codes};

/// CC1 in bits 1..0, CC2 in bits 3..2, the Rp value in bits 5..4, sinking in bit 6.
#[derive(Drop)]
pub(crate) struct SinkSwitches {
    pub(crate) code: u8,
    ghost known: { code < codes },
}
