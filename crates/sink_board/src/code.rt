//! The sink board's code: made from what it stands for, and asked whether it sinks.
//! The terminations lie in it as in ROLE_CONTROL, so they are read as those are.
ghost use Rattle.std.specs.Prelude.{◌≡◌, ◌<◌};
ghost use Rattle.front_end.specs.Codes.{terminations_of};
ghost use Rattle.sink_board.specs.Codes.{codes, code_sinks};

use front_end::Terminations;

const SINKING: u8 = 64;

pub(crate) fn coded(terminations: Terminations, sinks: bool) -> u8
    ensures known { result < codes }
    ensures terminations { terminations_of result ≡ terminations }
    ensures sinks { code_sinks result ≡ sinks }
{
    let bits = u8::from(terminations);
    if sinks { bits + SINKING } else { bits }
}

pub(crate) fn sinks(code: u8) -> bool
    ensures { result ≡ code_sinks code }
{
    code >= SINKING
}
