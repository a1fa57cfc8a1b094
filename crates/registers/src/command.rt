//! COMMAND: what each value does, and when it is refused.
//! Decides on the capabilities and the present path; acts on nothing.
ghost use Rattle.std.specs.Prelude.{◌≡◌, false};
ghost use Rattle.transfer.specs.Decode.{byte};
ghost use Rattle.transfer.specs.Refusals.{first_holding, refused_or};
ghost use Rattle.registers.specs.Commands.{effect};
ghost use Rattle.registers.specs.Writes.{value_rows};

use crate::front::Front;
use front_end::Path;
use transfer::Refusal;

/// What a write does beside the registers that it stores.
#[derive(Clone, Copy, Debug, PartialEq, Eq)]
pub enum Effect {
    /// VBUS detection on or off.
    Detect(bool),
    Switch(Path),
    /// RxOneMore armed.
    Arm,
    /// The transmit buffer emptied.
    Empty,
}

/// What a COMMAND does, if anything.
pub(crate) fn command(value: u8, front: Front) -> Result<Option<Effect>, Refusal>
    ensures { result ≡ refused_or (first_holding (value_rows front (byte 0x23 value false))) (effect value front.path) }
{
    let Front { has, path } = front;
    let effect = match value {
        0x11 | 0xFF => return Ok(None),
        0x22 if path != Path::Off => return Err(Refusal::NeedNotMet),
        0x22 => Effect::Detect(false),
        0x33 => Effect::Detect(true),
        0x44 if path.is_sinking() => Effect::Switch(Path::Off),
        0x66 if path.is_sourcing() => Effect::Switch(Path::Off),
        0x44 | 0x66 => return Ok(None),
        0x55 if !has.sink => return Err(Refusal::LacksCapability),
        0x55 if path.is_sourcing() => return Err(Refusal::NeedNotMet),
        0x55 => Effect::Switch(Path::Sink),
        0x77 if !has.default_source => return Err(Refusal::LacksCapability),
        0x77 if path.is_sinking() => return Err(Refusal::NeedNotMet),
        0x77 => Effect::Switch(Path::DefaultSource),
        0x88 if !has.nondefault_source => return Err(Refusal::LacksCapability),
        0x88 if !path.is_sourcing() => return Err(Refusal::NeedNotMet),
        0x88 => Effect::Switch(Path::NondefaultSource),
        0xAA => Effect::Arm,
        0xDD => Effect::Empty,
        _ => return Err(Refusal::UnknownCommand),
    };
    Ok(Some(effect))
}
