//! Fields of a byte by shifts and masks: the one place of `pd` that has either.
//! Says by value what it takes out and puts in.
ghost use Rattle.std.specs.Prelude.{◌≡◌, ℕ, ◌+◌, ◌*◌, ◌/◌, ◌%◌, ◌^◌, ◌<◌};

/// The field of `width` bits from bit `low` up.
pub(crate) fn field(byte: u8, low: u8, width: u8) -> u8
    requires within { low < 8 }
    requires narrow { width < 8 }
    ensures { result ≡ byte / 2 ^ low % 2 ^ width }
{
    (byte >> low) & ((1 << width) - 1)
}

/// A field put in from bit `low` up, above what stands in the bits below.
pub(crate) fn above(field: u8, low: u8, below: u8) -> u8
    requires within { low < 8 }
    requires under { below < 2 ^ low }
    requires fits { field * 2 ^ low < 256 }
    ensures { result ≡ field * 2 ^ low + below }
{
    field << low | below
}
