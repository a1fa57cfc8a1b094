//! A transfer taken apart: into a request, or the first refusal that holds.
//! The list decides; the patterns only say where the bytes are.
ghost use Rattle.std.specs.Prelude.{◌≡◌, ◌≤◌, true, false, is_ok, ◌==◌};
ghost use Rattle.transfer.specs.Refusals.{first_holding, refused_or};
ghost use Rattle.transfer.specs.Decode.{write_rows, read_rows, written, asked, all_asked};

use crate::address::TRANSMIT_BUFFER;
use crate::list::{Direction, Width, listed_for};
use crate::refusal::Refusal;

/// What a write transfer asks for. Bytes for the transmit buffer stay part of the transfer.
#[derive(Clone, Copy, Debug, PartialEq, Eq)]
pub enum WriteRequest<'a> {
    /// The defined bits of a value, and whether a one was written to another bit.
    Byte {
        register: u8,
        value: u8,
        stray: bool,
    },
    Word {
        register: u8,
        value: u16,
    },
    Append(&'a [u8]),
}

/// So many bytes of a register, which its width allows and the reader's buffer has room for.
#[derive(Clone, Copy, Debug, PartialEq, Eq)]
pub struct ReadRequest {
    pub register: u8,
    pub wanted: usize,
}

pub fn decode_write(transfer: &[u8]) -> Result<WriteRequest<'_>, Refusal>
    ensures { all_asked result ≡ refused_or (first_holding (write_rows transfer.now)) (written transfer.now) }
{
    let (register, data) = transfer.split_first().ok_or(Refusal::NoRegister)?;
    let width = listed_for(*register, Direction::Write, data.len())?;
    match (width, transfer) {
        (Width::Counted, [TRANSMIT_BUFFER, count, rest @ ..]) => {
            if usize::from(*count) == rest.len() {
                Ok(WriteRequest::Append(rest))
            } else {
                Err(Refusal::WrongCount)
            }
        }
        (Width::Byte { defined }, [register, value]) => Ok(WriteRequest::Byte {
            register: *register,
            value: value & defined,
            stray: value & !defined != 0,
        }),
        (Width::Word, [register, lo, hi]) => Ok(WriteRequest::Word {
            register: *register,
            value: u16::from_le_bytes([*lo, *hi]),
        }),
        // The list lets no other length through.
        _ => Err(Refusal::WrongLength),
    }
}

/// Of `wanted` bytes at `register`, for a reader whose buffer has room for `room`.
pub fn decode_read(register: u8, wanted: usize, room: usize) -> Result<ReadRequest, Refusal>
    ensures judged { result ≡ refused_or (first_holding (read_rows register wanted room)) (record { register = register; wanted = wanted }) }
    ensures at_most_a_word_elsewhere { is_ok result ≡ true → (register == 0x30) ≡ false → wanted ≤ 2 }
{
    if room < wanted {
        return Err(Refusal::ReaderTooShort);
    }
    listed_for(register, Direction::Read, wanted)?;
    Ok(ReadRequest { register, wanted })
}
