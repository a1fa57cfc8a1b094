//! Calls and what they give, in words.
use crate::script::Call;
use front_end::FrontEnd;
use port::{Answer, Port};
use std::fmt;
use transfer::Refusal;

/// What a call gives that is not refused.
#[derive(Clone, Copy)]
pub(crate) enum Reply {
    Taken(Answer),
    Byte(u8),
    Word(u16),
}

fn read<F: FrontEnd>(port: &mut Port<F>, register: u8, wanted: usize) -> Result<Reply, Refusal> {
    let mut bytes = [0; 2];
    let count = port.read(register, wanted, &mut bytes)?;
    let [low, _] = bytes;
    Ok(if count == 1 {
        Reply::Byte(low)
    } else {
        Reply::Word(u16::from_le_bytes(bytes))
    })
}

/// Makes the call.
pub(crate) fn make<F: FrontEnd>(port: &mut Port<F>, call: Call) -> Result<Reply, Refusal> {
    match call {
        Call::Write(bytes) => Ok(Reply::Taken(port.write(bytes)?)),
        Call::Report(report) => Ok(Reply::Taken(port.report(report)?)),
        Call::Read { register, wanted } => read(port, register, wanted),
    }
}

impl fmt::Display for Call {
    fn fmt<W: fmt::Write>(&self, f: &mut fmt::Formatter<W>) -> fmt::Result {
        match self {
            Call::Write(bytes) => {
                write!(f, "write [")?;
                for byte in bytes.iter() {
                    write!(f, " {byte:02X}h")?;
                }
                write!(f, " ]")
            }
            Call::Read { register, wanted } => write!(f, "read {wanted} at {register:02X}h"),
            Call::Report(report) => write!(f, "{report}"),
        }
    }
}

/// The outcome of a call, to be printed.
#[derive(Clone, Copy)]
pub(crate) struct Told(pub(crate) Result<Reply, Refusal>);

impl fmt::Display for Told {
    fn fmt<W: fmt::Write>(&self, f: &mut fmt::Formatter<W>) -> fmt::Result {
        match self.0 {
            Ok(reply) => write!(f, "{reply}"),
            Err(refusal) => write!(f, "refused with {}, {refusal}", u8::from(refusal)),
        }
    }
}

impl fmt::Display for Reply {
    fn fmt<W: fmt::Write>(&self, f: &mut fmt::Formatter<W>) -> fmt::Result {
        match self {
            Reply::Taken(answer) => {
                write!(f, "taken")?;
                match answer.ended {
                    Some(end) => write!(f, ", {end}"),
                    None => Ok(()),
                }
            }
            Reply::Byte(byte) => write!(f, "{byte:02X}h"),
            Reply::Word(word) => write!(f, "{word:04X}h"),
        }
    }
}
