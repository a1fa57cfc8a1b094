//! The port: powers a front end on, keeps it to itself, and hands it back safe.
//! Nothing hands the front end out to be altered, or replaces it.
ghost use Rattle.std.specs.Prelude.{◌≡◌};
ghost use Rattle.front_end.specs.Meaning.{safe, at_rest};
ghost use Rattle.registers.specs.Status.{asserted};
ghost use Rattle.port.specs.View.{view, powered_on};
ghost use Rattle.port.specs.Steps.{concluded};
ghost use Rattle.port.specs.Writes.{front_of};

mod reads;
mod reports;
mod writes;

use front_end::{FrontEnd, Path, Terminations, Vconn};
use receiver::Receiver;
use registers::{Before, Front, INTERFACE_ERROR, Identifiers, Registers};
use sender::Sender;
use transfer::Refusal;

/// Not `Drop`: a port ends by `power_off` alone.
pub struct Port<F: FrontEnd> {
    front: F,
    registers: Registers,
    receiver: Receiver,
    sender: Sender,
}

/// Nothing is switched then and nothing is on the line, whatever was.
fn put_to_rest<F: FrontEnd>(front: &mut F, terminations: Terminations)
    ensures { F.meaning front.new ≡ at_rest terminations }
{
    front.set_path(Path::Off);
    front.quiet();
    front.set_vconn(Vconn::Off);
    front.set_terminations(terminations);
}

impl<F: FrontEnd> Port<F> {
    /// The start of every run, whatever the front end did before.
    pub fn power_on(mut front: F, identifiers: Identifiers) -> Port<F>
        ensures { view F.meaning result ≡ powered_on identifiers }
    {
        let registers = Registers::power_on(identifiers);
        put_to_rest(&mut front, registers.terminations());
        Port {
            front,
            registers,
            receiver: Receiver::new(),
            sender: Sender::new(),
        }
    }

    /// Ends the port and hands its front end back, safe.
    pub fn power_off(self) -> F
        ensures { F.meaning result ≡ safe }
    {
        let Port {
            mut front,
            registers: _,
            receiver: _,
            sender: _,
        } = self;
        put_to_rest(&mut front, Terminations::OPEN);
        front
    }

    /// The front end, to be asked and not to be altered.
    pub fn front(&self) -> &F
        ensures { result.now ≡ self.now.front }
    {
        &self.front
    }

    /// Whether Alert# is asserted.
    pub fn alert_asserted(&self) -> bool
        ensures { result ≡ asserted (view F.meaning self.now).registers }
    {
        self.registers.alert_asserted()
    }

    /// The front end as the register file is told of it.
    fn told(&self) -> Front
        ensures { result ≡ front_of F.CAPABILITIES (view F.meaning self.now) }
    {
        Front {
            has: F::CAPABILITIES,
            path: self.front.path(),
        }
    }

    /// Every call begins here: what changes in it is told from this.
    fn begin(&self) -> Before
        ensures { result ≡ record { registers = self.now.registers; path = (view F.meaning self.now).meaning.path } }
    {
        self.registers.before(self.front.path())
    }

    /// Every call ends here: a refusal by the interface is a fault, and what changed raises alerts.
    fn conclude<T>(&mut self, before: &Before, outcome: Result<T, Refusal>) -> Result<T, Refusal>
        ensures view { view F.meaning self.new ≡ concluded before.now outcome (view F.meaning self.old) }
        ensures answer { result ≡ outcome }
    {
        if let Err(refusal) = &outcome {
            if refusal.is_interface_error() {
                self.registers.raise_fault(INTERFACE_ERROR);
            }
        }
        self.registers.settle(before, self.front.path());
        outcome
    }
}
