//! Why requests aren't answered.

ghost use Rattle.std.specs.Prelude.{◌≡◌};
ghost use Rattle.std.specs.IoError.{error_kind};
ghost use Rattle.serve_core.specs.Refusals.{refusal_for, unbound_of};
ghost use Rattle.system_io.specs.Reading.{read_fault_of};

use answer_parts::Refusal;
use std::io;
use system_io::ReadFault;

/// Why an address isn't bound, or requests can't be awaited any more.
#[derive(Clone, Copy, Debug, PartialEq, Eq)]
pub enum Unbound {
    /// The system can't.
    Address,
    /// Memory is refused.
    Memory,
}

impl Unbound {
    /// What an error of the system means: of memory where it says so, and else of the address.
    pub(crate) fn by(error: io::Error) -> Unbound
        ensures { result ≡ unbound_of (read_fault_of (error_kind error)) }
    {
        match ReadFault::from(error) {
            ReadFault::Unreadable => Unbound::Address,
            ReadFault::OutOfMemory => Unbound::Memory,
        }
    }

    /// The refusal that it is.
    pub(crate) fn refusal(self) -> Refusal
        ensures { result ≡ refusal_for self }
    {
        match self {
            Unbound::Address => Refusal::Port,
            Unbound::Memory => Refusal::Memory,
        }
    }
}
