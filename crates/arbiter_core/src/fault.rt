//! Why an arbiter refuses a datagram, or can't be opened.

ghost use Rattle.std.specs.Prelude.{◌≡◌};
ghost use Rattle.arbiter_core.specs.Faults.{deliver_fault_name, open_fault_name};

use move_msg::MessageFault;

/// Why a delivery is refused; `Arbiter::deliver` has the order.
#[derive(Clone, Copy, PartialEq, Eq, Debug)]
pub enum DeliverFault {
    /// The bytes are no message.
    NotAMessage(MessageFault),
    /// The message is of another game.
    Stranger,
    /// The move isn't legal in its turn.
    IllegalMove,
    /// The move comes 32 numbers or more before its turn.
    TooFarAhead,
    /// The move's number is 4096 or more.
    TooLong,
    /// The keeper failed to keep the new record.
    KeeperFailed,
    /// The keeper failed before; close the arbiter and open it again.
    Down,
    /// Memory was refused.
    OutOfMemory,
}

impl DeliverFault {
    /// The name of the fault, for printing. That of `NotAMessage` leaves out the fault of the bytes.
    pub fn name(self) -> &'static str
        ensures { result.now ≡ deliver_fault_name self }
    {
        match self {
            DeliverFault::NotAMessage(_) => "NotAMessage",
            DeliverFault::Stranger => "Stranger",
            DeliverFault::IllegalMove => "IllegalMove",
            DeliverFault::TooFarAhead => "TooFarAhead",
            DeliverFault::TooLong => "TooLong",
            DeliverFault::KeeperFailed => "KeeperFailed",
            DeliverFault::Down => "Down",
            DeliverFault::OutOfMemory => "OutOfMemory",
        }
    }
}

/// Why an arbiter can't be opened, in the order in which faults are reported. Refused memory is reported where it
/// occurs.
#[derive(Clone, Copy, PartialEq, Eq, Debug)]
pub enum OpenFault {
    /// The name is none of a game, the number is none of an arbiter, or the delay is above 8.
    BadSetup,
    /// The keeper failed.
    KeeperFailed,
    /// What is kept is no record, or its moves aren't legal in turn. Or a ply before its last has a verdict, or its
    /// verdict isn't the one at its last ply.
    BadRecord,
    /// What is kept is a record of another game, or of one with another delay.
    OtherStamp,
    /// Memory was refused.
    OutOfMemory,
}

impl OpenFault {
    /// The name of the fault, for printing.
    pub fn name(self) -> &'static str
        ensures { result.now ≡ open_fault_name self }
    {
        match self {
            OpenFault::BadSetup => "BadSetup",
            OpenFault::KeeperFailed => "KeeperFailed",
            OpenFault::BadRecord => "BadRecord",
            OpenFault::OtherStamp => "OtherStamp",
            OpenFault::OutOfMemory => "OutOfMemory",
        }
    }
}
