//! What a message says.

ghost use Rattle.std.specs.Prelude.{◌≡◌};
ghost use Rattle.move_msg.specs.Messages.{message_fault_name, sender_of, stamp_in};

use crate::arbiter_id::{ArbiterId, Sender};
use crate::count::{Count, FetchCount};
use crate::stamp::Stamp;
use board_core::{Move, Verdict};

/// A message between the source of a game and its arbiters, or between the arbiters.
#[derive(Clone, Copy, PartialEq, Eq, Debug)]
pub enum Message {
    /// The source sends a move of the game, or an arbiter forwards one.
    Move {
        /// The game.
        stamp: Stamp,
        /// The sender.
        sender: Sender,
        /// How many moves come before it.
        number: u32,
        /// The move.
        m: Move,
    },
    /// An arbiter acknowledges the moves that it keeps.
    Ack {
        /// The game.
        stamp: Stamp,
        /// The arbiter.
        who: ArbiterId,
        /// How many moves it keeps.
        count: Count,
    },
    /// An arbiter reports its verdict on the game.
    Verdict {
        /// The game.
        stamp: Stamp,
        /// The arbiter.
        who: ArbiterId,
        /// The ply after which the game ended.
        ply: Count,
        /// How it ended.
        verdict: Verdict,
    },
    /// An arbiter requests moves of the game from the other.
    Fetch {
        /// The game.
        stamp: Stamp,
        /// The arbiter.
        who: ArbiterId,
        /// The number of the first move requested.
        number: Count,
        /// How many are requested.
        wanted: FetchCount,
    },
}

impl Message {
    /// The game that the message is about.
    pub fn stamp(&self) -> Stamp
        ensures { result ≡ stamp_in self.now }
    {
        match *self {
            Message::Move { stamp, .. } => stamp,
            Message::Ack { stamp, .. } => stamp,
            Message::Verdict { stamp, .. } => stamp,
            Message::Fetch { stamp, .. } => stamp,
        }
    }

    /// Who sends the message.
    pub fn sender(&self) -> Sender
        ensures { result ≡ sender_of self.now }
    {
        match *self {
            Message::Move { sender, .. } => sender,
            Message::Ack { who, .. } => Sender::Arbiter(who),
            Message::Verdict { who, .. } => Sender::Arbiter(who),
            Message::Fetch { who, .. } => Sender::Arbiter(who),
        }
    }
}

/// The filler of unused places in a list of messages: an acknowledgement of no move by the first arbiter, with a stamp
/// of zeros.
impl Default for Message {
    ghost use Rattle.std.specs.Prelude.{◌≡◌};
    ghost use Rattle.move_msg.specs.Messages.{no_message};

    ghost is_default = { λ m. m ≡ no_message };

    fn default() -> Message {
        Message::Ack {
            stamp: Stamp([0; 16]),
            who: ArbiterId::A,
            count: Count::none(),
        }
    }
}

/// Why bytes are no message, in the order in which faults are reported.
#[derive(Clone, Copy, PartialEq, Eq, Debug)]
pub enum MessageFault {
    /// There are 64 bytes that are zero. So a port with keys passes on a datagram without a right tag, and no other port passes
    /// on these.
    NoTag,
    /// There are not exactly 27 bytes.
    BadLength,
    /// They don't begin with `SA` and the version 1 or 2.
    BadHead,
    /// The kind is none of the version.
    BadKind,
    /// Sender, number and word are not those of a message of the kind.
    BadField,
}

impl MessageFault {
    /// The name of the fault, for printing.
    pub fn name(self) -> &'static str
        ensures { result.now ≡ message_fault_name self }
    {
        match self {
            MessageFault::NoTag => "NoTag",
            MessageFault::BadLength => "BadLength",
            MessageFault::BadHead => "BadHead",
            MessageFault::BadKind => "BadKind",
            MessageFault::BadField => "BadField",
        }
    }
}
