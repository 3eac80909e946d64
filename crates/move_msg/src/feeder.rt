//! A stream of messages, in pieces of any length.

ghost use Rattle.std.specs.Prelude.{◌≡◌, ◌<◌, length, Some, None, Err};
ghost use Rattle.arrayvec.specs.ArrayVec.{array_vec_len};
ghost use Rattle.move_msg.specs.declared.message.MessageFault.{MessageFault};
ghost use Rattle.move_msg.specs.Streams.{Feeds, nothing_fed};

use crate::message::{Message, MessageFault};
use arrayvec::ArrayVec;
use std::marker::Model;

/// Reads the messages of a stream one after the other, up to the first malformed one.
///
/// Contracts see what it holds: the bytes of an incomplete message, fewer than 27, and the fault that ended the stream,
/// if any.
#[derive(Debug, Drop)]
pub struct Feeder {
    held: ArrayVec<u8, 27>,
    fault: Option<MessageFault>,
}

impl Model for Feeder {
    ghost use Rattle.std.specs.Prelude.{◌<◌};
    ghost use Rattle.arrayvec.specs.ArrayVec.{array_vec_len};
    ghost use Rattle.move_msg.specs.Streams.{Feed};

    ghost Value = { Feed };

    ghost view = { λ f. record { held = f.held.items; fault = f.fault } };

    ghost invariant = { λ f. array_vec_len f.held < 27 };
}

impl Feeder {
    /// A feeder that holds no bytes.
    pub fn new() -> Feeder
        ensures { result ≡ nothing_fed }
    {
        Feeder {
            held: ArrayVec::new(),
            fault: None,
        }
    }

    /// How many bytes of an incomplete message are held, 0 to 26.
    pub fn held(&self) -> usize
        ensures value { result ≡ length self.now.held }
        ensures part { result < 27 }
    {
        self.held.len()
    }

    /// Takes the whole piece, or its bytes up to the end of one message where that comes first.
    ///
    /// Returns how many bytes it took, and the message that they complete, if any. The 27 bytes of a malformed message
    /// are taken and not held. From then on nothing is taken, and each call returns that fault.
    pub fn feed(&mut self, piece: &[u8]) -> (usize, Option<Result<Message, MessageFault>>)
        ensures going { self.old.fault ≡ None → Feeds self.old piece.now result self.new }
        ensures stuck { (fault : MessageFault) → self.old.fault ≡ Some fault
            → (result ≡ (0, Some (Err fault))) × (self.new ≡ self.old) }
    {
        if let Some(fault) = self.fault {
            return (0, Some(Err(fault)));
        }
        let room = self.held.remaining_capacity();
        if piece.len() < room {
            self.held.try_extend_from_slice(piece).unwrap();
            return (piece.len(), None);
        }
        let mut bytes = self.held.take();
        bytes.try_extend_from_slice(&piece[..room]).unwrap();
        let answer = Message::decode(&bytes);
        if let Err(fault) = answer {
            self.fault = Some(fault);
        }
        (room, Some(answer))
    }
}
