//! Who sends messages.

ghost use Rattle.std.specs.Prelude.{◌≡◌, IfSome, Some};
ghost use Rattle.move_msg.specs.declared.arbiter_id.ArbiterId.{ArbiterId};
ghost use Rattle.move_msg.specs.Senders.{who_number, sender_number};

/// The two arbiters of a game.
#[derive(Clone, Copy, PartialEq, Eq, Debug)]
pub enum ArbiterId {
    /// The arbiter with the number 1.
    A,
    /// The arbiter with the number 2.
    B,
}

impl ArbiterId {
    /// The arbiter's number, 1 or 2.
    pub fn number(self) -> u8
        ensures { result ≡ who_number self }
    {
        match self {
            ArbiterId::A => 1,
            ArbiterId::B => 2,
        }
    }

    /// The arbiter with this number; none unless it is 1 or 2.
    pub fn of_number(number: u8) -> Option<ArbiterId>
        ensures some { IfSome result (λ who. number ≡ who_number who) }
        ensures only { (who : ArbiterId) → number ≡ who_number who → result ≡ Some who }
    {
        match number {
            1 => Some(ArbiterId::A),
            2 => Some(ArbiterId::B),
            _ => None,
        }
    }
}

/// Who sends a message.
#[derive(Clone, Copy, PartialEq, Eq, Debug)]
pub enum Sender {
    /// The source of the game's moves.
    Source,
    /// One of the two arbiters.
    Arbiter(ArbiterId),
}

impl Sender {
    /// The sender's number in a message: 0 for the source, 1 or 2 for an arbiter.
    pub fn number(self) -> u8
        ensures { result ≡ sender_number self }
    {
        match self {
            Sender::Source => 0,
            Sender::Arbiter(who) => who.number(),
        }
    }
}
