//! Two arbiters after a schedule, as the caller sees them.

ghost use Rattle.std.specs.Prelude.{◌≡◌, ℕ, option_map, length, Option, Some, None, List, IfSome};
ghost use Rattle.move_msg.specs.declared.stamp.Stamp.{Stamp};
ghost use Rattle.arbiter_core.specs.Recording.{Recorded};
ghost use Rattle.move_msg.specs.declared.record_bytes.Record.{Record};
ghost use Rattle.move_msg.specs.Records.{SpellsRecord, code_or_none};
ghost use Rattle.relay_world.specs.Runs.{KeptIs, SpellsCounted, count_and_code, told_side};

use arbiter_core::MemoryKeeper;
use move_msg::{ArbiterId, Message, Record};
use std::marker::Model;
use std::vec::Vec;

/// The state of an arbiter.
#[derive(Clone, Copy, PartialEq, Eq, Debug)]
pub enum State {
    /// It runs.
    Running,
    /// Its keeper failed, and it was not opened again.
    Down,
    /// It is closed.
    Closed,
}

/// Two arbiters after a schedule: their states, what they keep, and everything that was ever sent. No reader takes
/// memory.
#[derive(Drop)]
pub struct World {
    pub(crate) first: State,
    pub(crate) first_keeper: MemoryKeeper,
    pub(crate) second: State,
    pub(crate) second_keeper: MemoryKeeper,
    pub(crate) log: Vec<Message>,
}

impl Model for World {
    ghost use Rattle.relay_world.specs.Runs.{WorldView};

    ghost Value = { WorldView };

    ghost view = { λ w. record { a = record { state = w.first; bytes = w.first_keeper.kept }; b = record { state = w.second; bytes = w.second_keeper.kept }; log = w.log.items } };
}

impl World {
    /// The state of an arbiter.
    pub fn state(&self, who: ArbiterId) -> State
        ensures { result ≡ (told_side self.now who).state }
    {
        match who {
            ArbiterId::A => self.first,
            ArbiterId::B => self.second,
        }
    }

    /// The bytes of the record that an arbiter's keeper keeps; none where nothing is kept.
    pub fn bytes(&self, who: ArbiterId) -> Option<&[u8]>
        ensures { option_map (λ b. b.now) result ≡ (told_side self.now who).bytes }
    {
        match who {
            ArbiterId::A => self.first_keeper.kept(),
            ArbiterId::B => self.second_keeper.kept(),
        }
    }

    /// How many moves an arbiter's keeper keeps, and the code of the kept verdict, 0 for none. None where nothing is
    /// kept, or where what is kept is no record.
    pub fn kept(&self, who: ArbiterId) -> Option<(u32, u8)>
        ensures nothing { (told_side self.now who).bytes ≡ None → result ≡ None }
        ensures record { (bytes : List _) (r : Record) → (told_side self.now who).bytes ≡ Some bytes → SpellsRecord bytes r → result ≡ Some (length r.moves, code_or_none r.verdict) }
        ensures some { IfSome result (SpellsCounted (told_side self.now who)) }
        ensures is { (stamp : Stamp) (delay : ℕ) (kept : Option Recorded) → KeptIs stamp delay (told_side self.now who).bytes kept → result ≡ option_map count_and_code kept }
    {
        match self.bytes(who) {
            Some(bytes) => Record::summary(bytes),
            None => None,
        }
    }

    /// Everything that was ever sent, in order.
    pub fn log(&self) -> &[Message]
        ensures { result.now ≡ self.now.log }
    {
        self.log.as_slice()
    }
}
