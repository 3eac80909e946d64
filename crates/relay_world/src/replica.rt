//! An arbiter beside its keeper.

ghost use Rattle.std.specs.Prelude.{◌≡◌, IfOk, OnErr};
ghost use Rattle.arbiter_core.specs.Answering.{Identity};
ghost use Rattle.arbiter_core.specs.Setups.{SetupView, setup_view};
ghost use Rattle.relay_world.specs.Runs.{life_state};
ghost use Rattle.relay_world.specs.Worlds.{Side, wants, listed};
ghost use Rattle.arbiter_core.specs.Delivers.{IsKept as IsRecordKept};
ghost use Rattle.relay_world.specs.Inside.Seats.{IsDelivered, IsRestarted, IsStarved, Open, SeatIs, Shut, seat};
ghost use Rattle.relay_world.specs.Inside.Fields.{setup_in};

use crate::world::State;
use arbiter_core::{Arbiter, DeliverFault, Keep, MemoryKeeper, OpenFault, Outputs, Setup};
use move_msg::Message;
use smallvec::SmallVec;
use std::alloc::{AllocError, Global};
use std::marker::Model;

/// An arbiter, or the setup for one.
#[derive(Drop)]
enum Place<'a> {
    /// It is closed.
    Shut(Setup<'a>),
    /// It runs, or is down.
    Open(Arbiter<'a>),
}

/// An arbiter and its keeper. It is closed or down, or it runs over what the keeper keeps.
#[derive(Drop)]
pub(crate) struct Replica<'a> {
    place: Place<'a>,
    keeper: MemoryKeeper,
}

impl<'a> Model for Replica<'a> {
    ghost use Rattle.relay_world.specs.Inside.Seats.{SeatView};

    ghost Value = { SeatView };

    ghost use Rattle.relay_world.specs.Inside.Fields.{IsKeptAtPlace, seat_of};

    ghost view = { seat_of };

    ghost invariant = { λ s. IsKeptAtPlace s.place s.keeper };
}

/// What an arbiter is opened from.
fn emptied<'a>(place: Place<'a>) -> Setup<'a>
    ensures { setup_view result ≡ setup_in place.entry }
{
    match place {
        Place::Shut(setup) => setup,
        Place::Open(arbiter) => arbiter.close(),
    }
}

/// Answers a datagram with the messages to be sent; a refusal sends none. The error comes only where the answer takes memory, for
/// a record to be put or more than four messages, and leaves all but the cache as before.
fn answer(
    alloc: Global,
    arbiter: &mut Arbiter<'_>,
    keeper: &mut MemoryKeeper,
    bytes: &[u8],
) -> Result<Outputs, AllocError>
    requires { IsRecordKept keeper.old.kept arbiter.old }
    ensures sent { IfOk result (λ outputs. IsDelivered keeper.old.keep bytes.now (seat (Open arbiter.old) keeper.old) (seat (Open arbiter.new) keeper.new) outputs.items) }
    ensures memory { OnErr result (IsStarved bytes.now (seat (Open arbiter.old) keeper.old) (seat (Open arbiter.new) keeper.new)) }
    ensures keeps { IsRecordKept keeper.new.kept arbiter.new }
{
    match arbiter.deliver(alloc, keeper, bytes) {
        Ok(outputs) => Ok(outputs),
        Err(fault) => match fault {
            DeliverFault::OutOfMemory => Err(AllocError),
            _ => Ok(SmallVec::new(alloc)),
        },
    }
}

impl<'a> Replica<'a> {
    /// A closed arbiter and a keeper.
    pub fn closed(setup: Setup<'a>, keeper: MemoryKeeper) -> Replica<'a>
        ensures { result ≡ record { place = Shut (setup_view setup.entry); keeper = keeper } }
    {
        Replica {
            place: Place::Shut(setup),
            keeper,
        }
    }

    /// Delivers a datagram, where the put that follows, if any, has this outcome. A closed arbiter receives nothing,
    /// and a refusal sends nothing. The error comes only where the answer of a running arbiter takes memory, for a
    /// record to be put or more than four messages. It leaves the arbiter and what is kept as before.
    pub fn deliver(
        &mut self,
        alloc: Global,
        keep: Keep,
        bytes: &[u8],
    ) -> Result<Outputs, AllocError>
        ensures sent { IfOk result (λ outputs. IsDelivered keep bytes.now self.old self.new outputs.items) }
        ensures memory { OnErr result (IsStarved bytes.now self.old self.new) }
    {
        self.keeper.set(keep);
        match &mut self.place {
            Place::Shut(_) => Ok(SmallVec::new(alloc)),
            Place::Open(arbiter) => answer(alloc, arbiter, &mut self.keeper, bytes),
        }
    }

    /// Closes the arbiter, unless it is closed already, and opens it over what is kept. The error comes only where memory is
    /// refused; each opening takes some, for a copy of the kept record or for the first one.
    pub fn restart(self, alloc: Global, keep: Keep) -> Result<Replica<'a>, AllocError>
        ensures { IfOk result (IsRestarted keep self.entry) }
    {
        let Replica { place, keeper } = self;
        let mut keeper = keeper;
        keeper.set(keep);
        match Arbiter::open(alloc, &mut keeper, emptied(place)) {
            Ok(arbiter) => Ok(Replica {
                place: Place::Open(arbiter),
                keeper,
            }),
            Err(refused) => match refused.fault {
                OpenFault::OutOfMemory => Err(AllocError),
                _ => Ok(Replica::closed(refused.setup, keeper)),
            },
        }
    }

    /// The arbiter's request to the other.
    pub fn ask(&self) -> Option<Message>
        ensures { (me : Identity) (setup : SetupView) (side : Side) → SeatIs me setup self.now side → listed result ≡ wants me side.kept side.life }
    {
        match &self.place {
            Place::Shut(_) => None,
            Place::Open(arbiter) => arbiter.ask(),
        }
    }

    /// The state of the arbiter.
    pub fn state(&self) -> State
        ensures { (me : Identity) (setup : SetupView) (side : Side) → SeatIs me setup self.now side → result ≡ life_state side.life }
    {
        match &self.place {
            Place::Shut(_) => State::Closed,
            Place::Open(arbiter) => {
                if arbiter.is_down() {
                    State::Down
                } else {
                    State::Running
                }
            }
        }
    }

    /// The keeper, without the arbiter.
    pub fn into_keeper(self) -> MemoryKeeper
        ensures { result ≡ self.entry.keeper }
    {
        let Replica { place: _, keeper } = self;
        keeper
    }
}
