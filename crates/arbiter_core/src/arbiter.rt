//! An arbiter with tables of its own.

ghost use Rattle.std.specs.Prelude.{◌≡◌, ◌≤◌, length, cond, Option, None};
ghost use Rattle.std.specs.Result.{result_map_both};
ghost use Rattle.move_msg.specs.Numbers.{most_moves};
ghost use Rattle.arbiter_core.specs.Recording.{move_count};
ghost use Rattle.arbiter_core.specs.Answering.{request_of};
ghost use Rattle.arbiter_core.specs.Setups.{setup_view};
ghost use Rattle.arbiter_core.specs.Resting.{CanWake, awake};
ghost use Rattle.arbiter_core.specs.Delivers.{Delivers, IsKept, exchange, moment};

use crate::fault::DeliverFault;
use crate::keeper::Keeper;
use crate::setup::Setup;
use crate::state::{ArbiterState, Outputs};
use board_core::Move;
use judge_core::{Set, Verdict};
use move_msg::Message;
use std::alloc::Global;
use std::marker::Model;

/// An open arbiter and its tables.
#[derive(Drop)]
pub struct Arbiter<'a> {
    state: ArbiterState<'a>,
    set: Set<'a>,
}

impl<'a> Model for Arbiter<'a> {
    ghost use Rattle.arbiter_core.specs.Views.{View};
    ghost use Rattle.arbiter_core.specs.Inside.Fields.{AreInOrder, view_of};

    ghost Value = { View };

    ghost view = { view_of };

    ghost invariant = { AreInOrder };
}

impl<'a> Arbiter<'a> {
    /// The request to the other arbiter: a `Fetch` of eight moves from its count on. None where it is down, has a
    /// verdict, or has 4096 moves.
    pub fn ask(&self) -> Option<Message>
        ensures { result ≡ cond self.now.is_down None (request_of self.now.me self.now.kept) }
    {
        self.state.ask()
    }

    /// Processes a datagram, and returns the messages to send. With k the count of recorded moves, in this order:
    ///
    /// 1. An arbiter that is down returns `Down`.
    /// 2. Bytes that encode no message are `NotAMessage`, a message of another game is `Stranger`.
    /// 3. An `Ack` or a `Verdict` changes nothing, and nothing is sent. A `Fetch` is answered with the recorded moves
    ///    from its number on, as many as it requests and there are, as messages of this arbiter. Nothing changes.
    /// 4. A `Move` of number 4096 or more is `TooLong`.
    /// 5. Where a verdict is recorded or the number is below k, the count and the verdict, if any, are sent. The move
    ///    isn't examined.
    /// 6. A number of k + 32 or more is `TooFarAhead`.
    /// 7. A move with a number above k waits, unless one waits there already. The count is sent.
    /// 8. The move with number k is `IllegalMove` where it isn't legal. Otherwise it is played, and then the waiting
    ///    moves after it without a gap, until there is a verdict. One that isn't legal in its turn is dropped and ends
    ///    the run. The record is put once. Where that succeeds the new count and the verdict, if any, are sent, and at
    ///    a verdict no move waits any more. Otherwise it is `KeeperFailed`: the arbiter is down, and its readers give
    ///    the record from before.
    ///
    /// `OutOfMemory` comes only in case 8, before the put, and for a `Fetch` that is answered by more than four moves.
    /// It leaves the keeper and all of the arbiter but its cache as before, and so does each refusal but
    /// `KeeperFailed`. The caller ensures that the keeper keeps this arbiter's record while it runs, as `open` and each
    /// delivery leave it.
    pub fn deliver<K: Keeper>(
        &mut self,
        alloc: Global,
        keeper: &mut K,
        bytes: &[u8],
    ) -> Result<Outputs, DeliverFault>
        // A running arbiter's record is the one that the keeper keeps.
        requires { IsKept (K.facts.kept keeper.old) self.old }

        // The result follows from the datagram and the record, and a record is put where the result says so.
        ensures delivered { Delivers K.facts (moment self.old keeper.old) (exchange bytes.now (result_map_both (λ o. o.items) (λ e. e) result) (moment self.new keeper.new)) }

        // The keeper keeps the record afterwards too.
        ensures keeps { IsKept (K.facts.kept keeper.new) self.new }

        // What it was opened from stays.
        ensures setup { self.new.setup ≡ self.old.setup }
    {
        match Message::decode(bytes) {
            Ok(message) => self.state.deliver(alloc, &mut self.set, keeper, &message),
            Err(fault) => {
                if self.state.is_down() {
                    return Err(DeliverFault::Down);
                }
                Err(DeliverFault::NotAMessage(fault))
            }
        }
    }

    /// Returns the setup from which the arbiter was opened.
    pub fn close(self) -> Setup<'a>
        ensures { setup_view result ≡ self.entry.setup }
    {
        let Arbiter { state, set } = self;
        let ArbiterState {
            terms,
            played: _,
            window: _,
            down: _,
        } = state;
        terms.with(set)
    }

    /// The arbiter of a state and of tables by which its record is whole.
    pub(crate) fn wake(resting: ArbiterState<'a>, set: Set<'a>) -> Arbiter<'a>
        requires { CanWake resting set }
        ensures { result ≡ awake resting.entry set.entry }
    {
        Arbiter {
            state: resting,
            set,
        }
    }

    /// The moves that are recorded.
    pub fn moves(&self) -> &[Move]
        ensures moves { result.now ≡ self.now.kept.moves }
        ensures few { length result.now ≤ most_moves }
    {
        self.state.moves()
    }

    /// How many moves are recorded, 0 to 4096.
    pub fn count(&self) -> u32
        ensures is { result ≡ move_count self.now.kept }
        ensures few { result ≤ most_moves }
    {
        self.state.count()
    }

    /// The verdict that is recorded.
    pub fn verdict(&self) -> Option<Verdict>
        ensures { result ≡ self.now.kept.verdict }
    {
        self.state.verdict()
    }

    /// Whether the keeper has failed; then the arbiter is to be closed and opened again.
    pub fn is_down(&self) -> bool
        ensures { result ≡ self.now.is_down }
    {
        self.state.is_down()
    }
}
