//! An arbiter but its tables, which it is lent for each delivery.

ghost use Rattle.std.specs.Prelude.{◌≡◌, ◌+◌, ◌<◌, ◌≤◌, ◌∷◌, [], ◌++◌, length, IfOk, IsErr, cond, Option, Some, None};
ghost use Rattle.std.specs.Result.{result_map_both};
ghost use Rattle.std.specs.Str.{bytes_eq};
ghost use Rattle.judge_core.specs.Games.{position_after_all};
ghost use Rattle.move_msg.specs.Messages.{stamp_in};
ghost use Rattle.move_msg.specs.Numbers.{most_moves};
ghost use Rattle.move_msg.specs.declared.arbiter_id.Sender.{Sender};
ghost use Rattle.arbiter_core.specs.Recording.{move_count};
ghost use Rattle.arbiter_core.specs.Answering.{fetched, nothing_waits, request_of, sent_by, told_of};
ghost use Rattle.arbiter_core.specs.Setups.{rules_at};
ghost use Rattle.arbiter_core.specs.Resting.{AnswersBy, CanWake, awake, setup_with};
ghost use Rattle.arbiter_core.specs.Delivers.{IsKept, Keeps, answer_to_any, answer_to_message, answer_to_next, answer_to_numbered};
ghost use Rattle.arbiter_core.specs.Inside.Playing.{IsNext, IsPlayedFrom};

use crate::fault::DeliverFault;
use crate::keeper::Keeper;
use crate::planning::{Ahead, plan_on};
use crate::played::Played;
use crate::reorder_buffer::ReorderBuffer;
use crate::setup::Terms;
use board_core::{Move, Position};
use judge_core::{Set, Verdict};
use move_msg::{ArbiterId, Count, FetchCount, Message, Sender, Stamp};
use smallvec::SmallVec;
use std::alloc::{AllocError, Global};
use std::marker::Model;

/// What a delivery sends: at most two messages, or at most eight for a `Fetch`. Up to four take no memory.
pub type Outputs = SmallVec<Message, 4>;

/// An open arbiter but its tables: it runs, or it is down. Many share one set of tables.
#[derive(Drop)]
pub struct ArbiterState<'a> {
    pub(crate) terms: Terms<'a>,
    pub(crate) played: Played,
    pub(crate) window: ReorderBuffer,
    pub(crate) down: bool,
}

impl<'a> Model for ArbiterState<'a> {
    ghost use Rattle.arbiter_core.specs.Resting.{Rest};
    ghost use Rattle.arbiter_core.specs.Inside.AtRest.{rest_of};

    ghost Value = { Rest };

    ghost view = { rest_of };
}

/// The messages by which an arbiter reports its record.
fn tell(
    alloc: Global,
    stamp: Stamp,
    who: ArbiterId,
    count: Count,
    verdict: Option<Verdict>,
) -> Outputs
    ensures { result.items ≡ told_of (record { stamp = stamp; who = who }) count verdict }
{
    let mut outputs = SmallVec::new(alloc);
    outputs.push_reserved(Message::Ack { stamp, who, count });
    if let Some(verdict) = verdict {
        outputs.push_reserved(Message::Verdict {
            stamp,
            who,
            ply: count,
            verdict,
        });
    }
    outputs
}

/// These moves as messages of an arbiter, the first with this number. The error comes only where there are more than
/// four.
fn sent(
    alloc: Global,
    stamp: Stamp,
    who: ArbiterId,
    number: Count,
    moves: &[Move],
) -> Result<Outputs, AllocError>
    requires { length moves.now ≤ 8 }
    ensures ok { IfOk result (λ o. o.items ≡ sent_by stamp (Sender.Arbiter who) number moves.now) }
    ensures inline { IsErr result → 4 < length (sent_by stamp (Sender.Arbiter who) number moves.now) }
{
    let mut outputs = SmallVec::new(alloc);
    for i in 0..moves.len() {
        let message = Message::Move {
            stamp,
            sender: Sender::Arbiter(who),
            number: number.number() + i as u32,
            m: moves[i],
        };
        let Ok(()) = outputs.push(message) else {
            return Err(AllocError);
        };
    }
    Ok(outputs)
}

impl<'a> ArbiterState<'a> {
    /// Plays a legal move and the waiting moves after it, and puts the record with the keeper.
    fn go_on<K: Keeper>(
        &mut self,
        alloc: Global,
        tables: &mut Set<'_>,
        keeper: &mut K,
        m: &Move,
        position: &Position,
    ) -> Result<Outputs, DeliverFault>
        requires next { IsNext (rules_at (setup_with self.old tables.old)) self.old.kept m.now position.now }
        requires wakes { CanWake self.old tables.old }
        requires keeps { Keeps (K.facts.kept keeper.old) (awake self.old tables.old) }
        ensures same { tables.new ≡ tables.old }
        ensures wakes { CanWake self.new tables.old }
        ensures answers { AnswersBy K.facts tables.old self.old keeper.old (answer_to_next (awake self.old tables.old) m.now) (result_map_both (λ o. o.items) (λ e. e) result) self.new keeper.new }
    {
        let Ok(plan) = plan_on(
            alloc,
            tables,
            &self.terms,
            &self.played,
            &Ahead {
                m: *m,
                position: *position,
                window: &self.window,
            },
        ) else {
            return Err(DeliverFault::OutOfMemory);
        };
        let more = plan.moves.len();
        let count = self.played.record.as_record().moves.as_slice().len();
        let Ok(()) = self.played.record.go_on(alloc, &plan.moves, plan.verdict) else {
            return Err(DeliverFault::OutOfMemory);
        };
        let window = if plan.verdict.is_some() {
            ReorderBuffer::empty()
        } else {
            self.window.after(more)
        };
        let record = self.played.record.as_record();
        let outputs = tell(
            alloc,
            record.stamp,
            self.terms.me,
            record.moves.count(),
            plan.verdict,
        );
        match keeper.put(self.played.record.as_bytes()) {
            Ok(()) => {
                self.played.standing = plan.standing;
                self.window = window;
                Ok(outputs)
            }
            Err(_) => {
                self.played.record.cut_back(count);
                self.down = true;
                Err(DeliverFault::KeeperFailed)
            }
        }
    }

    /// The position after the recorded moves and one more; none where that one isn't legal.
    fn position_after(&self, m: Move) -> Option<Position>
        requires { IsPlayedFrom self.now.start self.now.kept.moves self.now.standing }
        ensures { result ≡ position_after_all self.now.start (self.now.kept.moves ++ m ∷ []) }
    {
        self.played.standing.position().play(m)
    }

    /// Answers a move.
    fn take_move<K: Keeper>(
        &mut self,
        alloc: Global,
        tables: &mut Set<'_>,
        keeper: &mut K,
        number: u32,
        m: &Move,
    ) -> Result<Outputs, DeliverFault>
        requires wakes { CanWake self.old tables.old }
        requires keeps { Keeps (K.facts.kept keeper.old) (awake self.old tables.old) }
        ensures same { tables.new ≡ tables.old }
        ensures wakes { CanWake self.new tables.old }
        ensures answers { AnswersBy K.facts tables.old self.old keeper.old (answer_to_numbered (awake self.old tables.old) number m.now) (result_map_both (λ o. o.items) (λ e. e) result) self.new keeper.new }
    {
        if number >= 4096 {
            return Err(DeliverFault::TooLong);
        }
        let record = self.played.record.as_record();
        let count = record.moves.count();
        if record.verdict.is_some() || number < count.number() {
            return Ok(tell(alloc, record.stamp, self.terms.me, count, record.verdict));
        }
        if number >= count.number() + 32 {
            return Err(DeliverFault::TooFarAhead);
        }
        if number > count.number() {
            self.window.wait((number - count.number() - 1) as usize, *m);
            return Ok(tell(alloc, record.stamp, self.terms.me, count, None));
        }
        let Some(position) = self.position_after(*m) else {
            return Err(DeliverFault::IllegalMove);
        };
        self.go_on(alloc, tables, keeper, m, &position)
    }

    /// Whether a message is of this arbiter's game.
    fn is_own(&self, message: &Message) -> bool
        ensures { result ≡ bytes_eq (stamp_in message.now) self.now.me.stamp }
    {
        message.stamp() == self.played.record.as_record().stamp
    }

    /// The recorded moves from this number on, at most `wanted`, as messages of this arbiter. The error comes only
    /// where there are more than four, and memory for them is refused.
    fn fetched(
        &self,
        alloc: Global,
        number: Count,
        wanted: FetchCount,
    ) -> Result<Outputs, AllocError>
        ensures ok { IfOk result (λ o. o.items ≡ fetched self.now.me self.now.kept number wanted) }
        ensures inline { IsErr result → 4 < length (fetched self.now.me self.now.kept number wanted) }
    {
        let record = self.played.record.as_record();
        let moves = record.moves.as_slice();
        let first = (number.number() as usize).min(moves.len());
        let last = (first + wanted.number() as usize).min(moves.len());
        sent(
            alloc,
            record.stamp,
            self.terms.me,
            number,
            &moves[first..last],
        )
    }

    /// The request to the other arbiter: a `Fetch` of eight moves from its count on. None where it is down, has a
    /// verdict, or has 4096 moves.
    pub fn ask(&self) -> Option<Message>
        ensures { result ≡ cond self.now.is_down None (request_of self.now.me self.now.kept) }
    {
        let record = self.played.record.as_record();
        let count = record.moves.count();
        if self.down || record.verdict.is_some() || count.number() >= 4096 {
            return None;
        }
        Some(Message::Fetch {
            stamp: record.stamp,
            who: self.terms.me,
            number: count,
            wanted: FetchCount::most(),
        })
    }

    /// Answers a message.
    fn answer<K: Keeper>(
        &mut self,
        alloc: Global,
        tables: &mut Set<'_>,
        keeper: &mut K,
        message: &Message,
    ) -> Result<Outputs, DeliverFault>
        requires wakes { CanWake self.old tables.old }
        requires keeps { Keeps (K.facts.kept keeper.old) (awake self.old tables.old) }
        ensures same { tables.new ≡ tables.old }
        ensures wakes { CanWake self.new tables.old }
        ensures answers { AnswersBy K.facts tables.old self.old keeper.old (answer_to_message (awake self.old tables.old) message.now) (result_map_both (λ o. o.items) (λ e. e) result) self.new keeper.new }
    {
        match *message {
            Message::Move { number, m, .. } => self.take_move(alloc, tables, keeper, number, &m),
            Message::Ack { .. } => Ok(SmallVec::new(alloc)),
            Message::Verdict { .. } => Ok(SmallVec::new(alloc)),
            Message::Fetch { number, wanted, .. } => match self.fetched(alloc, number, wanted) {
                Ok(outputs) => Ok(outputs),
                Err(_) => Err(DeliverFault::OutOfMemory),
            },
        }
    }

    /// Processes a message by tables that it is lent, and returns the messages to send: the cases, in their order, are those of
    /// `Arbiter::deliver` for a datagram that encodes the message.
    ///
    /// The caller ensures that it can wake with these tables, and that the keeper keeps its record while it runs, as `open` and
    /// each delivery leave it.
    pub fn deliver<K: Keeper>(
        &mut self,
        alloc: Global,
        tables: &mut Set<'_>,
        keeper: &mut K,
        message: &Message,
    ) -> Result<Outputs, DeliverFault>
        // By these tables its record is whole.
        requires wakes { CanWake self.old tables.old }
        // A running arbiter's record is the one that the keeper keeps.
        requires kept { IsKept (K.facts.kept keeper.old) (awake self.old tables.old) }

        // The tables stay as they were, but for their cache.
        ensures same { tables.new ≡ tables.old }

        // The result follows from the message and the record, and a record is put where the result says so.
        ensures answers { AnswersBy K.facts tables.old self.old keeper.old (answer_to_any (awake self.old tables.old) message.now) (result_map_both (λ o. o.items) (λ e. e) result) self.new keeper.new }

        // By these tables its record is whole afterwards too.
        ensures wakes { CanWake self.new tables.old }

        // The keeper keeps the record afterwards too.
        ensures keeps { IsKept (K.facts.kept keeper.new) (awake self.new tables.old) }

        // What it was opened from stays.
        ensures setup { setup_with self.new tables.old ≡ setup_with self.old tables.old }
    {
        if self.down {
            return Err(DeliverFault::Down);
        }
        if !self.is_own(message) {
            return Err(DeliverFault::Stranger);
        }
        self.answer(alloc, tables, keeper, message)
    }

    /// The moves that are recorded.
    pub fn moves(&self) -> &[Move]
        ensures moves { result.now ≡ self.now.kept.moves }
        ensures few { length result.now ≤ most_moves }
    {
        self.played.record.as_record().moves.as_slice()
    }

    /// How many moves are recorded, 0 to 4096.
    pub fn count(&self) -> u32
        ensures is { result ≡ move_count self.now.kept }
        ensures few { result ≤ most_moves }
    {
        self.played.record.as_record().moves.as_slice().len() as u32
    }

    /// The verdict that is recorded.
    pub fn verdict(&self) -> Option<Verdict>
        ensures { result ≡ self.now.kept.verdict }
    {
        self.played.record.as_record().verdict
    }

    /// Whether the keeper has failed; then the arbiter is to be closed and opened again.
    pub fn is_down(&self) -> bool
        ensures { result ≡ self.now.is_down }
    {
        self.down
    }
}
