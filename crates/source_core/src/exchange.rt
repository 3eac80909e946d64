//! What goes out and comes in for one move, over a system.

ghost use Rattle.std.specs.Prelude.{◌≡◌, ◌∷◌, [], ℕ};
ghost use Rattle.std.specs.Duration.{as_nanos};
ghost use Rattle.system_io.specs.Ports.{Came};
ghost use Rattle.timeline.specs.Outsides.{AddsSome};
ghost use Rattle.source_core.specs.Heard.{OnlyNotes};
ghost use Rattle.source_core.specs.Inside.Exchanges.{EndsTryAt, HearsOneAt, SendsBytes, SendsMoveAt, TriesOnceAt};
ghost use Rattle.source_core.specs.Inside.Steps.{IsLast};
ghost use Rattle.source_core.specs.Turns.{Learns};

use crate::board::Board;
use crate::known::Known;
use crate::turn::{
    MOST_ANSWERS, Next, SendConfig, Turn, datagram_of, is_ruled, loss_of, take_in, turn_of, wait_at,
};
use crate::watching::Watch;
use board_core::Move;
use move_msg::Stamp;
use std::time::Duration;
use timeline::System;

/// The port of a source, what the arbiters have reported, and what is noted of that for whoever runs the source.
#[derive(Drop)]
pub(crate) struct Exchange<'w, P: Drop> {
    /// Where datagrams go out and come in.
    pub(crate) port: P,
    /// What both arbiters have reported.
    pub(crate) known: Known,
    /// What is noted.
    pub(crate) watch: Watch<'w>,
}

/// A move that is sent.
#[derive(Clone, Copy)]
pub(crate) struct Sent<'a> {
    /// How many moves are before it, 0 to 4095.
    pub(crate) number: u32,
    /// The move.
    pub(crate) m: Move,
    /// The board after it.
    pub(crate) board: Board<'a>,
}

/// A try of a move.
#[derive(Clone, Copy)]
pub(crate) struct Try {
    /// How many tries were before it.
    pub(crate) index: u32,
    /// How many moves are before the move.
    pub(crate) number: u32,
}

/// Sends a datagram to each recipient. What can't be sent is lost, as on its way.
pub(crate) fn send<S: System>(
    system: &S,
    timeline: &mut S::Timeline,
    exchange: &mut Exchange<'_, S::Port>,
    bytes: &[u8],
)
    ensures happened { SendsBytes (S.outside system.now) timeline.old timeline.new exchange.old exchange.new bytes.now }
    ensures known { exchange.new.known ≡ exchange.old.known }
{
    exchange.watch.note_sent(bytes);
    let _sent = system.send(timeline, &mut exchange.port, bytes);
}

/// Notes a datagram that came, and adds its report, if it has one.
fn take_up<S: System>(
    system: &S,
    timeline: &mut S::Timeline,
    stamp: Stamp,
    exchange: &mut Exchange<'_, S::Port>,
    datagram: &[u8],
) -> Next
    ensures made { AddsSome (S.outside system.now) timeline.old timeline.new OnlyNotes }
    ensures port { exchange.new.port ≡ exchange.old.port }
    ensures learns { Learns stamp exchange.old.known exchange.new.known (Came datagram.now ∷ []) result }
    ensures last { (nanos : ℕ) → IsLast nanos (Came datagram.now) result }
{
    let from = system.sender(&exchange.port);
    exchange.watch.note_came(system, timeline, datagram, from);
    take_in(stamp, &mut exchange.known, datagram, from)
}

/// Receives a datagram, if one comes in time, and adds its report.
fn receive_one<S: System>(
    system: &S,
    timeline: &mut S::Timeline,
    stamp: Stamp,
    wait: Duration,
    exchange: &mut Exchange<'_, S::Port>,
) -> Next
    ensures { HearsOneAt (S.outside system.now) timeline.old timeline.new exchange.old exchange.new stamp (as_nanos wait) result }
{
    let mut buffer = [0u8; 64];
    match system.receive_in_time(timeline, &mut exchange.port, wait, &mut buffer) {
        Ok(Some(length)) => take_up(system, timeline, stamp, exchange, &buffer[..length]),
        Ok(None) => {
            exchange.watch.note_quiet(system, timeline, wait);
            Next::Waited
        }
        Err(_) => Next::PortLost,
    }
}

/// Receives datagrams and adds their reports, until none comes in time, both have reported a verdict, or 2^64 - 1 datagrams came.
pub(crate) fn receive_all<S: System>(
    system: &S,
    timeline: &mut S::Timeline,
    terms: &SendConfig,
    at: Try,
    exchange: &mut Exchange<'_, S::Port>,
) -> Next
    ensures { EndsTryAt (S.outside system.now) timeline.old timeline.new exchange.old exchange.new terms.now at result }
{
    for _ in 0..MOST_ANSWERS {
        if is_ruled(&exchange.known) {
            return Next::Waited;
        }
        let wait = wait_at(terms, at.index, at.number, &exchange.known);
        match receive_one(system, timeline, terms.stamp, wait, exchange) {
            Next::GoesOn => {}
            next => return next,
        }
    }
    Next::Waited
}

/// Sends a datagram to each recipient, and receives what comes then. Returns the end of the turn, if it ends.
fn try_once<S: System>(
    system: &S,
    timeline: &mut S::Timeline,
    terms: &SendConfig,
    at: Try,
    exchange: &mut Exchange<'_, S::Port>,
    bytes: &[u8],
) -> Option<Turn>
    ensures { TriesOnceAt (S.outside system.now) timeline.old timeline.new exchange.old exchange.new terms.now at bytes.now result }
{
    send(system, timeline, exchange, bytes);
    loss_of(receive_all(system, timeline, terms, at, exchange))
}

/// Sends a move to each recipient until both arbiters have acknowledged it, or both have reported a verdict, at most as often as the
/// terms say.
///
/// A move that is acknowledged already isn't sent. Nothing else is sent. Two kinds of reports end the turn after their try: of a new game
/// one by which an arbiter has more moves than the board, and a verdict that the board belies.
pub(crate) fn send_move<S: System>(
    system: &S,
    timeline: &mut S::Timeline,
    terms: &SendConfig,
    sent: Sent<'_>,
    exchange: &mut Exchange<'_, S::Port>,
) -> Turn
    ensures { SendsMoveAt (S.outside system.now) timeline.old timeline.new exchange.old exchange.new terms.now sent.entry result }
{
    let number = sent.number;
    let bytes = datagram_of(terms.stamp, number, sent.m);
    for index in 0..terms.tries {
        if let Some(turn) = turn_of(terms.origin, &exchange.known, number, sent.board) {
            return turn;
        }
        let at = Try { index, number };
        if let Some(turn) = try_once(system, timeline, terms, at, exchange, &bytes) {
            return turn;
        }
    }
    match turn_of(terms.origin, &exchange.known, number, sent.board) {
        Some(turn) => turn,
        None => Turn::Lost,
    }
}
