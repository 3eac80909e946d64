//! An arbiter over a keeper in memory, with what is sent as rows and what it answers as texts.

ghost use Rattle.arbiter_core.specs.Delivers.{IsKept};

use crate::tests::comparing::check_same;
use crate::tests::positions::{move_of, position_of};
use arbiter_core::{Arbiter, Keeper, MemoryKeeper, Setup, name_of};
use board_core::{Move, Verdict};
use check_helpers::{START, moves_of};
use fen_text::write_move;
use judge_core::Set;
use move_msg::{ArbiterId, Count, FetchCount, Message, MoveList, Record, Sender, Stamp};
use std::alloc::Global;
use std::process::Abort;

pub(crate) const NAME: &[u8] = b"Test 1";

/// The stamp of a game of this start and this delay, without tables.
pub(crate) fn stamp_of(rt: &impl Abort, start: &str, delay: u8) -> Stamp {
    Stamp::of(NAME, &position_of(rt, start), b"", delay).expect(rt, "a stamp")
}

/// A set without tables.
fn empty_set(rt: &impl Abort, alloc: Global) -> Set<'static> {
    Set::new(alloc, 1).expect(rt, "memory")
}

/// What the first arbiter is opened from.
pub(crate) fn setup_of(rt: &impl Abort, alloc: Global, start: &str, delay: u8) -> Setup<'static> {
    Setup {
        name: name_of(NAME),
        start: position_of(rt, start),
        manifest: b"",
        me: 1,
        delay,
        set: empty_set(rt, alloc),
    }
}

/// What is sent to an arbiter: a move by the source, one that the second arbiter passes on, or how many moves that one asks for.
#[derive(Clone, Copy)]
pub(crate) enum Sent {
    Move,
    Relayed,
    Fetch,
}

/// A move by its number and its text.
fn moved(rt: &impl Abort, stamp: Stamp, sender: Sender, number: u32, text: &str) -> Message {
    Message::Move {
        stamp,
        sender,
        number,
        m: move_of(rt, text),
    }
}

fn wanted_of(rt: &impl Abort, text: &str) -> FetchCount {
    let number = text.parse::<u8>().ok().expect(rt, text);
    FetchCount::new(number).expect(rt, text)
}

/// The second arbiter asks for so many moves.
fn fetch(rt: &impl Abort, stamp: Stamp, number: u32, wanted: &str) -> Message {
    Message::Fetch {
        stamp,
        who: ArbiterId::B,
        number: Count::new(number).expect(rt, "a count"),
        wanted: wanted_of(rt, wanted),
    }
}

/// The message with this stamp and this number, and a move or how many are wanted.
pub(crate) fn message_of(
    rt: &impl Abort,
    stamp: Stamp,
    sent: Sent,
    number: u32,
    what: &str,
) -> Message {
    match sent {
        Sent::Move => moved(rt, stamp, Sender::Source, number, what),
        Sent::Relayed => moved(rt, stamp, Sender::Arbiter(ArbiterId::B), number, what),
        Sent::Fetch => fetch(rt, stamp, number, what),
    }
}

fn ack_text(rt: &impl Abort, alloc: Global, count: Count) -> String {
    format!(in alloc; "Ack {}", count.number()).expect(rt, "memory")
}

fn verdict_text(rt: &impl Abort, alloc: Global, ply: Count, verdict: Verdict) -> String {
    format!(in alloc; "Verdict {} {}", ply.number(), verdict.name()).expect(rt, "memory")
}

fn move_text(rt: &impl Abort, alloc: Global, number: u32, m: &Move) -> String {
    format!(in alloc; "Move {} {}", number, write_move(m).as_str()).expect(rt, "memory")
}

fn fetch_text(rt: &impl Abort, alloc: Global, number: Count, wanted: FetchCount) -> String {
    format!(in alloc; "Fetch {} {}", number.number(), wanted.number()).expect(rt, "memory")
}

/// A move that the first arbiter passes on as text.
fn passed_on(rt: &impl Abort, alloc: Global, sender: Sender, number: u32, m: &Move) -> String {
    check_same(rt, sender, Sender::Arbiter(ArbiterId::A), "a move's sender");
    move_text(rt, alloc, number, m)
}

/// A message of an arbiter as text.
pub(crate) fn text_of(rt: &impl Abort, alloc: Global, message: &Message) -> String {
    match *message {
        Message::Ack { count, .. } => ack_text(rt, alloc, count),
        Message::Verdict { ply, verdict, .. } => verdict_text(rt, alloc, ply, verdict),
        Message::Move {
            number,
            m,
            sender,
            ..
        } => passed_on(rt, alloc, sender, number, &m),
        Message::Fetch { number, wanted, .. } => fetch_text(rt, alloc, number, wanted),
    }
}

/// An arbiter over what this keeper keeps.
pub(crate) fn open_over<'a>(
    rt: &impl Abort,
    alloc: Global,
    keeper: &mut MemoryKeeper,
    setup: Setup<'a>,
) -> Arbiter<'a>
    ensures { IsKept keeper.new.kept result }
{
    match Arbiter::open(alloc, keeper, setup) {
        Ok(arbiter) => arbiter,
        Err(refused) => panic!(rt; "{}", refused.fault.name()),
    }
}

/// A keeper that keeps nothing.
pub(crate) fn empty_keeper(rt: &impl Abort, alloc: Global) -> MemoryKeeper {
    MemoryKeeper::new(alloc).expect(rt, "memory")
}

/// The first arbiter of a game without tables over what this keeper keeps.
pub(crate) fn open_first(
    rt: &impl Abort,
    alloc: Global,
    keeper: &mut MemoryKeeper,
    start: &str,
    delay: u8,
) -> Arbiter<'static>
    ensures { IsKept keeper.new.kept result }
{
    open_over(rt, alloc, keeper, setup_of(rt, alloc, start, delay))
}

/// A list of at most 4096 moves.
fn list_of(rt: &impl Abort, moves: Vec<Move>) -> MoveList {
    assert!(rt; moves.len() <= 4096);
    MoveList::from_vec(moves)
}

fn encoded(rt: &impl Abort, alloc: Global, record: &Record) -> Vec<u8> {
    assert!(rt; record.delay <= 8);
    record.encode(alloc).expect(rt, "memory")
}

/// The bytes of a record.
pub(crate) fn record_from(
    rt: &impl Abort,
    alloc: Global,
    stamp: Stamp,
    delay: u8,
    moves: Vec<Move>,
    verdict: Option<Verdict>,
) -> Vec<u8> {
    let record = Record {
        stamp,
        delay,
        verdict,
        moves: list_of(rt, moves),
    };
    encoded(rt, alloc, &record)
}

/// The bytes of a record of the moves of this text.
pub(crate) fn record_of(
    rt: &impl Abort,
    alloc: Global,
    stamp: Stamp,
    delay: u8,
    moves: &str,
    verdict: Option<Verdict>,
) -> Vec<u8> {
    let played = moves_of(alloc, moves).expect(rt, "memory");
    record_from(rt, alloc, stamp, delay, played.expect(rt, moves), verdict)
}
