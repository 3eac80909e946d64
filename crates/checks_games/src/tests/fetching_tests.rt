//! What an arbiter of the longest game passes on where it is asked for moves.

use crate::tests::arbiters::{
    Sent, empty_keeper, message_of, open_first, record_from, stamp_of, text_of,
};
use crate::tests::comparing::{check_bytes, push_bytes};
use crate::tests::positions::move_of;
use arbiter_core::{Keeper, MemoryKeeper, Outputs};
use board_core::Move;
use check_helpers::START;
use move_msg::{MOST_MOVES, Message};
use std::alloc::Global;
use std::process::Abort;
use system_io::MOST_KEPT_BYTES;

/// Two pawns meet, then two knights go out and back again and again: so the moves 0 and 256 are two.
const FIRST: [&str; 2] = ["e2e4", "e7e5"];

const ROUND: [&str; 4] = ["g1f3", "g8f6", "f3g1", "f6g8"];

/// The move of a number in the longest game.
fn text_at(number: usize) -> &'static str {
    match number {
        0 | 1 => FIRST[number],
        _ => ROUND[(number - 2) % 4],
    }
}

/// The longest game.
fn longest_game(rt: &impl Abort, alloc: Global) -> Vec<Move> {
    let mut moves = Vec::new(alloc);
    for number in 0..MOST_MOVES as usize {
        let m = move_of(rt, text_at(number));
        moves.push(m).expect(rt, "memory");
    }
    moves
}

/// Its record.
fn longest_record(rt: &impl Abort, alloc: Global) -> Vec<u8> {
    let moves = longest_game(rt, alloc);
    record_from(rt, alloc, stamp_of(rt, START, 0), 0, moves, None)
}

/// A keeper that keeps these bytes.
fn keeper_of(rt: &impl Abort, alloc: Global, bytes: &[u8]) -> MemoryKeeper {
    let mut keeper = empty_keeper(rt, alloc);
    assert!(rt; bytes.len() <= MOST_KEPT_BYTES);
    keeper.put(bytes).expect(rt, "a put");
    keeper
}

/// What an arbiter that is opened over a keeper answers to a datagram.
fn answer(rt: &impl Abort, alloc: Global, keeper: &mut MemoryKeeper, bytes: &[u8]) -> Outputs {
    let mut arbiter = open_first(rt, alloc, keeper, START, 0);
    let told = arbiter.deliver(alloc, keeper, bytes);
    told.ok().expect(rt, "an answer")
}

/// Messages as a text, each with a comma behind it.
fn texts_of(rt: &impl Abort, alloc: Global, messages: &[Message]) -> Vec<u8> {
    let mut texts = Vec::new(alloc);
    for message in messages {
        push_bytes(rt, &mut texts, text_of(rt, alloc, message).as_bytes());
        push_bytes(rt, &mut texts, b",");
    }
    texts
}

/// From which number on moves are asked for, how many, and what is passed on.
type Row = (u32, &'static str, &'static str);

const FETCHED: [Row; 4] = [
    (
        0,
        "8",
        "Move 0 e2e4,Move 1 e7e5,Move 2 g1f3,Move 3 g8f6,Move 4 f3g1,Move 5 f6g8,Move 6 g1f3,Move 7 g8f6,",
    ),
    (
        256,
        "8",
        "Move 256 f3g1,Move 257 f6g8,Move 258 g1f3,Move 259 g8f6,Move 260 f3g1,Move 261 f6g8,Move 262 g1f3,Move 263 g8f6,",
    ),
    (
        4089,
        "7",
        "Move 4089 f6g8,Move 4090 g1f3,Move 4091 g8f6,Move 4092 f3g1,Move 4093 f6g8,Move 4094 g1f3,Move 4095 g8f6,",
    ),
    (4094, "8", "Move 4094 g1f3,Move 4095 g8f6,"),
];

/// What is passed on of the game of a record.
fn check_fetch(rt: &impl Abort, alloc: Global, record: &[u8], row: &Row) {
    let stamp = stamp_of(rt, START, 0);
    let fetch = message_of(rt, stamp, Sent::Fetch, row.0, row.1).encode();
    let told = answer(rt, alloc, &mut keeper_of(rt, alloc, record), &fetch);
    let texts = texts_of(rt, alloc, told.as_slice());
    check_bytes(rt, &texts, row.2.as_bytes(), row.2);
}

/// Moves are passed on from any number on, as many as are asked for and there are.
#[test]
fn passes_on_late_moves(rt: HostRuntime) {
    let record = longest_record(&rt, rt.alloc());
    for row in &FETCHED {
        check_fetch(&rt, rt.alloc(), &record, row);
    }
}
