//! Schedules and what is told of them.

use crate::tests::comparing::check_same;
use board_core::Move;
use check_helpers::{QUEEN, QUEEN_PLIES, file_of};
use relay_world::schedule::{Schedule, read};
use relay_world::{Game, GameFault, World, WorldFault, run};
use std::alloc::Global;
use std::process::Abort;

/// One move from the usual start.
const ONE_MOVE: &str =
    "name Test 3\nstart rnbqkbnr/pppppppp/8/8/8/8/PPPPPPPP/RNBQKBNR w KQkq - 0 1\nmoves e2e4\n";

/// The schedule of a text that is one.
pub(crate) fn schedule_of(rt: &impl Abort, alloc: Global, text: &str) -> Schedule {
    read(alloc, text.as_bytes()).expect(rt, text)
}

/// The game of a schedule.
pub(crate) fn game_of(rt: &impl Abort, alloc: Global, schedule: &Schedule, delay: u8) -> Game {
    Game::new(
        alloc,
        &schedule.name,
        schedule.start,
        &schedule.moves,
        delay,
    )
    .expect(rt, "a game")
}

/// The world after a schedule with the queen's tables.
pub(crate) fn world_of(rt: &impl Abort, alloc: Global, game: &Game, schedule: &Schedule) -> World {
    let wins = file_of(&QUEEN);
    let plies = file_of(&QUEEN_PLIES);
    let tables: [(&[u8], &[u8]); 2] = [(b"KQvK.rtbz", &plies), (b"KQvK.rtbw", &wins)];
    run(alloc, game, &tables, 64, &schedule.events).expect(rt, "a world")
}

/// What is at fault of these tables for a game.
fn fault_of(alloc: Global, game: &Game, tables: &[(&[u8], &[u8])]) -> Option<WorldFault> {
    run(alloc, game, tables, 1, &[]).err()
}

fn one_move(rt: &impl Abort, alloc: Global) -> Game {
    game_of(rt, alloc, &schedule_of(rt, alloc, ONE_MOVE), 0)
}

/// This is at fault of these tables.
fn check_fault(rt: &impl Abort, alloc: Global, tables: &[(&[u8], &[u8])], wanted: WorldFault) {
    let told = fault_of(alloc, &one_move(rt, alloc), tables);
    check_same(rt, told, Some(wanted), "tables");
}

#[test]
fn tables_there_twice(rt: HostRuntime) {
    let wins = file_of(&QUEEN);
    let plies = file_of(&QUEEN_PLIES);
    let doubled: [(&[u8], &[u8]); 3] = [
        (b"KQvK.rtbw", &wins),
        (b"KQvK.rtbz", &plies),
        (b"KQvK.rtbw", &wins),
    ];
    check_fault(&rt, rt.alloc(), &doubled, WorldFault::DuplicateTable(2));
}

fn push_all(rt: &impl Abort, moves: &mut Vec<Move>, more: &[Move]) {
    assert!(rt; moves.extend_from_slice(more).is_ok());
}

/// These moves so many times.
fn repeated(rt: &impl Abort, alloc: Global, moves: &[Move], count: usize) -> Vec<Move> {
    let mut all = Vec::new(alloc);
    for _ in 0..count {
        push_all(rt, &mut all, moves);
    }
    all
}

/// Why there is no game of this name with so many moves and this delay.
fn game_fault(
    rt: &impl Abort,
    alloc: Global,
    name: &str,
    count: usize,
    delay: u8,
) -> Option<GameFault> {
    let schedule = schedule_of(rt, alloc, ONE_MOVE);
    let moves = repeated(rt, alloc, &schedule.moves, count);
    Game::new(alloc, name.as_bytes(), schedule.start, &moves, delay).err()
}

/// A name, how many moves there are, the delay, and what is told first.
const NO_GAMES: [(&str, usize, u8, GameFault); 3] = [
    ("", 4097, 9, GameFault::BadName),
    ("Test 3", 4097, 9, GameFault::TooManyMoves),
    ("Test 3", 4096, 9, GameFault::BadDelay),
];

#[test]
fn games_at_fault(rt: HostRuntime) {
    for row in &NO_GAMES {
        let told = game_fault(&rt, rt.alloc(), row.0, row.1, row.2);
        check_same(&rt, told, Some(row.3), row.0);
    }
}
