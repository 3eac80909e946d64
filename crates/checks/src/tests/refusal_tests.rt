//! No refused memory changes an answer of a probe.

ghost use Rattle.std.specs.Prelude.{◌≤◌};
ghost use Rattle.board_core.specs.Delays.{most_delay};

use crate::tests::comparing::check_same;
use crate::tests::files::{files_of, is_added};
use crate::tests::positions::position_of;
use board_core::{Move, Verdict};
use check_helpers::{QUEEN, QUEEN_PLIES, moves_of};
use judge_core::{GameOutcome, ProbeFault, Set, Wdl};
use std::alloc::{AllocError, Global};
use std::process::Abort;
use std::test::Fail;

fn check_verdict_or_refusal(rt: &impl Abort, alloc: Global, set: &mut Set<'_>) {
    if let Ok(verdict) = judged(rt, alloc, set, HANGING_ROW) {
        check_same(rt, verdict, Some(Verdict::TableDraw), HANGING_ROW);
    }
}

/// The distance by a quiet move.
fn check_distance_or_refusal(rt: &impl Abort, alloc: Global, set: &mut Set<'_>) {
    match distance(rt, alloc, set, CHECKING_ROW) {
        Ok(distance) => check_same(rt, distance, -11, CHECKING_ROW),
        Err(fault) => check_same(rt, fault, ProbeFault::OutOfMemory, CHECKING_ROW),
    }
}

fn check_game_or_refusal(rt: &impl Abort, alloc: Global, set: &mut Set<'_>) {
    if let Ok(outcome) = game_of(rt, alloc, set, ROOK_ROW, "h1h8 b1b8 e5e4 b8h8", 0) {
        check_same(rt, outcome, WHITE_WINS, "a game");
    }
}

/// Three positions side by side: a capture that leaves the kings alone, a table that is there, and one that is missing.
fn check_side_by_side(rt: &impl Abort, alloc: Global, set: &mut Set<'_>) {
    let rows = [HANGING_ROW, CHECKING_ROW, ROOK_ROW];
    let Ok(positions) = Vec::from_array(alloc, rows.map(|row| position_of(rt, row))) else {
        return;
    };
    if let Ok(values) = set.wdl_each(alloc, &positions) {
        check_same(rt, values.len(), 3, HANGING_ROW);
        check_same(rt, values[0], Ok(Wdl::Draw), HANGING_ROW);
        check_same(rt, values[1], Ok(Wdl::Loss), CHECKING_ROW);
        let is_missing = matches!(values[2], Err(ProbeFault::NotCovered(_)));
        check_same(rt, is_missing, true, ROOK_ROW);
    }
}

/// The value is told before and after the verdict.
fn check_hanging(rt: &impl Abort, alloc: Global, set: &mut Set<'_>) {
    check_value(rt, alloc, set, HANGING_ROW, Ok(0));
    check_verdict_or_refusal(rt, alloc, set);
    check_value(rt, alloc, set, HANGING_ROW, Ok(0));
}

fn check_distances_if_values(rt: &impl Abort, alloc: Global, set: &mut Set<'_>) {
    if value(rt, alloc, set, QUEEN_ROW).is_ok() {
        check_distance_or_refusal(rt, alloc, set);
        check_game_or_refusal(rt, alloc, set);
    }
}

fn check_values_added<'a>(
    rt: &impl Abort,
    alloc: Global,
    set: &mut Set<'a>,
    file: &'a [u8; 80],
) -> Result<(), Fail> {
    if is_added(rt, alloc, set, "KQvK.rtbw", file)? {
        check_hanging(rt, alloc, set);
        check_side_by_side(rt, alloc, set);
    }
    Ok(())
}

fn check_distances_added<'a>(
    rt: &impl Abort,
    alloc: Global,
    set: &mut Set<'a>,
    file: &'a [u8; 80],
) -> Result<(), Fail> {
    if is_added(rt, alloc, set, "KQvK.rtbz", file)? {
        check_distances_if_values(rt, alloc, set);
    }
    Ok(())
}

fn check_both_added<'a>(
    rt: &impl Abort,
    alloc: Global,
    set: &mut Set<'a>,
    files: &'a [[u8; 80]; 2],
) -> Result<(), Fail> {
    check_values_added(rt, alloc, set, &files[0])?;
    check_distances_added(rt, alloc, set, &files[1])
}

#[test]
fn refused_memory_changes_no_answer(rt: HostRuntime) -> Result<(), Fail> {
    let files = files_of(&QUEEN, &QUEEN_PLIES);
    let mut set = Set::new(rt.alloc(), 64)?;
    check_both_added(&rt, rt.alloc(), &mut set, &files)
}

pub(crate) const QUEEN_ROW: &str = "8/8/8/4k3/8/8/8/KQ6 w - - 0 1";

/// The queen stands beside the king that is to move.
pub(crate) const HANGING_ROW: &str = "7K/8/8/4k3/3Q4/8/8/8 b - - 0 1";

/// The queen gives check from h1.
pub(crate) const CHECKING_ROW: &str = "8/8/8/8/8/2k5/8/K6Q b - - 0 1";

pub(crate) const ROOK_ROW: &str = "8/8/8/4k3/8/8/K7/1Q5r b - - 0 1";

pub(crate) fn value(
    rt: &impl Abort,
    alloc: Global,
    set: &mut Set<'_>,
    row: &str,
) -> Result<i8, ProbeFault> {
    match set.wdl(alloc, &position_of(rt, row)) {
        Ok(value) => Ok(value.number()),
        Err(fault) => Err(fault),
    }
}

pub(crate) fn distance(
    rt: &impl Abort,
    alloc: Global,
    set: &mut Set<'_>,
    row: &str,
) -> Result<i32, ProbeFault> {
    set.dtz(alloc, &position_of(rt, row))
}

pub(crate) fn judged(
    rt: &impl Abort,
    alloc: Global,
    set: &mut Set<'_>,
    row: &str,
) -> Result<Option<Verdict>, AllocError> {
    set.judge(alloc, &position_of(rt, row))
}

pub(crate) fn check_value(
    rt: &impl Abort,
    alloc: Global,
    set: &mut Set<'_>,
    row: &str,
    wanted: Result<i8, ProbeFault>,
) {
    check_same(rt, value(rt, alloc, set, row), wanted, row);
}

pub(crate) const WHITE_WINS: GameOutcome = GameOutcome::Ruled {
    ply: 4,
    verdict: Verdict::TableWhite,
};

/// A delay is at most 8 plies.
fn check_delay(rt: &impl Abort, delay: u8)
    ensures { delay ≤ most_delay }
{
    assert!(rt; delay <= 8);
}

fn outcome(
    rt: &impl Abort,
    alloc: Global,
    set: &mut Set<'_>,
    start: &str,
    moves: &[Move],
    delay: u8,
) -> Result<GameOutcome, AllocError> {
    check_delay(rt, delay);
    set.judge_game(alloc, &position_of(rt, start), moves, delay)
}

/// What the game of these moves comes to.
pub(crate) fn game_of(
    rt: &impl Abort,
    alloc: Global,
    set: &mut Set<'_>,
    start: &str,
    moves: &str,
    delay: u8,
) -> Result<GameOutcome, AllocError> {
    let moves = moves_of(alloc, moves)?.expect(rt, moves);
    outcome(rt, alloc, set, start, moves.as_slice(), delay)
}
