//! Root moves whose values the rules of chess decide, by a set without tables.

use crate::tests::comparing::check_same;
use crate::tests::positions::position_of;
use board_core::Move;
use fen_text::read_move;
use judge_core::{BoardState, Effect, RootMove, Set, ValueFault, Wdl};
use std::alloc::Global;
use std::process::Abort;
use std::test::Fail;

/// The queen mates on f8.
const MATE_ROW: &str = "7k/8/6K1/8/8/8/8/5Q2 w - - 99 1";

/// The king can take the queen, which leaves the kings alone.
const HANGING_ROW: &str = "7K/8/8/4k3/3Q4/8/8/8 b - - 0 1";

/// What the first root move should be.
#[derive(Clone, Copy)]
struct Wanted {
    played: &'static str,
    effect: Effect,
    state: BoardState,
    wdl: Wdl,
    dtz: i32,
}

/// The move of a text that is good.
fn move_of(rt: &impl Abort, text: &str) -> Move {
    read_move(text.as_bytes()).expect(rt, text)
}

fn check_first(rt: &impl Abort, first: &RootMove, wanted: &Wanted, row: &str) {
    check_same(rt, first.played, move_of(rt, wanted.played), row);
    check_same(rt, first.effect, wanted.effect, row);
    check_same(rt, first.state, wanted.state, row);
    check_same(rt, first.wdl, Ok(wanted.wdl), row);
    check_same(rt, first.dtz, Ok(wanted.dtz), row);
}

/// Every other move needs the table that isn't there.
fn check_others(rt: &impl Abort, others: &[RootMove], row: &str) {
    for other in others {
        let missing = matches!(other.wdl, Err(ValueFault::NotCovered(_)));
        check_same(rt, missing, true, row);
    }
}

fn check_moves(rt: &impl Abort, moves: &[RootMove], wanted: &Wanted, count: usize, row: &str) {
    check_same(rt, moves.len(), count, row);
    if let Some((first, others)) = moves.split_first() {
        check_first(rt, first, wanted, row);
        check_others(rt, others, row);
    }
}

fn check_row(
    rt: &impl Abort,
    alloc: Global,
    set: &mut Set<'_>,
    row: &str,
    wanted: &Wanted,
    count: usize,
) {
    if let Ok(Some(moves)) = set.root(alloc, &position_of(rt, row)) {
        check_moves(rt, moves.as_slice(), wanted, count, row);
    }
}

#[test]
fn best_root_move_is_first(rt: HostRuntime) -> Result<(), Fail> {
    let mut set = Set::new(rt.alloc(), 1)?;
    let mate = Wanted {
        played: "f1f8",
        effect: Effect::Quiet,
        state: BoardState::Checkmate,
        wdl: Wdl::Win,
        dtz: 1,
    };
    check_row(&rt, rt.alloc(), &mut set, MATE_ROW, &mate, 27);
    let taking = Wanted {
        played: "e5d4",
        effect: Effect::Capture,
        state: BoardState::Open,
        wdl: Wdl::Draw,
        dtz: 0,
    };
    check_row(&rt, rt.alloc(), &mut set, HANGING_ROW, &taking, 3);
    Ok(())
}
