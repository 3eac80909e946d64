//! A legal move and the waiting moves after it.

ghost use Rattle.std.specs.Prelude.{◌≡◌, ◌≤◌, [], vec_capacity, IfOk, OnErr};
ghost use Rattle.arbiter_core.specs.Setups.{rules_at, terms_with};
ghost use Rattle.arbiter_core.specs.Inside.Playing.{IsArbiterInOrder, IsNext, IsPlan, ListsMovesAhead, recorded_in};

use crate::played::Played;
use crate::reorder_buffer::ReorderBuffer;
use crate::setup::Terms;
use board_core::{Move, Position};
use judge_core::{Set, Standing, Verdict};
use std::alloc::{AllocError, Global};

/// The plan of a delivery: the moves that it adds to the record, where the game stands after them, and the verdict there.
#[derive(Drop)]
pub(crate) struct Plan {
    pub moves: Vec<Move>,
    pub standing: Standing,
    pub verdict: Option<Verdict>,
}

/// What lies ahead: a legal move, the position that it leads to, and the moves that wait behind it.
#[derive(Drop)]
pub(crate) struct Ahead<'a> {
    pub m: Move,
    pub position: Position,
    pub window: &'a ReorderBuffer,
}

/// Plans the legal move that lies ahead, and then the waiting moves after it. It stops at a verdict, and where the next
/// move doesn't wait or isn't legal. They are put into an empty vector with room for them. Each new position is judged
/// once.
///
/// The error comes only where memory for a list of moves is refused, while one of the new positions is judged. The tables stay
/// as they were but for their cache.
fn make_plan(
    alloc: Global,
    tables: &mut Set<'_>,
    terms: &Terms<'_>,
    played: &Played,
    moves: Vec<Move>,
    ahead: &Ahead<'_>,
) -> Result<Plan, AllocError>
    requires none { moves.items ≡ [] }
    requires room { 32 ≤ vec_capacity moves }
    requires in_order { IsArbiterInOrder (terms_with terms.now tables.old) played.now ahead.now.window.now }
    requires next { IsNext (rules_at (terms_with terms.now tables.old)) (recorded_in played.now) ahead.now.m ahead.now.position }
    ensures same { tables.new ≡ tables.old }
    ensures planned { IfOk result (IsPlan (rules_at (terms_with terms.now tables.old)) (recorded_in played.now) ahead.now.m ahead.now.window.now) }
    ensures memory { OnErr result (ListsMovesAhead (rules_at (terms_with terms.now tables.old)) played.now.record.moves ahead.now.m ahead.now.window.now) }
{
    let delay = terms.delay;
    let mut moves = moves;
    moves.push_reserved(ahead.m);
    let standing = tables.move_on(alloc, &played.standing, ahead.position)?;
    let verdict = standing.verdict(delay);
    let mut plan = Plan {
        moves,
        standing,
        verdict,
    };
    for slot in ahead.window.places() {
        if plan.verdict.is_some() {
            return Ok(plan);
        }
        let Some(m) = slot else {
            return Ok(plan);
        };
        let Some(position) = plan.standing.position().play(*m) else {
            return Ok(plan);
        };
        plan.standing = tables.move_on(alloc, &plan.standing, position)?;
        plan.verdict = plan.standing.verdict(delay);
        plan.moves.push_reserved(*m);
    }
    Ok(plan)
}

/// Plans as `make_plan`. The error comes where memory for the moves, or for a list of moves, is refused.
pub(crate) fn plan_on(
    alloc: Global,
    tables: &mut Set<'_>,
    terms: &Terms<'_>,
    played: &Played,
    ahead: &Ahead<'_>,
) -> Result<Plan, AllocError>
    requires in_order { IsArbiterInOrder (terms_with terms.now tables.old) played.now ahead.now.window.now }
    requires next { IsNext (rules_at (terms_with terms.now tables.old)) (recorded_in played.now) ahead.now.m ahead.now.position }
    ensures same { tables.new ≡ tables.old }
    ensures planned { IfOk result (IsPlan (rules_at (terms_with terms.now tables.old)) (recorded_in played.now) ahead.now.m ahead.now.window.now) }
{
    let moves = Vec::with_capacity(alloc, 32)?;
    make_plan(alloc, tables, terms, played, moves, ahead)
}
