//! What root moves tell of the positions after them.

ghost use Rattle.std.specs.Prelude.{◌≡◌, ◌++◌, ◌∷◌, [], IfOk, IfSome, Ok, OnOk, map, neg_ℤ};
ghost use Rattle.std.specs.List.{All};
ghost use Rattle.board_core.specs.declared.parts.Parts.{Parts};
ghost use Rattle.judge_core.specs.declared.ask.Ask.TheVariants.{Strict};
ghost use Rattle.judge_core.specs.Distances.{dtz_of};
ghost use Rattle.judge_core.specs.ProbeResult.{wdl_number};
ghost use Rattle.judge_core.specs.Probing.{wdl_of};
ghost use Rattle.judge_core.specs.Root.{is_checkmate, root_move_by};
ghost use Rattle.json_lines.specs.declared.told.MoveTold.{MoveTold};
ghost use Rattle.json_lines.specs.Inside.Playing.{IsRootMoveOf, TellsAfter, distance_after};
ghost use Rattle.json_lines.specs.Told.{AreMovesTold, IsMoveTold, IsProbedAfter, IsRootTold, played_in};

use crate::told::{MoveTold, add, probed_after, root_told, san_of};
use board_core::Position;
use judge_core::{Ask, ProbeResult, RootMove, Set, Wdl, is_out_of_scope};
use std::alloc::{AllocError, Global};

/// The distance after a quiet move that doesn't mate, from the one before it, both as numbers.
fn distance_after(before: i32) -> i32
    ensures { result ≡ distance_after before }
{
    if 0 < before {
        1 - before
    } else if before < 0 {
        -1 - before
    } else {
        0
    }
}

/// The value of the position after a move as a number, from that of the move.
fn value_after(before: Wdl) -> i32
    ensures { result ≡ neg_ℤ (wdl_number before) }
{
    -i32::from(before.number())
}

/// Both values of a position.
fn probed_as(wdl: i32, dtz: i32) -> ProbeResult
    ensures { result ≡ record { wdl = Ok wdl; dtz = Ok dtz } }
{
    ProbeResult {
        wdl: Ok(wdl),
        dtz: Ok(dtz),
    }
}

/// The values of the position after a move, from those of the move, where it is quiet and doesn't mate and both are there.
fn probed_by(root: &RootMove) -> Option<ProbeResult>
    ensures { IfSome result (TellsAfter root.now) }
{
    if root.effect.zeroes_clock() || root.state.is_checkmate() {
        return None;
    }
    match (root.wdl, root.dtz) {
        (Ok(wdl), Ok(dtz)) => Some(probed_as(value_after(wdl), distance_after(dtz))),
        _ => None,
    }
}

/// The values of the position after a root move.
fn probed_after_root(
    alloc: Global,
    set: &mut Set<'_>,
    root: &RootMove,
    after: &Position,
) -> Result<ProbeResult, AllocError>
    requires { (p : Parts) × (root.now ≡ root_move_by (wdl_of set.old.tables) (dtz_of set.old.tables) p root.now.played after.now) }
    ensures told { IfOk result (IsProbedAfter Strict set.old.tables (is_checkmate root.now.state) after.now) }
    ensures unchanged { set.new ≡ set.old }
{
    match probed_by(root) {
        Some(probed) if !is_out_of_scope(after) => Ok(probed),
        _ => probed_after(Ask::Strict, alloc, set, root.state, after),
    }
}

/// A root move with what is told of the position after it.
fn told_by_root(
    alloc: Global,
    set: &mut Set<'_>,
    position: &Position,
    root: &RootMove,
) -> Result<MoveTold, AllocError>
    requires { IsRootMoveOf set.old.tables position.now root.now }
    ensures told { IfOk result (IsMoveTold Strict set.old.tables position.now root.now.played) }
    ensures unchanged { set.new ≡ set.old }
{
    let Some(after) = position.play(root.played) else {
        unreachable!()
    };
    let probed = probed_after_root(alloc, set, root, &after)?;
    Ok(MoveTold {
        played: root.played,
        effect: root.effect,
        after,
        state: root.state,
        probed,
        san: san_of(position, &root.played),
    })
}

/// Adds a root move with what is told of it.
fn add_root_told(
    alloc: Global,
    set: &mut Set<'_>,
    position: &Position,
    root: &RootMove,
    told: &mut Vec<MoveTold>,
) -> Result<(), AllocError>
    requires { IsRootMoveOf set.old.tables position.now root.now }
    ensures added { OnOk result ((t : MoveTold) × IsMoveTold Strict set.old.tables position.now root.now.played t × (told.new.items ≡ told.old.items ++ t ∷ [])) }
    ensures unchanged { set.new ≡ set.old }
{
    match told_by_root(alloc, set, position, root) {
        Ok(one) => add(told, one),
        Err(fault) => Err(fault),
    }
}

/// Root moves with what is told of them.
fn roots_told(
    alloc: Global,
    set: &mut Set<'_>,
    position: &Position,
    roots: &[RootMove],
) -> Result<Vec<MoveTold>, AllocError>
    requires { All (IsRootMoveOf set.old.tables position.now) roots.now }
    ensures told { IfOk result (λ told. AreMovesTold Strict set.old.tables position.now (map played_in roots.now) told.items) }
    ensures unchanged { set.new ≡ set.old }
{
    let mut told = Vec::new(alloc);
    for root in roots {
        add_root_told(alloc, set, position, root, &mut told)?;
    }
    Ok(told)
}

/// All legal moves of a position with what is told of them, the best first, by the tables of the set alone.
pub(crate) fn strict_root_told(
    alloc: Global,
    set: &mut Set<'_>,
    position: &Position,
) -> Result<Vec<MoveTold>, AllocError>
    ensures told { IfOk result (λ told. IsRootTold Strict set.old.tables position.now told.items) }
    ensures unchanged { set.new ≡ set.old }
{
    match set.root(alloc, position) {
        Ok(Some(roots)) => roots_told(alloc, set, position, &roots),
        Ok(None) => root_told(Ask::Strict, alloc, set, position),
        Err(fault) => Err(fault),
    }
}
