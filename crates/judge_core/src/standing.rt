//! Where a game stands, carried from ply to ply.

ghost use Rattle.std.specs.Prelude.{◌≡◌, ◌≤◌, List, [], IfOk, OnErr};
ghost use Rattle.board_core.specs.declared.moves.Move.{Move};
ghost use Rattle.board_core.specs.Delays.{most_delay};
ghost use Rattle.judge_core.specs.Answers.{ListsMovesForVerdict};
ghost use Rattle.judge_core.specs.Tables.{AreFiled};
ghost use Rattle.judge_core.specs.Games.{Rules, verdict_after, is_end, is_judged};
ghost use Rattle.judge_core.specs.Standings.{IsAt, MovesOn, plies_by, verdict_of};

use crate::set::Set;
use board_core::{Delay, Position, Verdict};
use std::alloc::{AllocError, Global};
use std::marker::Model;

/// Where a game stands after its moves: the position, the ruling on it, and how many plies before it had the same ruling,
/// counted up to 8.
#[derive(Drop)]
pub struct Standing {
    position: Position,
    judged: Option<Verdict>,
    plies: u8,
}

impl Model for Standing {
    ghost use Rattle.std.specs.Prelude.{◌≤◌};
    ghost use Rattle.judge_core.specs.Standings.{Reached};

    ghost Value = { Reached };

    ghost view = { λ s. record { position = s.position; judged = s.judged; plies = s.plies } };

    ghost invariant = { λ s. s.plies ≤ 8 };
}

/// Whether a verdict ends a game at once: checkmate and stalemate do.
fn is_end(verdict: Verdict) -> bool
    ensures { result ≡ is_end verdict }
{
    match verdict {
        Verdict::WhiteMates | Verdict::BlackMates | Verdict::Stalemate => true,
        Verdict::TableDraw | Verdict::TableWhite | Verdict::TableBlack | Verdict::Stopped => false,
    }
}

/// Whether a ruling is this verdict.
fn is_judged(judged: Option<Verdict>, verdict: Verdict) -> bool
    ensures { result ≡ is_judged judged verdict }
{
    match judged {
        Some(judged) => judged.code() == verdict.code(),
        None => false,
    }
}

/// How many plies a ruling has held, one ply later.
fn plies_by(old: Option<Verdict>, new: Option<Verdict>, plies: u8) -> u8
    requires { plies ≤ 8 }
    ensures is { result ≡ plies_by old new plies }
    ensures few { result ≤ 8 }
{
    let Some(verdict) = new else {
        return 0;
    };
    if !is_judged(old, verdict) {
        return 0;
    }
    if plies < 8 { plies + 1 } else { 8 }
}

/// The verdict by a ruling that has held for this many plies, where one by tables must hold for as many as the delay
/// says.
fn verdict_of(judged: Option<Verdict>, plies: u8, delay: Delay) -> Option<Verdict>
    ensures is { result ≡ verdict_of judged plies delay }
    ensures in_range { delay ≤ most_delay }
{
    let delay = delay.plies();
    match judged {
        Some(verdict) => {
            if is_end(verdict) || delay <= plies {
                Some(verdict)
            } else {
                None
            }
        }
        None => None,
    }
}

impl Standing {
    /// The position.
    pub fn position(&self) -> &Position
        ensures { result.now ≡ self.now.position }
    {
        &self.position
    }

    /// The verdict at this ply, where a verdict by tables must hold for `delay` further plies.
    pub fn verdict(&self, delay: Delay) -> Option<Verdict>
        ensures { (rules : Rules) (moves : List Move) → rules.delay ≡ delay → IsAt rules moves self.now → result ≡ verdict_after rules moves }
    {
        verdict_of(self.judged, self.plies, delay)
    }
}

impl<'a> Set<'a> {
    /// Where a game stands before its first move.
    ///
    /// The error comes only where memory for a list of moves is refused. The set stays as it was but for its cache.
    pub fn begin(&mut self, alloc: Global, start: &Position) -> Result<Standing, AllocError>
        ensures at { (rules : Rules) → rules.start ≡ start.now → rules.tables ≡ self.old.tables → IfOk result (IsAt rules []) }
        ensures memory { OnErr result (ListsMovesForVerdict self.old.tables start.now) }
        ensures filed { AreFiled self.old.tables }
        ensures unchanged { self.new ≡ self.old }
    {
        let judged = self.judge(alloc, start)?;
        Ok(Standing {
            position: *start,
            judged,
            plies: 0,
        })
    }

    /// Where a game stands one legal move later, which led to this position: only the new position is judged.
    ///
    /// The error comes only where memory for a list of moves is refused. The set stays as it was but for its cache.
    pub fn move_on(
        &mut self,
        alloc: Global,
        standing: &Standing,
        position: Position,
    ) -> Result<Standing, AllocError>
        ensures at { MovesOn self.old.tables standing.now position result }
        ensures memory { OnErr result (ListsMovesForVerdict self.old.tables position) }
        ensures filed { AreFiled self.old.tables }
        ensures unchanged { self.new ≡ self.old }
    {
        let judged = self.judge(alloc, &position)?;
        let plies = plies_by(standing.judged, judged, standing.plies);
        Ok(Standing {
            position,
            judged,
            plies,
        })
    }
}
