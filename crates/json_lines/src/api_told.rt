//! What is told of a position for the tablebase API.

ghost use Rattle.std.specs.Prelude.{◌≡◌, IfOk, OnOk, map};
ghost use Rattle.std.specs.List.{All};
ghost use Rattle.json_lines.specs.ApiTold.{IsApiLineOf, IsApiPosition, IsApiRoot, IsBestMove, IsPrecisionAfter, ends_line, told_in, winner_of};
ghost use Rattle.judge_core.specs.declared.ask.Ask.TheVariants.{Strict};
ghost use Rattle.json_lines.specs.Inside.Playing.{AddsMove};
ghost use Rattle.json_lines.specs.Told.{AreOrdered};

use crate::by_root::strict_root_told;
use crate::told::{MoveTold, PositionTold, add, move_told, ordered, position_told};
use arrayvec::ArrayString;
use board_core::{Move, Position, Side};
use fen_text::FenFault;
use judge_core::{Ask, ProbeFault, Set};
use std::alloc::{AllocError, Global};

/// What tables tell of a position, and whether its distance is precise.
#[derive(Clone, Copy)]
pub struct ApiPosition {
    /// The position, its values and its verdict.
    pub told: PositionTold,
    /// Whether the distance is precise, where it is told.
    pub precise: bool,
}

/// A legal move, what tables tell of the position after it, and whether the distance of that is precise.
#[derive(Clone, Copy)]
pub struct ApiMove {
    /// The move, the position after it, and its values.
    pub told: MoveTold,
    /// Whether the distance is precise, where it is told.
    pub precise: bool,
}

/// What one object of the tablebase API tells.
#[derive(Drop)]
pub enum ApiLine {
    /// Why a text is no position.
    Fault(FenFault),
    /// Why a table that the position needs isn't read: the name of its file and what is wrong with it.
    Refused(ArrayString<64>),
    /// A position and its legal moves: the best first, or in the order of moves where it is out of scope.
    Values(ApiPosition, Vec<ApiMove>),
    /// A position and a line of best play from it.
    Mainline(ApiPosition, Vec<ApiMove>),
}

/// The side that wins by this distance of a position, with this side to move.
fn winner_of(side: Side, dtz: &Result<i32, ProbeFault>) -> Option<Side>
    ensures { result ≡ winner_of side dtz.now }
{
    match dtz {
        Ok(dtz) => {
            if 0 < *dtz {
                Some(side)
            } else if *dtz < 0 {
                Some(side.other())
            } else {
                None
            }
        }
        Err(_) => None,
    }
}

impl ApiPosition {
    /// What tables tell of a position. The error comes only where memory is refused. The tables stay as they were.
    pub fn of(
        alloc: Global,
        set: &mut Set<'_>,
        position: &Position,
    ) -> Result<ApiPosition, AllocError>
        ensures told { IfOk result (IsApiPosition set.old.tables position.now) }
        ensures unchanged { set.new ≡ set.old }
    {
        let told = position_told(Ask::Strict, alloc, set, position)?;
        let precise = set.is_precise(alloc, position)?;
        Ok(ApiPosition { told, precise })
    }

    /// The side that wins by the distance; none where that is 0 or missing.
    pub fn winner(&self) -> Option<Side>
        ensures { result ≡ winner_of self.now.told.position.side self.now.told.columns.probed.dtz }
    {
        winner_of(self.told.position.side(), &self.told.columns.probed.dtz)
    }
}

impl ApiMove {
    /// A move, with the precision of the distance after it.
    fn of(alloc: Global, set: &mut Set<'_>, told: &MoveTold) -> Result<ApiMove, AllocError>
        ensures told { IfOk result (λ t. t.told ≡ told.now) }
        ensures precise { IfOk result (IsPrecisionAfter set.old.tables) }
        ensures unchanged { set.new ≡ set.old }
    {
        match set.is_precise(alloc, &told.after) {
            Ok(precise) => Ok(ApiMove {
                told: *told,
                precise,
            }),
            Err(fault) => Err(fault),
        }
    }

    /// A legal move that is the first of these.
    fn first_of(
        alloc: Global,
        set: &mut Set<'_>,
        position: &Position,
        moves: &[Move],
    ) -> Result<Option<ApiMove>, AllocError>
        requires { AreOrdered Strict set.old.tables position.now moves.now }
        ensures told { IfOk result (IsBestMove set.old.tables position.now) }
        ensures unchanged { set.new ≡ set.old }
    {
        match moves.split_first() {
            None => Ok(None),
            Some((m, _)) => {
                let told = move_told(Ask::Strict, alloc, set, position, m)?;
                let first = ApiMove::of(alloc, set, &told)?;
                Ok(Some(first))
            }
        }
    }

    /// The best legal move of a position: the first of its root moves, or where it is out of scope in the order of moves; none
    /// where no move is legal. The error comes only where memory is refused. The tables stay as they were.
    pub fn best(
        alloc: Global,
        set: &mut Set<'_>,
        position: &Position,
    ) -> Result<Option<ApiMove>, AllocError>
        ensures told { IfOk result (IsBestMove set.old.tables position.now) }
        ensures unchanged { set.new ≡ set.old }
    {
        let moves = ordered(Ask::Strict, alloc, set, position)?;
        ApiMove::first_of(alloc, set, position, &moves)
    }

    /// Whether a line of best play ends with it: it takes a man, moves a pawn or mates.
    pub fn ends_line(&self) -> bool
        ensures { result ≡ ends_line self.now }
    {
        self.told.effect.zeroes_clock() || self.told.state.is_checkmate()
    }
}

/// Adds a move, with the precision of the distance after it.
fn add_with_precision(
    alloc: Global,
    set: &mut Set<'_>,
    told: &MoveTold,
    moves: &mut Vec<ApiMove>,
) -> Result<(), AllocError>
    ensures added { OnOk result (AddsMove set.old.tables told.now moves.old.items moves.new.items) }
    ensures unchanged { set.new ≡ set.old }
{
    match ApiMove::of(alloc, set, told) {
        Ok(one) => add(moves, one),
        Err(fault) => Err(fault),
    }
}

/// Moves, each with the precision of the distance after it.
fn with_precision(
    alloc: Global,
    set: &mut Set<'_>,
    moves: &[MoveTold],
) -> Result<Vec<ApiMove>, AllocError>
    ensures told { IfOk result (λ ts. (map told_in ts.items ≡ moves.now) × All (IsPrecisionAfter set.old.tables) ts.items) }
    ensures unchanged { set.new ≡ set.old }
{
    let mut found = Vec::new(alloc);
    for told in moves {
        add_with_precision(alloc, set, told, &mut found)?;
    }
    Ok(found)
}

/// All legal moves of a position, the best first.
fn api_root(
    alloc: Global,
    set: &mut Set<'_>,
    position: &Position,
) -> Result<Vec<ApiMove>, AllocError>
    ensures told { IfOk result (λ ts. IsApiRoot set.old.tables position.now ts.items) }
    ensures unchanged { set.new ≡ set.old }
{
    let moves = strict_root_told(alloc, set, position)?;
    with_precision(alloc, set, &moves)
}

impl ApiLine {
    /// What tables tell of a position and of its legal moves.
    ///
    /// Values and verdict are those of `Set::answers`, the moves those of `Set::root`, or where the position is out of scope all
    /// legal moves in the order of moves; which distances are precise is said by `Set::is_precise`. The error comes only where
    /// memory is refused. The tables stay as they were.
    pub fn of_position(
        alloc: Global,
        set: &mut Set<'_>,
        position: &Position,
    ) -> Result<ApiLine, AllocError>
        ensures told { IfOk result (IsApiLineOf set.old.tables position.now) }
        ensures unchanged { set.new ≡ set.old }
    {
        let told = ApiPosition::of(alloc, set, position)?;
        let moves = api_root(alloc, set, position)?;
        Ok(ApiLine::Values(told, moves))
    }
}
