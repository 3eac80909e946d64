//! Legal moves of a position, each with what it does and what it is worth.

ghost use Rattle.std.specs.Prelude.{◌≡◌, Some};
ghost use Rattle.board_core.specs.declared.parts.Parts.{Parts};
ghost use Rattle.board_core.specs.ComputedMoves.{position_after};
ghost use Rattle.judge_core.specs.Answers.{as_probe};
ghost use Rattle.judge_core.specs.ProbeResult.{wdl_number};
ghost use Rattle.judge_core.specs.Root.{effect_of, state_by, state_of, zeroes_clock, captures, is_checkmate, below_win, distance_or_most, move_rank};

use crate::answering::number_in;
use crate::fault::ValueFault;
use crate::mobility::has_no_move;
use crate::moving::{lands_empty, moves_pawn, stays_on_file};
use crate::probe_result::ProbeResult;
use crate::wdl::Wdl;
use board_core::{Move, Position};

/// What a move does to the men and so to the halfmove clock.
#[derive(Clone, Copy, PartialEq, Eq, Debug)]
pub enum Effect {
    /// It neither takes a man nor moves a pawn.
    Quiet,
    /// A pawn moves and takes nothing.
    PawnMove,
    /// It takes what stands on its square.
    Capture,
    /// It takes a pawn en passant.
    EnPassant,
}

/// How a position stands for its side to move (FIDE articles 3.9.1, 5.1.1 and 5.2.1).
#[derive(Clone, Copy, PartialEq, Eq, Debug)]
pub enum BoardState {
    /// There is a legal move, and no check.
    Open,
    /// There is a check, and a legal move.
    Check,
    /// There is a check, and no legal move.
    Checkmate,
    /// There is no check, and no legal move.
    Stalemate,
}

/// A legal move of a position, and what it is worth to the side that makes it.
#[derive(Clone, Copy, PartialEq, Eq, Debug)]
pub struct RootMove {
    /// The move.
    pub played: Move,
    /// What it does.
    pub effect: Effect,
    /// How the position after it stands for the other side.
    pub state: BoardState,
    /// The value: that of the position after the move, as the side that moved sees it. A mating move wins. Else it is
    /// the fault of that value.
    pub wdl: Result<Wdl, ValueFault>,
    /// The distance from before the move in plies, above 0 where the side that moves wins and below 0 where it loses.
    /// A mating move has 1. Any other capture or pawn move has 1, 101, 0, -101 or -1 by its value. Any other move is
    /// one ply further from 0 than the position after it. Else it is the fault of that distance.
    pub dtz: Result<i32, ValueFault>,
}

impl Effect {
    /// What a legal move does.
    pub fn of(position: &Position, m: &Move) -> Effect
        ensures { (q : Parts) → position_after position.now m.now ≡ Some q → result ≡ effect_of position.now m.now }
    {
        if !lands_empty(position, m) {
            Effect::Capture
        } else if !moves_pawn(position, m) {
            Effect::Quiet
        } else if stays_on_file(m) {
            Effect::PawnMove
        } else {
            Effect::EnPassant
        }
    }

    /// Whether the halfmove clock is 0 after it: it takes a man or moves a pawn.
    pub fn zeroes_clock(self) -> bool
        ensures { result ≡ zeroes_clock self }
    {
        match self {
            Effect::Quiet => false,
            Effect::PawnMove | Effect::Capture | Effect::EnPassant => true,
        }
    }

    /// Whether it takes a man, en passant among them.
    pub fn captures(self) -> bool
        ensures { result ≡ captures self }
    {
        match self {
            Effect::Quiet | Effect::PawnMove => false,
            Effect::Capture | Effect::EnPassant => true,
        }
    }
}

impl BoardState {
    /// By whether there is a check, and whether there is no legal move.
    fn by(is_check: bool, is_end: bool) -> BoardState
        ensures { result ≡ state_by is_check is_end }
    {
        match (is_check, is_end) {
            (true, true) => BoardState::Checkmate,
            (true, false) => BoardState::Check,
            (false, true) => BoardState::Stalemate,
            (false, false) => BoardState::Open,
        }
    }

    /// How the position stands for its side to move.
    #[tactic(auto, unfolding(crate::specs::Root::state_of))]
    pub fn of(position: &Position) -> BoardState
        ensures { result ≡ state_of position.now }
    {
        BoardState::by(position.in_check(), has_no_move(position))
    }

    /// Whether the side to move is checkmated.
    pub fn is_checkmate(self) -> bool
        ensures { result ≡ is_checkmate self }
    {
        match self {
            BoardState::Checkmate => true,
            BoardState::Open | BoardState::Check | BoardState::Stalemate => false,
        }
    }
}

/// How far a value is below a win, 0 to 4, and 5 where there is none.
fn below_win(value: &Result<Wdl, ValueFault>) -> u8
    ensures { result ≡ below_win value.now }
{
    match value {
        Ok(Wdl::Win) => 0,
        Ok(Wdl::CursedWin) => 1,
        Ok(Wdl::Draw) => 2,
        Ok(Wdl::BlessedLoss) => 3,
        Ok(Wdl::Loss) => 4,
        Err(_) => 5,
    }
}

/// The distance, and the greatest number where there is none.
fn distance_or_most(distance: &Result<i32, ValueFault>) -> i32
    ensures { result ≡ distance_or_most distance.now }
{
    match distance {
        Ok(distance) => *distance,
        Err(_) => i32::MAX,
    }
}

impl RootMove {
    /// By what moves are ordered, the best first: the value, then the distance. Both a near win and a far loss have a
    /// low distance. A move without a value comes last, and one without a distance after those of its value.
    pub(crate) fn rank(&self) -> (u8, i32)
        ensures { result ≡ move_rank self.now }
    {
        (below_win(&self.wdl), distance_or_most(&self.dtz))
    }

    /// Its value and its distance as numbers, as probes give them.
    pub fn probed(&self) -> ProbeResult
        ensures wdl { result.wdl ≡ as_probe wdl_number self.now.wdl }
        ensures dtz { result.dtz ≡ as_probe (λ n. n) self.now.dtz }
    {
        ProbeResult {
            wdl: number_in(&self.wdl),
            dtz: match &self.dtz {
                Ok(distance) => Ok(*distance),
                Err(fault) => Err(fault.of_probe()),
            },
        }
    }
}
