//! The verdict by the end of a game on the board, by a value and by a distance.

ghost use Rattle.std.specs.Prelude.{◌≡◌, ◌≢◌, ◌≤◌, Ok, IfOk};
ghost use Rattle.board_core.specs.declared.parts.Parts.{Parts};
ghost use Rattle.board_core.specs.Position.{IsPosition};
ghost use Rattle.judge_core.specs.declared.wdl.Wdl.TheVariants.{Win, Loss};
ghost use Rattle.judge_core.specs.Distances.{Reach, plies};
ghost use Rattle.judge_core.specs.Ruling.{mate_of, end_of, is_out_of_scope, won_by, ruling_at, ruling_by};

use crate::distance::Distance;
use crate::fault::ValueFault;
use crate::wdl::Wdl;
use board_core::{Position, Side, Verdict};

/// The verdict where this side is checkmated.
fn mate_of(side: Side) -> Verdict
    ensures { result ≡ mate_of side }
{
    match side {
        Side::White => Verdict::BlackMates,
        Side::Black => Verdict::WhiteMates,
    }
}

/// The verdict where no legal move is left.
pub(crate) fn end_of(position: &Position) -> Verdict
    ensures { result ≡ end_of position.now }
{
    if position.in_check() {
        mate_of(position.side())
    } else {
        Verdict::Stalemate
    }
}

/// Whether the position is outside the tables' scope, which excludes castling rights and more than five men. Of such a position no
/// table is asked.
#[tactic(auto, unfolding(crate::specs::Ruling::is_out_of_scope))]
pub fn is_out_of_scope(position: &Position) -> bool
    ensures is { result ≡ is_out_of_scope position.now }
    ensures position { IsPosition position.now }
{
    let parts = position.parts();
    parts.rights.any() || position.men() > 5
}

/// The verdict where this side wins by the tables.
fn won_by(side: Side) -> Verdict
    ensures { result ≡ won_by side }
{
    match side {
        Side::White => Verdict::TableWhite,
        Side::Black => Verdict::TableBlack,
    }
}

/// The verdict by a value that is neither a win nor a loss, or by the value's fault.
pub(crate) fn by_value(reading: &Result<Wdl, ValueFault>) -> Option<Verdict>
    requires win { reading.now ≢ Ok Win }
    requires loss { reading.now ≢ Ok Loss }
    ensures { (p : Parts) (reach : Reach) → result ≡ ruling_by p reading.now reach }
{
    match reading {
        Ok(Wdl::Draw) => Some(Verdict::TableDraw),
        Err(ValueFault::Damaged(_)) => Some(Verdict::Stopped),
        _ => None,
    }
}

/// The verdict where this side wins in this many plies.
pub(crate) fn by_distance(
    position: &Position,
    winner: Side,
    reach: &Result<Distance, ValueFault>,
) -> Option<Verdict>
    requires { IfOk reach.now (λ d. plies d ≤ 1000000) }
    ensures { result ≡ ruling_at position.now winner reach.now }
{
    match reach {
        Ok(distance) => {
            if position.halfmove() as u32 + distance.plies() <= 99 {
                Some(won_by(winner))
            } else {
                None
            }
        }
        Err(ValueFault::Damaged(_)) => Some(Verdict::Stopped),
        Err(ValueFault::NotCovered(_)) => None,
    }
}
