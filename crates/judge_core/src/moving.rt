//! Moves by their effect on the halfmove clock.

ghost use Rattle.std.specs.Prelude.{◌≡◌, ◌↔◌, ◌<◌, ℕ, false, None, IsTrue, IsFalse, if◌then◌else◌};
ghost use Rattle.board_core.specs.Square.{file_of};
ghost use Rattle.board_core.specs.Attack.{man_at};
ghost use Rattle.board_core.specs.ComputedMoves.{position_after, is_pawn_of};
ghost use Rattle.board_core.specs.Moves.{IsLegal};
ghost use Rattle.judge_core.specs.Inside.Found.{lands_empty};
ghost use Rattle.judge_core.specs.Distances.{moves_pawn, is_pawn_step, is_quiet};

use board_core::{Kind, Move, Piece, Position, Side};

/// Whether a pawn of this side stands there.
fn is_pawn_of(side: Side, man: Option<Piece>) -> bool
    ensures { result ≡ is_pawn_of side man }
{
    match man {
        Some(man) => man.side == side && man.kind == Kind::Pawn,
        None => false,
    }
}

/// Whether the side to move has a pawn.
pub(crate) fn has_pawn(position: &Position) -> bool
    ensures { IsFalse result → (s : ℕ) → s < 64 → is_pawn_of position.now.side (man_at position.now.men s) ≡ false }
{
    let mut rest = position.occupied();
    for _ in 0..position.men() {
        if rest.is_empty() {
            return false;
        }
        let square = rest.lowest();
        if is_pawn_of(position.side(), position.piece_at(square)) {
            return true;
        }
        rest = rest.without(square);
    }
    !rest.is_empty()
}

/// Whether the move goes to an empty square: among captures, whether it is en passant.
#[tactic(auto, unfolding(crate::specs::Inside::Found::lands_empty))]
pub(crate) fn lands_empty(position: &Position, m: &Move) -> bool
    ensures { result ≡ lands_empty position.now m.now }
{
    position.piece_at(m.to).is_none()
}

/// Whether a pawn of the side to move leaves the move's square.
pub(crate) fn moves_pawn(position: &Position, m: &Move) -> bool
    ensures { result ≡ moves_pawn position.now m.now }
{
    is_pawn_of(position.side(), position.piece_at(m.from))
}

/// Whether the move ends on the file on which it begins.
pub(crate) fn stays_on_file(m: &Move) -> bool
    ensures { IsTrue result ↔ (file_of m.now.from ≡ file_of m.now.to) }
{
    m.from.file() == m.to.file()
}

/// The position after a legal move, where it moves a pawn and takes nothing: the pawn stays on its file.
pub(crate) fn after_pawn_step(position: &Position, m: &Move) -> Option<Position>
    requires { IsLegal position.now m.now }
    ensures { result ≡ if is_pawn_step position.now m.now then position_after position.now m.now else None }
{
    if stays_on_file(m) && moves_pawn(position, m) && lands_empty(position, m) {
        Some(position.play_legal(m))
    } else {
        None
    }
}

/// The position after a legal move, where it neither takes a man nor moves a pawn.
pub(crate) fn after_quiet_move(position: &Position, m: &Move) -> Option<Position>
    requires { IsLegal position.now m.now }
    ensures { result ≡ if is_quiet position.now m.now then position_after position.now m.now else None }
{
    if !moves_pawn(position, m) && lands_empty(position, m) {
        Some(position.play_legal(m))
    } else {
        None
    }
}
