//! Whether a side that is in check has a legal move. Mostly its king has one, or the man that has moved can be taken: these are looked
//! at first, since a look at all moves costs more.

ghost use Rattle.std.specs.Prelude.{◌<◌, ◌↔◌, IsTrue};
ghost use Rattle.board_core.specs.Moves.{IsLegal};
ghost use Rattle.board_core.specs.declared.moves.Move.{Move};

use crate::agreeing::stands;
use board_core::{Kind, Move, Position, Square};

/// Whether a man of the side to move stands on a square.
fn is_own(position: &Position, square: Square) -> bool {
    match position.piece_at(square) {
        Some(man) => man.side == position.side(),
        None => false,
    }
}

/// Whether the move between these squares, without a promotion, is legal; a capture of an own man is none.
fn may_answer(position: &Position, from: Square, to: Square) -> bool
    ensures { IsTrue result → (m : Move) × IsLegal position.now m }
{
    !is_own(position, to)
        && position.is_legal(Move {
            from,
            to,
            promotion: None,
        })
}

/// The square of the king of the side to move.
fn king_square(position: &Position) -> Option<Square> {
    let mut rest = position.occupied();
    for _ in 0..position.men() {
        if rest.is_empty() {
            return None;
        }
        let square = rest.lowest();
        if stands(position, square, Kind::King) {
            return Some(square);
        }
        rest = rest.without(square);
    }
    None
}

/// The square next to another one at this place of the three ranks and three files around it; none beyond the edge.
fn neighbour(square: Square, place: u8) -> Option<Square>
    requires { place < 9 }
{
    let file = square.file() + place % 3;
    let rank = square.rank() + place / 3;
    if file == 0 || file == 9 || rank == 0 || rank == 9 {
        return None;
    }
    Some(Square::at(8 * (rank - 1) + (file - 1)))
}

/// Whether a step of the king is found to be legal.
fn king_may_step(position: &Position) -> bool
    ensures { IsTrue result → (m : Move) × IsLegal position.now m }
{
    let Some(king) = king_square(position) else {
        return false;
    };
    for place in 0..9u8 {
        if let Some(to) = neighbour(king, place) {
            if may_answer(position, king, to) {
                return true;
            }
        }
    }
    false
}

/// Whether a move to this square is found to be legal.
fn may_answer_on(position: &Position, to: Square) -> bool
    ensures { IsTrue result → (m : Move) × IsLegal position.now m }
{
    let mut rest = position.occupied();
    for _ in 0..position.men() {
        if rest.is_empty() {
            return false;
        }
        let from = rest.lowest();
        if is_own(position, from) && may_answer(position, from, to) {
            return true;
        }
        rest = rest.without(from);
    }
    false
}

/// Whether the side to move has a legal move, where the other side has just gone to this square.
pub(crate) fn has_answer(position: &Position, to: Square) -> bool
    ensures { IsTrue result ↔ ((m : Move) × IsLegal position.now m) }
{
    king_may_step(position) || may_answer_on(position, to) || position.has_legal_move()
}
