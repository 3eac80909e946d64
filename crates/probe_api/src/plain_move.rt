//! Moves as plain numbers.

ghost use Rattle.std.specs.Prelude.{◌≡◌, ◌<◌, IfSome, IfNone, Some};
ghost use Rattle.board_core.specs.declared.moves.Move.{Move};
ghost use Rattle.board_core.specs.declared.piece.Promotion.{Promotion};
ghost use Rattle.board_core.specs.Moves.{promotion_place};
ghost use Rattle.board_core.specs.ComputedMoves.{promotion_at};
ghost use Rattle.probe_api.specs.Moves.{IsMoveOf, plain_of};

use board_core::{Move, Promotion, Square};

/// A move as three numbers.
#[repr(C)]
#[derive(Clone, Copy)]
pub struct PlainMove {
    /// The square that the man leaves: 0 for a1, 1 for b1, up to 63 for h8.
    pub from: u8,
    /// The square where it goes. Castling is the king's move of two squares.
    pub to: u8,
    /// What a pawn becomes: 0 nothing, 1 a queen, 2 a rook, 3 a bishop, 4 a knight.
    pub promotion: u8,
}

fn promotion_place(promotion: Option<Promotion>) -> u8
    ensures { result ≡ promotion_place promotion }
{
    match promotion {
        None => 0,
        Some(Promotion::Queen) => 1,
        Some(Promotion::Rook) => 2,
        Some(Promotion::Bishop) => 3,
        Some(Promotion::Knight) => 4,
    }
}

fn promotion_at(place: u8) -> Option<Promotion>
    requires { place < 5 }
    ensures { result ≡ promotion_at place }
{
    match place {
        0 => None,
        1 => Some(Promotion::Queen),
        2 => Some(Promotion::Rook),
        3 => Some(Promotion::Bishop),
        _ => Some(Promotion::Knight),
    }
}

impl PlainMove {
    /// The numbers of a move.
    pub fn of(m: &Move) -> PlainMove
        ensures { result ≡ plain_of m.now }
    {
        PlainMove {
            from: m.from.number(),
            to: m.to.number(),
            promotion: promotion_place(m.promotion),
        }
    }

    /// The move that has these numbers; none where a square is above 63 or the promotion above 4. Any two squares make a move here.
    pub fn to_move(self) -> Option<Move>
        ensures some { IfSome result (IsMoveOf self) }
        ensures only { (m : Move) → IsMoveOf self m → result ≡ Some m }
    {
        if self.promotion > 4 {
            return None;
        }
        let Some(from) = Square::new(self.from) else {
            return None;
        };
        let Some(to) = Square::new(self.to) else {
            return None;
        };
        Some(Move {
            from,
            to,
            promotion: promotion_at(self.promotion),
        })
    }
}
