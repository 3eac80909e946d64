//! How a move is written.

ghost use Rattle.std.specs.Prelude.{◌≡◌, IfSome, Some};
ghost use Rattle.board_core.specs.declared.moves.Move.{Move as Moves};
ghost use Rattle.move_notation.specs.Notations.{Spells, notation_by};

use board_core::{Move, Position};
use fen_text::read_move;
use san_text::read_san;

/// How moves are written.
#[derive(Clone, Copy, PartialEq, Eq, Debug)]
pub enum Notation {
    /// By their two squares, as `e2e4` and `e7e8q`.
    Coordinates,
    /// In standard algebraic notation (PGN standard, section 8.2.3), as `Nf3` and `e8=Q`.
    San,
}

impl Notation {
    /// Algebraic notation where a flag asks for it, and else coordinates.
    pub fn by_flag(san: bool) -> Notation
        ensures { result ≡ notation_by san }
    {
        if san {
            Notation::San
        } else {
            Notation::Coordinates
        }
    }

    /// The move that a text names in a position; none where it names none.
    ///
    /// In coordinates any two squares are a move here, whether or not the position has it. In algebraic notation the move is legal.
    pub fn read(self, position: &Position, text: &[u8]) -> Option<Move>
        ensures some { IfSome result (Spells self position.now text.now) }
        ensures only { (m : Moves) → Spells self position.now text.now m → result ≡ Some m }
    {
        match self {
            Notation::Coordinates => read_move(text),
            Notation::San => match read_san(position, text) {
                Ok(m) => Some(m),
                Err(_) => None,
            },
        }
    }
}
