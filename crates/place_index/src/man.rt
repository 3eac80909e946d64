use crate::piece_code::PieceCode;
use board_core::Square;

/// A man on a square, as a table sees it: colours may be exchanged, and all men mirrored.
#[derive(Clone, Copy, PartialEq, Eq, Debug)]
pub struct Man {
    /// What the man is.
    pub code: PieceCode,

    /// Where the man stands.
    pub square: Square,
}

impl Default for Man {
    /// Room for a man.
    fn default() -> Man {
        Man {
            code: PieceCode::default(),
            square: Square::at(0),
        }
    }
}
