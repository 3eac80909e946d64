//! What the text of a move tells.

use board_core::{Kind, Promotion, Square, Wing};

/// What the text of the move of one man tells.
#[derive(Clone, Copy)]
pub struct ManTold {
    /// The kind of the man.
    pub kind: Kind,
    /// The file that he leaves, 0 for a to 7 for h, where it is told.
    pub file: Option<u8>,
    /// The rank that he leaves, 0 for the first to 7 for the eighth, where it is told.
    pub rank: Option<u8>,
    /// Whether it is told that he takes a man.
    pub takes: bool,
    /// The square where he goes.
    pub to: Square,
    /// What a pawn becomes on its last rank.
    pub promotion: Option<Promotion>,
    /// Whether it is told that he takes a pawn en passant.
    pub en_passant: bool,
}

/// What the text of a move tells.
#[derive(Clone, Copy)]
pub enum Told {
    /// King and rook castle.
    Castles(Wing),
    /// A man goes to a square.
    Goes(ManTold),
}
