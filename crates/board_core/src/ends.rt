//! The ends of a game on the board.

ghost use Rattle.std.specs.Prelude.{◌≡◌, ◌↔◌, IsTrue};
ghost use Rattle.board_core.specs.Ends.{IsCheckmate, IsStalemate, is_checkmate, is_stalemate, has_insufficient_material};

use crate::material::{Wanted, stands};
use crate::position::Position;

impl Position {
    /// Whether the side to move is checkmated: it is in check and has no legal move (FIDE article 5.1.1).
    pub fn is_checkmate(&self) -> bool
        ensures relation { IsTrue result ↔ IsCheckmate self.now }
        ensures computed { result ≡ is_checkmate self.now }
    {
        self.in_check() && !self.has_legal_move()
    }

    /// Whether the side to move is stalemated: it is not in check and has no legal move (FIDE article 5.2.1).
    pub fn is_stalemate(&self) -> bool
        ensures relation { IsTrue result ↔ IsStalemate self.now }
        ensures computed { result ≡ is_stalemate self.now }
    {
        !self.in_check() && !self.has_legal_move()
    }

    /// Whether neither side can mate with the men that are left, by their kinds alone (FIDE article 5.2.2): there is no
    /// pawn, rook or queen, and there are three men at most, or no knight and bishops on squares of one colour only.
    #[tactic(auto, unfolding(crate::specs::Ends::has_insufficient_material))]
    pub fn has_insufficient_material(&self) -> bool
        ensures { result ≡ has_insufficient_material self.now }
    {
        !stands(self, Wanted::PawnOrMajor)
            && (self.men() <= 3
                || (!stands(self, Wanted::Knight)
                    && !(stands(self, Wanted::LightBishop) && stands(self, Wanted::DarkBishop))))
    }
}
