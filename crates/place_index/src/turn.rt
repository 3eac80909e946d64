//! All mirrorings of a placement in one.

ghost use Rattle.std.specs.Prelude.{◌≡◌, ◌≤◌, ◌+◌, ◌*◌, false};
ghost use Rattle.place_index.specs.Inside.Turns.{turn_number, turn_square};

use crate::tables::TURNED;
use board_core::Square;

/// Which mirrorings all men go through, in this sequence.
#[derive(Clone, Copy, Default)]
pub(crate) struct Turn {
    /// Whether files are mirrored: a and h, b and g, c and f, d and e are exchanged.
    pub(crate) left_right: bool,

    /// Whether ranks are mirrored: 1 and 8, 2 and 7, 3 and 6, 4 and 5 are exchanged.
    pub(crate) bottom_top: bool,

    /// Whether file and rank are exchanged.
    pub(crate) across: bool,
}

impl Turn {
    /// No mirroring.
    pub(crate) fn still() -> Turn
        ensures left_right { result.left_right ≡ false }
        ensures bottom_top { result.bottom_top ≡ false }
        ensures across { result.across ≡ false }
    {
        Turn {
            left_right: false,
            bottom_top: false,
            across: false,
        }
    }

    /// The turn's number among the eight, an index into the table of turned squares. It is the sum of 1 for files
    /// mirrored, 2 for ranks mirrored and 4 for file and rank exchanged.
    #[tactic(auto, unfolding(crate::specs::Inside::Turns::turn_number))]
    fn number(self) -> usize
        ensures is { result ≡ turn_number self }
        ensures few { result ≤ 7 }
    {
        let left_right = self.left_right as usize;
        let bottom_top = self.bottom_top as usize;
        let across = self.across as usize;
        left_right + 2 * bottom_top + 4 * across
    }

    /// Where a man goes from this square.
    pub(crate) fn square(self, square: Square) -> Square
        ensures { result ≡ turn_square self square }
    {
        let turn = self.number();
        Square::at(TURNED[64 * turn + square.number() as usize])
    }
}
