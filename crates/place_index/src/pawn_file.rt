//! Files of the leading pawn.

ghost use Rattle.std.specs.Prelude.{◌≡◌, ◌<◌, ◌↔◌, IsSome, IfSome};
ghost use Rattle.place_index.specs.Square.{left_file};

use board_core::Square;
use std::marker::Model;

/// The file of the leading pawn mirrored to the left, by which a table picks its record; the first one without pawns.
/// Contracts see its number: 0 for a and h, 1 for b and g, 2 for c and f, 3 for d and e.
#[derive(Clone, Copy, PartialEq, Eq, Debug)]
pub struct PawnFile {
    place: u8,
}

impl Model for PawnFile {
    ghost use Rattle.std.specs.Prelude.{ℕ, ◌<◌};

    ghost Value = { ℕ };

    ghost view = { λ f. f.place };

    ghost invariant = { λ f. f.place < 4 };

    ghost inverse = { λ n. record { place = n } };
}

impl PawnFile {
    /// File a, which stands for h too.
    pub const A: PawnFile = PawnFile { place: 0 };

    /// The file of this number, 0 to 3; none above.
    pub fn new(number: u8) -> Option<PawnFile>
        ensures left { IsSome result ↔ (number < 4) }
        ensures number { IfSome result (λ f. f ≡ number) }
    {
        if number < 4 {
            Some(PawnFile { place: number })
        } else {
            None
        }
    }

    /// The file of a square, mirrored to the left.
    pub fn of(square: Square) -> PawnFile
        ensures { result ≡ left_file square }
    {
        let file = square.file();
        let place = if file < 4 { file } else { 7 - file };
        PawnFile { place }
    }

    /// The number of the file, 0 (a and h) to 3 (d and e).
    pub fn number(self) -> u8
        ensures is { result ≡ self }
        ensures left { result < 4 }
    {
        self.place
    }
}
