//! Sides, kinds of men, and men.

ghost use Rattle.std.specs.Prelude.{◌≡◌, ◌↔◌, IsTrue};
ghost use Rattle.board_core.specs.Position.{is_same_side};
ghost use Rattle.board_core.specs.Side.{other};

/// The two players (FIDE article 1.1).
#[derive(Clone, Copy, PartialEq, Eq, Hash, Debug)]
pub enum Side {
    /// The side that begins on ranks 1 and 2.
    White,
    /// The side that begins on ranks 7 and 8.
    Black,
}

impl Side {
    /// The opponent.
    pub fn other(self) -> Side
        ensures { result ≡ other self }
    {
        match self {
            Side::White => Side::Black,
            Side::Black => Side::White,
        }
    }
}

/// The kinds of men (FIDE article 2.2).
#[derive(Clone, Copy, PartialEq, Eq, Hash, Debug)]
pub enum Kind {
    Pawn,
    Knight,
    Bishop,
    Rook,
    Queen,
    King,
}

/// A man on the board: whose it is and of what kind.
#[derive(Clone, Copy, PartialEq, Eq, Hash, Debug)]
pub struct Piece {
    /// Whose man it is.
    pub side: Side,
    /// What it is.
    pub kind: Kind,
}

impl Piece {
    /// Whether it is a man of this side.
    pub fn is_of(self, side: Side) -> bool
        ensures relation { IsTrue result ↔ (self.side ≡ side) }
        ensures computed { result ≡ is_same_side side self.side }
    {
        self.side == side
    }

    /// Whether it is a man of this side and kind.
    pub fn is(self, side: Side, kind: Kind) -> bool
        ensures { IsTrue result ↔ (self ≡ record { side = side; kind = kind }) }
    {
        self.side == side && self.kind == kind
    }
}

/// The two ways to castle (FIDE article 3.8.2): with the rook of file h or of file a.
#[derive(Clone, Copy, PartialEq, Eq, Debug)]
pub enum Wing {
    /// With the rook of file h.
    KingSide,
    /// With the rook of file a.
    QueenSide,
}

/// What a pawn becomes on its last rank (FIDE article 3.7.3.3), in the order in which moves are listed.
#[derive(Clone, Copy, PartialEq, Eq, PartialOrd, Ord, Hash, Debug)]
pub enum Promotion {
    Queen,
    Rook,
    Bishop,
    Knight,
}
