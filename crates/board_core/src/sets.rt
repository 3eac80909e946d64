//! The men of a position as sets of squares, in the form that engines keep.

ghost use Rattle.std.specs.Prelude.{◌≡◌, ℕ, cond, is_some};
ghost use Rattle.std.specs.Int.{bit_at};
ghost use Rattle.board_core.specs.Inside.Census.{census_of};
ghost use Rattle.board_core.specs.Sets.{is_in, side_by, kind_on, man_on, men_shown};
ghost use Rattle.board_core.specs.Sides.{IsOccupied, sides_of};

use crate::bitboard::Bitboard;
use crate::census::Census;
use crate::men::Men;
use crate::parts::Rights;
use crate::piece::{Kind, Piece, Side};
use crate::sides::Sides;
use crate::square::Square;

/// The squares of each side and of each kind. Any sets are allowed: on a square stands a man of the first side (white, black)
/// and of the first kind (king, pawn, rook, queen, bishop, knight) whose sets have it, and nothing where no side or no kind has it.
#[derive(Clone, Copy, PartialEq, Eq, Debug)]
pub struct Sets {
    pub white: Bitboard,
    pub black: Bitboard,
    pub kings: Bitboard,
    pub queens: Bitboard,
    pub rooks: Bitboard,
    pub bishops: Bitboard,
    pub knights: Bitboard,
    pub pawns: Bitboard,
}

/// What a position has besides its men.
#[derive(Clone, Copy, PartialEq, Eq, Debug)]
pub struct State {
    /// The side to move.
    pub side: Side,
    /// Which castlings have not been lost.
    pub rights: Rights,
    /// The square that a pawn passed by a double step in the move before.
    pub en_passant: Option<Square>,
    /// Plies since the last capture or pawn move, 0 to 9999.
    pub halfmove: u16,
    /// The number of the move, one more after each move of black, 0 to 9999.
    pub fullmove: u16,
}

impl Sets {
    /// The side whose man stands on the square.
    fn side_on(&self, square: Square) -> Option<Side>
        ensures { result ≡ side_by (is_in self.now.white square) (is_in self.now.black square) }
    {
        if self.white.has(square) {
            Some(Side::White)
        } else if self.black.has(square) {
            Some(Side::Black)
        } else {
            None
        }
    }

    /// The kind of the man on the square.
    fn kind_on(&self, square: Square) -> Option<Kind>
        ensures { result ≡ kind_on self.now square }
    {
        if self.kings.has(square) {
            Some(Kind::King)
        } else if self.pawns.has(square) {
            Some(Kind::Pawn)
        } else if self.rooks.has(square) {
            Some(Kind::Rook)
        } else if self.queens.has(square) {
            Some(Kind::Queen)
        } else if self.bishops.has(square) {
            Some(Kind::Bishop)
        } else if self.knights.has(square) {
            Some(Kind::Knight)
        } else {
            None
        }
    }

    /// What stands on the square.
    pub fn man_on(&self, square: Square) -> Option<Piece>
        ensures { result ≡ man_on self.now square }
    {
        match self.side_on(square) {
            None => None,
            Some(side) => match self.kind_on(square) {
                None => None,
                Some(kind) => Some(Piece { side, kind }),
            },
        }
    }

    /// The squares of the men that the sets show.
    pub(crate) fn census(&self) -> Census
        ensures { result ≡ census_of (men_shown self.now) }
    {
        let of_a_side = self.white | self.black;
        Census {
            sides: self.sides(),
            kings: self.kings & of_a_side,
            pawns: (self.pawns & of_a_side).except(self.kings),
        }
    }

    fn sides(&self) -> Sides
        ensures { result ≡ sides_of (men_shown self.now) }
    {
        let kinds = self.kinds();
        Sides {
            white: self.white & kinds,
            black: (self.black & kinds).except(self.white),
        }
    }

    /// The squares that the set of some kind has.
    fn kinds(&self) -> Bitboard
        ensures { (s : ℕ) → bit_at result s ≡ cond (is_some (kind_on self.now s)) 1 0 }
    {
        self.kings | self.pawns | self.rooks | self.queens | self.bishops | self.knights
    }

    /// The men that the sets show; these are their squares.
    pub(crate) fn men(&self, occupied: Bitboard) -> Men
        requires { IsOccupied (men_shown self.now) occupied }
        ensures { result ≡ men_shown self.now }
    {
        let mut men = Men::none();
        let mut rest = occupied;
        let mut next = 0u8;
        'squares: while !rest.is_empty() {
            let square = rest.lowest();
            men.put(square, self.man_on(square));
            rest = rest.without(square);
            next = square.number() + 1;
        }
        men
    }
}
