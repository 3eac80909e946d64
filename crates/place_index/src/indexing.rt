//! The index of a placement (Syzygy index): from a FEN to its place in the table.
//!
//! One example, `8/8/5k2/8/6p1/7p/2K5/7r b - - 0 1`, step by step through this crate. A case in `indices.txt`
//! of `rows` has the index.
//!
//! **Placement** (`placed.rt`). Black has king, rook and two pawns, so the table is KRPPvK, whose first side has more
//! men. Colours are exchanged, each man goes to the opposite rank, and the first side is to move. The men are then R
//! h8, k c7, P h6, P g5, K f3; capitals are the first side.
//!
//! **Turned placement** (`turning.rt`, `Turned`). With pawns the leading pawn goes to the files a to d. Of the leading colour's
//! pawns it is the one with the greatest pawn number: h6 has 38, g5 has 28. It stands on h, so all men are mirrored left to
//! right: R a8, k f7, P a6, P b5, K c3. The file of the leading pawn is now a, number 0, which picks the table's record. (Without
//! pawns the first leading man goes to the left and to the bottom, and then the first one off the diagonal a1-h8 to below it.)
//!
//! **Groups** (`group.rt`, `places.rt`). The record gives the pieces 1 1 6 4 14, that is P P K R k, and the order 2. Two pawns
//! lead (`leading.rt`); the groups after them are the runs of equal pieces, here K, R and k. The order is the place of the
//! leading group, and the others take the free places in sequence: K 0, R 1, the pawns 2, k 3.
//!
//! **Sizes and factors** (`sizes.rt`, `places.rt`). Two leading pawns on file a have 47 + 45 + 43 + 41 + 39 + 37 = 252
//! placements. Each term counts the squares of lower pawn numbers left to the other pawn, for the leading one on a2 to
//! a7. K has the 62 squares that are free then, R 61, k 60. A group's factor is the product of the sizes at places
//! before its own. K has 1, R 62, the pawns 62 * 61 = 3,782, and k 3,782 * 252 = 953,064. The product of all,
//! 57,183,840, is the size of the record.
//!
//! **Numbers** (`leading.rt`, `numbers.rt`). The pawns have the pawn numbers 39 (a6) and 29 (b5). With the leading one
//! on a2 to a5 there are 47 + 45 + 43 + 41 = 176 placements, and 29 more come first, so their number is 205. Squares
//! are numbered from a1 = 0 to h8 = 63, and each man that was numbered before and stands lower takes one away. K on c3:
//! 18, none lower. R on a8: 56 less three (a6 = 40, b5 = 33, c3 = 18), 53. k on f7: 53 less the same three, 50.
//!
//! **Index** (`index`). Each number times its factor:
//! 205 * 3,782 + 18 * 1 + 53 * 62 + 50 * 953,064 = 775,310 + 18 + 3,286 + 47,653,200 = 48,431,814.

ghost use Rattle.std.specs.Prelude.{◌≡◌, ◌<◌, ◌≤◌, ◌+◌, ◌∷◌, [], length, slice_index, true};
ghost use Rattle.place_index.specs.Index.{lead_codes, lead_number, squares_of_all, numbers_of, sum_of_products, index_of};
ghost use Rattle.place_index.specs.Inside.Groups.{CountLike};
ghost use Rattle.place_index.specs.Inside.Turned.{IsTurned};
ghost use Rattle.place_index.specs.Inside.TurnedMen.{AreBefore};
ghost use Rattle.place_index.specs.Material.{count_of, pieces_of};
ghost use Rattle.place_index.specs.Men.{squares_of, square_of};
ghost use Rattle.place_index.specs.Pawns.{pawn_numbers_of};
ghost use Rattle.place_index.specs.Placed.{Fits};
ghost use Rattle.place_index.specs.Shape.{factors_of, groups_of, has_pawns, lead_code, size_of};

use crate::group::number_group;
use crate::leading::Leading;
use crate::lone_squares::LoneSquares;
use crate::man::Man;
use crate::material::leading_pawn;
use crate::piece_code::PieceCode;
use crate::placed::Placed;
use crate::shape::Shape;
use crate::short_lists::{Earlier, UpToThree};
use crate::squares::{pawn_numbers_of, squares_of};
use crate::turn::Turn;
use crate::turning::turn_of;
use board_core::Square;
use std::marker::Model;

/// A placement turned as its table wants it; only `index` makes one. Contracts see the shape, and the men after the turning.
#[derive(Drop)]
pub(crate) struct Turned<'a> {
    shape: &'a Shape,
    men: &'a [Man],
    lone_squares: &'a LoneSquares,
    turn: Turn,
}

impl<'a> Model for Turned<'a> {
    ghost use Rattle.place_index.specs.Inside.TurnedMen.{TurnedMen};

    ghost Value = { TurnedMen };

    ghost use Rattle.place_index.specs.Inside.Turned.{turned_men, KeepsTurned};

    ghost view = { turned_men };

    ghost invariant = { KeepsTurned };
}

impl<'a> Turned<'a> {
    /// The shape for which the men are turned.
    pub(crate) fn shape(&self) -> &Shape
        ensures is { result.now ≡ self.now.shape }
        ensures turned { IsTurned self.now }
    {
        self.shape
    }

    /// The square of the man who is the only one with this code.
    pub(crate) fn square_of(&self, code: PieceCode) -> Square
        requires { count_of (pieces_of self.now.shape.material) code ≡ 1 }
        ensures { squares_of self.now.men code ≡ result ∷ [] }
    {
        let from = self.lone_squares.of(code);
        self.turn.square(from)
    }

    /// The squares of the men with this code, the highest first.
    pub(crate) fn squares_of(&self, code: PieceCode) -> UpToThree
        ensures { result ≡ squares_of self.now.men code }
    {
        squares_of(self.men, self.turn, code)
    }

    /// The pawn numbers of the leading pawns, the greatest first.
    pub(crate) fn pawn_numbers(&self) -> UpToThree
        requires { has_pawns self.now.shape.material ≡ true }
        ensures { result ≡ pawn_numbers_of self.now.men (lead_code self.now.shape.material) }
    {
        let material = self.shape.material();
        pawn_numbers_of(self.men, self.turn, leading_pawn(material))
    }
}

/// The number of the leading group, whose squares are the first ones of earlier men.
fn number_leading(turned: &Turned, earlier: &mut Earlier) -> u64
    requires { earlier.old ≡ [] }
    ensures number { result ≡ lead_number turned.now.shape turned.now.men }
    ensures earlier { CountLike earlier.new (squares_of_all turned.now.men (lead_codes turned.now.shape)) }
{
    let leading = Leading::of(turned);
    leading.stand(earlier);
    leading.number(turned.shape().file())
}

/// The number of a group after the leading one, at this place among the groups, after the men of those before it. Its own men
/// are among the earlier ones then.
fn number_at(turned: &Turned, place: usize, earlier: &mut Earlier) -> u64
    requires after_leading { 1 ≤ place }
    requires place { place < length (groups_of turned.now.shape) }
    requires before { AreBefore turned.now place earlier.old }
    ensures number { result ≡ slice_index (numbers_of turned.now.shape turned.now.men) place }
    ensures after { AreBefore turned.now (place + 1) earlier.new }
{
    let groups = turned.shape().groups();
    number_group(turned, groups[place], earlier)
}

/// The sum of the groups' numbers, each times its factor.
fn sum_of_groups(turned: &Turned) -> u64
    ensures { result ≡ sum_of_products (numbers_of turned.now.shape turned.now.men) (factors_of turned.now.shape) }
{
    let factors = turned.shape().factors();
    let mut earlier = Earlier::new();
    let leading = number_leading(turned, &mut earlier);
    let mut sum = leading * factors[0] as u64;
    for place in 1..factors.len() {
        let number = number_at(turned, place, &mut earlier);
        sum += number * factors[place] as u64;
    }
    sum
}

/// The index of a placement in its table (Syzygy index): the sum of the groups' numbers times their factors, from 0 and
/// below the shape's size. That the shape fits the placement is the caller's condition.
pub fn index(shape: &Shape, placed: &Placed) -> u64
    requires fits { Fits shape.now placed.now }
    ensures is { result ≡ index_of shape.now placed.now.men }
    ensures below { result < size_of shape.now }
{
    let men = placed.men();
    let lone_squares = LoneSquares::new(men);
    let turn = turn_of(shape, placed, &lone_squares);
    let turned = Turned {
        shape,
        men,
        lone_squares: &lone_squares,
        turn,
    };
    sum_of_groups(&turned)
}
