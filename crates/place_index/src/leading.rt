//! The men that lead.

ghost use Rattle.std.specs.Prelude.{◌≡◌, ◌≤◌, ◌<◌, ℕ, [], length, map, slice_index, true, false};
ghost use Rattle.place_index.specs.Inside.Leading.{AreLeading, StandAsWanted, leading_number, leading_squares};
ghost use Rattle.place_index.specs.Pawns.{pawn_square};
ghost use Rattle.place_index.specs.Shape.{has_pawns};

use crate::indexing::Turned;
use crate::material::{leading_men, leading_pawn};
use crate::numbers::{kings_number, pawns_before, pawns_number, three_number};
use crate::pawn_file::PawnFile;
use crate::short_lists::{Earlier, UpToThree};
use crate::squares::pawn_square;
use board_core::Square;

/// The men that lead, on the squares to which they go.
#[derive(Drop)]
pub(crate) enum Leading {
    /// A pawn, the only one of its colour.
    Pawn(Square),
    /// Two or three pawns of one colour, by their pawn numbers, the greatest first.
    Pawns(UpToThree),
    /// Three men, each the only one of its kind, in the order of the table's pieces.
    Three(Square, Square, Square),
    /// The kings, in the order of the table's pieces.
    Kings(Square, Square),
}

impl Leading {
    /// The leading men of the turned placement.
    pub(crate) fn of(turned: &Turned) -> Leading
        ensures { AreLeading turned.now result }
    {
        let material = turned.shape().material();
        if material.has_pawns() {
            leading_pawns(turned)
        } else {
            leading_pieces(turned)
        }
    }

    /// The group's number. Leading pawns stand on this file.
    pub(crate) fn number(&self, file: PawnFile) -> u64
        requires { StandAsWanted file self.now }
        ensures { result ≡ leading_number self.now }
    {
        match self {
            Leading::Pawn(square) => pawns_before(file, 0, square.rank() as usize - 1),
            Leading::Pawns(numbers) => pawns_number(file, numbers.as_slice()),
            Leading::Three(first, second, third) => three_number(*first, *second, *third),
            Leading::Kings(first, second) => kings_number(*first, *second),
        }
    }

    /// Puts the men's squares among those of earlier men, of whom there are none.
    pub(crate) fn stand(&self, earlier: &mut Earlier)
        requires none { earlier.old ≡ [] }
        requires wanted { (file : ℕ) × StandAsWanted file self.now }
        ensures { earlier.new ≡ leading_squares self.now }
    {
        match self {
            Leading::Pawn(square) => earlier.push(*square),
            Leading::Pawns(numbers) => stand_pawns(numbers.as_slice(), earlier),
            Leading::Three(first, second, third) => {
                earlier.push(*first);
                earlier.push(*second);
                earlier.push(*third);
            }
            Leading::Kings(first, second) => {
                earlier.push(*first);
                earlier.push(*second);
            }
        }
    }
}

/// Puts the squares of these pawn numbers among those of earlier men, of whom there are none.
fn stand_pawns(numbers: &[u8], earlier: &mut Earlier)
    requires none { earlier.old ≡ [] }
    requires few { length numbers.now ≤ 3 }
    requires pawns { (k : ℕ) → k < length numbers.now → slice_index numbers.now k < 48 }
    ensures { earlier.new ≡ map pawn_square numbers.now }
{
    for number in numbers {
        earlier.push(pawn_square(*number));
    }
}

/// The leading pawns.
fn leading_pawns(turned: &Turned) -> Leading
    requires { has_pawns turned.now.shape.material ≡ true }
    ensures { AreLeading turned.now result }
{
    let material = turned.shape().material();
    if leading_men(material) != 1 {
        let numbers = turned.pawn_numbers();
        return Leading::Pawns(numbers);
    }
    let square = turned.square_of(leading_pawn(material));
    Leading::Pawn(square)
}

/// The leading men of a table without pawns.
fn leading_pieces(turned: &Turned) -> Leading
    requires { has_pawns turned.now.shape.material ≡ false }
    ensures { AreLeading turned.now result }
{
    let shape = turned.shape();
    let material = shape.material();
    let pieces = shape.pieces();
    let first = turned.square_of(pieces[0]);
    let second = turned.square_of(pieces[1]);
    if leading_men(material) != 3 {
        return Leading::Kings(first, second);
    }
    let third = turned.square_of(pieces[2]);
    Leading::Three(first, second, third)
}
