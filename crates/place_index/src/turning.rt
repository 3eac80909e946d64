//! The turning of all men, so that the leading group stands as its number wants.

ghost use Rattle.std.specs.Prelude.{◌≡◌, ◌≢◌, ◌<◌, ◌≤◌, ℕ, length, map, not, nat_lt, slice_index, true};
ghost use Rattle.place_index.specs.Inside.Groups.{AreMen, AreLoneSquares};
ghost use Rattle.place_index.specs.Index.{IsPlacement, IsShape, lead_codes};
ghost use Rattle.place_index.specs.Men.{stands};
ghost use Rattle.place_index.specs.Pawns.{pawn_number, pawn_numbers_of};
ghost use Rattle.place_index.specs.Shape.{has_pawns};
ghost use Rattle.place_index.specs.Square.{file, rank};
ghost use Rattle.place_index.specs.Turning.{lead_pawn, turned};
ghost use Rattle.place_index.specs.Inside.Turns.{turned_by, turn_square, low, is_first_above};

use crate::lone_squares::LoneSquares;
use crate::man::Man;
use crate::material::{Material, leading_men, leading_pawn};
use crate::piece_code::PieceCode;
use crate::placed::Placed;
use crate::shape::Shape;
use crate::squares::{pawn_number, pawn_square};
use crate::turn::Turn;
use board_core::Square;

/// The greater of this number and the man's pawn number, which counts for a man with this code alone.
fn raised(greatest: u8, man: Man, code: PieceCode) -> u8
    ensures other { man.code ≢ code → result ≡ greatest }
    ensures more { man.code ≡ code → greatest < pawn_number man.square → result ≡ pawn_number man.square }
    ensures same { man.code ≡ code → pawn_number man.square ≤ greatest → result ≡ greatest }
{
    if man.code != code {
        return greatest;
    }
    let number = pawn_number(man.square);
    if number > greatest { number } else { greatest }
}

/// The greatest pawn number of the men with this code.
fn greatest_number(men: &[Man], code: PieceCode) -> u8
    requires men { AreMen men.now }
    requires pawns { (s : ℕ) → stands men.now code s ≡ true → (8 ≤ s) × (s < 56) }
    ensures { result ≡ slice_index (pawn_numbers_of men.now code) 0 }
{
    let mut greatest = 0u8;
    let mut i = men.len();
    // The loop invariant names this label.
    'men: while i > 0 {
        i -= 1;
        greatest = raised(greatest, men[i], code);
    }
    greatest
}

/// The square of the leading pawn: of the leading colour's pawns the one with the greatest pawn number.
pub(crate) fn lead_pawn(material: Material, men: &[Man]) -> Square
    requires placed { IsPlacement material men.now }
    requires pawned { has_pawns material ≡ true }
    ensures { result ≡ lead_pawn material men.now }
{
    let code = leading_pawn(material);
    let greatest = greatest_number(men, code);
    pawn_square(greatest)
}

/// The codes of the leading men, each once.
pub(crate) fn lead_codes(shape: &Shape) -> &[PieceCode]
    ensures { result.now ≡ lead_codes shape.now }
{
    let material = shape.material();
    let pieces = shape.pieces();
    if material.has_pawns() {
        return &pieces[..1];
    }
    let lead = leading_men(material);
    &pieces[..lead as usize]
}

/// Whether the first of the leading men off the diagonal a1-h8, if there is one, stands above it after the turn.
fn is_above(lone_squares: &LoneSquares, turn: Turn, lead: &[PieceCode]) -> bool
    ensures { result ≡ is_first_above (map (λ c. turn_square turn (slice_index lone_squares.now c)) lead.now) }
{
    for code in lead {
        let from = lone_squares.of(*code);
        let square = turn.square(from);
        let file = square.file();
        let rank = square.rank();
        if file != rank {
            return file < rank;
        }
    }
    false
}

/// The turn of pieces: the first of the leading men goes to the left and to the bottom, and then the first one off the
/// diagonal a1-h8 to below it.
fn turn_of_pieces(lone_squares: &LoneSquares, lead: &[PieceCode]) -> Turn
    requires { 1 ≤ length lead.now }
    ensures left_right { result.left_right ≡ not (nat_lt (file (slice_index lone_squares.now (slice_index lead.now 0))) 4) }
    ensures bottom_top { result.bottom_top ≡ not (nat_lt (rank (slice_index lone_squares.now (slice_index lead.now 0))) 4) }
    ensures across { result.across ≡ is_first_above (map (λ c. turn_square (low result) (slice_index lone_squares.now c)) lead.now) }
{
    let first = lone_squares.of(lead[0]);
    let mut turn = Turn::still();
    turn.left_right = first.file() >= 4;
    turn.bottom_top = first.rank() >= 4;
    let across = is_above(lone_squares, turn, lead);
    turn.across = across;
    turn
}

/// How all men are turned for the shape's index: with pawns left and right alone, by the leading pawn.
pub(crate) fn turn_of(shape: &Shape, placed: &Placed, lone_squares: &LoneSquares) -> Turn
    requires { AreLoneSquares placed.now.men lone_squares.now }
    ensures is { placed.now.material ≡ shape.now.material → turned_by result placed.now.men ≡ turned shape.now placed.now.men }
    ensures shape { IsShape shape.now }
{
    let material = shape.material();
    // The condition that the men are a placement serves the proof alone.
    let _men = placed.men();
    if material.has_pawns() {
        let lead = placed.lead_pawn();
        return Turn {
            left_right: lead.file() >= 4,
            bottom_top: false,
            across: false,
        };
    }
    let lead = lead_codes(shape);
    turn_of_pieces(lone_squares, lead)
}
