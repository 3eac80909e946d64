//! The men of a position, and their codes.

ghost use Rattle.std.specs.Prelude.{◌≡◌, ◌≤◌, ◌∷◌, [], length, take};
ghost use Rattle.place_index.specs.Material.{tally_of};
ghost use Rattle.place_index.specs.Men.{codes_of, exchanged, other_side};
ghost use Rattle.place_index.specs.Placed.{men_on};
ghost use Rattle.place_index.specs.Square.{bottom_top};

use crate::man::Man;
use crate::piece_code::PieceCode;
use crate::tables::CODE_TALLIES;
use board_core::{Position, Square};

/// What a man with this code adds to a tally.
fn known_tally(code: PieceCode) -> u64
    ensures is { result ≡ tally_of (code ∷ []) }
    ensures most { result ≤ 1152921504606846976 }
{
    CODE_TALLIES[code.number() as usize]
}

/// Puts the men of a position into the first places in order of square, and returns their number and tally. The tally
/// says how often each code from 0 to 15 stands among them, four bits for each.
// Inlined, it would keep the men in registers and take a tenth more instructions.
#[inline(never)]
pub(crate) fn men_on(position: &Position, men: &mut [Man; 5]) -> (usize, u64)
    requires { length (men_on position.now.men) ≤ 5 }
    ensures men { take result.0 men.new ≡ men_on position.now.men }
    ensures few { result.0 ≤ 5 }
    ensures tally { result.1 ≡ tally_of (codes_of (men_on position.now.men)) }
{
    // The condition that it is a position serves the proof alone.
    let _position = position.parts();
    let mut tally = 0u64;
    let mut rest = position.occupied();
    // The first square not yet visited. It serves the proof alone.
    let mut next = 0u8;
    for count in 0..5usize {
        if rest.is_empty() {
            return (count, tally);
        }
        let square = rest.lowest();
        let number = square.number();
        let Some(piece) = position.piece_at(square) else {
            unreachable!()
        };
        let code = PieceCode::of(piece);
        // Written part by part: two instructions fewer than a man at once.
        men[count].code = code;
        men[count].square = square;
        tally += known_tally(code);
        rest = rest.without(square);
        next = number + 1;
    }
    (5, tally)
}

/// The man as one of the other side, on the rank that lies opposite.
fn exchanged(man: Man) -> Man
    ensures code { result.code ≡ other_side man.code }
    ensures square { result.square ≡ bottom_top man.square }
{
    let code = man.code.of_other_side();
    let square = Square::at(man.square.number() ^ 56);
    Man { code, square }
}

/// Exchanges colours, and moves each man to the rank that lies opposite.
pub(crate) fn exchange(men: &mut [Man])
    ensures { men.new ≡ exchanged men.old }
{
    for man in men.iter_mut() {
        *man = exchanged(*man);
    }
}
