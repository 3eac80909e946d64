//! Coordinate text of moves.

ghost use Rattle.std.specs.Prelude.{◌≡◌, ◌<◌, ◌∷◌, [], IfSome, IfNone};
ghost use Rattle.board_core.specs.declared.moves.Move.{Move};
ghost use Rattle.board_core.specs.declared.piece.Promotion.{Promotion};
ghost use Rattle.fen_text.specs.Coordinates.{promotion_text, move_text, SpellsMove};

use crate::fields::read_square;
use crate::writing::square_name;
use arrayvec::ArrayString;
use board_core::{Move, Promotion};

/// The promotion that a letter stands for.
fn read_promotion(letter: u8) -> Option<Promotion>
    ensures some { IfSome result (λ kind. letter ∷ [] ≡ promotion_text (Some kind)) }
    ensures none { IfNone result
        ((kind : Promotion) → letter ∷ [] ≡ promotion_text (Some kind) → ⊥) }
{
    match letter {
        b'q' => Some(Promotion::Queen),
        b'r' => Some(Promotion::Rook),
        b'b' => Some(Promotion::Bishop),
        b'n' => Some(Promotion::Knight),
        _ => None,
    }
}

/// The move between two squares that are named by their files and ranks.
fn read_squares(from: (u8, u8), to: (u8, u8), promotion: Option<Promotion>) -> Option<Move>
    ensures some { IfSome result
        (SpellsMove (from.0 ∷ from.1 ∷ to.0 ∷ to.1 ∷ promotion_text promotion)) }
    ensures only { (m : Move)
        → SpellsMove (from.0 ∷ from.1 ∷ to.0 ∷ to.1 ∷ promotion_text promotion) m
        → result ≡ Some m }
{
    let Some(from) = read_square(from.0, from.1) else {
        return None;
    };
    let Some(to) = read_square(to.0, to.1) else {
        return None;
    };
    Some(Move {
        from,
        to,
        promotion,
    })
}

/// Reads a move: the names of its two squares, and after them `q`, `r`, `b` or `n` for a promotion.
///
/// Castling is the move of the king. Any two squares make a move here, whether or not a position has it. `None` where
/// the text is not exactly that of a move.
pub fn read_move(text: &[u8]) -> Option<Move>
    ensures some { IfSome result (SpellsMove text.now) }
    ensures only { (m : Move) → SpellsMove text.now m → result ≡ Some m }
{
    match text {
        [a, b, c, d] => read_squares((*a, *b), (*c, *d), None),
        [a, b, c, d, letter] => match read_promotion(*letter) {
            Some(kind) => read_squares((*a, *b), (*c, *d), Some(kind)),
            None => None,
        },
        _ => None,
    }
}

/// The letter of a promotion, and nothing where there is none.
fn promotion_letter(promotion: Option<Promotion>) -> &'static str
    ensures { result.now ≡ promotion_text promotion }
{
    match promotion {
        None => "",
        Some(Promotion::Queen) => "q",
        Some(Promotion::Rook) => "r",
        Some(Promotion::Bishop) => "b",
        Some(Promotion::Knight) => "n",
    }
}

/// Writes a move: the names of its two squares, and the letter of its promotion.
pub fn write_move(m: &Move) -> ArrayString<5>
    ensures { result.bytes ≡ move_text m.now }
{
    let mut text = ArrayString::new();
    text.push_str(square_name(m.from).as_str());
    text.push_str(square_name(m.to).as_str());
    text.push_str(promotion_letter(m.promotion));
    text
}
