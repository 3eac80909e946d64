//! Moves as words of 16 bits.

ghost use Rattle.std.specs.Prelude.{◌≡◌, ◌≤◌, ◌<◌, IfSome, IfNone, Some};
ghost use Rattle.board_core.specs.declared.moves.Move.{Move};
ghost use Rattle.move_msg.specs.Words.{SpellsWord, greatest_word, promotion_number};

use board_core::{Move, Promotion, Square};

/// The number of a promotion in a word, 0 for none.
fn promotion_number(promotion: Option<Promotion>) -> u16
    ensures value { result ≡ promotion_number promotion }
    ensures few { result ≤ 4 }
{
    match promotion {
        None => 0,
        Some(Promotion::Queen) => 1,
        Some(Promotion::Rook) => 2,
        Some(Promotion::Bishop) => 3,
        Some(Promotion::Knight) => 4,
    }
}

/// The promotion with this number, 0 to 4, in a word.
fn promotion_of(number: u16) -> Option<Promotion>
    requires { number ≤ 4 }
    ensures { promotion_number result ≡ number }
{
    match number {
        0 => None,
        1 => Some(Promotion::Queen),
        2 => Some(Promotion::Rook),
        3 => Some(Promotion::Bishop),
        _ => Some(Promotion::Knight),
    }
}

/// The word of a move, 0 to 20479 (message format, words). It is the number of the square left, plus 64 times that of
/// the square entered. A promotion to queen, rook, bishop or knight adds 4096 times 1 to 4.
pub fn word(m: Move) -> u16
    ensures spells { SpellsWord result m }
    ensures bound { result ≤ greatest_word }
{
    let squares = m.from.number() as u16 + 64 * m.to.number() as u16;
    squares + 4096 * promotion_number(m.promotion)
}

/// The move that a word stands for; none above 20479.
pub fn of_word(word: u16) -> Option<Move>
    ensures some { IfSome result (SpellsWord word) }
    ensures none { IfNone result (greatest_word < word) }
    ensures only { (m : Move) → SpellsWord word m → result ≡ Some m }
{
    if word > 20479 {
        return None;
    }
    Some(Move {
        from: Square::at((word % 64) as u8),
        to: Square::at((word / 64 % 64) as u8),
        promotion: promotion_of(word / 4096),
    })
}
