//! The second, third and fourth fields: the side to move, the castling rights and the en passant
//! square.

ghost use Rattle.std.specs.Prelude.{◌≡◌, ◌<◌, ◌∷◌, [], ℕ, Option, IfSome, IfNone};
ghost use Rattle.board_core.specs.declared.piece.Side.{Side};
ghost use Rattle.board_core.specs.declared.parts.Rights.{Rights};
ghost use Rattle.fen_text.specs.Fields.{SpellsSide, SpellsCastling, SpellsEnPassant, square_text};
ghost use Rattle.fen_text.specs.Inside.Scan.{begins, past_letter};

use board_core::{Rights, Side, Square};

/// The side to move: `w` or `b`.
pub(crate) fn read_side(text: &[u8]) -> Option<Side>
    ensures some { IfSome result (λ side. SpellsSide text.now side) }
    ensures none { IfNone result ((side : Side) → SpellsSide text.now side → ⊥) }
{
    match text {
        [b'w'] => Some(Side::White),
        [b'b'] => Some(Side::Black),
        _ => None,
    }
}

/// Takes a letter off the front of a text, where it stands there.
fn strip_letter(text: &[u8], letter: u8) -> (bool, &[u8])
    ensures found { result.0 ≡ begins letter text.now }
    ensures rest { result.1.now ≡ past_letter letter text.now }
{
    match text {
        [first, rest @ ..] if *first == letter => (true, rest),
        _ => (false, text),
    }
}

/// The castling rights: `-`, or a non-empty part of `KQkq` in this order.
pub(crate) fn read_castling(text: &[u8]) -> Option<Rights>
    ensures some { IfSome result (λ rights. SpellsCastling text.now rights) }
    ensures none { IfNone result ((rights : Rights) → SpellsCastling text.now rights → ⊥) }
{
    if let [b'-'] = text {
        return Some(Rights {
            white_king: false,
            white_queen: false,
            black_king: false,
            black_queen: false,
        });
    }
    let (white_king, rest) = strip_letter(text, b'K');
    let (white_queen, rest) = strip_letter(rest, b'Q');
    let (black_king, rest) = strip_letter(rest, b'k');
    let (black_queen, rest) = strip_letter(rest, b'q');
    if text.is_empty() || !rest.is_empty() {
        return None;
    }
    Some(Rights {
        white_king,
        white_queen,
        black_king,
        black_queen,
    })
}

/// The square of a file's letter and a rank's digit.
pub(crate) fn read_square(file: u8, rank: u8) -> Option<Square>
    ensures some { IfSome result (λ s. file ∷ rank ∷ [] ≡ square_text s) }
    ensures none { IfNone result ((s : ℕ) → s < 64 → file ∷ rank ∷ [] ≡ square_text s → ⊥) }
{
    if file < b'a' || file > b'h' || rank < b'1' || rank > b'8' {
        return None;
    }
    Square::new(8 * (rank - b'1') + (file - b'a'))
}

/// The en passant square, or `-` for none.
pub(crate) fn read_en_passant(text: &[u8]) -> Option<Option<Square>>
    ensures some { IfSome result (λ square. SpellsEnPassant text.now square) }
    ensures none { IfNone result ((square : Option ℕ) → SpellsEnPassant text.now square → ⊥) }
{
    match text {
        [b'-'] => Some(None),
        [file, rank] => match read_square(*file, *rank) {
            Some(square) => Some(Some(square)),
            None => None,
        },
        _ => None,
    }
}
