//! The pieces of a text, each taken off its front.

ghost use Rattle.std.specs.Prelude.{◌≡◌, ◌<◌, Some, None, Option, ℕ};
ghost use Rattle.san_text.specs.Told.{IsBelowEight};
ghost use Rattle.san_text.specs.Inside.Scan.{kind_by, kind_in_front, past_kind, is_file, is_rank, file_in_front, past_file, rank_in_front, past_rank, takes_in_front, past_between, square_in_front, past_two};

use board_core::{Kind, Square};

/// Whether a byte is the letter of a file.
fn is_file(c: u8) -> bool
    ensures { result ≡ is_file c }
{
    c >= b'a' && c <= b'h'
}

/// Whether a byte is the digit of a rank.
fn is_rank(c: u8) -> bool
    ensures { result ≡ is_rank c }
{
    c >= b'1' && c <= b'8'
}

/// The kind of man that a letter stands for.
fn kind_by(c: u8) -> Option<Kind>
    ensures { result ≡ kind_by c }
{
    match c {
        b'N' => Some(Kind::Knight),
        b'B' => Some(Kind::Bishop),
        b'R' => Some(Kind::Rook),
        b'Q' => Some(Kind::Queen),
        b'K' => Some(Kind::King),
        b'P' => Some(Kind::Pawn),
        _ => None,
    }
}

/// The kind of man by the letter at the front, a pawn where there is none; and the text behind it.
pub(crate) fn take_kind(text: &[u8]) -> (Kind, &[u8])
    ensures kind { result.0 ≡ kind_in_front text.now }
    ensures rest { result.1.now ≡ past_kind text.now }
{
    match text {
        [c, rest @ ..] => match kind_by(*c) {
            Some(kind) => (kind, rest),
            None => (Kind::Pawn, text),
        },
        _ => (Kind::Pawn, text),
    }
}

/// The file at the front, and the text behind it.
pub(crate) fn take_file(text: &[u8]) -> (Option<u8>, &[u8])
    ensures file { result.0 ≡ file_in_front text.now }
    ensures rest { result.1.now ≡ past_file text.now }
    ensures below { IsBelowEight result.0 }
{
    match text {
        [c, rest @ ..] if is_file(*c) => (Some(*c - b'a'), rest),
        _ => (None, text),
    }
}

/// The rank at the front, and the text behind it.
pub(crate) fn take_rank(text: &[u8]) -> (Option<u8>, &[u8])
    ensures rank { result.0 ≡ rank_in_front text.now }
    ensures rest { result.1.now ≡ past_rank text.now }
    ensures below { IsBelowEight result.0 }
{
    match text {
        [c, rest @ ..] if is_rank(*c) => (Some(*c - b'1'), rest),
        _ => (None, text),
    }
}

/// Whether an x stands at the front, and the text behind it, or behind a dash where the origin is a whole square.
pub(crate) fn take_between(text: &[u8], whole: bool) -> (bool, &[u8])
    ensures takes { result.0 ≡ takes_in_front text.now }
    ensures rest { result.1.now ≡ past_between whole text.now }
{
    match text {
        [b'x', rest @ ..] => (true, rest),
        [b'-', rest @ ..] if whole => (false, rest),
        _ => (false, text),
    }
}

/// The square at the front.
pub(crate) fn square_in_front(text: &[u8]) -> Option<Square>
    ensures { result ≡ square_in_front text.now }
{
    match text {
        [c, d, ..] if is_file(*c) && is_rank(*d) => {
            Some(Square::at(8 * (*d - b'1') + (*c - b'a')))
        }
        _ => None,
    }
}

/// The text behind two bytes.
pub(crate) fn past_two(text: &[u8]) -> &[u8]
    ensures { result.now ≡ past_two text.now }
{
    match text {
        [_, _, rest @ ..] => rest,
        _ => &text[..0],
    }
}
