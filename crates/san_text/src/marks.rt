//! What stands behind the square: a promotion, e.p., signs of check, and glyphs.

ghost use Rattle.std.specs.Prelude.{◌≡◌};
ghost use Rattle.san_text.specs.Inside.Scan.{promotion_by, past_equals, promotion_in_front, past_promotion, letter_in_front, past_promotion_letter, passes_in_front, past_passing, past_plus, past_check, is_glyph, are_glyphs, are_marks, with_tail};

use crate::told::{ManTold, Told};
use board_core::Promotion;

/// The promotion that a letter stands for.
fn promotion_by(c: u8) -> Option<Promotion>
    ensures { result ≡ promotion_by c }
{
    match c {
        b'Q' | b'q' => Some(Promotion::Queen),
        b'R' | b'r' => Some(Promotion::Rook),
        b'B' | b'b' => Some(Promotion::Bishop),
        b'N' | b'n' => Some(Promotion::Knight),
        _ => None,
    }
}

/// The text behind a sign of equality that stands before the letter of a promotion.
fn past_equals(text: &[u8]) -> &[u8]
    ensures { result.now ≡ past_equals text.now }
{
    match text {
        [b'=', letter, ..] if promotion_by(*letter).is_some() => &text[1..],
        _ => text,
    }
}

/// The promotion at the front, and the text behind it.
fn take_promotion(text: &[u8]) -> (Option<Promotion>, &[u8])
    ensures promotion { result.0 ≡ promotion_in_front text.now }
    ensures rest { result.1.now ≡ past_promotion text.now }
{
    let text = past_equals(text);
    match text {
        [c, rest @ ..] => match promotion_by(*c) {
            Some(kind) => (Some(kind), rest),
            None => (None, text),
        },
        _ => (None, text),
    }
}

/// Whether e.p. stands at the front, and the text behind it.
fn take_passing(text: &[u8]) -> (bool, &[u8])
    ensures passes { result.0 ≡ passes_in_front text.now }
    ensures rest { result.1.now ≡ past_passing text.now }
{
    match text {
        [b'e', b'.', b'p', b'.', rest @ ..] => (true, rest),
        _ => (false, text),
    }
}

/// The text behind a sign of check.
fn past_plus(text: &[u8]) -> &[u8]
    ensures { result.now ≡ past_plus text.now }
{
    match text {
        [b'+', rest @ ..] => rest,
        _ => text,
    }
}

/// The text behind a sign of check or mate.
fn past_check(text: &[u8]) -> &[u8]
    ensures { result.now ≡ past_check text.now }
{
    match text {
        [b'#', rest @ ..] => rest,
        [b'+', rest @ ..] => past_plus(rest),
        _ => text,
    }
}

/// Whether a byte is one of the two glyphs.
fn is_glyph(c: u8) -> bool
    ensures { result ≡ is_glyph c }
{
    c == b'!' || c == b'?'
}

/// Whether the text is at most two glyphs.
fn are_glyphs(text: &[u8]) -> bool
    ensures { result ≡ are_glyphs text.now }
{
    match text {
        [] => true,
        [c] => is_glyph(*c),
        [c, d] => is_glyph(*c) && is_glyph(*d),
        _ => false,
    }
}

/// Whether the text is nothing but a sign of check or mate and glyphs.
pub(crate) fn are_marks(text: &[u8]) -> bool
    ensures { result ≡ are_marks text.now }
{
    are_glyphs(past_check(text))
}

/// What is told of a man, with what the text behind his square tells.
pub(crate) fn with_tail(man: ManTold, text: &[u8]) -> Option<Told>
    ensures { result ≡ with_tail man text.now }
{
    let (promotion, rest) = take_promotion(text);
    let (en_passant, rest) = take_passing(rest);
    if !are_marks(rest) {
        return None;
    }
    Some(Told::Goes(ManTold {
        kind: man.kind,
        file: man.file,
        rank: man.rank,
        takes: man.takes,
        to: man.to,
        promotion,
        en_passant,
    }))
}
