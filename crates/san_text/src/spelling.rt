//! What a text tells.

ghost use Rattle.std.specs.Prelude.{◌≡◌};
ghost use Rattle.san_text.specs.Told.{IsBelowEight};
ghost use Rattle.san_text.specs.Inside.Scan.{is_short, past_three, is_longer, castles_before, castling_by, square_alone, after_origin, after_kind, told_by_text};

use crate::marks::{are_marks, with_tail};
use crate::scan::{past_two, square_in_front, take_between, take_file, take_kind, take_rank};
use crate::told::{ManTold, Told};
use board_core::{Kind, Square, Wing};

/// Whether the text begins with castling to the king's wing, by this sign.
fn is_short(text: &[u8], sign: u8) -> bool
    ensures { result ≡ is_short sign text.now }
{
    match text {
        [a, b'-', c, ..] => *a == sign && *c == sign,
        _ => false,
    }
}

/// The text behind three bytes.
fn past_three(text: &[u8]) -> &[u8]
    ensures { result.now ≡ past_three text.now }
{
    match text {
        [_, _, _, rest @ ..] => rest,
        _ => &text[..0],
    }
}

/// Whether castling goes on to that to the queen's wing.
fn is_longer(text: &[u8], sign: u8) -> bool
    ensures { result ≡ is_longer sign text.now }
{
    match text {
        [b'-', b, ..] => *b == sign,
        _ => false,
    }
}

/// Castling, where nothing but marks stands behind it.
fn castles_before(wing: Wing, text: &[u8]) -> Option<Told>
    ensures { result ≡ castles_before wing text.now }
{
    if are_marks(text) {
        Some(Told::Castles(wing))
    } else {
        None
    }
}

/// Castling by this sign, O or 0, with which the text begins.
fn castling_by(text: &[u8], sign: u8) -> Option<Told>
    ensures { result ≡ castling_by sign text.now }
{
    let rest = past_three(text);
    if is_longer(rest, sign) {
        castles_before(Wing::QueenSide, past_two(rest))
    } else {
        castles_before(Wing::KingSide, rest)
    }
}

/// The move of a man to the square whose file and rank were read, with the text behind it.
fn square_alone(kind: Kind, file: Option<u8>, rank: Option<u8>, text: &[u8]) -> Option<Told>
    requires file { IsBelowEight file }
    requires rank { IsBelowEight rank }
    ensures { result ≡ square_alone kind file rank text.now }
{
    let Some(file) = file else {
        return None;
    };
    let Some(rank) = rank else {
        return None;
    };
    let man = ManTold {
        kind,
        file: None,
        rank: None,
        takes: false,
        to: Square::at(8 * rank + file),
        promotion: None,
        en_passant: false,
    };
    with_tail(man, text)
}

/// The move of a man, with the text behind the file and the rank that were read.
fn after_origin(kind: Kind, file: Option<u8>, rank: Option<u8>, text: &[u8]) -> Option<Told>
    requires file { IsBelowEight file }
    requires rank { IsBelowEight rank }
    ensures { result ≡ after_origin kind file rank text.now }
{
    let (takes, rest) = take_between(text, file.is_some() && rank.is_some());
    match square_in_front(rest) {
        Some(to) => {
            let man = ManTold {
                kind,
                file,
                rank,
                takes,
                to,
                promotion: None,
                en_passant: false,
            };
            with_tail(man, past_two(rest))
        }
        None => square_alone(kind, file, rank, text),
    }
}

/// The move of a man, with the text behind his letter.
fn after_kind(kind: Kind, text: &[u8]) -> Option<Told>
    ensures { result ≡ after_kind kind text.now }
{
    let (file, rest) = take_file(text);
    let (rank, rest) = take_rank(rest);
    after_origin(kind, file, rank, rest)
}

/// What a text tells; none where it has no form of the notation.
#[tactic(auto, unfolding(crate::specs::Inside::Scan::told_by_text))]
pub(crate) fn told_by_text(text: &[u8]) -> Option<Told>
    ensures { result ≡ told_by_text text.now }
{
    if is_short(text, b'O') {
        return castling_by(text, b'O');
    }
    if is_short(text, b'0') {
        return castling_by(text, b'0');
    }
    let (kind, rest) = take_kind(text);
    after_kind(kind, rest)
}
