//! The lexemes of a line (PGN standard, sections 7 and 8).

ghost use Rattle.std.specs.Prelude.{◌≡◌, ◌≤◌, ◌<◌, ◌+◌, ◌∷◌, Bool, length, take, drop, slice_index};
ghost use Rattle.pgn_games.specs.Lexemes.{is_number, lexed_in_line, lexed_tag, result_of, symbol_tells};
ghost use Rattle.pgn_games.specs.Tags.{tag_pair};
ghost use Rattle.pgn_games.specs.Inside.Scan.{lexeme_of};

use crate::bytes::{ByteKind, Class, kind_of, run_len};
use crate::game::GameResult;
use crate::tag_pair::{TagPair, tag_pair};

/// What a lexeme tells of a game.
#[derive(Clone, Copy)]
pub(crate) enum Lexeme<'a> {
    /// Nothing: spaces, a comment, a move's number, a glyph.
    Nothing,
    /// A tag pair.
    Tag(TagPair<'a>),
    /// A bracket that opens no tag pair.
    BadTag,
    /// The text of a move.
    MoveText(&'a [u8]),
    /// A variation begins.
    Begins,
    /// A variation ends.
    Ends,
    /// A result.
    Told(GameResult),
    /// What is no token.
    Stray,
    /// A comment that never ends.
    Endless,
    /// A line that is too long.
    TooLong,
}

/// The result that a symbol is.
fn result_of(text: &[u8]) -> Option<GameResult>
    ensures { result ≡ result_of text.now }
{
    if text == b"1-0".as_slice() {
        return Some(GameResult::WhiteWins);
    }
    if text == b"0-1".as_slice() {
        return Some(GameResult::BlackWins);
    }
    (text == b"1/2-1/2".as_slice()).then_some(GameResult::Draw)
}

/// Whether a symbol is the number of a move: digits alone, but for `0000`, as engines write a null move.
fn is_number(text: &[u8]) -> bool
    ensures { result ≡ is_number text.now }
{
    run_len(text, Class::Digit) == text.len() && text != b"0000".as_slice()
}

/// What a symbol tells.
fn symbol_tells(text: &[u8]) -> Lexeme<'_>
    ensures { (first : Bool) → lexeme_of first result ≡ symbol_tells text.now }
{
    if is_number(text) {
        return Lexeme::Nothing;
    }
    match result_of(text) {
        Some(result) => Lexeme::Told(result),
        None => Lexeme::MoveText(text),
    }
}

/// A tag pair behind a bracket, and its length with the bracket.
fn lex_tag(rest: &[u8]) -> (Lexeme<'_>, usize)
    ensures is { (first : Bool) → lexeme_of first result.0 ≡ (lexed_tag first rest.now (tag_pair rest.now)).tells }
    ensures size { (first : Bool) → result.1 ≡ (lexed_tag first rest.now (tag_pair rest.now)).more + 1 }
    ensures within { result.1 ≤ length rest.now + 1 }
{
    match tag_pair(rest) {
        Some(pair) => (Lexeme::Tag(pair), 1 + (rest.len() - pair.rest.len())),
        None => (Lexeme::BadTag, 1 + rest.len()),
    }
}

/// The lexeme of the line at this place, and its length.
pub(crate) fn lex(line: &[u8], place: usize) -> (Lexeme<'_>, usize)
    requires { place < length line.now }
    ensures is { (first : Bool) → lexeme_of first result.0 ≡ (lexed_in_line first (slice_index line.now place) (drop (place + 1) line.now)).tells }
    ensures size { (first : Bool) → result.1 ≡ (lexed_in_line first (slice_index line.now place) (drop (place + 1) line.now)).more + 1 }
    ensures within { place + result.1 ≤ length line.now }
    ensures byte { slice_index line.now place < 256 }
{
    let rest = &line[place + 1..];
    match kind_of(line[place]) {
        ByteKind::Blank => (Lexeme::Nothing, 1 + run_len(rest, Class::Blank)),
        ByteKind::Symbol => {
            let len = 1 + run_len(rest, Class::Symbol);
            (symbol_tells(&line[place..place + len]), len)
        }
        ByteKind::Opens => (Lexeme::Begins, 1),
        ByteKind::Closes => (Lexeme::Ends, 1),
        ByteKind::Bracket => lex_tag(rest),
        ByteKind::Semicolon => (Lexeme::Nothing, 1 + rest.len()),
        ByteKind::Star => (Lexeme::Told(GameResult::Unknown), 1),
        ByteKind::Dollar => (Lexeme::Nothing, 1 + run_len(rest, Class::Digit)),
        ByteKind::Other => (Lexeme::Stray, 1),
    }
}
