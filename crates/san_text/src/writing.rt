//! Writing the text of a move.

ghost use Rattle.std.specs.Prelude.{◌≡◌, ◌≤◌, ◌<◌, ◌+◌, ◌++◌, ◌↔◌, length, IfSome, IsSome};
ghost use Rattle.arrayvec.specs.ArrayString.{array_string_len};
ghost use Rattle.board_core.specs.Moves.{IsLegal};
ghost use Rattle.san_text.specs.declared.told.Told.{Told};
ghost use Rattle.san_text.specs.Inside.Written.{IsWithinSeven};
ghost use Rattle.san_text.specs.Told.{IsBelowEight, kind_text, file_letter, rank_digit, takes_text, square_text, promoted_text, castles_text, told_text};
ghost use Rattle.san_text.specs.Written.{kind_moved, man_told, san_told, check_mark, san_of};

use crate::agreeing::{castling, is_capture};
use crate::answering::has_answer;
use crate::origin::{file_by, origin_told, rank_by};
use crate::told::{ManTold, Told};
use arrayvec::ArrayString;
use board_core::{Kind, Move, Position, Promotion, Square, Wing};

/// The kind of the man that moves.
fn kind_moved(position: &Position, m: &Move) -> Kind
    ensures { result ≡ kind_moved position.now m.now }
{
    match position.piece_at(m.from) {
        Some(man) => man.kind,
        None => Kind::Pawn,
    }
}

/// What the text of a legal move of a man tells.
fn man_told(position: &Position, m: &Move) -> ManTold
    requires { IsLegal position.now m.now }
    ensures { result ≡ man_told position.now m.now }
{
    let kind = kind_moved(position, m);
    let takes = is_capture(position, m);
    let apart = origin_told(position, m, kind, takes);
    ManTold {
        kind,
        file: file_by(apart, m.from),
        rank: rank_by(apart, m.from),
        takes,
        to: m.to,
        promotion: m.promotion,
        en_passant: false,
    }
}

/// What the text of a legal move tells.
#[tactic(auto, unfolding(crate::specs::Written::san_told))]
fn san_told(position: &Position, m: &Move) -> Told
    requires { IsLegal position.now m.now }
    ensures value { result ≡ san_told position.now m.now }
    ensures short { IsWithinSeven result }
{
    match castling(position, m) {
        Some(wing) => Told::Castles(wing),
        None => Told::Goes(man_told(position, m)),
    }
}

/// The letter of a man, and nothing for a pawn.
fn kind_letter(kind: Kind) -> &'static str
    ensures { result.now ≡ kind_text kind }
{
    match kind {
        Kind::Pawn => "",
        Kind::Knight => "N",
        Kind::Bishop => "B",
        Kind::Rook => "R",
        Kind::Queen => "Q",
        Kind::King => "K",
    }
}

/// A promotion behind a sign of equality, and nothing where there is none.
fn promotion_sign(promotion: Option<Promotion>) -> &'static str
    ensures { result.now ≡ promoted_text promotion }
{
    match promotion {
        None => "",
        Some(Promotion::Queen) => "=Q",
        Some(Promotion::Rook) => "=R",
        Some(Promotion::Bishop) => "=B",
        Some(Promotion::Knight) => "=N",
    }
}

/// The letter O for each square that the king's way has, with dashes between.
fn castling_sign(wing: Wing) -> &'static str
    ensures { result.now ≡ castles_text wing }
{
    match wing {
        Wing::KingSide => "O-O",
        Wing::QueenSide => "O-O-O",
    }
}

/// Writes the letter of a file, where there is one.
fn push_file(file: Option<u8>, out: &mut ArrayString<8>)
    requires below { IsBelowEight file }
    requires room { array_string_len out.old < 8 }
    ensures { out.new.bytes ≡ out.old.bytes ++ file_letter file }
{
    if let Some(file) = file {
        out.push((b'a' + file) as char);
    }
}

/// Writes the digit of a rank, where there is one.
fn push_rank(rank: Option<u8>, out: &mut ArrayString<8>)
    requires below { IsBelowEight rank }
    requires room { array_string_len out.old < 8 }
    ensures { out.new.bytes ≡ out.old.bytes ++ rank_digit rank }
{
    if let Some(rank) = rank {
        out.push((b'1' + rank) as char);
    }
}

/// Writes a square: its file's letter and its rank's digit.
fn push_square(square: Square, out: &mut ArrayString<8>)
    requires room { array_string_len out.old < 7 }
    ensures { out.new.bytes ≡ out.old.bytes ++ square_text square }
{
    out.push((b'a' + square.file()) as char);
    out.push((b'1' + square.rank()) as char);
}

/// The sign of a capture.
fn takes_sign(takes: bool) -> &'static str
    ensures { result.now ≡ takes_text takes }
{
    if takes { "x" } else { "" }
}

/// Writes the letter of a man, and what is told of the square that he leaves.
fn push_origin(man: &ManTold, out: &mut ArrayString<8>)
    requires file { IsBelowEight man.now.file }
    requires rank { IsBelowEight man.now.rank }
    requires empty { array_string_len out.old ≡ 0 }
    ensures text { out.new.bytes ≡ kind_text man.now.kind ++ file_letter man.now.file ++ rank_digit man.now.rank }
{
    out.push_str(kind_letter(man.kind));
    push_file(man.file, out);
    push_rank(man.rank, out);
}

/// Writes what is told of a man.
fn push_man(man: &ManTold, out: &mut ArrayString<8>)
    requires file { IsBelowEight man.now.file }
    requires rank { IsBelowEight man.now.rank }
    requires short { length (told_text (Told.Goes man.now)) ≤ 7 }
    requires empty { array_string_len out.old ≡ 0 }
    ensures text { out.new.bytes ≡ told_text (Told.Goes man.now) }
{
    push_origin(man, out);
    out.push_str(takes_sign(man.takes));
    push_square(man.to, out);
    out.push_str(promotion_sign(man.promotion));
}

/// Writes what is told.
fn push_told(told: &Told, out: &mut ArrayString<8>)
    requires told { IsWithinSeven told.now }
    requires empty { array_string_len out.old ≡ 0 }
    ensures text { out.new.bytes ≡ told_text told.now }
    ensures len { array_string_len out.new ≤ 7 }
{
    match told {
        Told::Castles(wing) => out.push_str(castling_sign(*wing)),
        Told::Goes(man) => push_man(man, out),
    }
}

/// The mark behind the text of a move to this square: `#` for checkmate, `+` for another check.
fn mark(after: &Position, to: Square) -> &'static str
    ensures mark { result.now ≡ check_mark after.now }
    ensures len { length result.now ≤ 1 }
{
    if !after.in_check() {
        return "";
    }
    if has_answer(after, to) { "+" } else { "#" }
}

/// Writes the text of a move (PGN standard, section 8.2.3), of two to seven bytes; none where the move isn't legal.
///
/// It has the letter of the man, none for a pawn; what tells him apart from others of his kind that can go there by a
/// legal move; `x` for a capture; the square; `=` and a letter for a promotion; or `O-O` or `O-O-O` for castling. `#` stands
/// behind it for checkmate, and `+` for another check.
pub fn write_san(position: &Position, m: Move) -> Option<ArrayString<8>>
    ensures value { IfSome result (λ t. t.bytes ≡ san_of position.now m) }
    ensures legal { IsSome result ↔ IsLegal position.now m }
{
    let Some(after) = position.play(m) else {
        return None;
    };
    let mut text = ArrayString::new();
    push_told(&san_told(position, &m), &mut text);
    text.push_str(mark(&after, m.to));
    Some(text)
}
