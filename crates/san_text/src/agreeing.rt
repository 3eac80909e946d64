//! Which moves agree with what a text tells.

ghost use Rattle.std.specs.Prelude.{◌≡◌, ◌≢◌, ◌↔◌, ◌<◌, ℕ, IsTrue, IfSome, IfNone, IfOk, IfErr, None};
ghost use Rattle.board_core.specs.Square.{file_of, rank_of};
ghost use Rattle.board_core.specs.Moves.{IsLegal, Stands};
ghost use Rattle.board_core.specs.ComputedMoves.{is_capture, is_en_passant};
ghost use Rattle.std.specs.Int.{bit_at};
ghost use Rattle.san_text.specs.Agrees.{wing_by_files, castling, IsNumberTold, file_told, AgreesMan};
ghost use Rattle.san_text.specs.Inside.Movers.{told_move, IsToldFrom, IsToldSo, MayBeMeant, IsMoverFault};

use crate::fault::SanFault;
use crate::told::ManTold;
use board_core::{Bitboard, Kind, Move, Position, Square, Wing};

/// The wing to which a king castles who goes from one file to another.
fn wing_by_files(from: u8, to: u8) -> Option<Wing>
    requires from { from < 8 }
    requires to { to < 8 }
    ensures { result ≡ wing_by_files from to }
{
    if to == from + 2 {
        Some(Wing::KingSide)
    } else if from == to + 2 {
        Some(Wing::QueenSide)
    } else {
        None
    }
}

/// Whether a man of this side and kind stands there.
pub(crate) fn stands(position: &Position, square: Square, kind: Kind) -> bool
    ensures { IsTrue result ↔ Stands position.now.men square position.now.side kind }
{
    match position.piece_at(square) {
        Some(man) => man.is(position.side(), kind),
        None => false,
    }
}

/// The wing to which the move castles.
pub(crate) fn castling(position: &Position, m: &Move) -> Option<Wing>
    ensures { result ≡ castling position.now m.now }
{
    if !stands(position, m.from, Kind::King) {
        return None;
    }
    wing_by_files(m.from.file(), m.to.file())
}

/// Whether a pawn leaves its file.
fn leaves_file(position: &Position, m: &Move) -> bool
    ensures { IsTrue result ↔ (file_of m.now.from ≢ file_of m.now.to
        × Stands position.now.men m.now.from position.now.side Kind.Pawn) }
{
    m.from.file() != m.to.file() && stands(position, m.from, Kind::Pawn)
}

/// Whether a legal move takes a man: one stands on its square, or a pawn leaves its file.
pub(crate) fn is_capture(position: &Position, m: &Move) -> bool
    requires { IsLegal position.now m.now }
    ensures { result ≡ is_capture position.now m.now }
{
    if position.piece_at(m.to).is_some() {
        return true;
    }
    leaves_file(position, m)
}

/// Whether a legal move takes a pawn en passant: a pawn leaves its file, to an empty square.
fn is_en_passant(position: &Position, m: &Move) -> bool
    requires { IsLegal position.now m.now }
    ensures { result ≡ is_en_passant position.now m.now }
{
    if position.piece_at(m.to).is_some() {
        return false;
    }
    leaves_file(position, m)
}

/// Whether a number that is told is this one.
fn is_number_told(told: Option<u8>, n: u8) -> bool
    ensures { IsTrue result ↔ IsNumberTold told n }
{
    match told {
        Some(told) => n == told,
        None => true,
    }
}

/// The file that is told of the square that a man leaves.
fn file_told(man: &ManTold) -> Option<u8>
    ensures { result ≡ file_told man.now.kind man.now.file man.now.to }
{
    match (man.file, man.kind) {
        (None, Kind::Pawn) => Some(man.to.file()),
        (file, _) => file,
    }
}

/// Whether the man on this square is told, and the square that he leaves.
fn is_told_from(position: &Position, man: &ManTold, from: Square) -> bool
    ensures { IsTrue result ↔ IsToldFrom position.now man.now from }
{
    stands(position, from, man.kind)
        && is_number_told(file_told(man), from.file())
        && is_number_told(man.rank, from.rank())
}

/// Whether what else is told of a legal move is so.
fn is_told_so(position: &Position, man: &ManTold, m: &Move) -> bool
    requires { IsLegal position.now m.now }
    ensures { IsTrue result ↔ IsToldSo position.now man.now m.now }
{
    (!man.takes || is_capture(position, m))
        && (!man.en_passant || is_en_passant(position, m))
        && castling(position, m).is_none()
}

/// Whether the move that is told, from this square, is legal and agrees with what is told.
fn may_be_meant(position: &Position, man: &ManTold, from: Square) -> bool
    ensures { IsTrue result ↔ MayBeMeant position.now man.now from }
{
    if !is_told_from(position, man, from) {
        return false;
    }
    let m = Move {
        from,
        to: man.to,
        promotion: man.promotion,
    };
    position.is_legal(m) && is_told_so(position, man, &m)
}

/// The first square of a set from which a move is meant, and those of the set after it.
///
/// `next` is the next square of the sweep. It is a variable of its own because the proofs name it.
pub(crate) fn next_mover(
    position: &Position,
    man: &ManTold,
    within: Bitboard,
) -> Option<(Square, Bitboard)>
    ensures meant { IfSome result (λ x. MayBeMeant position.now man.now x.0) }
    ensures within { IfSome result (λ x. bit_at within x.0 ≡ 1) }
    ensures after { IfSome result (λ x. (s : ℕ) → bit_at x.1 s ≡ 1 → s ≢ x.0) }
    ensures rest { IfSome result (λ x. (s : ℕ) → s < 64 → bit_at within s ≡ 1
        → MayBeMeant position.now man.now s → s ≢ x.0 → bit_at x.1 s ≡ 1) }
    ensures none { IfNone result ((s : ℕ) → s < 64 → bit_at within s ≡ 1
        → MayBeMeant position.now man.now s → ⊥) }
{
    let mut rest = within;
    let mut next = 0u8;
    'movers: while !rest.is_empty() {
        let from = rest.lowest();
        rest = rest.without(from);
        if may_be_meant(position, man, from) {
            return Some((from, rest));
        }
        next = from.number() + 1;
    }
    None
}

/// The one square from which a move is meant.
pub(crate) fn only_mover(position: &Position, man: &ManTold) -> Result<Square, SanFault>
    ensures ok { IfOk result (λ s. MayBeMeant position.now man.now s) }
    ensures only { IfOk result (λ s. (t : ℕ) → MayBeMeant position.now man.now t → t ≡ s) }
    ensures err { IfErr result (IsMoverFault position.now man.now) }
{
    let Some((first, rest)) = next_mover(position, man, position.occupied()) else {
        return Err(SanFault::NoMove);
    };
    match next_mover(position, man, rest) {
        Some(_) => Err(SanFault::Ambiguous),
        None => Ok(first),
    }
}
