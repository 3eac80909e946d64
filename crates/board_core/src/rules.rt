//! The rule of each case of moves, leaving the safety of the mover's king aside.

ghost use Rattle.std.specs.Prelude.{◌≡◌, ◌<◌, ◌≤◌, ◌↔◌, ◌+◌, ◌-◌, ℕ, IsTrue, IfSome, Option};
ghost use Rattle.board_core.specs.Attack.{Along, IsAttacked, man_at, forward};
ghost use Rattle.board_core.specs.Moves.{Stands, IsFree, IsTaken, Promotes, IsPlain, IsAdvance, IsDoubleStep, IsPawnCapture, IsEnPassant, IsCastle, IsCapture, IsLegal, IsMove, promotion_place, first_rank, last_rank, IsBetween, IsOnWay};
ghost use Rattle.board_core.specs.Side.{other};
ghost use Rattle.board_core.specs.Square.{rank_of};
ghost use Rattle.board_core.specs.Castling.{king_home, rook_home, king_end};

use crate::men::Men;
use crate::moves::{Move, MoveCase};
use crate::parts::Parts;
use crate::piece::{Kind, Side, Wing};
use crate::square::Square;
use crate::{attack, castling};

/// Whether a man of this side and kind stands on the square.
pub fn stands(men: &Men, square: Square, side: Side, kind: Kind) -> bool
    ensures { IsTrue result ↔ Stands men.now square side kind }
{
    match men.at(square) {
        Some(man) => man.is(side, kind),
        None => false,
    }
}

/// Whether no man stands on the square.
pub fn is_empty(men: &Men, square: Square) -> bool
    ensures { IsTrue result ↔ (man_at men.now square ≡ None) }
{
    men.at(square).is_none()
}

/// Whether a man of this side stands on the square.
pub fn is_taken(men: &Men, side: Side, square: Square) -> bool
    ensures taken { IsTrue result → IsTaken men.now side square }
    ensures free { (IsTrue result → ⊥) → IsFree men.now side square }
{
    match men.at(square) {
        Some(man) => man.is_of(side),
        None => false,
    }
}

/// Whether `to` is n squares before `from`, seen from this side.
fn is_ahead(side: Side, n: u8, from: Square, to: Square) -> bool
    requires { n < 8 }
    ensures { IsTrue result ↔ Along (forward side) n from to }
{
    from.file() == to.file()
        && match side {
            Side::White => to.rank() == from.rank() + n,
            Side::Black => to.rank() + n == from.rank(),
        }
}

/// The rank on which pawns of this side are promoted, counted from 0.
fn last_rank(side: Side) -> u8
    ensures { result ≡ last_rank side }
{
    match side {
        Side::White => 7,
        Side::Black => 0,
    }
}

fn first_rank(side: Side) -> u8
    ensures { result ≡ first_rank side }
{
    match side {
        Side::White => 1,
        Side::Black => 6,
    }
}

fn promotes(side: Side, m: &Move) -> bool
    ensures { IsTrue result ↔ Promotes side m.now }
{
    match m.promotion {
        Some(_) => m.to.rank() == last_rank(side),
        None => m.to.rank() != last_rank(side),
    }
}

fn is_plain(p: &Parts, m: &Move) -> bool
    ensures { IsTrue result ↔ IsPlain p.now m.now }
{
    match p.men.at(m.from) {
        Some(man) => {
            man.is_of(p.side)
                && man.kind != Kind::Pawn
                && m.promotion.is_none()
                && attack::reaches(&p.men, p.side, man.kind, m.from, m.to)
                && !is_taken(&p.men, p.side, m.to)
        }
        None => false,
    }
}

fn is_advance(p: &Parts, m: &Move) -> bool
    ensures { IsTrue result ↔ IsAdvance p.now m.now }
{
    stands(&p.men, m.from, p.side, Kind::Pawn)
        && is_ahead(p.side, 1, m.from, m.to)
        && is_empty(&p.men, m.to)
        && promotes(p.side, m)
}

fn is_double_step(p: &Parts, m: &Move) -> bool
    ensures { IsTrue result ↔ IsDoubleStep p.now m.now }
{
    stands(&p.men, m.from, p.side, Kind::Pawn)
        && m.from.rank() == first_rank(p.side)
        && is_ahead(p.side, 2, m.from, m.to)
        && m.promotion.is_none()
        && is_empty(&p.men, m.to)
        && attack::is_clear(&p.men, attack::forward(p.side), 2, m.from)
}

fn is_pawn_capture(p: &Parts, m: &Move) -> bool
    ensures { IsTrue result ↔ IsPawnCapture p.now m.now }
{
    stands(&p.men, m.from, p.side, Kind::Pawn)
        && attack::is_pawn_attack(p.side, m.from, m.to)
        && is_taken(&p.men, p.side.other(), m.to)
        && promotes(p.side, m)
}

pub fn is_en_passant(p: &Parts, m: &Move) -> bool
    ensures { IsTrue result ↔ IsEnPassant p.now m.now }
{
    stands(&p.men, m.from, p.side, Kind::Pawn)
        && attack::is_pawn_attack(p.side, m.from, m.to)
        && p.en_passant == Some(m.to)
        && m.promotion.is_none()
        && is_empty(&p.men, m.to)
}

/// Whether all squares strictly between two squares of a rank are empty.
fn is_way_empty(men: &Men, a: Square, b: Square) -> bool
    ensures { IsTrue result ↔ ((s : ℕ) → IsBetween a s b → man_at men.now s ≡ None) }
{
    let low = a.number().min(b.number());
    let high = a.number().max(b.number());
    for s in low + 1..high {
        if men.at(Square::at(s)).is_some() {
            return false;
        }
    }
    true
}

/// Whether no man of this side attacks a square from one to the other.
fn is_way_safe(men: &Men, by: Side, a: Square, b: Square) -> bool
    ensures { IsTrue result ↔ ((s : ℕ) → IsOnWay a s b → IsAttacked men.now by s → ⊥) }
{
    let low = a.number().min(b.number());
    let high = a.number().max(b.number());
    for s in low..high + 1 {
        if attack::is_attacked(men, by, Square::at(s)) {
            return false;
        }
    }
    true
}

fn is_castle(p: &Parts, m: &Move, wing: Wing) -> bool
    ensures { IsTrue result ↔ IsCastle p.now m.now wing }
{
    let home = castling::king_home(p.side);
    let end = castling::king_end(p.side, wing);
    if !stands(&p.men, m.from, p.side, Kind::King) {
        return false;
    }
    if !p.rights.has(p.side, wing) {
        return false;
    }
    if m.from != home || m.to != end || m.promotion.is_some() {
        return false;
    }
    if !is_way_empty(&p.men, home, castling::rook_home(p.side, wing)) {
        return false;
    }
    is_way_safe(&p.men, p.side.other(), home, end)
}

/// The case of the rules that allows the move, leaving the king's safety aside.
pub fn case_of(p: &Parts, m: &Move) -> Option<MoveCase>
    ensures found { IfSome result (λ c. IsMove p.now m.now c) }
    ensures only { (c : MoveCase) → IsMove p.now m.now c → result ≡ Some c }
{
    if is_plain(p, m) {
        Some(MoveCase::Plain)
    } else if is_advance(p, m) {
        Some(MoveCase::Advance)
    } else if is_double_step(p, m) {
        Some(MoveCase::DoubleStep)
    } else if is_pawn_capture(p, m) {
        Some(MoveCase::PawnCapture)
    } else if is_en_passant(p, m) {
        Some(MoveCase::EnPassant)
    } else if is_castle(p, m, Wing::KingSide) {
        Some(MoveCase::Castle(Wing::KingSide))
    } else if is_castle(p, m, Wing::QueenSide) {
        Some(MoveCase::Castle(Wing::QueenSide))
    } else {
        None
    }
}

/// The case of a legal move of a pawn.
fn case_of_pawn(p: &Parts, m: &Move) -> MoveCase
    requires legal { IsLegal p.now m.now }
    requires pawn { Stands p.now.men m.now.from p.now.side Kind.Pawn }
    ensures { IsMove p.now m.now result }
{
    if is_ahead(p.side, 1, m.from, m.to) {
        MoveCase::Advance
    } else if is_ahead(p.side, 2, m.from, m.to) {
        MoveCase::DoubleStep
    } else if is_empty(&p.men, m.to) {
        MoveCase::EnPassant
    } else {
        MoveCase::PawnCapture
    }
}

/// The case of a legal move of a king.
fn case_of_king(p: &Parts, m: &Move) -> MoveCase
    requires legal { IsLegal p.now m.now }
    requires king { Stands p.now.men m.now.from p.now.side Kind.King }
    ensures { IsMove p.now m.now result }
{
    if m.from != castling::king_home(p.side) {
        MoveCase::Plain
    } else if m.to == castling::king_end(p.side, Wing::KingSide) {
        MoveCase::Castle(Wing::KingSide)
    } else if m.to == castling::king_end(p.side, Wing::QueenSide) {
        MoveCase::Castle(Wing::QueenSide)
    } else {
        MoveCase::Plain
    }
}

/// The case of the rules that allows a legal move.
pub fn case_of_legal(p: &Parts, m: &Move) -> MoveCase
    requires legal { IsLegal p.now m.now }
    ensures { IsMove p.now m.now result }
{
    match p.men.at(m.from) {
        Some(man) => match man.kind {
            Kind::Pawn => case_of_pawn(p, m),
            Kind::King => case_of_king(p, m),
            _ => MoveCase::Plain,
        },
        None => MoveCase::Plain,
    }
}

/// Whether the move, where it is legal, takes a man.
pub fn is_capture(p: &Parts, m: &Move) -> bool
    ensures { IsTrue result ↔ IsCapture p.now m.now }
{
    !is_empty(&p.men, m.to) || is_en_passant(p, m)
}

/// Whether a pawn of the side that moves would reach its last rank.
fn may_promote(p: &Parts, from: Square, to: Square) -> bool
    ensures { IsTrue result
        ↔ (Stands p.now.men from p.now.side Kind.Pawn × (rank_of to ≡ last_rank p.now.side)) }
{
    stands(&p.men, from, p.side, Kind::Pawn) && to.rank() == last_rank(p.side)
}

/// How many moves from one square to another there are to try. A pawn's move to its last rank has one for each
/// promotion, after the one without.
pub fn places_between(p: &Parts, from: Square, to: Square) -> u8
    ensures most { result ≤ 5 }
    ensures whole { (m : Move) → IsLegal p.now m → m.from ≡ from → m.to ≡ to → promotion_place m.promotion < result }
{
    if may_promote(p, from, to) { 5 } else { 1 }
}
