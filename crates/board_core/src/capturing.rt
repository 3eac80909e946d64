//! Moves that may be legal captures, one after the other, without a list of them.
//!
//! `next` is the next square of a sweep. It is a variable of its own because the proofs name it.

ghost use Rattle.std.specs.Prelude.{◌≡◌, ◌<◌, IsTrue, IsFalse, IfSome, IfNone};
ghost use Rattle.std.specs.Int.{bit_at};
ghost use Rattle.board_core.specs.Moves.{IsLegalCapture, Stands, place_of};
ghost use Rattle.board_core.specs.Position.{IsPosition};
ghost use Rattle.board_core.specs.Inside.Search.{IsFirstCandidate, IsCandidate, start_of, IsLaterCapture, IsLaterFrom, IsLaterBetween};
ghost use Rattle.board_core.specs.Sides.{sides_of};
ghost use Rattle.board_core.specs.declared.moves.Move.{Move};

use crate::bitboard::Bitboard;
use crate::moves::{Move, promotion_at};
use crate::parts::Parts;
use crate::piece::Kind;
use crate::rules::{is_capture, places_between};
use crate::sides::Sides;
use crate::square::Square;
use crate::{attack, empty_board};

/// The first place after this move in the order of moves; 0 where no move is given.
fn start_of(last: Option<Move>) -> u32
    ensures { result ≡ start_of last }
{
    match last {
        Some(last) => last.place() + 1,
        None => 0,
    }
}

/// Whether all moves from the square come before this place.
fn is_left_behind(start: u32, from: Square) -> bool
    ensures { IsTrue result → (m : Move) → m.to < 64 → m.from ≡ from → place_of m < start }
{
    320 * (from.number() as u32 + 1) <= start
}

/// A set that contains every square on which men of this kind take: those of the other side's men, and for a pawn the
/// en passant square.
fn goals(p: &Parts, sides: &Sides, kind: Kind) -> Bitboard
    requires { sides.now ≡ sides_of p.now.men }
    ensures { (m : Move) → IsLegalCapture p.now m → Stands p.now.men m.from p.now.side kind → bit_at result m.to ≡ 1 }
{
    let enemy = sides.of_side(p.side.other());
    if kind != Kind::Pawn {
        return enemy;
    }
    match p.en_passant {
        Some(square) => enemy.with(square),
        None => enemy,
    }
}

/// A set that contains every square on which the man there would take if no man stood in his way.
fn goals_from(p: &Parts, sides: &Sides, from: Square) -> Bitboard
    requires { sides.now ≡ sides_of p.now.men }
    ensures { (m : Move) → IsLegalCapture p.now m → m.from ≡ from → bit_at result m.to ≡ 1 }
{
    match p.men.at(from) {
        Some(man) => { empty_board::reached(p.side, man.kind, from) & goals(p, sides, man.kind) }
        None => Bitboard::empty(),
    }
}

/// Whether there may be a legal capture: some man of the side to move would take somewhere if no man stood in his way.
pub fn may_capture(p: &Parts, sides: &Sides) -> bool
    requires position { IsPosition p.now }
    requires sides { sides.now ≡ sides_of p.now.men }
    ensures { IsFalse result → (m : Move) → IsLegalCapture p.now m → ⊥ }
{
    let mut left = sides.of_side(p.side);
    let mut next = 0u8;
    'movers: while !left.is_empty() {
        let from = left.lowest();
        if !goals_from(p, sides, from).is_empty() {
            return true;
        }
        left = left.without(from);
        next = from.number() + 1;
    }
    false
}

/// Whether the move is at this place or later, and a capture if it is legal.
fn is_candidate(p: &Parts, start: u32, m: &Move) -> bool
    ensures yes { IsTrue result → IsCandidate p.now start m.now }
    ensures no { IsFalse result → IsLaterCapture p.now start m.now → ⊥ }
{
    prove!(m.from.number() < 64);
    prove!(m.to.number() < 64);
    m.place() >= start && is_capture(p, m)
}

/// The first move from one square to another, at this place or later, that may be a legal capture.
fn capture_between(p: &Parts, start: u32, from: Square, to: Square) -> Option<Move>
    ensures found { IfSome result (λ m. IsFirstCandidate p.now start (IsLaterBetween p.now start from to) m) }
    ensures from { IfSome result (λ m. m.from ≡ from) }
    ensures to { IfSome result (λ m. m.to ≡ to) }
    ensures none { IfNone result ((m : Move) → IsLaterBetween p.now start from to m → ⊥) }
{
    if !attack::attacks_to(&p.men, p.side, from, to) {
        return None;
    }
    let end = places_between(p, from, to);
    for place in 0..end {
        let m = Move {
            from,
            to,
            promotion: promotion_at(place),
        };
        if is_candidate(p, start, &m) {
            return Some(m);
        }
    }
    None
}

/// The first move from a square, at this place or later, that may be a legal capture.
fn capture_from(p: &Parts, sides: &Sides, start: u32, from: Square) -> Option<Move>
    requires { sides.now ≡ sides_of p.now.men }
    ensures found { IfSome result (λ m. IsFirstCandidate p.now start (IsLaterFrom p.now start from) m) }
    ensures from { IfSome result (λ m. m.from ≡ from) }
    ensures none { IfNone result ((m : Move) → IsLaterFrom p.now start from m → ⊥) }
{
    if is_left_behind(start, from) {
        return None;
    }
    let mut rest = goals_from(p, sides, from);
    let mut next = 0u8;
    'targets: while !rest.is_empty() {
        let to = rest.lowest();
        if let Some(m) = capture_between(p, start, from, to) {
            return Some(m);
        }
        rest = rest.without(to);
        next = to.number() + 1;
    }
    None
}

/// The first move at this place or later that may be a legal capture.
fn first_capture(p: &Parts, sides: &Sides, start: u32) -> Option<Move>
    requires position { IsPosition p.now }
    requires sides { sides.now ≡ sides_of p.now.men }
    ensures found { IfSome result (λ m. IsFirstCandidate p.now start (IsLaterCapture p.now start) m) }
    ensures none { IfNone result ((m : Move) → IsLaterCapture p.now start m → ⊥) }
{
    let mut rest = sides.of_side(p.side);
    let mut next = 0u8;
    'movers: while !rest.is_empty() {
        let from = rest.lowest();
        if let Some(m) = capture_from(p, sides, start, from) {
            return Some(m);
        }
        rest = rest.without(from);
        next = from.number() + 1;
    }
    None
}

/// The next move after this one that may be a legal capture, or the first of all.
pub fn next_capture(p: &Parts, sides: &Sides, last: Option<Move>) -> Option<Move>
    requires position { IsPosition p.now }
    requires sides { sides.now ≡ sides_of p.now.men }
    ensures next { IfSome result (λ m. IsFirstCandidate p.now (start_of last) (IsLaterCapture p.now (start_of last)) m) }
    ensures none { IfNone result ((m : Move) → IsLaterCapture p.now (start_of last) m → ⊥) }
{
    first_capture(p, sides, start_of(last))
}
