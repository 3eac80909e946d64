//! Whether some move is legal, without a list of the moves.
//!
//! `next` is the next square of a sweep. It is a variable of its own because the proofs name it.

ghost use Rattle.std.specs.Prelude.{◌≡◌, ◌↔◌, ℕ, IsTrue};
ghost use Rattle.std.specs.Int.{bit_at};
ghost use Rattle.board_core.specs.Moves.{IsLegal};
ghost use Rattle.board_core.specs.Position.{IsPosition};
ghost use Rattle.board_core.specs.Inside.Search.{IsSought, MayGo, MayLeave};
ghost use Rattle.board_core.specs.Sides.{sides_of};
ghost use Rattle.board_core.specs.declared.moves.Move.{Move};

use crate::bitboard::Bitboard;
use crate::moves::{Move, promotion_at};
use crate::parts::Parts;
use crate::playing::is_legal;
use crate::rules::{is_en_passant, places_between};
use crate::sides::Sides;
use crate::square::Square;
use crate::targets::targets;

/// Which legal move is looked for.
#[derive(Clone, Copy)]
pub enum Sought {
    /// Any one.
    Any,
    /// One other than en passant.
    BesidesEnPassant,
}

/// Whether the move is one of those sought.
fn is_sought(p: &Parts, sought: Sought, m: &Move) -> bool
    ensures { IsTrue result ↔ IsSought sought p.now m.now }
{
    match sought {
        Sought::Any => true,
        Sought::BesidesEnPassant => !is_en_passant(p, m),
    }
}

/// Whether the move is legal, and one of those sought.
fn may_make(p: &Parts, sides: &Sides, sought: Sought, m: &Move) -> bool
    requires position { IsPosition p.now }
    requires sides { sides.now ≡ sides_of p.now.men }
    ensures { IsTrue result ↔ IsLegal p.now m.now × IsSought sought p.now m.now }
{
    is_sought(p, sought, m) && is_legal(p, sides, m)
}

/// Whether some move sought from one square to the other is legal.
fn may_go(p: &Parts, sides: &Sides, sought: Sought, from: Square, to: Square) -> bool
    requires position { IsPosition p.now }
    requires sides { sides.now ≡ sides_of p.now.men }
    ensures { IsTrue result ↔ MayGo p.now sought from to }
{
    let end = places_between(p, from, to);
    for place in 0..end {
        let m = Move {
            from,
            to,
            promotion: promotion_at(place),
        };
        if may_make(p, sides, sought, &m) {
            return true;
        }
    }
    false
}

/// Whether some move sought from a square to one of a set is legal, in which all its targets are.
fn may_go_within(p: &Parts, sides: &Sides, sought: Sought, from: Square, set: Bitboard) -> bool
    requires position { IsPosition p.now }
    requires sides { sides.now ≡ sides_of p.now.men }
    requires whole { (to : ℕ) → MayGo p.now sought from to → bit_at set to ≡ 1 }
    ensures { IsTrue result ↔ MayLeave p.now sought from }
{
    let mut rest = set;
    let mut next = 0u8;
    'targets: while !rest.is_empty() {
        let to = rest.lowest();
        if may_go(p, sides, sought, from, to) {
            return true;
        }
        rest = rest.without(to);
        next = to.number() + 1;
    }
    false
}

/// Whether some move sought from the square is legal.
fn may_leave(p: &Parts, sides: &Sides, sought: Sought, from: Square) -> bool
    requires position { IsPosition p.now }
    requires sides { sides.now ≡ sides_of p.now.men }
    ensures { IsTrue result ↔ MayLeave p.now sought from }
{
    match p.men.at(from) {
        Some(man) => {
            man.is_of(p.side) && may_go_within(p, sides, sought, from, targets(p, man.kind, from))
        }
        None => false,
    }
}

/// Whether some move sought is legal.
pub fn has_legal_move(p: &Parts, sides: &Sides, sought: Sought) -> bool
    requires position { IsPosition p.now }
    requires sides { sides.now ≡ sides_of p.now.men }
    ensures { IsTrue result ↔ ((m : Move) × IsLegal p.now m × IsSought sought p.now m) }
{
    let mut rest = sides.of_side(p.side);
    let mut next = 0u8;
    'movers: while !rest.is_empty() {
        let from = rest.lowest();
        if may_leave(p, sides, sought, from) {
            return true;
        }
        rest = rest.without(from);
        next = from.number() + 1;
    }
    false
}
