//! Listing the legal moves.
//!
//! Each man's targets are a set of squares, swept from the lowest up, so that the moves come in order. `next` is the
//! next square of such a sweep. It is a variable of its own because the proofs name it.

ghost use Rattle.std.specs.Prelude.{◌≡◌, ◌≢◌, ◌<◌, ◌↔◌, ◌+◌, ◌*◌, ℕ, [], IsTrue, IfOk, OnOk, OnErr, Some, None};
ghost use Rattle.std.specs.Int.{bit_at};
ghost use Rattle.board_core.specs.Attack.{IsInCheck, Reaches};
ghost use Rattle.board_core.specs.Moves.{Stands, IsFree, IsTaken, IsMove, Lists, HasLegal, HasLegalCaptures, HasLegalPawnMoves, place_of, men_after};
ghost use Rattle.board_core.specs.ComputedMoves.{legal_captures, legal_moves, legal_pawn_moves};
ghost use Rattle.board_core.specs.Inside.Search.{HasListedBelow, IsCarry, IsGuard, IsListed, IsUnpinned, IsStep, IsSurvey, IsWantedMove, IsKnown, HasAttacked, emptied};
ghost use Rattle.board_core.specs.Side.{other};
ghost use Rattle.board_core.specs.Sides.{sides_of};
ghost use Rattle.board_core.specs.Position.{IsPosition};

use crate::bitboard::Bitboard;
use crate::king::king_of;
use crate::men::Men;
use crate::moves::{Move, MoveCase, promotion_at};
use crate::parts::Parts;
use crate::piece::{Kind, Side};
use crate::rules::{case_of, is_capture, places_between, stands};
use crate::sides::Sides;
use crate::square::Square;
use crate::{attack, playing, targets};
use std::alloc::{AllocError, Global};

/// Which of the legal moves are listed.
#[derive(Clone, Copy)]
pub enum Which {
    /// All legal moves.
    Every,
    /// Those that take a man, en passant among them.
    Captures,
    /// Those of pawns.
    Pawns,
}

/// Where the men of the two sides stand, and the king of the side that moves.
#[derive(Clone, Copy)]
pub struct Survey {
    pub own: Bitboard,
    pub enemy: Bitboard,
    pub king: Square,
}

/// What decides the safety of the mover's king: its square, whether it is out of check, the squares of the other side's
/// men, and those it must not enter.
#[derive(Clone, Copy)]
pub struct Guard {
    pub enemy: Bitboard,
    pub king: Square,
    pub out_of_check: bool,
    pub attacked: Bitboard,
}

/// A piece of the side that moves, and where it stands.
#[derive(Clone, Copy)]
struct Mover {
    kind: Kind,
    from: Square,
}

/// Where the men stand.
fn survey_of(p: &Parts, sides: &Sides) -> Survey
    requires position { IsPosition p.now }
    requires sides { sides.now ≡ sides_of p.now.men }
    ensures { IsSurvey p.now result }
{
    let own = sides.of_side(p.side);
    Survey {
        own,
        enemy: sides.of_side(p.side.other()),
        king: king_of(&p.men, p.side, own),
    }
}

/// The squares on which the man there, of the other side, could take, but for those of this side's
/// men.
fn attacks_from(men: &Men, side: Side, from: Square) -> Bitboard
    ensures { (kind : Kind) (t : ℕ) → Stands men.now from (other side) kind → t < 64
        → IsFree men.now side t → Reaches men.now (other side) kind from t → bit_at result t ≡ 1 }
{
    match men.at(from) {
        Some(man) => match man.kind {
            Kind::Pawn => targets::pawn_attacks(men, side, from),
            kind => targets::plain_targets(men, side, kind, from),
        },
        None => Bitboard::empty(),
    }
}

/// The squares that the men on these squares attack, but for those of this side's men.
fn attacked_squares(men: &Men, side: Side, enemy: Bitboard) -> Bitboard
    requires { (s : ℕ) → s < 64 → IsTaken men.now (other side) s → bit_at enemy s ≡ 1 }
    ensures { HasAttacked men.now side result }
{
    let mut all = Bitboard::empty();
    let mut rest = enemy;
    let mut next = 0u8;
    while !rest.is_empty() {
        let from = rest.lowest();
        all = all | attacks_from(men, side, from);
        rest = rest.without(from);
        next = from.number() + 1;
    }
    all
}

/// The squares that the other side attacks once the king of the side to move is taken off the board.
fn attacked_without_king(p: &Parts, v: &Survey) -> Bitboard
    requires { IsSurvey p.now v.now }
    ensures { HasAttacked (emptied p.now.men v.now.king) p.now.side result }
{
    let mut men = p.men;
    men.put(v.king, None);
    attacked_squares(&men, p.side, v.enemy)
}

/// What is known about the king of the side to move, computed from the squares that the other side attacks.
fn guard_of(p: &Parts, v: &Survey, attacked: Bitboard) -> Guard
    requires survey { IsSurvey p.now v.now }
    requires attacked { HasAttacked (emptied p.now.men v.now.king) p.now.side attacked }
    ensures { IsGuard p.now result }
{
    prove!(v.king.number() < 64);
    Guard {
        enemy: v.enemy,
        king: v.king,
        out_of_check: !attacked.has(v.king),
        attacked,
    }
}

/// Whether this case carries one man and changes nothing else.
fn is_carry(case: MoveCase) -> bool
    ensures { IsTrue result → IsCarry case }
{
    match case {
        MoveCase::EnPassant | MoveCase::Castle(_) => false,
        _ => true,
    }
}

/// Whether no move of the man on this square can expose its king.
fn is_unpinned(p: &Parts, g: &Guard, from: Square) -> bool
    requires { IsGuard p.now g.now }
    ensures { IsTrue result → IsUnpinned p.now from }
{
    prove!(from.number() < 64);
    prove!(p.men.squares() == 64);
    if !g.out_of_check {
        return false;
    }
    if from == g.king {
        return false;
    }
    !attack::is_pinned(&p.men, p.side.other(), g.king, from)
}

/// Whether the move is a step of the king to a square that isn't attacked.
fn is_king_away(m: &Move, case: MoveCase, g: &Guard) -> bool
    ensures { IsTrue result → (m.now.from ≡ g.now.king) × (case ≡ MoveCase.Plain)
        × (bit_at g.now.attacked m.now.to ≡ 0) }
{
    m.from == g.king && matches!(case, MoveCase::Plain) && !g.attacked.has(m.to)
}

/// Whether the king of the side that moves isn't attacked after the move.
fn is_safe(p: &Parts, m: &Move, case: MoveCase, g: &Guard, unpinned: bool) -> bool
    requires position { IsPosition p.now }
    requires rule { IsMove p.now m.now case }
    requires guard { IsGuard p.now g.now }
    requires unpinned { IsTrue unpinned → IsUnpinned p.now m.now.from }
    ensures { IsTrue result ↔ (IsInCheck (men_after p.now m.now case) p.now.side → ⊥) }
{
    prove!(m.from.number() < 64);
    prove!(m.to.number() < 64);
    if unpinned && is_carry(case) {
        return true;
    }
    if is_king_away(m, case, g) {
        return true;
    }
    playing::is_safe(p, m, case, g.king, g.enemy)
}

/// Whether the move is one of those asked for.
fn is_wanted(p: &Parts, which: Which, m: &Move) -> bool
    ensures { IsTrue result ↔ IsWantedMove which p.now m.now }
{
    match which {
        Which::Every => true,
        Which::Captures => is_capture(p, m),
        Which::Pawns => stands(&p.men, m.from, p.side, Kind::Pawn),
    }
}

/// Whether the move is legal and asked for.
fn is_listed(p: &Parts, g: &Guard, which: Which, unpinned: bool, m: &Move) -> bool
    requires position { IsPosition p.now }
    requires guard { IsGuard p.now g.now }
    requires unpinned { IsTrue unpinned → IsUnpinned p.now m.now.from }
    ensures { IsTrue result ↔ IsListed which p.now m.now }
{
    prove!(m.from.number() < 64);
    prove!(m.to.number() < 64);
    if !is_wanted(p, which, m) {
        return false;
    }
    match case_of(p, m) {
        Some(case) => is_safe(p, m, case, g, unpinned),
        None => false,
    }
}

/// Adds the move where it is legal and asked for.
fn add(
    p: &Parts,
    g: &Guard,
    which: Which,
    unpinned: bool,
    m: &Move,
    moves: &mut Vec<Move>,
) -> Result<(), AllocError>
    requires position { IsPosition p.now }
    requires guard { IsGuard p.now g.now }
    requires unpinned { IsTrue unpinned → IsUnpinned p.now m.now.from }
    requires below { HasListedBelow p.now which (place_of m.now) moves.old.items }
    ensures added { OnOk result (HasListedBelow p.now which (place_of m.now + 1) moves.new.items) }
    ensures memory { OnErr result ((m : Move) × IsListed which p.now m) }
{
    prove!(m.to.number() < 64);
    if is_listed(p, g, which, unpinned, m) {
        moves.push(*m)?;
    }
    Ok(())
}

/// Adds the moves from one square to another, as this move goes, that are legal and asked for, each with its promotion.
fn add_between(
    p: &Parts,
    g: &Guard,
    which: Which,
    unpinned: bool,
    way: &Move,
    moves: &mut Vec<Move>,
) -> Result<(), AllocError>
    requires position { IsPosition p.now }
    requires guard { IsGuard p.now g.now }
    requires unpinned { IsTrue unpinned → IsUnpinned p.now way.now.from }
    requires below { HasListedBelow p.now which (320 * way.now.from + 5 * way.now.to) moves.old.items }
    ensures added { OnOk result (HasListedBelow p.now which (320 * way.now.from + 5 * (way.now.to + 1)) moves.new.items) }
    ensures memory { OnErr result ((m : Move) × IsListed which p.now m) }
{
    prove!(way.from.number() < 64);
    prove!(way.to.number() < 64);
    let end = places_between(p, way.from, way.to);
    for place in 0..end {
        let m = Move {
            from: way.from,
            to: way.to,
            promotion: promotion_at(place),
        };
        add(p, g, which, unpinned, &m, moves)?;
    }
    Ok(())
}

/// Adds the moves from a square to those of a set, in which all their targets are.
fn add_targets(
    p: &Parts,
    g: &Guard,
    which: Which,
    from: Square,
    set: Bitboard,
    moves: &mut Vec<Move>,
) -> Result<(), AllocError>
    requires position { IsPosition p.now }
    requires guard { IsGuard p.now g.now }
    requires below { HasListedBelow p.now which (320 * from) moves.old.items }
    requires whole { (m : Move) → IsListed which p.now m → m.from ≡ from → bit_at set m.to ≡ 1 }
    ensures added { OnOk result (HasListedBelow p.now which (320 * (from + 1)) moves.new.items) }
    ensures memory { OnErr result ((m : Move) × IsListed which p.now m) }
{
    let unpinned = is_unpinned(p, g, from);
    let mut rest = set;
    let mut next = 0u8;
    while !rest.is_empty() {
        let to = rest.lowest();
        let way = Move {
            from,
            to,
            promotion: None,
        };
        add_between(p, g, which, unpinned, &way, moves)?;
        rest = rest.without(to);
        next = to.number() + 1;
    }
    Ok(())
}

/// Adds the moves of a piece that may go wherever it reaches.
fn add_steps(
    p: &Parts,
    which: Which,
    kind: Kind,
    from: Square,
    set: Bitboard,
    moves: &mut Vec<Move>,
) -> Result<(), AllocError>
    requires stands { Stands p.now.men from p.now.side kind }
    requires piece { kind ≢ Kind.Pawn }
    requires unpinned { IsUnpinned p.now from }
    requires below { HasListedBelow p.now which (320 * from) moves.old.items }
    requires steps { (s : ℕ) → bit_at set s ≡ 1 → IsStep p.now which kind from s }
    requires whole { (m : Move) → IsListed which p.now m → m.from ≡ from → bit_at set m.to ≡ 1 }
    ensures added { OnOk result (HasListedBelow p.now which (320 * (from + 1)) moves.new.items) }
    ensures memory { OnErr result ((m : Move) × IsListed which p.now m) }
{
    prove!(from.number() < 64);
    let mut rest = set;
    let mut next = 0u8;
    while !rest.is_empty() {
        let to = rest.lowest();
        moves.push(Move {
            from,
            to,
            promotion: None,
        })?;
        rest = rest.without(to);
        next = to.number() + 1;
    }
    Ok(())
}

/// The squares to which a piece other than a pawn and the king goes, of those asked for.
fn steps(p: &Parts, v: &Survey, which: Which, kind: Kind, from: Square) -> Bitboard
    requires survey { IsSurvey p.now v.now }
    requires stands { Stands p.now.men from p.now.side kind }
    requires piece { (kind ≢ Kind.Pawn) × (kind ≢ Kind.King) }
    ensures steps { (s : ℕ) → bit_at result s ≡ 1 → IsStep p.now which kind from s }
    ensures whole { (m : Move) → IsListed which p.now m → m.from ≡ from → bit_at result m.to ≡ 1 }
{
    match which {
        Which::Every => targets::plain_targets(&p.men, p.side, kind, from),
        Which::Captures => {
            if v.enemy.len() <= attack::FEW {
                return targets::reached_of(&p.men, p.side, kind, from, v.enemy);
            }
            let set = targets::plain_targets(&p.men, p.side, kind, from);
            set & v.enemy
        }
        Which::Pawns => Bitboard::empty(),
    }
}

/// A set that contains every square to which the pawn or the king there goes by the moves asked for.
fn candidates(p: &Parts, v: &Survey, which: Which, kind: Kind, from: Square) -> Bitboard
    requires survey { IsSurvey p.now v.now }
    requires stands { Stands p.now.men from p.now.side kind }
    ensures { (m : Move) → IsListed which p.now m → m.from ≡ from → bit_at result m.to ≡ 1 }
{
    if matches!(which, Which::Pawns) && kind != Kind::Pawn {
        return Bitboard::empty();
    }
    let set = targets::targets(p, kind, from);
    match which {
        Which::Every | Which::Pawns => set,
        Which::Captures => match p.en_passant {
            Some(square) => set & v.enemy.with(square),
            None => set & v.enemy,
        },
    }
}

/// What is known about the king. The attacked squares are computed where they are first needed.
fn guard_in(p: &Parts, v: &Survey, known: &mut Option<Bitboard>) -> Guard
    requires survey { IsSurvey p.now v.now }
    requires known { IsKnown p.now v.now known.old }
    ensures guard { IsGuard p.now result }
    ensures known { IsKnown p.now v.now known.new }
{
    if let Some(attacked) = *known {
        return guard_of(p, v, attacked);
    }
    let attacked = attacked_without_king(p, v);
    *known = Some(attacked);
    guard_of(p, v, attacked)
}

/// Adds the moves asked for of a piece other than a pawn and the king.
fn add_piece_moves(
    p: &Parts,
    v: &Survey,
    known: &mut Option<Bitboard>,
    which: Which,
    mover: Mover,
    moves: &mut Vec<Move>,
) -> Result<(), AllocError>
    requires position { IsPosition p.now }
    requires survey { IsSurvey p.now v.now }
    requires stands { Stands p.now.men mover.from p.now.side mover.kind }
    requires piece { (mover.kind ≢ Kind.Pawn) × (mover.kind ≢ Kind.King) }
    requires known { IsKnown p.now v.now known.old }
    requires below { HasListedBelow p.now which (320 * mover.from) moves.old.items }
    ensures moves { OnOk result (HasListedBelow p.now which (320 * (mover.from + 1)) moves.new.items) }
    ensures memory { OnErr result ((m : Move) × IsListed which p.now m) }
    ensures known { IsKnown p.now v.now known.new }
{
    let Mover { kind, from } = mover;
    let set = steps(p, v, which, kind, from);
    if set.is_empty() {
        return Ok(());
    }
    let guard = guard_in(p, v, known);
    if is_unpinned(p, &guard, from) {
        return add_steps(p, which, kind, from, set, moves);
    }
    add_targets(p, &guard, which, from, set, moves)
}

/// Adds the moves asked for from a square.
fn add_from(
    p: &Parts,
    v: &Survey,
    known: &mut Option<Bitboard>,
    which: Which,
    from: Square,
    moves: &mut Vec<Move>,
) -> Result<(), AllocError>
    requires position { IsPosition p.now }
    requires survey { IsSurvey p.now v.now }
    requires known { IsKnown p.now v.now known.old }
    requires below { HasListedBelow p.now which (320 * from) moves.old.items }
    ensures moves { OnOk result (HasListedBelow p.now which (320 * (from + 1)) moves.new.items) }
    ensures memory { OnErr result ((m : Move) × IsListed which p.now m) }
    ensures known { IsKnown p.now v.now known.new }
{
    let man = match p.men.at(from) {
        Some(man) => man,
        None => return Ok(()),
    };
    if !man.is_of(p.side) {
        return Ok(());
    }
    match man.kind {
        Kind::Pawn | Kind::King => {
            let set = candidates(p, v, which, man.kind, from);
            if set.is_empty() {
                return Ok(());
            }
            let guard = guard_in(p, v, known);
            add_targets(p, &guard, which, from, set, moves)
        }
        kind => add_piece_moves(p, v, known, which, Mover { kind, from }, moves),
    }
}

/// The legal moves asked for, each once, in order of from, to and promotion.
fn listed(p: &Parts, sides: &Sides, which: Which, moves: Vec<Move>) -> Result<Vec<Move>, AllocError>
    requires position { IsPosition p.now }
    requires sides { sides.now ≡ sides_of p.now.men }
    requires empty { moves.items ≡ [] }
    ensures listed { IfOk result (λ moves. Lists (IsListed which p.now) moves.items) }
    ensures memory { OnErr result ((m : Move) × IsListed which p.now m) }
{
    let mut moves = moves;
    let v = survey_of(p, sides);
    let mut known = None;
    let mut rest = v.own;
    let mut next = 0u8;
    while !rest.is_empty() {
        let from = rest.lowest();
        add_from(p, &v, &mut known, which, from, &mut moves)?;
        rest = rest.without(from);
        next = from.number() + 1;
    }
    Ok(moves)
}

/// As many moves as positions commonly have. Room for them is allocated at once.
const COMMON: usize = 48;

/// The legal moves, each once, in order of from, to and promotion.
pub fn legal(p: &Parts, sides: &Sides, alloc: Global) -> Result<Vec<Move>, AllocError>
    requires position { IsPosition p.now }
    requires sides { sides.now ≡ sides_of p.now.men }
    ensures legal { IfOk result (λ moves. HasLegal p.now moves.items) }
    ensures computed { IfOk result (λ moves. moves.items ≡ legal_moves p.now) }
{
    let room = Vec::with_capacity(alloc, COMMON)?;
    let moves = listed(p, sides, Which::Every, room)?;
    Ok(moves)
}

/// The legal captures, en passant among them, each once, in order of from, to and promotion.
pub fn captures(p: &Parts, sides: &Sides, alloc: Global) -> Result<Vec<Move>, AllocError>
    requires position { IsPosition p.now }
    requires sides { sides.now ≡ sides_of p.now.men }
    ensures legal { IfOk result (λ moves. HasLegalCaptures p.now moves.items) }
    ensures computed { IfOk result (λ moves. moves.items ≡ legal_captures p.now) }
    ensures memory { OnErr result (legal_captures p.now ≢ []) }
{
    let moves = listed(p, sides, Which::Captures, Vec::new(alloc))?;
    Ok(moves)
}

/// The legal moves of pawns, each once, in order of from, to and promotion.
pub fn pawn_moves(p: &Parts, sides: &Sides, alloc: Global) -> Result<Vec<Move>, AllocError>
    requires position { IsPosition p.now }
    requires sides { sides.now ≡ sides_of p.now.men }
    ensures legal { IfOk result (λ moves. HasLegalPawnMoves p.now moves.items) }
    ensures computed { IfOk result (λ moves. moves.items ≡ legal_pawn_moves p.now) }
    ensures memory { OnErr result (legal_pawn_moves p.now ≢ []) }
{
    let moves = listed(p, sides, Which::Pawns, Vec::new(alloc))?;
    Ok(moves)
}
