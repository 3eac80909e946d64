//! Attack and check: steps, and rays over empty squares.

ghost use Rattle.std.specs.Int.{bit_at};
ghost use Rattle.std.specs.Prelude.{◌≡◌, ◌<◌, ◌≤◌, ◌↔◌, ◌+◌, ◌-◌, ℕ, IsTrue, IfSome, IfNone};
ghost use Rattle.board_core.specs.Inside.Search.{IsKnightStepBy, IsAttackedByKnight, IsInside, IsAttackedAlong, AttacksTo, stride, rises};
ghost use Rattle.board_core.specs.Moves.{IsTaken};
ghost use Rattle.board_core.specs.Attack.{Along, IsClear, Slides, Ray, IsKingStep, IsKnightStep, IsPawnAttack, Reaches, IsAttacked, IsInCheck, forward};
ghost use Rattle.board_core.specs.Computed.{is_in_check};
ghost use Rattle.board_core.specs.declared.attack.Direction.{Direction};
ghost use Rattle.board_core.specs.declared.attack.KnightStep.{KnightStep};

use crate::bitboard::Bitboard;
use crate::empty_board;
use crate::men::Men;
use crate::piece::{Kind, Side};
use crate::square::Square;

/// The eight directions of a queen's moves.
#[derive(Clone, Copy)]
pub enum Direction {
    North,
    South,
    East,
    West,
    NorthEast,
    NorthWest,
    SouthEast,
    SouthWest,
}

/// The eight steps of a knight.
#[derive(Clone, Copy)]
pub enum KnightStep {
    EastEastNorth,
    EastEastSouth,
    EastNorthNorth,
    EastSouthSouth,
    WestWestNorth,
    WestWestSouth,
    WestNorthNorth,
    WestSouthSouth,
}

const DIRECTIONS: [Direction; 8] = [
    Direction::North,
    Direction::South,
    Direction::East,
    Direction::West,
    Direction::NorthEast,
    Direction::NorthWest,
    Direction::SouthEast,
    Direction::SouthWest,
];

const KNIGHT_STEPS: [KnightStep; 8] = [
    KnightStep::EastEastNorth,
    KnightStep::EastEastSouth,
    KnightStep::EastNorthNorth,
    KnightStep::EastSouthSouth,
    KnightStep::WestWestNorth,
    KnightStep::WestWestSouth,
    KnightStep::WestNorthNorth,
    KnightStep::WestSouthSouth,
];

/// The difference between the number of a square and that of the next one in this direction.
fn stride(direction: Direction) -> u8
    ensures { result ≡ stride direction }
{
    match direction {
        Direction::North | Direction::South => 8,
        Direction::East | Direction::West => 1,
        Direction::NorthEast | Direction::SouthWest => 9,
        Direction::NorthWest | Direction::SouthEast => 7,
    }
}

/// Whether the numbers of squares rise in this direction.
fn rises(direction: Direction) -> bool
    ensures { result ≡ rises direction }
{
    match direction {
        Direction::North | Direction::East | Direction::NorthEast | Direction::NorthWest => true,
        _ => false,
    }
}

/// The square k steps away in this direction.
pub fn along(direction: Direction, from: Square, k: u8) -> Square
    requires { IsInside direction k from }
    ensures { Along direction k from result }
{
    let far = stride(direction) * k;
    if rises(direction) {
        Square::at(from.number() + far)
    } else {
        Square::at(from.number() - far)
    }
}

/// The direction and the distance from one square to another, where a queen could go there.
fn line(from: Square, to: Square) -> Option<(Direction, u8)>
    ensures found { IfSome result (λ l. (0 < l.1) × Along l.0 l.1 from to) }
    ensures none { IfNone result ((d : Direction) (n : ℕ) → 0 < n → Along d n from to → ⊥) }
{
    let (file, rank) = (from.file(), from.rank());
    let (to_file, to_rank) = (to.file(), to.rank());
    if to_file == file {
        if to_rank > rank {
            return Some((Direction::North, to_rank - rank));
        }
        if rank > to_rank {
            return Some((Direction::South, rank - to_rank));
        }
        return None;
    }
    if to_rank == rank {
        if to_file > file {
            return Some((Direction::East, to_file - file));
        }
        return Some((Direction::West, file - to_file));
    }
    if to_file > file {
        let n = to_file - file;
        if to_rank == rank + n {
            return Some((Direction::NorthEast, n));
        }
        if to_rank + n == rank {
            return Some((Direction::SouthEast, n));
        }
        return None;
    }
    let n = file - to_file;
    if to_rank == rank + n {
        return Some((Direction::NorthWest, n));
    }
    if to_rank + n == rank {
        return Some((Direction::SouthWest, n));
    }
    None
}

/// Whether all squares before the nth in this direction are empty.
pub fn is_clear(men: &Men, direction: Direction, n: u8, from: Square) -> bool
    requires { IsInside direction n from }
    ensures { IsTrue result ↔ IsClear men.now direction n from }
{
    for k in 1..n {
        let square = along(direction, from, k);
        if men.at(square).is_some() {
            return false;
        }
    }
    true
}

/// The direction in which the pawns of this side go.
pub fn forward(side: Side) -> Direction
    ensures { result ≡ forward side }
{
    match side {
        Side::White => Direction::North,
        Side::Black => Direction::South,
    }
}

/// Whether this kind of man goes any distance in this direction.
fn goes(kind: Kind, direction: Direction) -> bool
    ensures { IsTrue result ↔ Slides kind direction }
{
    let straight = match direction {
        Direction::North | Direction::South | Direction::East | Direction::West => true,
        _ => false,
    };
    match kind {
        Kind::Bishop => !straight,
        Kind::Rook => straight,
        Kind::Queen => true,
        _ => false,
    }
}

fn slides(men: &Men, kind: Kind, from: Square, to: Square) -> bool
    ensures { IsTrue result ↔ Ray men.now kind from to }
{
    match line(from, to) {
        Some((direction, n)) => goes(kind, direction) && is_clear(men, direction, n, from),
        None => false,
    }
}

fn is_king_step(from: Square, to: Square) -> bool
    ensures { IsTrue result ↔ IsKingStep from to }
{
    from != to && from.file().abs_diff(to.file()) <= 1 && from.rank().abs_diff(to.rank()) <= 1
}

fn is_knight_step(from: Square, to: Square) -> bool
    ensures { IsTrue result ↔ IsKnightStep from to }
{
    let across = from.file().abs_diff(to.file());
    let up = from.rank().abs_diff(to.rank());
    across == 1 && up == 2 || across == 2 && up == 1
}

pub fn is_pawn_attack(side: Side, from: Square, to: Square) -> bool
    ensures { IsTrue result ↔ IsPawnAttack side from to }
{
    if from.file().abs_diff(to.file()) != 1 {
        return false;
    }
    match side {
        Side::White => to.rank() == from.rank() + 1,
        Side::Black => to.rank() + 1 == from.rank(),
    }
}

/// Whether a man of this side and kind on `from` attacks `to`.
pub fn reaches(men: &Men, side: Side, kind: Kind, from: Square, to: Square) -> bool
    ensures { IsTrue result ↔ Reaches men.now side kind from to }
{
    match kind {
        Kind::Pawn => is_pawn_attack(side, from, to),
        Kind::Knight => is_knight_step(from, to),
        Kind::King => is_king_step(from, to),
        Kind::Bishop | Kind::Rook | Kind::Queen => slides(men, kind, from, to),
    }
}

/// How many squares lie in this direction.
pub fn room(direction: Direction, from: Square) -> u8
    ensures inside { (k : ℕ) → k ≤ result ↔ IsInside direction k from }
    ensures below { result < 8 }
{
    let east = 7 - from.file();
    let north = 7 - from.rank();
    let west = from.file();
    let south = from.rank();
    match direction {
        Direction::North => north,
        Direction::South => south,
        Direction::East => east,
        Direction::West => west,
        Direction::NorthEast => north.min(east),
        Direction::NorthWest => north.min(west),
        Direction::SouthEast => south.min(east),
        Direction::SouthWest => south.min(west),
    }
}

/// Whether the first man met from a square in this direction is one of this side that attacks the square.
fn is_attacked_along(men: &Men, by: Side, direction: Direction, to: Square) -> bool
    ensures { IsTrue result ↔ IsAttackedAlong men.now by direction to }
{
    let end = room(direction, to) + 1;
    for k in 1..end {
        let from = along(direction, to, k);
        if let Some(man) = men.at(from) {
            return man.is_of(by) && reaches(men, by, man.kind, from, to);
        }
    }
    false
}

/// Whether a man of this side may pin the man on `from` to the king. The squares between king and man are empty, and
/// the next man beyond him on that line attacks him.
pub fn is_pinned(men: &Men, by: Side, king: Square, from: Square) -> bool
    ensures { (r : Ray men.now Kind.Queen king from) → IsAttackedAlong men.now by r.direction from → IsTrue result }
{
    match line(king, from) {
        Some((direction, n)) => {
            is_clear(men, direction, n, king) && is_attacked_along(men, by, direction, from)
        }
        None => false,
    }
}

/// The square to which a knight goes.
pub fn knight_step_to(knight_step: KnightStep, from: Square) -> Option<Square>
    ensures found { IfSome result (λ to. IsKnightStepBy knight_step from to) }
    ensures none { IfNone result ((to : ℕ) → to < 64 → IsKnightStepBy knight_step from to → ⊥) }
{
    let (file, rank, place) = (from.file(), from.rank(), from.number());
    match knight_step {
        KnightStep::EastEastNorth if file < 6 && rank < 7 => Some(Square::at(place + 10)),
        KnightStep::EastEastSouth if file < 6 && rank > 0 => Some(Square::at(place - 6)),
        KnightStep::EastNorthNorth if file < 7 && rank < 6 => Some(Square::at(place + 17)),
        KnightStep::EastSouthSouth if file < 7 && rank > 1 => Some(Square::at(place - 15)),
        KnightStep::WestWestNorth if file > 1 && rank < 7 => Some(Square::at(place + 6)),
        KnightStep::WestWestSouth if file > 1 && rank > 0 => Some(Square::at(place - 10)),
        KnightStep::WestNorthNorth if file > 0 && rank < 6 => Some(Square::at(place + 15)),
        KnightStep::WestSouthSouth if file > 0 && rank > 1 => Some(Square::at(place - 17)),
        _ => None,
    }
}

/// Whether a knight of this side attacks the square from there.
fn is_attacked_by_knight(men: &Men, by: Side, knight_step: KnightStep, to: Square) -> bool
    ensures { IsTrue result ↔ IsAttackedByKnight men.now by knight_step to }
{
    match knight_step_to(knight_step, to) {
        Some(from) => match men.at(from) {
            Some(man) => man.is(by, Kind::Knight),
            None => false,
        },
        None => false,
    }
}

/// Whether in some direction the first man met from a square is one of this side that attacks the square.
fn is_attacked_by_line(men: &Men, by: Side, to: Square) -> bool
    ensures { IsTrue result ↔ ((d : Direction) × IsAttackedAlong men.now by d to) }
{
    'directions: for direction in DIRECTIONS {
        if is_attacked_along(men, by, direction, to) {
            return true;
        }
    }
    false
}

/// Whether some knight of this side attacks the square.
fn is_attacked_by_hop(men: &Men, by: Side, to: Square) -> bool
    ensures { IsTrue result ↔ ((h : KnightStep) × IsAttackedByKnight men.now by h to) }
{
    'steps: for knight_step in KNIGHT_STEPS {
        if is_attacked_by_knight(men, by, knight_step, to) {
            return true;
        }
    }
    false
}

/// Whether some man of this side attacks the square.
pub fn is_attacked(men: &Men, by: Side, to: Square) -> bool
    ensures { IsTrue result ↔ IsAttacked men.now by to }
{
    is_attacked_by_line(men, by, to) || is_attacked_by_hop(men, by, to)
}

/// Whether a man of this side stands on `from` and attacks `to`.
pub fn attacks_to(men: &Men, by: Side, from: Square, to: Square) -> bool
    ensures { IsTrue result ↔ AttacksTo men.now by to from }
{
    match men.at(from) {
        Some(man) => {
            man.is_of(by)
                && empty_board::reached(by, man.kind, from).has(to)
                && reaches(men, by, man.kind, from, to)
        }
        None => false,
    }
}

/// Whether some man of this side attacks the square, tested man by man. All its men stand on these squares.
fn some_attacks_to(men: &Men, by: Side, squares: Bitboard, to: Square) -> bool
    requires { (s : ℕ) → s < 64 → IsTaken men.now by s → bit_at squares s ≡ 1 }
    ensures { IsTrue result ↔ IsAttacked men.now by to }
{
    let mut rest = squares;
    let mut next = 0u8;
    'enemies: while !rest.is_empty() {
        let from = rest.lowest();
        if attacks_to(men, by, from, to) {
            return true;
        }
        rest = rest.without(from);
        next = from.number() + 1;
    }
    false
}

/// With at most this many men, testing each of them is quicker than scanning outwards from the square.
pub const FEW: u32 = 8;

/// Whether some man of this side attacks the square. All its men stand on these squares.
pub fn is_attacked_from(men: &Men, by: Side, squares: Bitboard, to: Square) -> bool
    requires { (s : ℕ) → s < 64 → IsTaken men.now by s → bit_at squares s ≡ 1 }
    ensures { IsTrue result ↔ IsAttacked men.now by to }
{
    if squares.len() <= FEW {
        some_attacks_to(men, by, squares, to)
    } else {
        is_attacked(men, by, to)
    }
}
