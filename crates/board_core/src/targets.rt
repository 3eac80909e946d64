//! Sets of the squares that a man may go to, a bit for each square.

ghost use Rattle.std.specs.Prelude.{◌≡◌, ◌≢◌, ◌<◌, ◌+◌, ◌-◌, ◌⊎◌, ℕ, IsTrue, Some, None};
ghost use Rattle.std.specs.Int.{bit_at};
ghost use Rattle.board_core.specs.Inside.Search.{IsKnightStepBy, IsRayEnd};
ghost use Rattle.board_core.specs.Attack.{Along, IsClear, IsStraight, IsDiagonal, IsKingStep, IsKnightStep, IsPawnAttack, Reaches, forward, man_at};
ghost use Rattle.board_core.specs.Moves.{Stands, IsFree, IsTaken, IsLegal};
ghost use Rattle.board_core.specs.Castling.{has_right, king_end};
ghost use Rattle.board_core.specs.declared.moves.Move.{Move};
ghost use Rattle.board_core.specs.Side.{other};
ghost use Rattle.board_core.specs.declared.attack.Direction.{Direction};

use crate::attack::{self, Direction, KnightStep};
use crate::bitboard::Bitboard;
use crate::men::Men;
use crate::parts::Parts;
use crate::piece::{Kind, Side, Wing};
use crate::square::Square;
use crate::{castling, empty_board, rules};

/// The mask with the squares in this direction up to the first man, and his where he can be taken.
fn with_ray(men: &Men, side: Side, direction: Direction, from: Square, mask: Bitboard) -> Bitboard
    ensures kept { (s : ℕ) → bit_at mask s ≡ 1 → bit_at result s ≡ 1 }
    ensures reached { (n s : ℕ) → 0 < n → s < 64 → Along direction n from s
        → IsClear men.now direction n from → IsFree men.now side s → bit_at result s ≡ 1 }
    ensures only { (s : ℕ) → bit_at result s ≡ 1
        → (bit_at mask s ≡ 1) ⊎ IsRayEnd men.now side direction from s }
{
    let end = attack::room(direction, from) + 1;
    let mut all = mask;
    for k in 1..end {
        let to = attack::along(direction, from, k);
        if let Some(man) = men.at(to) {
            if man.is_of(side) {
                return all;
            }
            return all.with(to);
        }
        all = all.with(to);
    }
    all
}

/// The mask with the next square in this direction, unless a man of this side stands there.
fn with_step(men: &Men, side: Side, direction: Direction, from: Square, mask: Bitboard) -> Bitboard
    ensures kept { (s : ℕ) → bit_at mask s ≡ 1 → bit_at result s ≡ 1 }
    ensures reached { (s : ℕ) → s < 64 → Along direction 1 from s → IsFree men.now side s
        → bit_at result s ≡ 1 }
    ensures only { (s : ℕ) → bit_at result s ≡ 1
        → (bit_at mask s ≡ 1) ⊎ (Along direction 1 from s × IsFree men.now side s) }
{
    if attack::room(direction, from) == 0 {
        return mask;
    }
    let to = attack::along(direction, from, 1);
    if rules::is_taken(men, side, to) {
        return mask;
    }
    mask.with(to)
}

/// The mask with the square of this step of a knight, unless a man of this side stands there.
fn with_knight_step(
    men: &Men,
    side: Side,
    knight_step: KnightStep,
    from: Square,
    mask: Bitboard,
) -> Bitboard
    ensures kept { (s : ℕ) → bit_at mask s ≡ 1 → bit_at result s ≡ 1 }
    ensures reached { (s : ℕ) → s < 64 → IsKnightStepBy knight_step from s → IsFree men.now side s
        → bit_at result s ≡ 1 }
    ensures only { (s : ℕ) → bit_at result s ≡ 1
        → (bit_at mask s ≡ 1) ⊎ (IsKnightStepBy knight_step from s × IsFree men.now side s) }
{
    match attack::knight_step_to(knight_step, from) {
        Some(to) => {
            if rules::is_taken(men, side, to) {
                mask
            } else {
                mask.with(to)
            }
        }
        None => mask,
    }
}

/// The mask with the squares that a rook reaches.
fn with_straight(men: &Men, side: Side, from: Square, mask: Bitboard) -> Bitboard
    ensures kept { (s : ℕ) → bit_at mask s ≡ 1 → bit_at result s ≡ 1 }
    ensures reached { (d : Direction) (n s : ℕ) → IsStraight d → 0 < n → s < 64 → Along d n from s
        → IsClear men.now d n from → IsFree men.now side s → bit_at result s ≡ 1 }
    ensures only { (s : ℕ) → bit_at result s ≡ 1
        → (bit_at mask s ≡ 1) ⊎ ((d : Direction) × IsStraight d × IsRayEnd men.now side d from s) }
{
    let north = with_ray(men, side, Direction::North, from, mask);
    let south = with_ray(men, side, Direction::South, from, north);
    let east = with_ray(men, side, Direction::East, from, south);
    with_ray(men, side, Direction::West, from, east)
}

/// The mask with the squares that a bishop reaches.
fn with_diagonal(men: &Men, side: Side, from: Square, mask: Bitboard) -> Bitboard
    ensures kept { (s : ℕ) → bit_at mask s ≡ 1 → bit_at result s ≡ 1 }
    ensures reached { (d : Direction) (n s : ℕ) → IsDiagonal d → 0 < n → s < 64 → Along d n from s
        → IsClear men.now d n from → IsFree men.now side s → bit_at result s ≡ 1 }
    ensures only { (s : ℕ) → bit_at result s ≡ 1
        → (bit_at mask s ≡ 1) ⊎ ((d : Direction) × IsDiagonal d × IsRayEnd men.now side d from s) }
{
    let a = with_ray(men, side, Direction::NorthEast, from, mask);
    let b = with_ray(men, side, Direction::NorthWest, from, a);
    let c = with_ray(men, side, Direction::SouthEast, from, b);
    with_ray(men, side, Direction::SouthWest, from, c)
}

/// The squares next to this one, but for those of men of this side.
fn king_targets(men: &Men, side: Side, from: Square) -> Bitboard
    ensures reached { (s : ℕ) → s < 64 → IsKingStep from s → IsFree men.now side s → bit_at result s ≡ 1 }
    ensures only { (s : ℕ) → bit_at result s ≡ 1 → IsKingStep from s × IsFree men.now side s }
{
    let a = with_step(men, side, Direction::North, from, Bitboard::empty());
    let b = with_step(men, side, Direction::South, from, a);
    let c = with_step(men, side, Direction::East, from, b);
    let d = with_step(men, side, Direction::West, from, c);
    let e = with_step(men, side, Direction::NorthEast, from, d);
    let f = with_step(men, side, Direction::NorthWest, from, e);
    let g = with_step(men, side, Direction::SouthEast, from, f);
    with_step(men, side, Direction::SouthWest, from, g)
}

/// The squares that a knight reaches, but for those of men of this side.
fn knight_targets(men: &Men, side: Side, from: Square) -> Bitboard
    ensures reached { (s : ℕ) → s < 64 → IsKnightStep from s → IsFree men.now side s → bit_at result s ≡ 1 }
    ensures only { (s : ℕ) → bit_at result s ≡ 1 → IsKnightStep from s × IsFree men.now side s }
{
    let a = with_knight_step(
        men,
        side,
        KnightStep::EastEastNorth,
        from,
        Bitboard::empty(),
    );
    let b = with_knight_step(men, side, KnightStep::EastEastSouth, from, a);
    let c = with_knight_step(men, side, KnightStep::EastNorthNorth, from, b);
    let d = with_knight_step(men, side, KnightStep::EastSouthSouth, from, c);
    let e = with_knight_step(men, side, KnightStep::WestWestNorth, from, d);
    let f = with_knight_step(men, side, KnightStep::WestWestSouth, from, e);
    let g = with_knight_step(men, side, KnightStep::WestNorthNorth, from, f);
    with_knight_step(men, side, KnightStep::WestSouthSouth, from, g)
}

/// The squares that a man other than a pawn may go to by a step or along a line.
pub fn plain_targets(men: &Men, side: Side, kind: Kind, from: Square) -> Bitboard
    ensures reached { (s : ℕ) → kind ≢ Kind.Pawn → s < 64 → Reaches men.now side kind from s
        → IsFree men.now side s → bit_at result s ≡ 1 }
    ensures only { (s : ℕ) → bit_at result s ≡ 1
        → (kind ≢ Kind.Pawn) × Reaches men.now side kind from s × IsFree men.now side s }
{
    match kind {
        Kind::Pawn => Bitboard::empty(),
        Kind::Knight => knight_targets(men, side, from),
        Kind::King => king_targets(men, side, from),
        Kind::Bishop => with_diagonal(men, side, from, Bitboard::empty()),
        Kind::Rook => with_straight(men, side, from, Bitboard::empty()),
        Kind::Queen => {
            let straight = with_straight(men, side, from, Bitboard::empty());
            with_diagonal(men, side, from, straight)
        }
    }
}

/// The set with the square, where a man of this kind reaches it.
fn with_reached(
    men: &Men,
    side: Side,
    kind: Kind,
    from: Square,
    to: Square,
    set: Bitboard,
) -> Bitboard
    ensures kept { (s : ℕ) → bit_at set s ≡ 1 → bit_at result s ≡ 1 }
    ensures reached { Reaches men.now side kind from to → bit_at result to ≡ 1 }
    ensures only { (s : ℕ) → bit_at result s ≡ 1
        → (bit_at set s ≡ 1) ⊎ ((s ≡ to) × Reaches men.now side kind from to) }
{
    if attack::reaches(men, side, kind, from, to) {
        set.with(to)
    } else {
        set
    }
}

/// Those squares of a set that a man of this kind reaches, tested one by one.
pub fn reached_of(men: &Men, side: Side, kind: Kind, from: Square, set: Bitboard) -> Bitboard
    ensures reached { (s : ℕ) → s < 64 → bit_at set s ≡ 1 → Reaches men.now side kind from s
        → bit_at result s ≡ 1 }
    ensures only { (s : ℕ) → bit_at result s ≡ 1
        → (bit_at set s ≡ 1) × Reaches men.now side kind from s }
{
    let mut reached = Bitboard::empty();
    let mut rest = set & empty_board::reached(side, kind, from);
    let mut next = 0u8;
    'squares: while !rest.is_empty() {
        let to = rest.lowest();
        reached = with_reached(men, side, kind, from, to, reached);
        rest = rest.without(to);
        next = to.number() + 1;
    }
    reached
}

/// The squares that a pawn of the other side attacks, but for those of men of this side.
pub fn pawn_attacks(men: &Men, side: Side, from: Square) -> Bitboard
    ensures { (s : ℕ) → s < 64 → IsPawnAttack (other side) from s → IsFree men.now side s
        → bit_at result s ≡ 1 }
{
    match side {
        Side::White => {
            let east = with_step(men, side, Direction::SouthEast, from, Bitboard::empty());
            with_step(men, side, Direction::SouthWest, from, east)
        }
        Side::Black => {
            let east = with_step(men, side, Direction::NorthEast, from, Bitboard::empty());
            with_step(men, side, Direction::NorthWest, from, east)
        }
    }
}

/// The mask with the square n squares before a pawn, where it is empty.
fn with_advance(men: &Men, side: Side, n: u8, from: Square, mask: Bitboard) -> Bitboard
    requires { n < 8 }
    ensures kept { (s : ℕ) → bit_at mask s ≡ 1 → bit_at result s ≡ 1 }
    ensures reached { (s : ℕ) → s < 64 → Along (forward side) n from s → man_at men.now s ≡ None
        → bit_at result s ≡ 1 }
{
    let direction = attack::forward(side);
    if attack::room(direction, from) < n {
        return mask;
    }
    let to = attack::along(direction, from, n);
    if !rules::is_empty(men, to) {
        return mask;
    }
    mask.with(to)
}

/// The mask with the next square in this direction, where a pawn may take there.
fn with_capture(p: &Parts, direction: Direction, from: Square, mask: Bitboard) -> Bitboard
    ensures kept { (s : ℕ) → bit_at mask s ≡ 1 → bit_at result s ≡ 1 }
    ensures enemy { (s : ℕ) → s < 64 → Along direction 1 from s
        → IsTaken p.now.men (other p.now.side) s → bit_at result s ≡ 1 }
    ensures passed { (s : ℕ) → s < 64 → Along direction 1 from s → p.now.en_passant ≡ Some s
        → bit_at result s ≡ 1 }
{
    if attack::room(direction, from) == 0 {
        return mask;
    }
    let to = attack::along(direction, from, 1);
    if rules::is_taken(&p.men, p.side.other(), to) || p.en_passant == Some(to) {
        return mask.with(to);
    }
    mask
}

/// The mask with the squares on which a pawn may take.
fn with_captures(p: &Parts, from: Square, mask: Bitboard) -> Bitboard
    ensures kept { (s : ℕ) → bit_at mask s ≡ 1 → bit_at result s ≡ 1 }
    ensures enemy { (s : ℕ) → s < 64 → IsPawnAttack p.now.side from s
        → IsTaken p.now.men (other p.now.side) s → bit_at result s ≡ 1 }
    ensures passed { (s : ℕ) → s < 64 → IsPawnAttack p.now.side from s → p.now.en_passant ≡ Some s
        → bit_at result s ≡ 1 }
{
    match p.side {
        Side::White => {
            let east = with_capture(p, Direction::NorthEast, from, mask);
            with_capture(p, Direction::NorthWest, from, east)
        }
        Side::Black => {
            let east = with_capture(p, Direction::SouthEast, from, mask);
            with_capture(p, Direction::SouthWest, from, east)
        }
    }
}

/// The squares that a pawn may go to.
fn pawn_targets(p: &Parts, from: Square) -> Bitboard
    ensures ahead { (n s : ℕ) → 0 < n → n < 3 → s < 64 → Along (forward p.now.side) n from s
        → man_at p.now.men s ≡ None → bit_at result s ≡ 1 }
    ensures enemy { (s : ℕ) → s < 64 → IsPawnAttack p.now.side from s
        → IsTaken p.now.men (other p.now.side) s → bit_at result s ≡ 1 }
    ensures passed { (s : ℕ) → s < 64 → IsPawnAttack p.now.side from s → p.now.en_passant ≡ Some s
        → bit_at result s ≡ 1 }
{
    let one = with_advance(&p.men, p.side, 1, from, Bitboard::empty());
    let two = with_advance(&p.men, p.side, 2, from, one);
    with_captures(p, from, two)
}

/// The mask with the square to which this side's king castles, while it has the right.
fn with_castle(p: &Parts, wing: Wing, mask: Bitboard) -> Bitboard
    ensures kept { (s : ℕ) → bit_at mask s ≡ 1 → bit_at result s ≡ 1 }
    ensures reached { IsTrue (has_right p.now.rights p.now.side wing)
        → bit_at result (king_end p.now.side wing) ≡ 1 }
{
    if p.rights.has(p.side, wing) {
        return mask.with(castling::king_end(p.side, wing));
    }
    mask
}

/// A mask in which the squares are that the man on `from` may legally go to.
pub fn targets(p: &Parts, kind: Kind, from: Square) -> Bitboard
    requires { Stands p.now.men from p.now.side kind }
    ensures { (m : Move) → IsLegal p.now m → m.from ≡ from → bit_at result m.to ≡ 1 }
{
    match kind {
        Kind::Pawn => pawn_targets(p, from),
        Kind::King => {
            let steps = plain_targets(&p.men, p.side, kind, from);
            let short = with_castle(p, Wing::KingSide, steps);
            with_castle(p, Wing::QueenSide, short)
        }
        _ => plain_targets(&p.men, p.side, kind, from),
    }
}
