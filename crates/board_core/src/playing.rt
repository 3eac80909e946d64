//! The position after a move.

ghost use Rattle.std.specs.Prelude.{◌≡◌, ◌≢◌, ◌<◌, ◌↔◌, ◌+◌, ◌-◌, ℕ, IsTrue, IfSome, Option, Some};
ghost use Rattle.std.specs.Int.{bit_at};
ghost use Rattle.board_core.specs.Inside.Search.{IsInside, IsOnlyKing};
ghost use Rattle.board_core.specs.Attack.{IsInCheck, forward};
ghost use Rattle.board_core.specs.Moves.{IsMove, IsLegal, IsTaken, after, rights_after, keeps_right, en_passant_after, halfmove_after, behind, one_more, promoted_kind, carried, landed, men_after, fullmove_after};
ghost use Rattle.board_core.specs.Side.{other};
ghost use Rattle.board_core.specs.Castling.{king_home, rook_home};
ghost use Rattle.board_core.specs.ComputedMoves.{is_legal};
ghost use Rattle.board_core.specs.Position.{IsPosition};
ghost use Rattle.board_core.specs.Sides.{sides_of};

use crate::bitboard::Bitboard;
use crate::king::{is_in_check, king_of};
use crate::men::Men;
use crate::moves::{Move, MoveCase};
use crate::parts::{Parts, Rights};
use crate::piece::{Kind, Piece, Promotion, Side, Wing};
use crate::rules::{case_of, is_empty};
use crate::sides::Sides;
use crate::square::Square;
use crate::{attack, castling};

/// Moves what stands on `from` to `to`, where it is then this man.
fn carry(men: &mut Men, from: Square, to: Square, man: Option<Piece>)
    ensures { men.new ≡ carried men.old from to man }
{
    men.put(from, None);
    men.put(to, man);
}

fn promoted(promotion: Promotion) -> Kind
    ensures { result ≡ promoted_kind promotion }
{
    match promotion {
        Promotion::Queen => Kind::Queen,
        Promotion::Rook => Kind::Rook,
        Promotion::Bishop => Kind::Bishop,
        Promotion::Knight => Kind::Knight,
    }
}

fn landed(side: Side, man: Option<Piece>, promotion: Option<Promotion>) -> Option<Piece>
    ensures { result ≡ landed side man promotion }
{
    match promotion {
        Some(kind) => Some(Piece {
            side,
            kind: promoted(kind),
        }),
        None => man,
    }
}

fn keeps_right(p: &Parts, m: &Move, side: Side, wing: Wing) -> bool
    ensures { result ≡ keeps_right p.now m.now side wing }
{
    p.rights.has(side, wing)
        && m.from != castling::king_home(side)
        && m.from != castling::rook_home(side, wing)
        && m.to != castling::rook_home(side, wing)
}

fn rights_after(p: &Parts, m: &Move) -> Rights
    ensures { result ≡ rights_after p.now m.now }
{
    if !p.rights.any() {
        return p.rights;
    }
    Rights {
        white_king: keeps_right(p, m, Side::White, Wing::KingSide),
        white_queen: keeps_right(p, m, Side::White, Wing::QueenSide),
        black_king: keeps_right(p, m, Side::Black, Wing::KingSide),
        black_queen: keeps_right(p, m, Side::Black, Wing::QueenSide),
    }
}

fn one_more(n: u16) -> u16
    ensures { result ≡ one_more n }
{
    if n >= 9999 { 9999 } else { n + 1 }
}

fn fullmove_after(side: Side, n: u16) -> u16
    ensures { result ≡ fullmove_after side n }
{
    match side {
        Side::White => n,
        Side::Black => one_more(n),
    }
}

fn halfmove_after(p: &Parts, m: &Move, case: MoveCase) -> u16
    ensures { result ≡ halfmove_after p.now m.now case }
{
    match case {
        MoveCase::Plain => {
            if is_empty(&p.men, m.to) {
                one_more(p.halfmove)
            } else {
                0
            }
        }
        MoveCase::Castle(_) => one_more(p.halfmove),
        _ => 0,
    }
}

/// The square behind this one, as this side's pawns move.
pub fn behind(side: Side, square: Square) -> Square
    requires { IsInside (forward (other side)) 1 square }
    ensures { result ≡ behind side square }
{
    match side {
        Side::White => Square::at(square.number() - 8),
        Side::Black => Square::at(square.number() + 8),
    }
}

/// Moves the men, who stand as in the position, as the move does.
fn move_men(p: &Parts, men: &mut Men, m: &Move, case: MoveCase)
    requires rule { IsMove p.now m.now case }
    requires men { men.old ≡ p.now.men }
    ensures { men.new ≡ men_after p.now m.now case }
{
    let man = p.men.at(m.from);
    match case {
        MoveCase::Plain | MoveCase::DoubleStep => carry(men, m.from, m.to, man),
        MoveCase::Advance | MoveCase::PawnCapture => {
            carry(men, m.from, m.to, landed(p.side, man, m.promotion));
        }
        MoveCase::EnPassant => {
            carry(men, m.from, m.to, man);
            let passed = behind(p.side, m.to);
            men.put(passed, None);
        }
        MoveCase::Castle(wing) => {
            carry(men, m.from, m.to, man);
            let rook = Some(Piece {
                side: p.side,
                kind: Kind::Rook,
            });
            carry(
                men,
                castling::rook_home(p.side, wing),
                castling::rook_end(p.side, wing),
                rook,
            );
        }
    }
}

fn en_passant_after(p: &Parts, m: &Move, case: MoveCase) -> Option<Square>
    requires { IsMove p.now m.now case }
    ensures { result ≡ en_passant_after p.now m.now case }
{
    match case {
        MoveCase::DoubleStep => Some(behind(p.side, m.to)),
        _ => None,
    }
}

/// Makes the move on a copy of the position.
#[tactic(auto, unfolding(crate::specs::Moves::after))]
#[inline(always)]
fn make(p: &Parts, copy: &mut Parts, m: &Move, case: MoveCase)
    requires rule { IsMove p.now m.now case }
    requires copy { copy.old ≡ p.now }
    ensures { copy.new ≡ after p.now m.now case }
{
    move_men(p, &mut copy.men, m, case);
    copy.side = p.side.other();
    copy.rights = rights_after(p, m);
    copy.en_passant = en_passant_after(p, m, case);
    copy.halfmove = halfmove_after(p, m, case);
    copy.fullmove = fullmove_after(p.side, p.fullmove);
}

/// Where the men of each side stand after the move.
fn sides_after(p: &Parts, sides: &Sides, m: &Move, case: MoveCase) -> Sides
    requires rule { IsMove p.now m.now case }
    requires sides { sides.now ≡ sides_of p.now.men }
    ensures { result ≡ sides_of (men_after p.now m.now case) }
{
    let man = p.men.at(m.from);
    match case {
        MoveCase::Plain | MoveCase::DoubleStep => sides.carry(m.from, m.to, man),
        MoveCase::Advance | MoveCase::PawnCapture => {
            sides.carry(m.from, m.to, landed(p.side, man, m.promotion))
        }
        MoveCase::EnPassant => sides
            .carry(m.from, m.to, man)
            .put(behind(p.side, m.to), None),
        MoveCase::Castle(wing) => {
            let rook = Some(Piece {
                side: p.side,
                kind: Kind::Rook,
            });
            sides.carry(m.from, m.to, man).carry(
                castling::rook_home(p.side, wing),
                castling::rook_end(p.side, wing),
                rook,
            )
        }
    }
}

/// Where the king that stands on this square stands after the move.
fn king_after(m: &Move, king: Square) -> Square
    ensures moved { m.now.from ≡ king → result ≡ m.now.to }
    ensures stayed { m.now.from ≢ king → result ≡ king }
{
    if m.from == king { m.to } else { king }
}

/// Whether the move, of this case, leaves the king of its side unattacked, tested on the men after the move. Before it
/// the king stands on this square, and all men of the other side on these.
#[inline(never)]
pub fn is_safe(p: &Parts, m: &Move, case: MoveCase, king: Square, enemy: Bitboard) -> bool
    requires position { IsPosition p.now }
    requires rule { IsMove p.now m.now case }
    requires king { IsOnlyKing p.now.men p.now.side king }
    requires enemy { (s : ℕ) → s < 64 → IsTaken p.now.men (other p.now.side) s → bit_at enemy s ≡ 1 }
    ensures { IsTrue result ↔ (IsInCheck (men_after p.now m.now case) p.now.side → ⊥) }
{
    prove!(m.from.number() < 64);
    prove!(m.to.number() < 64);
    let mut men = p.men;
    move_men(p, &mut men, m, case);
    !attack::is_attacked_from(&men, p.side.other(), enemy, king_after(m, king))
}

/// Makes the move, of this case, on a copy of the position and of the sets of its sides. The flag says whether the king
/// of its side is then unattacked.
pub fn play(p: &Parts, copy: &mut Parts, sides: &mut Sides, m: &Move, case: MoveCase) -> bool
    requires position { IsPosition p.now }
    requires copy { copy.old ≡ p.now }
    requires sides { sides.old ≡ sides_of p.now.men }
    requires rule { IsMove p.now m.now case }
    ensures made { copy.new ≡ after p.now m.now case }
    ensures sides { sides.new ≡ sides_of copy.new.men }
    ensures safe { IsTrue result ↔ (IsInCheck copy.new.men p.now.side → ⊥) }
{
    prove!(m.from.number() < 64);
    prove!(m.to.number() < 64);
    make(p, copy, m, case);
    *sides = sides_after(p, sides, m, case);
    !is_in_check(&copy.men, sides, p.side)
}

/// Makes the move, of this case and legal, on a copy of the position and of the sets of its sides.
pub fn play_safe(p: &Parts, copy: &mut Parts, sides: &mut Sides, m: &Move, case: MoveCase)
    requires copy { copy.old ≡ p.now }
    requires sides { sides.old ≡ sides_of p.now.men }
    requires rule { IsMove p.now m.now case }
    ensures made { copy.new ≡ after p.now m.now case }
    ensures sides { sides.new ≡ sides_of copy.new.men }
{
    prove!(m.from.number() < 64);
    prove!(m.to.number() < 64);
    make(p, copy, m, case);
    *sides = sides_after(p, sides, m, case);
}

/// Whether the move is legal.
pub fn is_legal(p: &Parts, sides: &Sides, m: &Move) -> bool
    requires position { IsPosition p.now }
    requires sides { sides.now ≡ sides_of p.now.men }
    ensures relation { IsTrue result ↔ IsLegal p.now m.now }
    ensures computed { result ≡ is_legal p.now m.now }
{
    prove!(m.from.number() < 64);
    prove!(m.to.number() < 64);
    match case_of(p, m) {
        Some(case) => {
            let king = king_of(&p.men, p.side, sides.of_side(p.side));
            is_safe(p, m, case, king, sides.of_side(p.side.other()))
        }
        None => false,
    }
}
