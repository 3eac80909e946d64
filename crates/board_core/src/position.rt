//! Positions: the seven conditions, and what the layers above call.

ghost use Rattle.std.specs.Prelude.{◌≡◌, ◌≢◌, ◌<◌, ◌↔◌, ◌∷◌, [], IsTrue, IsFalse, List, Option, Some, if◌then◌else◌, Ok, Err, IfOk, IfErr, OnErr, IfSome, IfNone, count_by, ◌+◌};
ghost use Rattle.board_core.specs.Position.{is_of, is_king_of, HasOneKingEach, HasFewMen, HasNoPawnOnEdge, IsRightValid, HasValidRights, IsOpponentSafe, HasValidCounters, HasValidEnPassant, IsPassed, passed_rank, IsFirstFault, IsPosition, fault_name};
ghost use Rattle.board_core.specs.declared.position.PositionFault.{PositionFault};
ghost use Rattle.board_core.specs.Moves.{IsEnPassant, IsLegal, Legal, IsMove, HasLegal, HasLegalCaptures, HasLegalPawnMoves, place_of, after, men_after};
ghost use Rattle.board_core.specs.Attack.{man_at, IsInCheck};
ghost use Rattle.board_core.specs.Computed.{is_in_check};
ghost use Rattle.board_core.specs.ComputedMoves.{position_after, is_legal, has_legal_move, has_move_besides_en_passant, captures_after, legal_captures, legal_moves, legal_pawn_moves, count_of_men};
ghost use Rattle.board_core.specs.Side.{other};
ghost use Rattle.board_core.specs.Inside.Census.{census_of};
ghost use Rattle.board_core.specs.Sets.{parts_of};
ghost use Rattle.board_core.specs.Sides.{IsOccupied, sides_of};
ghost use Rattle.board_core.specs.declared.piece.Piece.{Piece};

use crate::bitboard::Bitboard;
use crate::census::Census;
use crate::mobility::Sought;
use crate::moves::{Move, MoveCase};
use crate::parts::{Parts, Rights};
use crate::piece::{Kind, Piece, Side, Wing};
use crate::sets::{Sets, State};
use crate::sides::Sides;
use crate::square::Square;
use crate::{capturing, castling, generation, king, mobility, playing, rules};
use std::alloc::{AllocError, Global};
use std::fmt;
use std::marker::Model;

/// Why parts are no position: the first condition that fails, in this order.
#[derive(Clone, Copy, PartialEq, Eq, Debug)]
pub enum PositionFault {
    /// A side hasn't exactly one king.
    BadKings,
    /// A side has more than 16 men.
    TooManyMen,
    /// A pawn stands on rank 1 or 8.
    PawnOnEdge,
    /// There is a right to castle whose king or rook isn't at home.
    BadCastling,
    /// The en passant square isn't on rank 6 (white to move) or rank 3 (black to move). Or the pawn that made the
    /// double step doesn't stand before it. Or the square, or the one behind it, isn't empty.
    BadEnPassant,
    /// The side that isn't to move is in check.
    OpponentInCheck,
    /// A counter is above 9999.
    BadCounter,
}

impl PositionFault {
    /// The name of the fault, as it is printed.
    pub fn name(self) -> &'static str
        ensures { result.now ≡ fault_name self }
    {
        match self {
            PositionFault::BadKings => "BadKings",
            PositionFault::TooManyMen => "TooManyMen",
            PositionFault::PawnOnEdge => "PawnOnEdge",
            PositionFault::BadCastling => "BadCastling",
            PositionFault::BadEnPassant => "BadEnPassant",
            PositionFault::OpponentInCheck => "OpponentInCheck",
            PositionFault::BadCounter => "BadCounter",
        }
    }
}

impl fmt::Display for PositionFault {
    ghost use Rattle.std.specs.Prelude.{Some};
    ghost use Rattle.board_core.specs.Position.{fault_name};

    ghost output = { λ fault. Some (fault_name fault) };

    fn fmt<W: fmt::Write>(&self, f: &mut fmt::Formatter<W>) -> fmt::Result {
        f.write_str(self.name())
    }
}

/// Whether each side has 16 men at most, where they stand on these squares.
fn has_few_men(sides: &Sides) -> bool
    ensures { (men : List (Option Piece)) → sides.now ≡ sides_of men → (IsTrue result ↔ HasFewMen men) }
{
    sides.white.len() <= 16 && sides.black.len() <= 16
}

fn is_right_valid(p: &Parts, side: Side, wing: Wing) -> bool
    ensures { IsTrue result ↔ IsRightValid p.now side wing }
{
    !p.rights.has(side, wing)
        || rules::stands(&p.men, castling::king_home(side), side, Kind::King)
            && rules::stands(&p.men, castling::rook_home(side, wing), side, Kind::Rook)
}

fn has_valid_rights(p: &Parts) -> bool
    ensures { IsTrue result ↔ HasValidRights p.now }
{
    is_right_valid(p, Side::White, Wing::KingSide)
        && is_right_valid(p, Side::White, Wing::QueenSide)
        && is_right_valid(p, Side::Black, Wing::KingSide)
        && is_right_valid(p, Side::Black, Wing::QueenSide)
}

/// Whether a pawn of the side that is not to move has just passed this square.
fn is_passed(p: &Parts, square: Square) -> bool
    ensures { IsTrue result ↔ IsPassed p.now square }
{
    if square.rank() != passed_rank(p.side) {
        return false;
    }
    if !rules::is_empty(&p.men, square) {
        return false;
    }
    let other = p.side.other();
    rules::stands(&p.men, playing::behind(p.side, square), other, Kind::Pawn)
        && rules::is_empty(&p.men, playing::behind(other, square))
}

fn passed_rank(side: Side) -> u8
    ensures { result ≡ passed_rank side }
{
    match side {
        Side::White => 5,
        Side::Black => 2,
    }
}

fn has_valid_en_passant(p: &Parts) -> bool
    ensures { IsTrue result ↔ HasValidEnPassant p.now }
{
    match p.en_passant {
        Some(square) => is_passed(p, square),
        None => true,
    }
}

fn is_opponent_safe(p: &Parts, sides: &Sides) -> bool
    requires kings { HasOneKingEach p.now.men }
    requires sides { sides.now ≡ sides_of p.now.men }
    ensures { IsTrue result ↔ IsOpponentSafe p.now }
{
    !king::is_in_check(&p.men, sides, p.side.other())
}

fn has_valid_counters(p: &Parts) -> bool
    ensures { IsTrue result ↔ HasValidCounters p.now }
{
    p.halfmove <= 9999 && p.fullmove <= 9999
}

/// The first condition that fails; these are the squares of the men.
fn first_fault(p: &Parts, census: &Census) -> Option<PositionFault>
    requires { census.now ≡ census_of p.now.men }
    ensures found { IfSome result (λ fault. IsFirstFault p.now fault) }
    ensures none { IfNone result (IsPosition p.now) }
{
    prove!(p.men.squares() == 64);
    if !census.has_one_king_each() {
        return Some(PositionFault::BadKings);
    }
    if !has_few_men(&census.sides) {
        return Some(PositionFault::TooManyMen);
    }
    if !census.has_no_pawn_on_edge() {
        return Some(PositionFault::PawnOnEdge);
    }
    if !has_valid_rights(p) {
        return Some(PositionFault::BadCastling);
    }
    if !has_valid_en_passant(p) {
        return Some(PositionFault::BadEnPassant);
    }
    if !is_opponent_safe(p, &census.sides) {
        return Some(PositionFault::OpponentInCheck);
    }
    if !has_valid_counters(p) {
        return Some(PositionFault::BadCounter);
    }
    None
}

/// A position of chess; contracts see its parts, which meet the seven conditions of `IsPosition`.
#[derive(Clone, Copy)]
#[derive_where(PartialEq, Eq, Debug)]
pub struct Position {
    parts: Parts,
    // What follows from the parts is neither compared nor shown.
    #[derive_where(skip)]
    sides: Sides,
}

impl Model for Position {
    ghost use Rattle.board_core.specs.declared.parts.Parts.{Parts};
    ghost use Rattle.std.proofs.Common.{ap, sym, ◌≡◌};
    ghost use Rattle.board_core.specs.Position.{IsPosition};
    ghost use Rattle.board_core.specs.Sides.{sides_of};

    ghost Value = { Parts };

    ghost view = { λ p. p.parts };

    ghost invariant = { λ p. IsPosition p.parts × (p.sides ≡ sides_of p.parts.men) };

    ghost inverse = { λ v. record { parts = v; sides = sides_of v.men } };

    ghost inverse_ok = { λ a h. ap (λ x. record { parts = a.parts; sides = x }) (sym h.1) };
}

impl Position {
    /// The position with these parts. The error is the first condition that fails.
    pub fn new(parts: Parts) -> Result<Position, PositionFault>
        ensures ok { IfOk result (λ p. (p ≡ parts) × IsPosition parts) }
        ensures err { IfErr result (λ fault. IsFirstFault parts fault) }
        ensures only { IsPosition parts → result ≡ Ok parts }
        ensures only_fault { (fault : PositionFault) → IsFirstFault parts fault → result ≡ Err fault }
    {
        let census = Census::of(&parts.men);
        Position::checked(parts, &census)
    }

    /// The position of these parts, where these are the squares of the men.
    fn checked(parts: Parts, census: &Census) -> Result<Position, PositionFault>
        requires { census.now ≡ census_of parts.men }
        ensures ok { IfOk result (λ p. (p ≡ parts) × IsPosition parts) }
        ensures err { IfErr result (λ fault. IsFirstFault parts fault) }
        ensures only { IsPosition parts → result ≡ Ok parts }
        ensures only_fault { (fault : PositionFault) → IsFirstFault parts fault → result ≡ Err fault }
    {
        if let Some(fault) = first_fault(&parts, census) {
            return Err(fault);
        }
        Ok(Position {
            parts,
            sides: census.sides,
        })
    }

    /// The position whose men the sets show, with this state; the first condition that fails is told otherwise.
    pub fn from_sets(sets: &Sets, state: State) -> Result<Position, PositionFault>
        ensures ok { IfOk result (λ p. (p ≡ parts_of sets.now state) × IsPosition (parts_of sets.now state)) }
        ensures err { IfErr result (λ fault. IsFirstFault (parts_of sets.now state) fault) }
        ensures only { IsPosition (parts_of sets.now state) → result ≡ Ok (parts_of sets.now state) }
        ensures only_fault { (fault : PositionFault) → IsFirstFault (parts_of sets.now state) fault → result ≡ Err fault }
    {
        let census = sets.census();
        let parts = Parts {
            men: sets.men(census.sides.all()),
            side: state.side,
            rights: state.rights,
            en_passant: state.en_passant,
            halfmove: state.halfmove,
            fullmove: state.fullmove,
        };
        Position::checked(parts, &census)
    }

    /// The parts of the position, which meet all conditions.
    pub fn parts(&self) -> &Parts
        ensures value { result.now ≡ self.now }
        ensures position { IsPosition self.now }
    {
        &self.parts
    }

    /// What stands on the square.
    pub fn piece_at(&self, square: Square) -> Option<Piece>
        ensures { result ≡ man_at self.now.men square }
    {
        self.parts.men.at(square)
    }

    /// Whether the king of the side to move is attacked (FIDE article 3.9.1).
    pub fn in_check(&self) -> bool
        ensures relation { IsTrue result ↔ IsInCheck self.now.men self.now.side }
        ensures computed { result ≡ is_in_check self.now.men self.now.side }
    {
        king::is_in_check(&self.parts.men, &self.sides, self.parts.side)
    }

    /// How many men stand on the board, 2 to 32.
    pub fn men(&self) -> u32
        ensures by_side { result ≡ count_by (is_of Side.White) self.now.men + count_by (is_of Side.Black) self.now.men }
        ensures computed { result ≡ count_of_men self.now }
    {
        self.sides.white.len() + self.sides.black.len()
    }

    /// The squares on which men stand.
    pub fn occupied(&self) -> Bitboard
        ensures { IsOccupied self.now.men result }
    {
        self.sides.white | self.sides.black
    }

    /// Whether the move is legal (FIDE article 3).
    pub fn is_legal(&self, m: Move) -> bool
        ensures relation { IsTrue result ↔ IsLegal self.now m }
        ensures computed { result ≡ is_legal self.now m }
    {
        playing::is_legal(&self.parts, &self.sides, &m)
    }

    /// Whether some move is legal. It takes no memory and stops at the first one.
    pub fn has_legal_move(&self) -> bool
        ensures relation { IsTrue result ↔ ((m : Move) × IsLegal self.now m) }
        ensures computed { result ≡ has_legal_move self.now }
    {
        mobility::has_legal_move(&self.parts, &self.sides, Sought::Any)
    }

    /// Whether some move other than en passant is legal. It takes no memory and stops at the first one.
    pub fn has_move_besides_en_passant(&self) -> bool
        ensures relation { IsTrue result ↔ ((m : Move) × IsLegal self.now m × (IsEnPassant self.now m → ⊥)) }
        ensures computed { result ≡ has_move_besides_en_passant self.now }
    {
        mobility::has_legal_move(&self.parts, &self.sides, Sought::BesidesEnPassant)
    }

    /// The position after the move; none where the move isn't legal. A right to castle is lost when its king or rook
    /// moves or its rook is taken at home. A double step sets the en passant square, and any other move clears it. The
    /// halfmove clock is 0 after a capture or a pawn move, and one more after another move. The fullmove number is one
    /// more after black's move. Neither goes above 9999.
    pub fn play(&self, m: Move) -> Option<Position>
        ensures legal { IfSome result (λ q. Legal self.now m q) }
        ensures only { (q : Parts) → Legal self.now m q → result ≡ Some q }
        ensures computed { result ≡ position_after self.now m }
    {
        self.after(&m)
    }

    /// The position after the move; none where the move isn't legal.
    fn after(&self, m: &Move) -> Option<Position>
        ensures legal { IfSome result (λ q. Legal self.now m.now q) }
        ensures only { (q : Parts) → Legal self.now m.now q → result ≡ Some q }
        ensures computed { result ≡ position_after self.now m.now }
    {
        prove!(m.from.number() < 64);
        prove!(m.to.number() < 64);
        match rules::case_of(&self.parts, m) {
            Some(case) => self.played(m, case),
            None => None,
        }
    }

    /// The position after the move, of this case; none where it leaves the king of its side attacked.
    #[inline(never)]
    fn played(&self, m: &Move, case: MoveCase) -> Option<Position>
        requires { IsMove self.now m.now case }
        ensures safe { IfSome result (λ q. (q ≡ after self.now m.now case) × (IsInCheck q.men self.now.side → ⊥)) }
        ensures only { (IsInCheck (men_after self.now m.now case) self.now.side → ⊥) → result ≡ Some (after self.now m.now case) }
    {
        prove!(m.from.number() < 64);
        prove!(m.to.number() < 64);
        let mut after = *self;
        if !playing::play(&self.parts, &mut after.parts, &mut after.sides, m, case) {
            return None;
        }
        Some(after)
    }

    /// The position after a legal move, as `play` gives it. A move that `legal` listed isn't tested again.
    #[inline(never)]
    pub fn play_legal(&self, m: &Move) -> Position
        requires legal { IsLegal self.now m.now }
        ensures legal { Legal self.now m.now result }
        ensures computed { position_after self.now m.now ≡ Some result }
    {
        prove!(m.from.number() < 64);
        prove!(m.to.number() < 64);
        let case = rules::case_of_legal(&self.parts, m);
        let mut after = *self;
        playing::play_safe(&self.parts, &mut after.parts, &mut after.sides, m, case);
        after
    }

    /// The legal moves, each once, in order of from, to and promotion (queen, rook, bishop,
    /// knight). The error comes only where memory for the list is refused.
    pub fn legal(&self, alloc: Global) -> Result<Vec<Move>, AllocError>
        ensures legal { IfOk result (λ moves. HasLegal self.now moves.items) }
        ensures computed { IfOk result (λ moves. moves.items ≡ legal_moves self.now) }
    {
        generation::legal(&self.parts, &self.sides, alloc)
    }

    /// The legal moves that take a man, en passant among them, in the same order. The error comes
    /// only where there is one and memory for the list is refused.
    pub fn captures(&self, alloc: Global) -> Result<Vec<Move>, AllocError>
        ensures legal { IfOk result (λ moves. HasLegalCaptures self.now moves.items) }
        ensures computed { IfOk result (λ moves. moves.items ≡ legal_captures self.now) }
        ensures memory { OnErr result (legal_captures self.now ≢ []) }
    {
        generation::captures(&self.parts, &self.sides, alloc)
    }

    /// The legal moves of pawns, in the same order. The error comes only where there is one and memory for the list is
    /// refused.
    pub fn pawn_moves(&self, alloc: Global) -> Result<Vec<Move>, AllocError>
        ensures legal { IfOk result (λ moves. HasLegalPawnMoves self.now moves.items) }
        ensures computed { IfOk result (λ moves. moves.items ≡ legal_pawn_moves self.now) }
        ensures memory { OnErr result (legal_pawn_moves self.now ≢ []) }
    {
        generation::pawn_moves(&self.parts, &self.sides, alloc)
    }

    /// The first legal capture, en passant among them, after this move in the order of moves, and the position after
    /// the capture. Where no move is given it is the first of all. None where no further one comes. The move that is
    /// given need not be a capture, nor legal: its place in the order of from, to and promotion alone counts. It takes
    /// no memory.
    pub fn capture_after(&self, last: Option<Move>) -> Option<(Move, Position)>
        ensures next { IfSome result (λ c. captures_after self.now last ≡ c.0 ∷ captures_after self.now (Some c.0)) }
        ensures after { IfSome result (λ c. position_after self.now c.0 ≡ Some c.1) }
        ensures none { IfNone result (captures_after self.now last ≡ []) }
    {
        let mut last = last;
        'captures: while let Some(m) = self.next_capture(last) {
            if let Some(after) = self.after(&m) {
                return Some((m, after));
            }
            last = Some(m);
        }
        None
    }

    /// Whether there may be a legal capture, en passant among them; where it says no there is none. It takes no memory.
    pub fn may_capture(&self) -> bool
        ensures { IsFalse result → captures_after self.now None ≡ [] }
    {
        capturing::may_capture(&self.parts, &self.sides)
    }

    /// The next move after this one, in the order of from, to and promotion, that may be a legal capture; the first of
    /// all where no move is given. None where no legal capture follows. No legal capture lies between the two. `play`
    /// tests whether the move itself is legal. It takes no memory.
    pub fn next_capture(&self, last: Option<Move>) -> Option<Move>
        ensures next { IfSome result (λ m. captures_after self.now last
            ≡ if is_legal self.now m then m ∷ captures_after self.now (Some m) else captures_after self.now (Some m)) }
        ensures later { IfSome result (λ m. (l : Move) → last ≡ Some l → place_of l < place_of m) }
        ensures below { IfSome result (λ m. place_of m < 20480) }
        ensures none { IfNone result (captures_after self.now last ≡ []) }
    {
        capturing::next_capture(&self.parts, &self.sides, last)
    }

    /// The side to move.
    pub fn side(&self) -> Side
        ensures { result ≡ self.now.side }
    {
        self.parts.side
    }

    /// Which castlings have not been lost.
    pub fn rights(&self) -> Rights
        ensures { result ≡ self.now.rights }
    {
        self.parts.rights
    }

    /// The square that a pawn passed by a double step in the move before, whether or not it can be
    /// taken there.
    pub fn en_passant(&self) -> Option<Square>
        ensures { result ≡ self.now.en_passant }
    {
        self.parts.en_passant
    }

    /// Plies since the last capture or pawn move, 0 to 9999.
    pub fn halfmove(&self) -> u16
        ensures { result ≡ self.now.halfmove }
    {
        self.parts.halfmove
    }

    /// The number of the move, 0 to 9999.
    pub fn fullmove(&self) -> u16
        ensures { result ≡ self.now.fullmove }
    {
        self.parts.fullmove
    }
}
