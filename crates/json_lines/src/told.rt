//! What tables tell of a position and of its legal moves.

ghost use Rattle.std.specs.Prelude.{◌≡◌, ◌++◌, ◌∷◌, [], Some, IfOk, OnErr, OnOk, map};
ghost use Rattle.board_core.specs.ComputedMoves.{position_after};
ghost use Rattle.std.specs.List.{All, list_all};
ghost use Rattle.judge_core.specs.ProbeResult.{has_both};
ghost use Rattle.judge_core.specs.Root.{is_checkmate};
ghost use Rattle.json_lines.specs.declared.told.MoveTold.{MoveTold};
ghost use Rattle.json_lines.specs.Inside.Playing.{IsPlayable};
ghost use Rattle.judge_core.specs.Ask.{MayLack};
ghost use Rattle.san_text.specs.Written.{san_of};
ghost use Rattle.json_lines.specs.Told.{AreMovesTold, AreOrdered, IsLineFor, IsLineOf, IsMoveTold, IsPositionTold, IsProbedAfter, IsRootTold, IsText, MayLackLine, OfText, is_done, played_in};

use arrayvec::ArrayString;
use board_core::{Move, Position};
use fen_text::{FenFault, read};
use judge_core::{Ask, BoardState, Columns, Effect, ProbeResult, RootMove, Set};
use san_text::write_san;
use std::alloc::{AllocError, Global};

/// Both probes of a position and the verdict on it.
#[derive(Clone, Copy)]
pub struct PositionTold {
    /// The position.
    pub position: Position,
    /// Its values and its verdict.
    pub columns: Columns,
}

/// A legal move, and what is told of the position after it.
#[derive(Clone, Copy)]
pub struct MoveTold {
    /// The move.
    pub played: Move,
    /// What it does.
    pub effect: Effect,
    /// The position after it.
    pub after: Position,
    /// How that position stands for its side to move.
    pub state: BoardState,
    /// The values of that position, from the view of its side to move. A side that is mated has -2 and -1.
    pub probed: ProbeResult,
    /// The move in standard algebraic notation.
    pub san: ArrayString<8>,
}

/// What one line tells.
#[derive(Drop)]
pub enum JsonLine {
    /// Why a text is no position.
    Fault(FenFault),
    /// Why a table that the position needs isn't read: the name of its file and what is wrong with it.
    Refused(ArrayString<64>),
    /// A position.
    Position(PositionTold),
    /// A position and its legal moves: the best first, or in the order of moves where it is out of scope.
    Root(PositionTold, Vec<MoveTold>),
}

/// The values of a position that stands so for its side to move. Where it is mate they need no table.
pub(crate) fn probed_after(
    ask: Ask,
    alloc: Global,
    set: &mut Set<'_>,
    state: BoardState,
    after: &Position,
) -> Result<ProbeResult, AllocError>
    ensures told { IfOk result (IsProbedAfter ask set.old.tables (is_checkmate state) after.now) }
    ensures unchanged { set.new ≡ set.old }
{
    if state.is_checkmate() {
        return Ok(ProbeResult {
            wdl: Ok(-2),
            dtz: Ok(-1),
        });
    }
    match ask.answers(alloc, set, after) {
        Ok(columns) => Ok(columns.probed),
        Err(fault) => Err(fault),
    }
}

/// A legal move in standard algebraic notation.
pub(crate) fn san_of(position: &Position, m: &Move) -> ArrayString<8>
    requires { IsPlayable position.now m.now }
    ensures { result.bytes ≡ san_of position.now m.now }
{
    match write_san(position, *m) {
        Some(san) => san,
        None => unreachable!(),
    }
}

/// A legal move with what is told of the position after it.
fn told_after(
    ask: Ask,
    alloc: Global,
    set: &mut Set<'_>,
    position: &Position,
    m: &Move,
    after: &Position,
) -> Result<MoveTold, AllocError>
    requires { position_after position.now m.now ≡ Some after.now }
    ensures told { IfOk result (IsMoveTold ask set.old.tables position.now m.now) }
    ensures unchanged { set.new ≡ set.old }
{
    let effect = Effect::of(position, m);
    let state = BoardState::of(after);
    let san = san_of(position, m);
    match probed_after(ask, alloc, set, state, after) {
        Ok(probed) => Ok(MoveTold {
            played: *m,
            effect,
            after: *after,
            state,
            probed,
            san,
        }),
        Err(fault) => Err(fault),
    }
}

/// A legal move with what is told of it.
pub(crate) fn move_told(
    ask: Ask,
    alloc: Global,
    set: &mut Set<'_>,
    position: &Position,
    m: &Move,
) -> Result<MoveTold, AllocError>
    requires { IsPlayable position.now m.now }
    ensures told { IfOk result (IsMoveTold ask set.old.tables position.now m.now) }
    ensures unchanged { set.new ≡ set.old }
{
    match position.play(*m) {
        Some(after) => told_after(ask, alloc, set, position, m, &after),
        None => unreachable!(),
    }
}

/// Adds an item to a list. It is over any type, since the borrow checker doesn't cover a push of a `MoveTold`
/// (docs/PROVING.md).
pub(crate) fn add<T: Copy>(list: &mut Vec<T>, item: T) -> Result<(), AllocError>
    ensures { OnOk result (list.new.items ≡ list.old.items ++ item ∷ []) }
{
    list.push(item)?;
    Ok(())
}

/// Adds a legal move with what is told of it.
fn add_move_told(
    ask: Ask,
    alloc: Global,
    set: &mut Set<'_>,
    position: &Position,
    m: &Move,
    told: &mut Vec<MoveTold>,
) -> Result<(), AllocError>
    requires { IsPlayable position.now m.now }
    ensures added { OnOk result ((t : MoveTold) × IsMoveTold ask set.old.tables position.now m.now t × (told.new.items ≡ told.old.items ++ t ∷ [])) }
    ensures unchanged { set.new ≡ set.old }
{
    match move_told(ask, alloc, set, position, m) {
        Ok(one) => add(told, one),
        Err(fault) => Err(fault),
    }
}

/// All legal moves with what is told of them.
fn moves_told(
    ask: Ask,
    alloc: Global,
    set: &mut Set<'_>,
    position: &Position,
    moves: &[Move],
) -> Result<Vec<MoveTold>, AllocError>
    requires { All (IsPlayable position.now) moves.now }
    ensures told { IfOk result (λ told. AreMovesTold ask set.old.tables position.now moves.now told.items) }
    ensures unchanged { set.new ≡ set.old }
{
    let mut told = Vec::new(alloc);
    for m in moves {
        add_move_told(ask, alloc, set, position, m, &mut told)?;
    }
    Ok(told)
}

/// The moves of a list.
fn played(alloc: Global, roots: &[RootMove]) -> Result<Vec<Move>, AllocError>
    ensures { IfOk result (λ moves. moves.items ≡ map played_in roots.now) }
{
    let mut moves = Vec::new(alloc);
    for root in roots {
        add(&mut moves, root.played)?;
    }
    Ok(moves)
}

/// All legal moves of a position, the best first; where it is out of scope, in the order of moves.
pub(crate) fn ordered(
    ask: Ask,
    alloc: Global,
    set: &mut Set<'_>,
    position: &Position,
) -> Result<Vec<Move>, AllocError>
    ensures moves { IfOk result (λ moves. AreOrdered ask set.old.tables position.now moves.items) }
    ensures unchanged { set.new ≡ set.old }
{
    match ask.root(alloc, set, position) {
        Ok(Some(roots)) => played(alloc, &roots),
        Ok(None) => position.legal(alloc),
        Err(fault) => Err(fault),
    }
}

/// All legal moves of a position with what is told of them.
pub(crate) fn root_told(
    ask: Ask,
    alloc: Global,
    set: &mut Set<'_>,
    position: &Position,
) -> Result<Vec<MoveTold>, AllocError>
    ensures told { IfOk result (λ told. IsRootTold ask set.old.tables position.now told.items) }
    ensures unchanged { set.new ≡ set.old }
{
    let moves = ordered(ask, alloc, set, position)?;
    moves_told(ask, alloc, set, position, &moves)
}

/// A position with both probes and its verdict.
pub(crate) fn position_told(
    ask: Ask,
    alloc: Global,
    set: &mut Set<'_>,
    position: &Position,
) -> Result<PositionTold, AllocError>
    ensures told { IfOk result (IsPositionTold ask set.old.tables position.now) }
    ensures memory { OnErr result (MayLack ask set.old.tables position.now) }
    ensures unchanged { set.new ≡ set.old }
{
    match ask.answers(alloc, set, position) {
        Ok(columns) => Ok(PositionTold {
            position: *position,
            columns,
        }),
        Err(fault) => Err(fault),
    }
}

impl JsonLine {
    /// What tables tell of a position, with its legal moves if they are wanted.
    ///
    /// Values and verdict are those of `Ask::answers`, the moves those of `Ask::root`, or where the position is out of
    /// scope all legal moves in the order of moves. The values of a move are those of `Ask::answers` for the position
    /// after it. The error comes only where memory is refused, without moves only where `Ask::answers` may give it. The
    /// tables stay as they were.
    pub fn of_position(
        alloc: Global,
        set: &mut Set<'_>,
        position: &Position,
        ask: Ask,
        with_moves: bool,
    ) -> Result<JsonLine, AllocError>
        ensures told { IfOk result (IsLineOf ask with_moves set.old.tables position.now) }
        ensures memory { OnErr result (MayLackLine ask with_moves set.old.tables position.now) }
        ensures unchanged { set.new ≡ set.old }
    {
        let told = position_told(ask, alloc, set, position)?;
        if with_moves {
            let moves = root_told(ask, alloc, set, position)?;
            Ok(JsonLine::Root(told, moves))
        } else {
            Ok(JsonLine::Position(told))
        }
    }

    /// What tables tell of the position of a text, as `of_position` does, or why the text is none.
    ///
    /// The error comes only where the text is a position and `of_position` may give it there.
    pub fn of_text(
        alloc: Global,
        set: &mut Set<'_>,
        text: &[u8],
        ask: Ask,
        with_moves: bool,
    ) -> Result<JsonLine, AllocError>
        ensures told { IfOk result (IsLineFor text.now (IsLineOf ask with_moves set.old.tables)) }
        ensures memory { OnErr result (IsText text.now) }
        ensures lack { OnErr result (OfText text.now (MayLackLine ask with_moves set.old.tables)) }
        ensures unchanged { set.new ≡ set.old }
    {
        match read(text) {
            Ok(position) => JsonLine::of_position(alloc, set, &position, ask, with_moves),
            Err(fault) => Ok(JsonLine::Fault(fault)),
        }
    }

    /// Whether the text is a position, its tables are read, and no value that is told of is refused.
    pub fn is_done(&self) -> bool
        ensures { result ≡ is_done self.now }
    {
        match self {
            JsonLine::Fault(_) | JsonLine::Refused(_) => false,
            JsonLine::Position(told) => told.columns.probed.has_both(),
            JsonLine::Root(told, moves) => told.columns.probed.has_both() && have_both(moves),
        }
    }
}

/// Whether no value of these moves is refused.
fn have_both(moves: &[MoveTold]) -> bool
    ensures { result ≡ list_all (λ m. has_both m.probed) moves.now }
{
    let mut all = true;
    for m in moves {
        all &= m.probed.has_both();
    }
    all
}
