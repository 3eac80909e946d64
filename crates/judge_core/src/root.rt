//! All legal moves of a position with their values and distances, the best first.

ghost use Rattle.std.specs.Prelude.{◌≡◌, ◌≤◌, ◌++◌, ◌∷◌, [], Some, false, true, IfOk, OnOk, OnErr, option_to_list};
ghost use Rattle.board_core.specs.ComputedMoves.{position_after};
ghost use Rattle.board_core.specs.Moves.{IsLegal};
ghost use Rattle.judge_core.specs.Answers.{signed_in};
ghost use Rattle.judge_core.specs.Determined.{IsDeterminedRoot};
ghost use Rattle.judge_core.specs.Distances.{plies};
ghost use Rattle.judge_core.specs.Inside.Determined.{reach_as, value_as};
ghost use Rattle.judge_core.specs.Root.{IsInScope, IsRootBy, IsRootInScope, reach_one_ply_before, effect_of, reach_before, root_move_by, root_move_at, root_moves_by, state_of, value_before, zeroed};
ghost use Rattle.judge_core.specs.Ruling.{is_out_of_scope};
ghost use Rattle.judge_core.specs.Tables.{AreFiled};

use crate::answering::Readings;
use crate::ask::Ask;
use crate::distance::{Distance, towards, zeroing};
use crate::fault::ValueFault;
use crate::root_move::{BoardState, Effect, RootMove};
use crate::set::Set;
use crate::verdict::is_out_of_scope;
use crate::wdl::{Wdl, turned};
use board_core::{Move, Position};
use std::alloc::{AllocError, Global};

/// The distance of a capture or a pawn move that has this value.
fn zeroed(value: &Result<Wdl, ValueFault>) -> Result<Distance, ValueFault>
    ensures is { result ≡ zeroed value.now }
    ensures within { IfOk result (λ d. plies d ≤ 101) }
{
    match value {
        Ok(value) => match value.outcome() {
            Some(outcome) => Ok(towards(outcome, zeroing(outcome))),
            None => Ok(Distance::Draw),
        },
        Err(fault) => Err(*fault),
    }
}

/// The distance from before a move that neither takes a man nor moves a pawn, from the one after it.
fn before(reach: &Result<Distance, ValueFault>) -> Result<Distance, ValueFault>
    requires { IfOk reach.now (λ d. plies d ≤ 131174) }
    ensures is { result ≡ reach_one_ply_before reach.now }
    ensures within { IfOk result (λ d. plies d ≤ 131175) }
{
    match reach {
        Ok(Distance::Draw) => Ok(Distance::Draw),
        Ok(Distance::Win(plies)) => Ok(Distance::Loss(plies + 1)),
        Ok(Distance::Loss(plies)) => Ok(Distance::Win(plies + 1)),
        Err(fault) => Err(*fault),
    }
}

/// The distance as a number, or its fault.
fn signed(reach: &Result<Distance, ValueFault>) -> Result<i32, ValueFault>
    requires { IfOk reach.now (λ d. plies d ≤ 1000000) }
    ensures { result ≡ signed_in reach.now }
{
    match reach {
        Ok(distance) => Ok(distance.signed()),
        Err(fault) => Err(*fault),
    }
}

/// Adds an item to a list. It is over any type, since the borrow checker doesn't cover a push of a `RootMove`
/// (docs/PROVING.md).
fn add<T: Copy>(list: &mut Vec<T>, item: T) -> Result<(), AllocError>
    ensures { OnOk result (list.new.items ≡ list.old.items ++ item ∷ []) }
{
    list.push(item)?;
    Ok(())
}

impl<'a> Set<'a> {
    /// What a move is worth to the side that makes it, from the position after it. That is searched once for both.
    fn readings_before(
        &mut self,
        alloc: Global,
        after: &Position,
        state: BoardState,
        zeroes: bool,
        ask: Ask,
    ) -> Result<Readings, AllocError>
        ensures wdl { IfOk result (λ r. r.wdl ≡ value_before state (value_as ask self.old.tables after.now)) }
        ensures dtz { IfOk result (λ r. r.dtz ≡ reach_before state zeroes (value_as ask self.old.tables after.now) (reach_as ask self.old.tables after.now)) }
        ensures within { IfOk result (λ r. IfOk r.dtz (λ d. plies d ≤ 131175)) }
        ensures unchanged { self.new ≡ self.old }
    {
        if state.is_checkmate() {
            return Ok(Readings {
                wdl: Ok(Wdl::Win),
                dtz: Ok(Distance::Win(1)),
            });
        }
        if zeroes {
            let wdl = turned(self.value_as(alloc, after, ask));
            let dtz = zeroed(&wdl);
            return Ok(Readings { wdl, dtz });
        }
        let readings = self.readings_as(alloc, after, ask)?;
        Ok(Readings {
            wdl: turned(readings.wdl),
            dtz: before(&readings.dtz),
        })
    }

    /// A legal move with all that is told of it, where this position is the one after it.
    fn root_move(
        &mut self,
        alloc: Global,
        position: &Position,
        m: &Move,
        after: &Position,
        ask: Ask,
    ) -> Result<RootMove, AllocError>
        requires { position_after position.now m.now ≡ Some after.now }
        ensures is { IfOk result (λ r. r ≡ root_move_by (value_as ask self.old.tables) (reach_as ask self.old.tables) position.now m.now after.now) }
        ensures unchanged { self.new ≡ self.old }
    {
        let effect = Effect::of(position, m);
        let state = BoardState::of(after);
        let readings = self.readings_before(alloc, after, state, effect.zeroes_clock(), ask)?;
        Ok(RootMove {
            played: *m,
            effect,
            state,
            wdl: readings.wdl,
            dtz: signed(&readings.dtz),
        })
    }

    /// Adds a legal move with all that is told of it.
    fn add_root_move(
        &mut self,
        alloc: Global,
        position: &Position,
        m: &Move,
        found: &mut Vec<RootMove>,
        ask: Ask,
    ) -> Result<(), AllocError>
        requires { IsLegal position.now m.now }
        ensures added { OnOk result (found.new.items ≡ found.old.items ++ option_to_list (root_move_at (value_as ask self.old.tables) (reach_as ask self.old.tables) position.now m.now)) }
        ensures unchanged { self.new ≡ self.old }
    {
        let after = position.play_legal(m);
        match self.root_move(alloc, position, m, &after, ask) {
            Ok(root_move) => add(found, root_move),
            Err(fault) => Err(fault),
        }
    }

    /// All legal moves, in the order of moves.
    fn root_moves(
        &mut self,
        alloc: Global,
        position: &Position,
        ask: Ask,
    ) -> Result<Vec<RootMove>, AllocError>
        ensures is { IfOk result (λ found. found.items ≡ root_moves_by (value_as ask self.old.tables) (reach_as ask self.old.tables) position.now) }
        ensures unchanged { self.new ≡ self.old }
    {
        let moves = position.legal(alloc)?;
        let mut found = Vec::new(alloc);
        for m in &moves {
            self.add_root_move(alloc, position, m, &mut found, ask)?;
        }
        Ok(found)
    }

    /// All legal moves of the position, the best first, by the values and distances that are asked for; none where it is
    /// out of scope.
    fn root_as(
        &mut self,
        alloc: Global,
        position: &Position,
        ask: Ask,
    ) -> Result<Option<Vec<RootMove>>, AllocError>
        ensures moves { IfOk result (IsInScope (λ moves. IsRootBy (value_as ask self.old.tables) (reach_as ask self.old.tables) position.now moves.items) position.now) }
        ensures memory { OnErr result (is_out_of_scope position.now ≡ false) }
        ensures unchanged { self.new ≡ self.old }
    {
        if is_out_of_scope(position) {
            return Ok(None);
        }
        let mut moves = self.root_moves(alloc, position, ask)?;
        moves.sort_by_key(|m| m.rank())?;
        Ok(Some(moves))
    }

    /// All legal moves of the position with what each is worth, the best first; none where the position is out of scope
    /// as for `wdl`. Each move is played once, and the position after it is searched once.
    ///
    /// A better value comes first. Of one value the nearer win and the farther loss comes first. So a win within the
    /// rule of fifty moves comes before any other. A move without a distance comes after the others of its value, and
    /// one without a value last. Moves that are equal in this stay in the order of moves. A table that is missing or
    /// damaged is the fault of the moves that need it, and changes no other move. The error comes only where memory for
    /// a list of moves is refused. The set stays as it was but for its cache.
    pub fn root(
        &mut self,
        alloc: Global,
        position: &Position,
    ) -> Result<Option<Vec<RootMove>>, AllocError>
        ensures moves { IfOk result (IsRootInScope (λ moves. moves.items) self.old.tables position.now) }
        ensures memory { OnErr result (is_out_of_scope position.now ≡ false) }
        ensures filed { AreFiled self.old.tables }
        ensures unchanged { self.new ≡ self.old }
    {
        // Called for its contract: each table is in its slot.
        let _cache = self.cache();
        self.root_as(alloc, position, Ask::Strict)
    }

    /// All legal moves of the position, as `root` gives them, each by the value and the distance that are the same
    /// whatever the missing tables hold, as `determined_wdl` and `determined_dtz` give them for the position after it.
    ///
    /// A move has a fault only where no such value, or no such distance that they tell, is there. The order is that of
    /// `root`. The error comes only where memory for a list of moves is refused. The set stays as it was but for its
    /// cache.
    pub fn determined_root(
        &mut self,
        alloc: Global,
        position: &Position,
    ) -> Result<Option<Vec<RootMove>>, AllocError>
        ensures moves { IfOk result (IsInScope (λ moves. IsDeterminedRoot self.old.tables position.now moves.items) position.now) }
        ensures memory { OnErr result (is_out_of_scope position.now ≡ false) }
        ensures filed { AreFiled self.old.tables }
        ensures unchanged { self.new ≡ self.old }
    {
        // Called for its contract: each table is in its slot.
        let _cache = self.cache();
        self.root_as(alloc, position, Ask::Determined)
    }
}
