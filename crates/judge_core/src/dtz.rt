//! DTZ probes.

ghost use Rattle.std.specs.Prelude.{◌≡◌, ◌≤◌, ◌+◌, IfOk, IfSome, OnErr, Some, Err};
ghost use Rattle.judge_core.specs.Tables.{AreFiled};
ghost use Rattle.judge_core.specs.Distances.{plies, pawns_reach_where, move_counts, by_quiet_moves, stored_distance, by_own_table, by_moves, dtz_from_search, dtz_by, dtz_of};
ghost use Rattle.judge_core.specs.Ruling.{is_out_of_scope};
ghost use Rattle.judge_core.specs.Answers.{IsLeftOpen, IsProbe, ListsMoves, as_probe, signed_in};
ghost use Rattle.judge_core.specs.declared.fault.ProbeFault.TheVariants.{OutOfMemory};
ghost use Rattle.judge_core.specs.Inside.Determined.{reach_after, reach_beyond, step_value_in, visits};

use crate::counts::{Counts, Steps};
use crate::determined::ReachedIn;
use crate::distance::{Distance, distance_before, is_won, towards, zeroing};
use crate::fault::{ProbeFault, ValueFault};
use crate::found::CaptureSearch;
use crate::located_position::{LocatedPosition, is_bare};
use crate::moving::{after_pawn_step, after_quiet_move, has_pawn};
use crate::set::Set;
use crate::verdict::is_out_of_scope;
use crate::wdl::{Wdl, turned};
use board_core::Position;
use place_index::Material;
use std::alloc::{AllocError, Global};
use table_file::{Outcome, TableKind};

/// How the positions after quiet moves are asked for their distances.
#[derive(Clone, Copy)]
pub(crate) enum Beyond {
    /// They are not visited, and each counts as a draw.
    Unvisited,
    /// By what the tables of the set say of them.
    Visited,
    /// Where that is a fault, by what their values tell in both sets.
    Told,
}

/// The distance that follows from what the table stores.
fn stored(material: Material, outcome: Outcome, number: Option<u32>) -> Result<Distance, ValueFault>
    requires { IfSome number (λ n. n ≤ 131070) }
    ensures is { result ≡ stored_distance material outcome number }
    ensures within { IfOk result (λ d. plies d ≤ 131171) }
{
    match number {
        Some(number) => Ok(towards(outcome, zeroing(outcome) + number)),
        None => Err(ValueFault::Damaged(material)),
    }
}

/// The number that a DTZ probe returns for this distance, or its fault.
pub(crate) fn signed_in(reach: &Result<Distance, ValueFault>) -> Result<i32, ProbeFault>
    requires { IfOk reach.now (λ d. plies d ≤ 1000000) }
    ensures { result ≡ as_probe (λ n. n) (signed_in reach.now) }
{
    match reach {
        Ok(distance) => Ok(distance.signed()),
        Err(fault) => Err(fault.of_probe()),
    }
}

impl<'a> Set<'a> {
    /// Whether some pawn move that takes nothing reaches the value, or the fault of the values after these moves. It
    /// isn't inlined, since its locals are large.
    #[inline(never)]
    pub(crate) fn pawns_reach(
        &mut self,
        alloc: Global,
        position: &Position,
        value: Wdl,
        within: ReachedIn,
    ) -> Result<Result<bool, ValueFault>, AllocError>
        ensures is { IfOk result (λ reached. reached ≡ pawns_reach_where (step_value_in within self.old.tables value) position.now value) }
        ensures unchanged { self.new ≡ self.old }
    {
        if !has_pawn(position) {
            return Ok(Ok(false));
        }
        let moves = position.pawn_moves(alloc)?;
        let mut steps = Steps::new();
        for m in &moves {
            if let Some(after) = after_pawn_step(position, m) {
                let reading = self.step_value(alloc, &after, value, within);
                steps = steps.with(value, &turned(reading));
            }
        }
        Ok(steps.result())
    }

    /// The distance before a move, from the position after it. The distance after a mating move isn't computed where
    /// that wins.
    #[cycle(dtz)]
    pub(crate) fn move_counts(
        &mut self,
        alloc: Global,
        after: &Position,
        outcome: Outcome,
        beyond: Beyond,
    ) -> Result<Result<Option<u32>, ValueFault>, AllocError>
        ensures is { IfOk result (λ count. count ≡ move_counts outcome (reach_beyond beyond self.old.tables) after.now) }
        ensures within { IfOk result (λ count. IfOk count (λ n. IfSome n (λ k. k ≤ 131172 + visits beyond))) }
        ensures unchanged { self.new ≡ self.old }
    {
        let won = is_won(outcome);
        if won && after.is_checkmate() {
            return Ok(Ok(Some(1)));
        }
        let reach = self.dtz_after(alloc, after, beyond)?;
        Ok(distance_before(won, &reach))
    }

    /// The distance by the positions after the moves that neither take a man nor move a pawn. It isn't inlined,
    /// since its locals are large.
    #[inline(never)]
    #[cycle(dtz)]
    fn by_quiet_moves(
        &mut self,
        alloc: Global,
        position: &Position,
        material: Material,
        outcome: Outcome,
        beyond: Beyond,
    ) -> Result<Result<Distance, ValueFault>, AllocError>
        ensures is { IfOk result (λ reach. reach ≡ by_quiet_moves material outcome (reach_beyond beyond self.old.tables) position.now) }
        ensures within { IfOk result (λ reach. IfOk reach (λ d. plies d ≤ 131172 + visits beyond)) }
        ensures unchanged { self.new ≡ self.old }
    {
        let moves = position.legal(alloc)?;
        let mut counts = Counts::new(outcome);
        for m in &moves {
            if let Some(after) = after_quiet_move(position, m) {
                let count = self.move_counts(alloc, &after, outcome, beyond)?;
                counts = counts.with(&count);
            }
        }
        Ok(counts.result(material, outcome))
    }

    /// The distance by the own table, or by the quiet moves where that stores the other side alone.
    #[cycle(dtz)]
    pub(crate) fn by_own_table(
        &mut self,
        alloc: Global,
        probe: &LocatedPosition<'_>,
        outcome: Outcome,
        beyond: Beyond,
    ) -> Result<Result<Distance, ValueFault>, AllocError>
        ensures is { IfOk result (λ reach. reach ≡ by_own_table self.old.tables (reach_beyond beyond self.old.tables) probe.now outcome) }
        ensures within { IfOk result (λ reach. IfOk reach (λ d. plies d ≤ 131172 + visits beyond)) }
        ensures unchanged { self.new ≡ self.old }
    {
        let Some(placed) = probe.placed() else {
            return Ok(Ok(Distance::Draw));
        };
        let material = placed.material();
        let Some(part) = self.table_slots.part(TableKind::Dtz, placed) else {
            return Ok(Err(ValueFault::NotCovered(material)));
        };
        if part.stores() {
            let blocks = &mut self.blocks;
            let number = self
                .table_slots
                .distance(blocks, alloc, &part, placed, outcome);
            return Ok(stored(material, outcome, number));
        }
        self.by_quiet_moves(alloc, probe.position(), material, outcome, beyond)
    }

    /// A win by a pawn move, or the distance of the own table.
    #[cycle(dtz)]
    fn by_moves(
        &mut self,
        alloc: Global,
        probe: &LocatedPosition<'_>,
        value: Wdl,
        outcome: Outcome,
        beyond: Beyond,
    ) -> Result<Result<Distance, ValueFault>, AllocError>
        ensures is { IfOk result (λ reach. reach ≡ by_moves self.old.tables (reach_beyond beyond self.old.tables) probe.now value outcome) }
        ensures within { IfOk result (λ reach. IfOk reach (λ d. plies d ≤ 131172 + visits beyond)) }
        ensures unchanged { self.new ≡ self.old }
    {
        if is_won(outcome) {
            let found = self.pawns_reach(alloc, probe.position(), value, ReachedIn::TheSet)?;
            let reached = match found {
                Ok(reached) => reached,
                Err(fault) => return Ok(Err(fault)),
            };
            if reached {
                return Ok(Ok(towards(outcome, zeroing(outcome))));
            }
        }
        self.by_own_table(alloc, probe, outcome, beyond)
    }

    /// The distance, given what captures and the own WDL table say.
    #[cycle(dtz)]
    pub(crate) fn dtz_from_search(
        &mut self,
        alloc: Global,
        probe: &LocatedPosition<'_>,
        searched: &Result<CaptureSearch, ValueFault>,
        beyond: Beyond,
    ) -> Result<Result<Distance, ValueFault>, AllocError>
        ensures is { IfOk result (λ reach. reach ≡ dtz_from_search self.old.tables (reach_beyond beyond self.old.tables) probe.now searched.now) }
        ensures memory { OnErr result (IsLeftOpen searched.now) }
        ensures within { IfOk result (λ reach. IfOk reach (λ d. plies d ≤ 131172 + visits beyond)) }
        ensures unchanged { self.new ≡ self.old }
    {
        let searched = match searched {
            Ok(searched) => searched,
            Err(fault) => return Ok(Err(*fault)),
        };
        let value = searched.worth();
        let Some(outcome) = value.outcome() else {
            return Ok(Ok(Distance::Draw));
        };
        if searched.is_by_capture() {
            return Ok(Ok(towards(outcome, zeroing(outcome))));
        }
        self.by_moves(alloc, probe, value, outcome, beyond)
    }

    /// The distance, where the positions after quiet moves are asked so.
    #[cycle(dtz)]
    pub(crate) fn dtz_from(
        &mut self,
        alloc: Global,
        position: &Position,
        beyond: Beyond,
    ) -> Result<Result<Distance, ValueFault>, AllocError>
        ensures is { IfOk result (λ reach. reach ≡ dtz_by self.old.tables (reach_beyond beyond self.old.tables) position.now) }
        ensures memory { OnErr result (ListsMoves self.old.tables position.now) }
        ensures within { IfOk result (λ reach. IfOk reach (λ d. plies d ≤ 131172 + visits beyond)) }
        ensures unchanged { self.new ≡ self.old }
    {
        if is_bare(position) {
            return Ok(Ok(Distance::Draw));
        }
        let probe = LocatedPosition::of(position);
        let searched = self.capture_search(alloc, &probe);
        self.dtz_from_search(alloc, &probe, &searched, beyond)
    }

    /// The distance after a quiet move by the tables of the set, or else the one that its value tells in both sets. It
    /// isn't inlined, since strict probes don't call it.
    #[inline(never)]
    #[cycle(dtz)]
    fn told_after(
        &mut self,
        alloc: Global,
        after: &Position,
    ) -> Result<Result<Distance, ValueFault>, AllocError>
        ensures is { IfOk result (λ reach. reach ≡ reach_after self.old.tables after.now) }
        ensures within { IfOk result (λ reach. IfOk reach (λ d. plies d ≤ 131173)) }
        ensures unchanged { self.new ≡ self.old }
    {
        let own = self.dtz_from(alloc, after, Beyond::Unvisited)?;
        self.or_agreed_distance(alloc, after, &own)
    }

    /// The distance after a quiet move, as it is asked for.
    #[cycle(dtz)]
    fn dtz_after(
        &mut self,
        alloc: Global,
        after: &Position,
        beyond: Beyond,
    ) -> Result<Result<Distance, ValueFault>, AllocError>
        ensures is { IfOk result (λ reach. reach ≡ reach_beyond beyond self.old.tables after.now) }
        ensures within { IfOk result (λ reach. IfOk reach (λ d. plies d ≤ 131171 + visits beyond)) }
        ensures unchanged { self.new ≡ self.old }
    {
        match beyond {
            Beyond::Unvisited => Ok(Ok(Distance::Draw)),
            Beyond::Visited => self.dtz_from(alloc, after, Beyond::Unvisited),
            Beyond::Told => self.told_after(alloc, after),
        }
    }

    /// The distance in plies to the next capture or pawn move, which sets the halfmove clock to 0, or to mate. It is
    /// above 0 where the side to move wins, below 0 where it loses, 0 at a draw. It is 100 more where the rule of fifty
    /// moves takes the win away, and may be off by one ply (Syzygy DTZ tables).
    ///
    /// The error is the first fault that applies, in the order of `ProbeFault`. Values are needed in this order: those
    /// of the WDL probe; for a win those after all pawn moves that take nothing; the own DTZ table. Where that stores
    /// the other side alone, the distances after all moves that neither take a man nor move a pawn come next. A mating
    /// move's is not needed where the side to move wins. A table that contradicts itself there is damaged.
    /// `OutOfMemory` comes only where memory for a list of moves is refused. The position is then in scope with more
    /// than two men, and has a WDL value that is no draw and not by a capture. The set stays as it was but for its
    /// cache.
    pub fn dtz(&mut self, alloc: Global, position: &Position) -> Result<i32, ProbeFault>
        ensures answer { IsProbe result (is_out_of_scope position.now) (signed_in (dtz_of self.old.tables position.now)) }
        ensures memory { result ≡ Err OutOfMemory → ListsMoves self.old.tables position.now }
        ensures filed { AreFiled self.old.tables }
        ensures unchanged { self.new ≡ self.old }
    {
        // Called for its contract: each table is in its slot.
        let _cache = self.cache();
        if is_out_of_scope(position) {
            return Err(ProbeFault::OutOfScope);
        }
        let Ok(reach) = self.dtz_from(alloc, position, Beyond::Visited) else {
            return Err(ProbeFault::OutOfMemory);
        };
        signed_in(&reach)
    }
}
