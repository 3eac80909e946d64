//! Which distances are precise.

ghost use Rattle.std.specs.Prelude.{◌≡◌, false, IfOk, OnErr};
ghost use Rattle.judge_core.specs.Answers.{IsLeftOpen, ListsMoves};
ghost use Rattle.judge_core.specs.Distances.{dtz_of};
ghost use Rattle.judge_core.specs.Inside.Precision.{by_outcome, is_precise_open, precise_in, precision_of_moves, with_move};
ghost use Rattle.judge_core.specs.Precision.{is_count, is_precise, is_precise_by_moves, is_precise_next, is_unrounded, source_by_moves, source_from_search, source_in_table, source_of, unless_pawn};
ghost use Rattle.judge_core.specs.Ruling.{is_out_of_scope};
ghost use Rattle.judge_core.specs.Tables.{AreFiled};

use crate::determined::ReachedIn;
use crate::distance::is_won;
use crate::dtz::Beyond;
use crate::fault::ValueFault;
use crate::found::CaptureSearch;
use crate::located_position::{LocatedPosition, is_bare};
use crate::moving::after_quiet_move;
use crate::set::Set;
use crate::verdict::is_out_of_scope;
use crate::wdl::Wdl;
use board_core::Position;
use std::alloc::{AllocError, Global};
use table_file::{Outcome, TableKind};

/// Where the distance of a position comes from.
#[derive(Clone, Copy)]
pub(crate) enum DistanceSource {
    /// From the value alone: a draw, a capture, or a pawn move that wins.
    Value,
    /// From the own table, which counts plies.
    Plies,
    /// From the own table, which counts moves of one side.
    Moves,
    /// From the moves that neither take a man nor move a pawn, since the own table stores the other side alone.
    NextMoves(Outcome),
    /// There is none, since a table is missing or damaged.
    Nowhere,
}

impl DistanceSource {
    /// Whether a distance from there isn't rounded.
    fn is_unrounded(self) -> bool
        ensures { result ≡ is_unrounded self }
    {
        match self {
            DistanceSource::Value | DistanceSource::Plies => true,
            DistanceSource::Moves | DistanceSource::NextMoves(_) | DistanceSource::Nowhere => false,
        }
    }
}

/// What the moves so far come to that give the distance.
#[derive(Clone, Copy)]
pub(crate) struct MovePrecision {
    /// Whether some move is precise.
    pub some: bool,
    /// Whether all are.
    pub all: bool,
}

impl MovePrecision {
    /// With one move more, where it gives the distance.
    fn with(self, precise: Option<bool>) -> MovePrecision
        ensures { result ≡ with_move self precise }
    {
        match precise {
            Some(precise) => MovePrecision {
                some: self.some || precise,
                all: self.all && precise,
            },
            None => self,
        }
    }

    /// Whether the distance is precise: that of a win where some move is, that of a loss where all are.
    fn result(self, outcome: Outcome) -> bool
        ensures { result ≡ by_outcome outcome self }
    {
        if is_won(outcome) { self.some } else { self.all }
    }
}

/// Nowhere where a value after the pawn moves is missing, the value where one wins, and else this source.
fn unless_pawn(reached: &Result<bool, ValueFault>, otherwise: DistanceSource) -> DistanceSource
    ensures { result ≡ unless_pawn reached.now otherwise }
{
    match reached {
        Ok(true) => DistanceSource::Value,
        Ok(false) => otherwise,
        Err(_) => DistanceSource::Nowhere,
    }
}

/// Whether a move gives so many plies.
fn is_count(count: &Result<Option<u32>, ValueFault>, plies: u32) -> bool
    ensures { result ≡ is_count plies count.now }
{
    match count {
        Ok(Some(count)) => *count == plies,
        Ok(None) | Err(_) => false,
    }
}

impl<'a> Set<'a> {
    /// The own table, or the quiet moves where that stores the other side alone.
    fn source_in_table(&self, probe: &LocatedPosition<'_>, outcome: Outcome) -> DistanceSource
        ensures { result ≡ source_in_table self.now.tables probe.now outcome }
    {
        let Some(placed) = probe.placed() else {
            return DistanceSource::Value;
        };
        let Some(part) = self.table_slots.part(TableKind::Dtz, placed) else {
            return DistanceSource::Nowhere;
        };
        if !part.stores() {
            return DistanceSource::NextMoves(outcome);
        }
        if part.counts_moves(outcome) {
            DistanceSource::Moves
        } else {
            DistanceSource::Plies
        }
    }

    /// A pawn move that wins, or the own table.
    fn source_by_moves(
        &mut self,
        alloc: Global,
        probe: &LocatedPosition<'_>,
        value: Wdl,
        outcome: Outcome,
    ) -> Result<DistanceSource, AllocError>
        ensures is { IfOk result (λ source. source ≡ source_by_moves self.old.tables probe.now value outcome) }
        ensures unchanged { self.new ≡ self.old }
    {
        let own = self.source_in_table(probe, outcome);
        if !is_won(outcome) {
            return Ok(own);
        }
        let reached = self.pawns_reach(alloc, probe.position(), value, ReachedIn::TheSet)?;
        Ok(unless_pawn(&reached, own))
    }

    /// Where the distance comes from, given what captures and the own WDL table say.
    fn source_from_search(
        &mut self,
        alloc: Global,
        probe: &LocatedPosition<'_>,
        searched: &Result<CaptureSearch, ValueFault>,
    ) -> Result<DistanceSource, AllocError>
        ensures is { IfOk result (λ source. source ≡ source_from_search self.old.tables probe.now searched.now) }
        ensures memory { OnErr result (IsLeftOpen searched.now) }
        ensures unchanged { self.new ≡ self.old }
    {
        let searched = match searched {
            Ok(searched) => searched,
            Err(_) => return Ok(DistanceSource::Nowhere),
        };
        let value = searched.worth();
        let Some(outcome) = value.outcome() else {
            return Ok(DistanceSource::Value);
        };
        if searched.is_by_capture() {
            return Ok(DistanceSource::Value);
        }
        self.source_by_moves(alloc, probe, value, outcome)
    }

    /// Where the distance comes from.
    fn source_of(
        &mut self,
        alloc: Global,
        position: &Position,
    ) -> Result<DistanceSource, AllocError>
        ensures is { IfOk result (λ source. source ≡ source_of self.old.tables position.now) }
        ensures memory { OnErr result (ListsMoves self.old.tables position.now) }
        ensures unchanged { self.new ≡ self.old }
    {
        if is_bare(position) {
            return Ok(DistanceSource::Value);
        }
        let probe = LocatedPosition::of(position);
        let searched = self.capture_search(alloc, &probe);
        self.source_from_search(alloc, &probe, &searched)
    }

    /// Whether the distance after a quiet move is precise.
    fn is_precise_next(&mut self, alloc: Global, after: &Position) -> Result<bool, AllocError>
        ensures is { IfOk result (λ precise. precise ≡ is_precise_next self.old.tables after.now) }
        ensures unchanged { self.new ≡ self.old }
    {
        if after.is_checkmate() {
            return Ok(true);
        }
        let source = self.source_of(alloc, after)?;
        Ok(source.is_unrounded())
    }

    /// Whether the distance after a quiet move is precise, where the move gives so many plies.
    fn precise_in(
        &mut self,
        alloc: Global,
        after: &Position,
        outcome: Outcome,
        plies: u32,
    ) -> Result<Option<bool>, AllocError>
        ensures is { IfOk result (λ precise. precise ≡ precise_in self.old.tables outcome plies after.now) }
        ensures unchanged { self.new ≡ self.old }
    {
        let count = self.move_counts(alloc, after, outcome, Beyond::Visited)?;
        if !is_count(&count, plies) {
            return Ok(None);
        }
        let precise = self.is_precise_next(alloc, after)?;
        Ok(Some(precise))
    }

    /// What the quiet moves come to that give so many plies.
    fn precision_of_moves(
        &mut self,
        alloc: Global,
        position: &Position,
        outcome: Outcome,
        plies: u32,
    ) -> Result<MovePrecision, AllocError>
        ensures is { IfOk result (λ found. found ≡ precision_of_moves self.old.tables position.now outcome plies) }
        ensures unchanged { self.new ≡ self.old }
    {
        let moves = position.legal(alloc)?;
        let mut found = MovePrecision {
            some: false,
            all: true,
        };
        for m in &moves {
            if let Some(after) = after_quiet_move(position, m) {
                let precise = self.precise_in(alloc, &after, outcome, plies)?;
                found = found.with(precise);
            }
        }
        Ok(found)
    }

    /// Whether the distance is precise where it comes from the quiet moves.
    fn is_precise_by_moves(
        &mut self,
        alloc: Global,
        position: &Position,
        outcome: Outcome,
    ) -> Result<bool, AllocError>
        ensures is { IfOk result (λ precise. precise ≡ is_precise_by_moves self.old.tables position.now outcome (dtz_of self.old.tables position.now)) }
        ensures unchanged { self.new ≡ self.old }
    {
        match self.dtz_from(alloc, position, Beyond::Visited)? {
            Ok(distance) => {
                let found = self.precision_of_moves(alloc, position, outcome, distance.plies())?;
                Ok(found.result(outcome))
            }
            Err(_) => Ok(false),
        }
    }

    /// Whether the distance of a position in scope is precise that is no mate.
    fn is_precise_open(&mut self, alloc: Global, position: &Position) -> Result<bool, AllocError>
        ensures is { IfOk result (λ precise. precise ≡ is_precise_open self.old.tables position.now) }
        ensures memory { OnErr result (ListsMoves self.old.tables position.now) }
        ensures unchanged { self.new ≡ self.old }
    {
        let source = self.source_of(alloc, position)?;
        match source {
            DistanceSource::Value | DistanceSource::Plies => Ok(true),
            DistanceSource::NextMoves(outcome) => self.is_precise_by_moves(
                alloc, position, outcome,
            ),
            DistanceSource::Moves | DistanceSource::Nowhere => Ok(false),
        }
    }

    /// Whether the distance of the position, as `dtz` gives it, is precise, where it has one.
    ///
    /// It is where it is 0, at a mate, where a capture or a pawn move gives it, and where the own table stores the side to move
    /// and counts plies. Where the table stores the other side alone, it follows from the distances after the quiet moves: a win
    /// is precise where one of the nearest moves is, a loss where all of the farthest are. A table may count moves of one side in
    /// place of plies: such a distance may be one ply less than the true one. Where the position has
    /// no distance the result says nothing. The error comes only where memory for a list of moves is refused. The position
    /// is then in scope with more than two men, and has a WDL value that is no draw and not by a capture. The set stays as it
    /// was but for its cache.
    pub fn is_precise(&mut self, alloc: Global, position: &Position) -> Result<bool, AllocError>
        ensures is { IfOk result (λ precise. precise ≡ is_precise self.old.tables position.now) }
        ensures memory { OnErr result ((is_out_of_scope position.now ≡ false) × ListsMoves self.old.tables position.now) }
        ensures filed { AreFiled self.old.tables }
        ensures unchanged { self.new ≡ self.old }
    {
        // Called for its contract: each table is in its slot.
        let _cache = self.cache();
        if position.is_checkmate() {
            return Ok(true);
        }
        if is_out_of_scope(position) {
            return Ok(false);
        }
        self.is_precise_open(alloc, position)
    }
}
