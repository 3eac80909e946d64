//! Distances that are the same whatever the missing tables hold.

ghost use Rattle.std.specs.Prelude.{◌≡◌, ◌≤◌, ◌&&◌, true, false, Err, IfOk, IfSome, OnErr};
ghost use Rattle.board_core.specs.Position.{IsPosition};
ghost use Rattle.judge_core.specs.Answers.{IsLeftOpen, ListsMoves};
ghost use Rattle.judge_core.specs.Determined.{AreDetermined, IsDeterminedDtz, ListsMovesDetermined};
ghost use Rattle.judge_core.specs.declared.fault.ProbeFault.TheVariants.{OutOfMemory};
ghost use Rattle.judge_core.specs.Distances.{dtz_of, is_by_capture, is_won, plies};
ghost use Rattle.judge_core.specs.Inside.Determined.{AskPawns, BothAskPawns, LackAndAsk, ListsMovesInside, determined_reach, determined_value, distance_by_own_table, distance_in_both, is_missed, is_zeroing, or_agreed_distance, outcome_left_in, pawns_reach_in_some, reach_as, value_as, zeroing_distance};
ghost use Rattle.judge_core.specs.Probing.{wdl_of, worth};
ghost use Rattle.judge_core.specs.Ruling.{is_out_of_scope, ruling};
ghost use Rattle.judge_core.specs.Tables.{AreFiled};
ghost use Rattle.judge_core.specs.Values.{outcome_of};

use crate::answering::{Readings, columns_outside};
use crate::ask::Ask;
use crate::determined::ReachedIn;
use crate::display::Columns;
use crate::distance::{Distance, is_won, towards, zeroing};
use crate::dtz::{Beyond, signed_in};
use crate::fault::{ProbeFault, ValueFault};
use crate::found::CaptureSearch;
use crate::located_position::{LocatedPosition, is_bare};
use crate::set::Set;
use crate::verdict::is_out_of_scope;
use crate::wdl::Wdl;
use board_core::Position;
use std::alloc::{AllocError, Global};
use table_file::Outcome;

impl<'a> Set<'a> {
    /// Whether the value is that of a capture in both sets, or a win by a pawn move.
    fn is_zeroing(
        &mut self,
        alloc: Global,
        position: &Position,
        odd: &CaptureSearch,
        even: &CaptureSearch,
        outcome: Outcome,
    ) -> Result<bool, AllocError>
        ensures is { IfOk result (λ b. b ≡ is_zeroing self.old.tables position.now odd.now even.now outcome) }
        ensures won { OnErr result (is_won outcome ≡ true) }
        ensures no_capture { OnErr result ((is_by_capture odd.now && is_by_capture even.now) ≡ false) }
        ensures unchanged { self.new ≡ self.old }
    {
        if odd.is_by_capture() && even.is_by_capture() {
            return Ok(true);
        }
        if !is_won(outcome) {
            return Ok(false);
        }
        match self.pawns_reach(alloc, position, odd.worth(), ReachedIn::EachCompletion)? {
            Ok(reached) => Ok(reached),
            Err(_) => Ok(false),
        }
    }

    /// The distance of a position that is worth the same in both sets, if what is searched there tells it.
    fn zeroing_distance(
        &mut self,
        alloc: Global,
        position: &Position,
        odd: &CaptureSearch,
        even: &CaptureSearch,
    ) -> Result<Option<Distance>, AllocError>
        ensures is { IfOk result (λ d. d ≡ zeroing_distance self.old.tables position.now odd.now even.now (outcome_of (worth odd.now))) }
        ensures memory { OnErr result (AskPawns odd.now even.now) }
        ensures within { IfOk result (λ o. IfSome o (λ d. plies d ≤ 101)) }
        ensures unchanged { self.new ≡ self.old }
    {
        let Some(outcome) = odd.worth().outcome() else {
            return Ok(Some(Distance::Draw));
        };
        if self.is_zeroing(alloc, position, odd, even, outcome)? {
            Ok(Some(towards(outcome, zeroing(outcome))))
        } else {
            Ok(None)
        }
    }

    /// The distance that the position has in both sets, if what is searched there tells it.
    fn agreed_distance(
        &mut self,
        alloc: Global,
        position: &Position,
    ) -> Result<Option<Distance>, AllocError>
        ensures is { IfOk result (λ d. d ≡ distance_in_both self.old.tables position.now) }
        ensures memory { OnErr result (BothAskPawns self.old.tables position.now) }
        ensures within { IfOk result (λ o. IfSome o (λ d. plies d ≤ 101)) }
        ensures unchanged { self.new ≡ self.old }
    {
        let probe = LocatedPosition::of(position);
        let odd = self.extreme_search(alloc, &probe, true);
        let even = self.extreme_search(alloc, &probe, false);
        let Ok(odd) = odd else {
            return Ok(None);
        };
        let Ok(even) = even else {
            return Ok(None);
        };
        if odd.worth().is_same(even.worth()) {
            self.zeroing_distance(alloc, position, &odd, &even)
        } else {
            Ok(None)
        }
    }

    /// Whether no pawn move that takes nothing reaches the value, whatever the missing tables hold.
    fn pawns_miss(
        &mut self,
        alloc: Global,
        position: &Position,
        value: Wdl,
    ) -> Result<bool, AllocError>
        ensures is { IfOk result (λ b. b ≡ is_missed (pawns_reach_in_some self.old.tables position.now value)) }
        ensures unchanged { self.new ≡ self.old }
    {
        match self.pawns_reach(alloc, position, value, ReachedIn::SomeCompletion)? {
            Ok(reached) => Ok(!reached),
            Err(_) => Ok(false),
        }
    }

    /// What a won or lost position is, where neither a capture nor a pawn move tells its distance, whatever the missing
    /// tables hold.
    fn outcome_left(
        &mut self,
        alloc: Global,
        position: &Position,
        searched: &Result<CaptureSearch, ValueFault>,
    ) -> Result<Option<Outcome>, AllocError>
        ensures is { IfOk result (λ o. o ≡ outcome_left_in self.old.tables position.now searched.now) }
        ensures left { IfOk result (λ o. IfSome o (λ outcome. IsLeftOpen searched.now)) }
        ensures memory { OnErr result (IsLeftOpen searched.now) }
        ensures unchanged { self.new ≡ self.old }
    {
        let Ok(searched) = searched else {
            return Ok(None);
        };
        let value = searched.worth();
        let Some(outcome) = value.outcome() else {
            return Ok(None);
        };
        if searched.is_by_capture() {
            return Ok(None);
        }
        if is_won(outcome) && !self.pawns_miss(alloc, position, value)? {
            return Ok(None);
        }
        Ok(Some(outcome))
    }

    /// The distance of the own table, where that alone is left to tell it, whatever the missing tables hold.
    fn distance_by_own_table(
        &mut self,
        alloc: Global,
        position: &Position,
    ) -> Result<Option<Distance>, AllocError>
        ensures is { IfOk result (λ d. d ≡ distance_by_own_table self.old.tables position.now) }
        ensures memory { OnErr result (ListsMoves self.old.tables position.now) }
        ensures within { IfOk result (λ o. IfSome o (λ d. plies d ≤ 131174)) }
        ensures unchanged { self.new ≡ self.old }
    {
        if is_bare(position) {
            return Ok(None);
        }
        let probe = LocatedPosition::of(position);
        let searched = self.capture_search(alloc, &probe);
        let left = self.outcome_left(alloc, position, &searched)?;
        let Some(outcome) = left else {
            return Ok(None);
        };
        let told = self.by_own_table(alloc, &probe, outcome, Beyond::Told)?;
        Ok(told.ok())
    }

    /// This distance, or else the one of the own table, where that alone is left to tell it.
    fn or_by_own_table(
        &mut self,
        alloc: Global,
        position: &Position,
        told: &Result<Distance, ValueFault>,
    ) -> Result<Result<Distance, ValueFault>, AllocError>
        requires within { IfOk told.now (λ d. plies d ≤ 131174) }
        ensures is { IfOk result (λ r. r ≡ or_agreed_distance told.now (distance_by_own_table self.old.tables position.now)) }
        ensures memory { OnErr result (ListsMoves self.old.tables position.now) }
        ensures within { IfOk result (λ r. IfOk r (λ d. plies d ≤ 131174)) }
        ensures unchanged { self.new ≡ self.old }
    {
        let fault = match told {
            Ok(distance) => return Ok(Ok(*distance)),
            Err(fault) => *fault,
        };
        match self.distance_by_own_table(alloc, position)? {
            Some(distance) => Ok(Ok(distance)),
            None => Ok(Err(fault)),
        }
    }

    /// These readings, and where they are faults, what is the same in both sets.
    fn determine(
        &mut self,
        alloc: Global,
        position: &Position,
        strict: &Readings,
    ) -> Result<Readings, AllocError>
        requires wdl { strict.now.wdl ≡ wdl_of self.old.tables position.now }
        requires dtz { strict.now.dtz ≡ dtz_of self.old.tables position.now }
        requires within { IfOk strict.now.dtz (λ d. plies d ≤ 131173) }
        ensures wdl { IfOk result (λ r. r.wdl ≡ determined_value self.old.tables position.now) }
        ensures dtz { IfOk result (λ r. r.dtz ≡ determined_reach self.old.tables position.now) }
        ensures memory { OnErr result (ListsMovesInside self.old.tables position.now) }
        ensures within { IfOk result (λ r. IfOk r.dtz (λ d. plies d ≤ 131174)) }
        ensures unchanged { self.new ≡ self.old }
    {
        let wdl = self.or_agreed(alloc, position, &strict.wdl);
        let told = self.or_agreed_distance(alloc, position, &strict.dtz)?;
        let dtz = self.or_by_own_table(alloc, position, &told)?;
        Ok(Readings { wdl, dtz })
    }

    /// This distance, or else the one that the position has in both sets.
    pub(crate) fn or_agreed_distance(
        &mut self,
        alloc: Global,
        position: &Position,
        strict: &Result<Distance, ValueFault>,
    ) -> Result<Result<Distance, ValueFault>, AllocError>
        requires within { IfOk strict.now (λ d. plies d ≤ 131173) }
        ensures is { IfOk result (λ r. r ≡ or_agreed_distance strict.now (distance_in_both self.old.tables position.now)) }
        ensures memory { OnErr result (LackAndAsk self.old.tables position.now strict.now) }
        ensures within { IfOk result (λ r. IfOk r (λ d. plies d ≤ 131173)) }
        ensures unchanged { self.new ≡ self.old }
    {
        let fault = match strict {
            Ok(distance) => return Ok(Ok(*distance)),
            Err(fault) => *fault,
        };
        match self.agreed_distance(alloc, position)? {
            Some(distance) => Ok(Ok(distance)),
            None => Ok(Err(fault)),
        }
    }

    /// The value and the distance, as they are asked for.
    pub(crate) fn readings_as(
        &mut self,
        alloc: Global,
        position: &Position,
        ask: Ask,
    ) -> Result<Readings, AllocError>
        ensures wdl { IfOk result (λ r. r.wdl ≡ value_as ask self.old.tables position.now) }
        ensures dtz { IfOk result (λ r. r.dtz ≡ reach_as ask self.old.tables position.now) }
        ensures memory { OnErr result (ListsMovesInside self.old.tables position.now) }
        ensures within { IfOk result (λ r. IfOk r.dtz (λ d. plies d ≤ 131174)) }
        ensures unchanged { self.new ≡ self.old }
    {
        let strict = self.readings(alloc, position)?;
        match ask {
            Ask::Strict => Ok(strict),
            Ask::Determined => self.determine(alloc, position, &strict),
        }
    }

    /// The distance of a position, as `dtz` gives it, or where that is a fault, one that is the same whatever the missing
    /// tables hold.
    ///
    /// It tells the distance where the value is the same whatever they hold, and is a draw, by a capture, or a win by a
    /// pawn move. It also does where the own table is left to tell it: the set itself has the value, which is not by a
    /// capture, and whatever the missing tables hold, no pawn move brings a win about. Where the table stores the other
    /// side alone, each distance after a quiet move has to be that of the set or told so by the value. No other missing
    /// table is made up for. Else the error is that of `dtz`. `OutOfMemory` comes only where memory for a list of moves is
    /// refused: where `dtz` may report it, and where the value is a win that is not by a capture and `dtz` has a fault.
    /// The set stays as it was but for its cache.
    pub fn determined_dtz(&mut self, alloc: Global, position: &Position) -> Result<i32, ProbeFault>
        ensures answer { IsDeterminedDtz self.old.tables position.now result }
        ensures memory { result ≡ Err OutOfMemory → ListsMovesDetermined self.old.tables position.now }
        ensures unchanged { self.new ≡ self.old }
    {
        if is_out_of_scope(position) {
            return Err(ProbeFault::OutOfScope);
        }
        let Ok(readings) = self.readings_as(alloc, position, Ask::Determined) else {
            return Err(ProbeFault::OutOfMemory);
        };
        signed_in(&readings.dtz)
    }

    /// The columns of a position in scope that has these readings, where determined ones are told.
    fn columns_from(
        &mut self,
        alloc: Global,
        position: &Position,
        strict: &Readings,
    ) -> Result<Columns, AllocError>
        requires position { IsPosition position.now }
        requires scope { is_out_of_scope position.now ≡ false }
        requires wdl { strict.now.wdl ≡ wdl_of self.old.tables position.now }
        requires dtz { strict.now.dtz ≡ dtz_of self.old.tables position.now }
        requires within { IfOk strict.now.dtz (λ d. plies d ≤ 131173) }
        ensures told { IfOk result (λ answers. AreDetermined self.old.tables position.now answers.probed) }
        ensures verdict { IfOk result (λ answers. answers.verdict ≡ ruling self.old.tables position.now) }
        ensures memory { OnErr result (ListsMovesDetermined self.old.tables position.now) }
        ensures unchanged { self.new ≡ self.old }
    {
        match self.determine(alloc, position, strict) {
            Ok(determined) => Ok(strict.columns_telling(position, &determined)),
            Err(fault) => Err(fault),
        }
    }

    /// Both probes of a position in scope, as `determined_wdl` and `determined_dtz` give them, and the verdict on it.
    fn determined_columns(
        &mut self,
        alloc: Global,
        position: &Position,
    ) -> Result<Columns, AllocError>
        requires position { IsPosition position.now }
        requires scope { is_out_of_scope position.now ≡ false }
        ensures told { IfOk result (λ answers. AreDetermined self.old.tables position.now answers.probed) }
        ensures verdict { IfOk result (λ answers. answers.verdict ≡ ruling self.old.tables position.now) }
        ensures memory { OnErr result (ListsMovesDetermined self.old.tables position.now) }
        ensures unchanged { self.new ≡ self.old }
    {
        match self.readings(alloc, position) {
            Ok(strict) => self.columns_from(alloc, position, &strict),
            Err(fault) => Err(fault),
        }
    }

    /// Both probes of the position, as `determined_wdl` and `determined_dtz` give them, and the verdict on it, as `judge`
    /// gives it: a verdict needs the tables themselves.
    ///
    /// The error comes only where memory for a list of moves is refused. The position is then in scope, and
    /// `determined_dtz` may report it there. The set stays as it was but for its cache.
    pub fn determined_answers(
        &mut self,
        alloc: Global,
        position: &Position,
    ) -> Result<Columns, AllocError>
        ensures told { IfOk result (λ answers. AreDetermined self.old.tables position.now answers.probed) }
        ensures verdict { IfOk result (λ answers. answers.verdict ≡ ruling self.old.tables position.now) }
        ensures memory { OnErr result ((is_out_of_scope position.now ≡ false) × ListsMovesDetermined self.old.tables position.now) }
        ensures filed { AreFiled self.old.tables }
        ensures unchanged { self.new ≡ self.old }
    {
        // Called for its contract: each table is in its slot.
        let _cache = self.cache();
        if is_out_of_scope(position) {
            return Ok(columns_outside(position));
        }
        self.determined_columns(alloc, position)
    }
}
