//! Both probes of a position and the verdict on it, from one pass over its captures.

ghost use Rattle.std.specs.Prelude.{◌≡◌, ◌≤◌, false, Some, None, Err, IfOk, OnErr, if◌then◌else◌};
ghost use Rattle.board_core.specs.ComputedMoves.{legal_moves};
ghost use Rattle.judge_core.specs.Answers.{ListsMoves, as_probe, signed_in};
ghost use Rattle.judge_core.specs.declared.fault.ProbeFault.TheVariants.{OutOfScope};
ghost use Rattle.judge_core.specs.Distances.{plies, dtz_of};
ghost use Rattle.board_core.specs.Ends.{has_no_move};
ghost use Rattle.judge_core.specs.ProbeResult.{IsProbed, wdl_number};
ghost use Rattle.judge_core.specs.Probing.{wdl_of};
ghost use Rattle.judge_core.specs.Ruling.{end_of, is_out_of_scope, ruling, ruling_by};
ghost use Rattle.judge_core.specs.Tables.{AreFiled};

use crate::display::Columns;
use crate::distance::Distance;
use crate::dtz::{Beyond, signed_in};
use crate::fault::{ProbeFault, ValueFault};
use crate::found::worth_in;
use crate::located_position::{LocatedPosition, is_bare};
use crate::mobility::has_no_move;
use crate::probe_result::ProbeResult;
use crate::set::Set;
use crate::verdict::{by_distance, by_value, end_of, is_out_of_scope};
use crate::wdl::Wdl;
use board_core::{Position, Verdict};
use std::alloc::{AllocError, Global};

/// The WDL value and the DTZ distance of a position, each or the table that is missing or damaged.
#[derive(Clone, Copy)]
pub(crate) struct Readings {
    /// The WDL value.
    pub wdl: Result<Wdl, ValueFault>,
    /// The DTZ value.
    pub dtz: Result<Distance, ValueFault>,
}

/// The number that a WDL probe returns for this value, or its fault.
pub(crate) fn number_in(value: &Result<Wdl, ValueFault>) -> Result<i32, ProbeFault>
    ensures { result ≡ as_probe wdl_number value.now }
{
    match value {
        Ok(value) => Ok(i32::from(value.number())),
        Err(fault) => Err(fault.of_probe()),
    }
}

/// The verdict where no legal move is left, and this one otherwise.
fn end_or(position: &Position, verdict: Option<Verdict>) -> Option<Verdict>
    ensures { result ≡ if has_no_move (legal_moves position.now) then Some (end_of position.now) else verdict }
{
    if has_no_move(position) {
        Some(end_of(position))
    } else {
        verdict
    }
}

/// The three columns of a position out of scope.
pub(crate) fn columns_outside(position: &Position) -> Columns
    ensures probed { result.probed ≡ record { wdl = Err OutOfScope; dtz = Err OutOfScope } }
    ensures verdict { result.verdict ≡ if has_no_move (legal_moves position.now) then Some (end_of position.now) else None }
{
    Columns {
        probed: ProbeResult {
            wdl: Err(ProbeFault::OutOfScope),
            dtz: Err(ProbeFault::OutOfScope),
        },
        verdict: end_or(position, None),
    }
}

impl Readings {
    /// The verdict that follows from both readings.
    fn verdict(&self, position: &Position) -> Option<Verdict>
        requires { IfOk self.now.dtz (λ d. plies d ≤ 1000000) }
        ensures { result ≡ ruling_by position.now self.now.wdl self.now.dtz }
    {
        match &self.wdl {
            Ok(Wdl::Win) => by_distance(position, position.side(), &self.dtz),
            Ok(Wdl::Loss) => by_distance(position, position.side().other(), &self.dtz),
            _ => by_value(&self.wdl),
        }
    }

    /// Both as numbers, or why there is none.
    fn probed(&self) -> ProbeResult
        requires { IfOk self.now.dtz (λ d. plies d ≤ 1000000) }
        ensures wdl { result.wdl ≡ as_probe wdl_number self.now.wdl }
        ensures dtz { result.dtz ≡ as_probe (λ n. n) (signed_in self.now.dtz) }
    {
        ProbeResult {
            wdl: number_in(&self.wdl),
            dtz: signed_in(&self.dtz),
        }
    }

    /// The three columns of a position in scope that has these readings, where these others are told.
    pub(crate) fn columns_telling(&self, position: &Position, told: &Readings) -> Columns
        requires own { IfOk self.now.dtz (λ d. plies d ≤ 1000000) }
        requires told { IfOk told.now.dtz (λ d. plies d ≤ 1000000) }
        ensures wdl { result.probed.wdl ≡ as_probe wdl_number told.now.wdl }
        ensures dtz { result.probed.dtz ≡ as_probe (λ n. n) (signed_in told.now.dtz) }
        ensures verdict { result.verdict ≡ if has_no_move (legal_moves position.now) then Some (end_of position.now) else ruling_by position.now self.now.wdl self.now.dtz }
    {
        Columns {
            probed: told.probed(),
            verdict: end_or(position, self.verdict(position)),
        }
    }

    /// The three columns of a position in scope that has these readings.
    fn columns(&self, position: &Position) -> Columns
        requires { IfOk self.now.dtz (λ d. plies d ≤ 1000000) }
        ensures wdl { result.probed.wdl ≡ as_probe wdl_number self.now.wdl }
        ensures dtz { result.probed.dtz ≡ as_probe (λ n. n) (signed_in self.now.dtz) }
        ensures verdict { result.verdict ≡ if has_no_move (legal_moves position.now) then Some (end_of position.now) else ruling_by position.now self.now.wdl self.now.dtz }
    {
        self.columns_telling(position, self)
    }
}

impl<'a> Set<'a> {
    /// The value and the distance of the position, from one pass over its captures.
    pub(crate) fn readings(
        &mut self,
        alloc: Global,
        position: &Position,
    ) -> Result<Readings, AllocError>
        ensures wdl { IfOk result (λ r. r.wdl ≡ wdl_of self.old.tables position.now) }
        ensures dtz { IfOk result (λ r. r.dtz ≡ dtz_of self.old.tables position.now) }
        ensures within { IfOk result (λ r. IfOk r.dtz (λ d. plies d ≤ 131173)) }
        ensures memory { OnErr result (ListsMoves self.old.tables position.now) }
        ensures unchanged { self.new ≡ self.old }
    {
        if is_bare(position) {
            return Ok(Readings {
                wdl: Ok(Wdl::Draw),
                dtz: Ok(Distance::Draw),
            });
        }
        let probe = LocatedPosition::of(position);
        let searched = self.capture_search(alloc, &probe);
        let dtz = self.dtz_from_search(alloc, &probe, &searched, Beyond::Visited)?;
        Ok(Readings {
            wdl: worth_in(searched),
            dtz,
        })
    }

    /// The three columns of a position in scope.
    fn columns(&mut self, alloc: Global, position: &Position) -> Result<Columns, AllocError>
        requires scope { is_out_of_scope position.now ≡ false }
        ensures told { IfOk result (λ columns. IsProbed self.old.tables position.now columns.probed) }
        ensures verdict { IfOk result (λ columns. columns.verdict ≡ ruling self.old.tables position.now) }
        ensures memory { OnErr result (ListsMoves self.old.tables position.now) }
        ensures unchanged { self.new ≡ self.old }
    {
        match self.readings(alloc, position) {
            Ok(readings) => Ok(readings.columns(position)),
            Err(fault) => Err(fault),
        }
    }

    /// Both probes of the position, as `probe` gives them, and the verdict on it, as `judge` gives it. Its captures are
    /// visited once, and its distance is computed once.
    ///
    /// The error comes only where memory for a list of moves is refused. The position is then in scope with more than
    /// two men, and has a WDL value that is no draw and not by a capture. The set stays as it was but for its cache.
    pub fn answers(&mut self, alloc: Global, position: &Position) -> Result<Columns, AllocError>
        ensures told { IfOk result (λ answers. IsProbed self.old.tables position.now answers.probed) }
        ensures verdict { IfOk result (λ answers. answers.verdict ≡ ruling self.old.tables position.now) }
        ensures memory { OnErr result ((is_out_of_scope position.now ≡ false) × ListsMoves self.old.tables position.now) }
        ensures filed { AreFiled self.old.tables }
        ensures unchanged { self.new ≡ self.old }
    {
        // Called for its contract: each table is in its slot.
        let _cache = self.cache();
        if is_out_of_scope(position) {
            return Ok(columns_outside(position));
        }
        self.columns(alloc, position)
    }
}
