//! Values that are the same whatever the missing tables hold.
//!
//! A table that is missing could say anything. Each capture takes a man, so the tables that captures lead to are read
//! for one side where the number of men is odd, and for the other where it is even. So all values lie between those of
//! two sets: in one all missing tables win for the side to move where the number of men is odd and lose where it is
//! even, in the other it is the other way round.

ghost use Rattle.std.specs.Prelude.{◌≡◌, ◌≢◌, true, false};
ghost use Rattle.board_core.specs.ComputedMoves.{legal_captures};
ghost use Rattle.judge_core.specs.Determined.{IsDeterminedWdl};
ghost use Rattle.judge_core.specs.Inside.Determined.{is_won_here, fill, in_stead, extreme, extreme_value, extreme_searched, agreed, value_of_both, or_agreed, in_both, lies_outside, in_some, determined_value, value_as, step_value_in};
ghost use Rattle.judge_core.specs.Inside.Found.{found_by_captures};

use crate::ask::Ask;
use crate::fault::{ProbeFault, ValueFault};
use crate::found::{CaptureSearch, Found, worth_in};
use crate::located_position::{LocatedPosition, is_bare};
use crate::moving::lands_empty;
use crate::probing::{is_forced, told};
use crate::set::Set;
use crate::verdict::is_out_of_scope;
use crate::wdl::{Wdl, turned};
use board_core::Position;
use std::alloc::Global;

/// Whether missing tables win for the side to move where there are this many men.
fn is_won_here(odd_wins: bool, men: u32) -> bool
    ensures { result ≡ is_won_here odd_wins men }
{
    let is_odd = men % 2 == 1;
    if odd_wins { is_odd } else { !is_odd }
}

/// What a missing table says of a position with this many men in one of the two sets.
fn fill(odd_wins: bool, men: u32) -> Wdl
    ensures { result ≡ fill odd_wins men }
{
    if is_won_here(odd_wins, men) {
        Wdl::Win
    } else {
        Wdl::Loss
    }
}

/// What the own table says, or this value where it is missing.
fn in_stead(own: Result<Wdl, ValueFault>, other: Wdl) -> Result<Wdl, ValueFault>
    ensures { result ≡ in_stead own other }
{
    match own {
        Err(ValueFault::NotCovered(_)) => Ok(other),
        own => own,
    }
}

/// The value that both readings have.
fn agreed(a: &Result<Wdl, ValueFault>, b: &Result<Wdl, ValueFault>) -> Option<Wdl>
    ensures { result ≡ agreed a.now b.now }
{
    match (a, b) {
        (Ok(a), Ok(b)) if a.is_same(*b) => Some(*a),
        _ => None,
    }
}

/// This value only where both readings have it, or the fault of one.
fn in_both(
    value: Wdl,
    a: Result<Wdl, ValueFault>,
    b: Result<Wdl, ValueFault>,
) -> Result<Wdl, ValueFault>
    ensures { result ≡ in_both value a b }
{
    match a {
        Ok(first) => {
            if first.is_same(value) || b.is_err() {
                b
            } else {
                a
            }
        }
        Err(fault) => Err(fault),
    }
}

/// Whether it is less than both, or more than both.
fn lies_outside(value: Wdl, a: Wdl, b: Wdl) -> bool
    ensures { result ≡ lies_outside value a b }
{
    value.is_below(a) && value.is_below(b) || a.is_below(value) && b.is_below(value)
}

/// This value unless it lies outside both readings, or the fault of one.
fn in_some(
    value: Wdl,
    a: Result<Wdl, ValueFault>,
    b: Result<Wdl, ValueFault>,
) -> Result<Wdl, ValueFault>
    ensures { result ≡ in_some value a b }
{
    match (a, b) {
        (Ok(first), Ok(second)) => {
            if lies_outside(value, first, second) {
                Ok(first)
            } else {
                Ok(value)
            }
        }
        (Err(fault), _) | (_, Err(fault)) => Err(fault),
    }
}

/// Where a pawn move is to reach a value.
#[derive(Clone, Copy)]
pub(crate) enum ReachedIn {
    /// By the tables of the set.
    TheSet,
    /// Whatever the missing tables hold.
    EachCompletion,
    /// By something that the missing tables may hold.
    SomeCompletion,
}

impl<'a> Set<'a> {
    /// What the own WDL table of a position says in one of the two sets.
    fn extreme(
        &mut self,
        alloc: Global,
        probe: &LocatedPosition<'_>,
        odd_wins: bool,
    ) -> Result<Wdl, ValueFault>
        ensures is { result ≡ extreme self.old.tables odd_wins probe.now }
        ensures unchanged { self.new ≡ self.old }
    {
        let own = self.table_value(alloc, probe);
        in_stead(own, fill(odd_wins, probe.position().men()))
    }

    /// The values there after the captures of the position. It is the search of `wdl` once more, which has no room for a
    /// choice of tables.
    #[cycle(extreme)]
    fn captures_in_extreme(
        &mut self,
        alloc: Global,
        probe: &LocatedPosition<'_>,
        odd_wins: bool,
    ) -> Found
        ensures is { result ≡ found_by_captures (extreme_value self.old.tables odd_wins) probe.now (legal_captures probe.now) }
        ensures unchanged { self.new ≡ self.old }
    {
        let position = probe.position();
        let mut found = Found::new();
        let mut last = None;
        'captures: while let Some(m) = position.next_capture(last) {
            if let Some(after) = position.play(m) {
                let reading = self.wdl_extreme(alloc, &after, odd_wins);
                found = found.with(&turned(reading), lands_empty(position, &m));
            }
            last = Some(m);
        }
        found
    }

    /// What the captures and the own table say there about the position.
    #[cycle(extreme)]
    pub(crate) fn extreme_search(
        &mut self,
        alloc: Global,
        probe: &LocatedPosition<'_>,
        odd_wins: bool,
    ) -> Result<CaptureSearch, ValueFault>
        ensures is { result ≡ extreme_searched self.old.tables odd_wins probe.now }
        ensures unchanged { self.new ≡ self.old }
    {
        let own = self.extreme(alloc, probe, odd_wins);
        let found = self.captures_in_extreme(alloc, probe, odd_wins);
        found.close(&own, is_forced(probe.position()))
    }

    /// What the position is worth there to the side to move.
    #[cycle(extreme)]
    fn wdl_extreme(
        &mut self,
        alloc: Global,
        position: &Position,
        odd_wins: bool,
    ) -> Result<Wdl, ValueFault>
        ensures is { result ≡ extreme_value self.old.tables odd_wins position.now }
        ensures unchanged { self.new ≡ self.old }
    {
        if is_bare(position) {
            return Ok(Wdl::Draw);
        }
        let searched = self.extreme_search(alloc, &LocatedPosition::of(position), odd_wins);
        worth_in(searched)
    }

    /// This value, or else what the position is worth in both sets, where that is the same.
    pub(crate) fn or_agreed(
        &mut self,
        alloc: Global,
        position: &Position,
        strict: &Result<Wdl, ValueFault>,
    ) -> Result<Wdl, ValueFault>
        ensures is { result ≡ or_agreed strict.now (value_of_both self.old.tables position.now) }
        ensures unchanged { self.new ≡ self.old }
    {
        let fault = match strict {
            Ok(value) => return Ok(*value),
            Err(fault) => *fault,
        };
        let odd = self.wdl_extreme(alloc, position, true);
        let even = self.wdl_extreme(alloc, position, false);
        match agreed(&odd, &even) {
            Some(value) => Ok(value),
            None => Err(fault),
        }
    }

    /// What the position is worth, or else what it is worth in both sets, where that is the same.
    fn determined_value(&mut self, alloc: Global, position: &Position) -> Result<Wdl, ValueFault>
        ensures is { result ≡ determined_value self.old.tables position.now }
        ensures unchanged { self.new ≡ self.old }
    {
        let strict = self.wdl_of(alloc, position);
        self.or_agreed(alloc, position, &strict)
    }

    /// The value of a position as it is asked for.
    pub(crate) fn value_as(
        &mut self,
        alloc: Global,
        position: &Position,
        ask: Ask,
    ) -> Result<Wdl, ValueFault>
        ensures is { result ≡ value_as ask self.old.tables position.now }
        ensures unchanged { self.new ≡ self.old }
    {
        match ask {
            Ask::Strict => self.wdl_of(alloc, position),
            Ask::Determined => self.determined_value(alloc, position),
        }
    }

    /// The value of a position after a pawn move that is to reach this one. By completions it is the opposite value only
    /// where the move reaches it.
    pub(crate) fn step_value(
        &mut self,
        alloc: Global,
        after: &Position,
        value: Wdl,
        within: ReachedIn,
    ) -> Result<Wdl, ValueFault>
        ensures is { result ≡ step_value_in within self.old.tables value after.now }
        ensures unchanged { self.new ≡ self.old }
    {
        match within {
            ReachedIn::TheSet => self.wdl_of(alloc, after),
            ReachedIn::EachCompletion => {
                let odd = self.wdl_extreme(alloc, after, true);
                let even = self.wdl_extreme(alloc, after, false);
                in_both(value.opposite(), odd, even)
            }
            ReachedIn::SomeCompletion => {
                let odd = self.wdl_extreme(alloc, after, true);
                let even = self.wdl_extreme(alloc, after, false);
                in_some(value.opposite(), odd, even)
            }
        }
    }

    /// What the position is worth to the side to move wherever that is the same whatever the missing WDL tables hold.
    ///
    /// The answer is that of `wdl` where that has one. Else it is the value that every completion of the set gives:
    /// missing tables may then say anything, and tables that are damaged stay so. A missing table may be of no account
    /// where a capture wins already, for example. The error comes only where no value is so, and is that of `wdl`. It is
    /// never `OutOfMemory`. The set stays as it was but for its cache.
    pub fn determined_wdl(&mut self, alloc: Global, position: &Position) -> Result<Wdl, ProbeFault>
        ensures answer { IsDeterminedWdl self.old.tables position.now result }
        ensures unchanged { self.new ≡ self.old }
    {
        if is_out_of_scope(position) {
            return Err(ProbeFault::OutOfScope);
        }
        let reading = self.determined_value(alloc, position);
        told(&reading)
    }
}
