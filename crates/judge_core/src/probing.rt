//! WDL probes.

ghost use Rattle.std.specs.Prelude.{◌≡◌, ◌≢◌, Err};
ghost use Rattle.board_core.specs.ComputedMoves.{legal_captures};
ghost use Rattle.judge_core.specs.Probing.{is_forced, searched_by, wdl_of};
ghost use Rattle.judge_core.specs.Ruling.{is_out_of_scope};
ghost use Rattle.judge_core.specs.Answers.{IsProbe, as_probe};
ghost use Rattle.judge_core.specs.declared.fault.ProbeFault.TheVariants.{OutOfMemory};
ghost use Rattle.judge_core.specs.Inside.Found.{found_by_captures};
ghost use Rattle.judge_core.specs.Tables.{table_value};

use crate::fault::{ProbeFault, ValueFault};
use crate::found::{CaptureSearch, Found, worth_in};
use crate::located_position::{LocatedPosition, is_bare};
use crate::moving::lands_empty;
use crate::reading::value_of;
use crate::set::Set;
use crate::verdict::is_out_of_scope;
use crate::wdl::{Wdl, turned};
use board_core::Position;
use std::alloc::Global;
use table_file::TableKind;

/// Whether each legal move is en passant, and there is one.
pub(crate) fn is_forced(position: &Position) -> bool
    ensures { result ≡ is_forced position.now }
{
    match position.en_passant() {
        Some(_) => position.has_legal_move() && !position.has_move_besides_en_passant(),
        None => false,
    }
}

/// What a probe returns for a reading.
pub(crate) fn told(reading: &Result<Wdl, ValueFault>) -> Result<Wdl, ProbeFault>
    ensures { result ≡ as_probe (λ v. v) reading.now }
{
    match reading {
        Ok(value) => Ok(*value),
        Err(fault) => Err(fault.of_probe()),
    }
}

impl<'a> Set<'a> {
    /// The table value of a position: what its own WDL table says about it. Bare kings are a draw.
    #[inline(always)]
    pub(crate) fn table_value(
        &mut self,
        alloc: Global,
        probe: &LocatedPosition<'_>,
    ) -> Result<Wdl, ValueFault>
        ensures is { result ≡ table_value self.old.tables probe.now }
        ensures unchanged { self.new ≡ self.old }
    {
        let Some(placed) = probe.placed() else {
            return Ok(Wdl::Draw);
        };
        let material = placed.material();
        let Some(part) = self.table_slots.part(TableKind::Wdl, placed) else {
            return Err(ValueFault::NotCovered(material));
        };
        let blocks = &mut self.blocks;
        let points = self
            .table_slots
            .read(blocks, alloc, TableKind::Wdl, &part, placed);
        value_of(material, points)
    }

    /// The values after the captures of the position, found one after the other. It isn't inlined: room for a position
    /// after a move costs time at each entry, even where nothing can be taken.
    #[inline(never)]
    #[cycle(wdl)]
    fn search_captures(&mut self, alloc: Global, probe: &LocatedPosition<'_>) -> Found
        ensures is { result ≡ found_by_captures (wdl_of self.old.tables) probe.now (legal_captures probe.now) }
        ensures unchanged { self.new ≡ self.old }
    {
        let position = probe.position();
        let mut found = Found::new();
        let mut last = None;
        'captures: while let Some(m) = position.next_capture(last) {
            if let Some(after) = position.play(m) {
                let reading = self.wdl_of(alloc, &after);
                found = found.with(&turned(reading), lands_empty(position, &m));
            }
            last = Some(m);
        }
        found
    }

    /// The values after the captures of the position.
    #[cycle(wdl)]
    fn found_in_captures(&mut self, alloc: Global, probe: &LocatedPosition<'_>) -> Found
        ensures is { result ≡ found_by_captures (wdl_of self.old.tables) probe.now (legal_captures probe.now) }
        ensures unchanged { self.new ≡ self.old }
    {
        if probe.position().may_capture() {
            self.search_captures(alloc, probe)
        } else {
            Found::new()
        }
    }

    /// What the captures say about the position, and its own table, which says this.
    #[cycle(wdl)]
    #[inline]
    pub(crate) fn capture_search_by(
        &mut self,
        alloc: Global,
        probe: &LocatedPosition<'_>,
        own: &Result<Wdl, ValueFault>,
    ) -> Result<CaptureSearch, ValueFault>
        requires own { own.now ≡ table_value self.old.tables probe.now }
        ensures is { result ≡ searched_by self.old.tables (wdl_of self.old.tables) probe.now }
        ensures unchanged { self.new ≡ self.old }
    {
        let found = self.found_in_captures(alloc, probe);
        found.close(own, is_forced(probe.position()))
    }

    /// What the captures and the own table say about the position.
    #[cycle(wdl)]
    pub(crate) fn capture_search(
        &mut self,
        alloc: Global,
        probe: &LocatedPosition<'_>,
    ) -> Result<CaptureSearch, ValueFault>
        ensures is { result ≡ searched_by self.old.tables (wdl_of self.old.tables) probe.now }
        ensures unchanged { self.new ≡ self.old }
    {
        let own = self.table_value(alloc, probe);
        self.capture_search_by(alloc, probe, &own)
    }

    /// What the position is worth to the side to move, wherever its tables are there and whole.
    #[cycle(wdl)]
    pub(crate) fn wdl_of(&mut self, alloc: Global, position: &Position) -> Result<Wdl, ValueFault>
        ensures is { result ≡ wdl_of self.old.tables position.now }
        ensures unchanged { self.new ≡ self.old }
    {
        if is_bare(position) {
            return Ok(Wdl::Draw);
        }
        let searched = self.capture_search(alloc, &LocatedPosition::of(position));
        worth_in(searched)
    }

    /// What the position is worth to the side to move by the WDL tables, captures and en passant included.
    ///
    /// The error is the first fault that applies, in the order of `ProbeFault`, and never `OutOfMemory`. The probe
    /// takes memory only for its cache, and does without where that is refused. The set stays as it was but for its
    /// cache.
    pub fn wdl(&mut self, alloc: Global, position: &Position) -> Result<Wdl, ProbeFault>
        ensures answer { IsProbe result (is_out_of_scope position.now) (wdl_of self.old.tables position.now) }
        ensures no_memory { result ≢ Err OutOfMemory }
        ensures unchanged { self.new ≡ self.old }
    {
        if is_out_of_scope(position) {
            return Err(ProbeFault::OutOfScope);
        }
        let reading = self.wdl_of(alloc, position);
        told(&reading)
    }
}
