//! WDL probes of many positions, whose tables are read side by side.

ghost use Rattle.std.specs.Prelude.{◌≡◌, map, All, IfOk};
ghost use Rattle.board_core.specs.declared.parts.Parts.{Parts};
ghost use Rattle.judge_core.specs.Answers.{IsWdlProbe, wdl_answer};
ghost use Rattle.judge_core.specs.Blocks.{AreRight};
ghost use Rattle.judge_core.specs.Inside.Placing.{IsOwnPlace};
ghost use Rattle.judge_core.specs.Known.{IsKnownProbe, known_answer};
ghost use Rattle.judge_core.specs.Tables.{table_value};

use crate::blocks::Blocks;
use crate::fault::{ProbeFault, ValueFault};
use crate::found::worth_in;
use crate::located_position::{LocatedPosition, is_bare};
use crate::probing::{is_forced, told};
use crate::reading::OwnPlace;
use crate::set::Set;
use crate::table_slots::TableSlots;
use crate::verdict::is_out_of_scope;
use crate::wdl::Wdl;
use board_core::Position;
use std::alloc::{AllocError, Global};

/// A position and the place of its value in its own table.
#[derive(Drop)]
struct Located<'q, 'p, 't, 'a> {
    probe: &'q LocatedPosition<'p>,
    own: Option<OwnPlace<'t, 'a>>,
}

/// The positions with their men.
fn probes_of<'p>(
    alloc: Global,
    positions: &'p [Position],
) -> Result<Vec<LocatedPosition<'p>>, AllocError>
    ensures { IfOk result (λ probes. probes.items ≡ positions.now) }
{
    let mut probes = Vec::with_capacity(alloc, positions.len())?;
    for position in positions {
        probes.push(LocatedPosition::of(position))?;
    }
    Ok(probes)
}

/// Looks at the blocks that will be read, so that they come from memory side by side. The number says nothing; it is summed up
/// so that no look is left out.
fn look_ahead(located: &[Located<'_, '_, '_, '_>]) -> u32 {
    let mut sum: u32 = 0;
    for it in located {
        if let Some(own) = &it.own {
            sum = sum.wrapping_add(own.look_ahead());
        }
    }
    sum
}

impl<'a> TableSlots<'a> {
    /// Where the own tables of the positions have their values.
    fn locate_each<'q, 'p, 't>(
        &'t self,
        alloc: Global,
        probes: &'q [LocatedPosition<'p>],
    ) -> Result<Vec<Located<'q, 'p, 't, 'a>>, AllocError>
        ensures probes { IfOk result (λ all. map (λ it. it.probe.now) all.items ≡ probes.now) }
        ensures places { IfOk result (λ all. All (λ it. IsOwnPlace self.now.tables it.probe.now it.own) all.items) }
    {
        let mut located = Vec::with_capacity(alloc, probes.len())?;
        for probe in probes {
            let own = self.own_place(probe);
            located.push(Located { probe, own })?;
        }
        Ok(located)
    }

    /// What the own tables of the positions say, where these are their places there.
    fn read_each(
        &self,
        blocks: &mut Blocks,
        alloc: Global,
        located: &[Located<'_, '_, '_, 'a>],
    ) -> Result<Vec<Result<Wdl, ValueFault>>, AllocError>
        requires right { AreRight self.now blocks.old }
        requires places { All (λ it. IsOwnPlace self.now.tables it.probe.now it.own) located.now }
        ensures is { IfOk result (λ values. values.items ≡ map (λ it. table_value self.now.tables it.probe.now) located.now) }
        ensures right { AreRight self.now blocks.new }
    {
        let mut values = Vec::with_capacity(alloc, located.len())?;
        for it in located {
            values.push(self.own_value(blocks, alloc, it.probe, &it.own))?;
        }
        Ok(values)
    }
}

impl<'a> Set<'a> {
    /// What the own WDL tables of the positions say.
    fn table_values(
        &mut self,
        alloc: Global,
        probes: &[LocatedPosition<'_>],
    ) -> Result<Vec<Result<Wdl, ValueFault>>, AllocError>
        ensures is { IfOk result (λ values. values.items ≡ map (table_value self.old.tables) probes.now) }
        ensures unchanged { self.new ≡ self.old }
    {
        let located = self.table_slots.locate_each(alloc, probes)?;
        self.blocks.note(look_ahead(&located));
        self.table_slots
            .read_each(&mut self.blocks, alloc, &located)
    }

    /// What the position is worth, as `wdl` gives it, where its own table says this.
    fn wdl_with(
        &mut self,
        alloc: Global,
        probe: &LocatedPosition<'_>,
        own: &Result<Wdl, ValueFault>,
    ) -> Result<Wdl, ProbeFault>
        requires own { own.now ≡ table_value self.old.tables probe.now }
        ensures is { result ≡ wdl_answer self.old.tables probe.now }
        ensures unchanged { self.new ≡ self.old }
    {
        let position = probe.position();
        if is_out_of_scope(position) {
            return Err(ProbeFault::OutOfScope);
        }
        if is_bare(position) {
            return Ok(Wdl::Draw);
        }
        let searched = self.capture_search_by(alloc, probe, own);
        told(&worth_in(searched))
    }

    /// The WDL values of the positions, each as `wdl` gives it, in their order. The tables of all are looked up before the
    /// first value is read, so that they come from memory side by side. That was measured for 16 at once (docs/SPEED.md).
    ///
    /// The error comes only where memory for lists of so many entries is refused. The set stays as it was but for its
    /// cache.
    pub fn wdl_each(
        &mut self,
        alloc: Global,
        positions: &[Position],
    ) -> Result<Vec<Result<Wdl, ProbeFault>>, AllocError>
        ensures each { IfOk result (λ values. values.items ≡ map (wdl_answer self.old.tables) positions.now) }
        ensures probe { (p : Parts) → IsWdlProbe self.old.tables p (wdl_answer self.old.tables p) }
        ensures unchanged { self.new ≡ self.old }
    {
        let probes = probes_of(alloc, positions)?;
        let own = self.table_values(alloc, &probes)?;
        let mut values = Vec::with_capacity(alloc, probes.len())?;
        for i in 0..probes.len() {
            values.push(self.wdl_with(alloc, &probes[i], &own[i]))?;
        }
        Ok(values)
    }

    /// What the position is known to be worth, as `known_wdl` gives it, where its own table says this.
    fn known_with(
        &mut self,
        alloc: Global,
        probe: &LocatedPosition<'_>,
        own: &Result<Wdl, ValueFault>,
    ) -> Result<Wdl, ProbeFault>
        requires own { own.now ≡ table_value self.old.tables probe.now }
        ensures is { result ≡ known_answer self.old.tables probe.now }
        ensures unchanged { self.new ≡ self.old }
    {
        let position = probe.position();
        if is_out_of_scope(position) {
            return Err(ProbeFault::OutOfScope);
        }
        if is_bare(position) {
            return Ok(Wdl::Draw);
        }
        match self.found_or_won(alloc, position) {
            Some(found) => told(&worth_in(found.close(own, is_forced(position)))),
            None => Ok(Wdl::Win),
        }
    }

    /// What the positions are worth as soon as it is known, each as `known_wdl` gives it, in their order. Their own tables are looked
    /// up as `wdl_each` does.
    ///
    /// The error comes only where memory for lists of so many entries is refused. The set stays as it was but for its
    /// cache.
    pub fn known_wdl_each(
        &mut self,
        alloc: Global,
        positions: &[Position],
    ) -> Result<Vec<Result<Wdl, ProbeFault>>, AllocError>
        ensures each { IfOk result (λ values. values.items ≡ map (known_answer self.old.tables) positions.now) }
        ensures probe { (p : Parts) → IsKnownProbe self.old.tables p (known_answer self.old.tables p) }
        ensures unchanged { self.new ≡ self.old }
    {
        let probes = probes_of(alloc, positions)?;
        let own = self.table_values(alloc, &probes)?;
        let mut values = Vec::with_capacity(alloc, probes.len())?;
        for i in 0..probes.len() {
            values.push(self.known_with(alloc, &probes[i], &own[i]))?;
        }
        Ok(values)
    }
}
