//! The value as soon as it is known: WDL probes that end at a capture that wins.

ghost use Rattle.std.specs.Prelude.{◌≡◌, ◌≢◌, ◌<◌, map, Err, IfOk};
ghost use Rattle.board_core.specs.declared.parts.Parts.{Parts};
ghost use Rattle.board_core.specs.ComputedMoves.{legal_captures, count_of_men};
ghost use Rattle.board_core.specs.Position.{IsPosition};
ghost use Rattle.judge_core.specs.declared.fault.ProbeFault.TheVariants.{OutOfMemory};
ghost use Rattle.judge_core.specs.declared.wdl.Wdl.TheVariants.{Win};
ghost use Rattle.judge_core.specs.Answers.{IsProbe};
ghost use Rattle.judge_core.specs.Distances.{is_value};
ghost use Rattle.judge_core.specs.Inside.Found.{found_by_captures, found_unless_won};
ghost use Rattle.judge_core.specs.Known.{known_of};
ghost use Rattle.judge_core.specs.Probing.{searched_by, worth_in};
ghost use Rattle.judge_core.specs.Ruling.{is_out_of_scope};

use crate::fault::{ProbeFault, ValueFault};
use crate::found::{Found, worth_in};
use crate::located_position::{LocatedPosition, is_bare};
use crate::moving::lands_empty;
use crate::probing::{is_forced, told};
use crate::set::Set;
use crate::verdict::is_out_of_scope;
use crate::wdl::{Wdl, turned};
use board_core::Position;
use std::alloc::Global;

/// Whether a reading is a win.
fn is_win(reading: &Result<Wdl, ValueFault>) -> bool
    ensures { result ≡ is_value Win reading.now }
{
    match reading {
        Ok(value) => value.is_same(Wdl::Win),
        Err(_) => false,
    }
}

impl<'a> Set<'a> {
    /// The values that are known after the captures of the position, found one after the other; none where one wins. It
    /// isn't inlined, as `search_captures` isn't.
    #[inline(never)]
    #[cycle(known)]
    fn try_captures(&mut self, alloc: Global, position: &Position) -> Option<Found>
        requires position { IsPosition position.now }
        ensures is { result ≡ found_unless_won (known_of self.old.tables) position.now }
        ensures unchanged { self.new ≡ self.old }
    {
        let mut found = Found::new();
        let mut last = None;
        'captures: while let Some(m) = position.next_capture(last) {
            if let Some(after) = position.play(m) {
                let reading = turned(self.known_of(alloc, &after));
                if is_win(&reading) {
                    return None;
                }
                found = found.with(&reading, lands_empty(position, &m));
            }
            last = Some(m);
        }
        Some(found)
    }

    /// The values that are known after the captures of the position; none where one wins.
    #[cycle(known)]
    pub(crate) fn found_or_won(&mut self, alloc: Global, position: &Position) -> Option<Found>
        requires position { IsPosition position.now }
        ensures is { result ≡ found_unless_won (known_of self.old.tables) position.now }
        ensures unchanged { self.new ≡ self.old }
    {
        if position.may_capture() {
            self.try_captures(alloc, position)
        } else {
            Some(Found::new())
        }
    }

    /// What the position is worth by its own table, and by the captures, of which none wins.
    fn close_by_table(
        &mut self,
        alloc: Global,
        position: &Position,
        found: &Found,
    ) -> Result<Wdl, ValueFault>
        requires { found.now ≡ found_by_captures (known_of self.old.tables) position.now (legal_captures position.now) }
        ensures is { result ≡ worth_in (searched_by self.old.tables (known_of self.old.tables) position.now) }
        ensures unchanged { self.new ≡ self.old }
    {
        let own = self.table_value(alloc, &LocatedPosition::of(position));
        worth_in(found.close(&own, is_forced(position)))
    }

    /// What the position is known to be worth to the side to move.
    #[cycle(known)]
    fn known_of(&mut self, alloc: Global, position: &Position) -> Result<Wdl, ValueFault>
        ensures is { result ≡ known_of self.old.tables position.now }
        ensures unchanged { self.new ≡ self.old }
    {
        if is_bare(position) {
            return Ok(Wdl::Draw);
        }
        match self.found_or_won(alloc, position) {
            Some(found) => self.close_by_table(alloc, position, &found),
            None => Ok(Wdl::Win),
        }
    }

    /// What the position is worth to the side to move, as soon as it is known: a capture that leads to a position which the
    /// opponent has lost, by the same rule, wins at once. No other table counts then, be it missing or damaged.
    ///
    /// Where no capture wins, the value is that of `wdl`, by the values that are known after the captures. So is the
    /// error: the first table that is missing, in the order of captures and the own one last, or else the first that is
    /// damaged. It is never `OutOfMemory`. Where `wdl` has a value, it is this one (`laws::value_is_known`). The set stays as
    /// it was but for its cache.
    pub fn known_wdl(&mut self, alloc: Global, position: &Position) -> Result<Wdl, ProbeFault>
        ensures answer { IsProbe result (is_out_of_scope position.now) (known_of self.old.tables position.now) }
        ensures no_memory { result ≢ Err OutOfMemory }
        ensures unchanged { self.new ≡ self.old }
    {
        if is_out_of_scope(position) {
            return Err(ProbeFault::OutOfScope);
        }
        let reading = self.known_of(alloc, position);
        told(&reading)
    }
}
