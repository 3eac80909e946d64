//! What is counted on the way through the moves of a position.

ghost use Rattle.std.specs.Prelude.{◌≡◌, max};
ghost use Rattle.judge_core.specs.Distances.{plies, lesser};
ghost use Rattle.judge_core.specs.Inside.Counts.{no_steps, with_reading, steps_result, no_counts, with_count, counts_result, AreWithin};

use crate::distance::{self, Distance};
use crate::fault::{Faults, ValueFault};
use crate::wdl::Wdl;
use place_index::Material;
use table_file::Outcome;

/// The values after the pawn moves so far.
#[derive(Clone, Copy)]
pub(crate) struct Steps {
    /// The first faults of the values after them.
    pub faults: Faults,
    /// Whether one of them has the value sought.
    pub reached: bool,
}

impl Steps {
    /// Before the first move.
    pub fn new() -> Steps
        ensures { result ≡ no_steps }
    {
        Steps {
            faults: Faults::new(),
            reached: false,
        }
    }

    /// With the value after one move more, or its fault.
    pub fn with(&self, value: Wdl, reading: &Result<Wdl, ValueFault>) -> Steps
        ensures { result ≡ with_reading value self.now reading.now }
    {
        let mut steps = *self;
        match reading {
            Ok(other) => steps.reached = self.reached || other.is_same(value),
            Err(fault) => steps.faults = self.faults.with(fault),
        }
        steps
    }

    /// Whether one of them has the value, or the fault.
    pub fn result(&self) -> Result<bool, ValueFault>
        ensures { result ≡ steps_result self.now }
    {
        match self.faults.first() {
            Some(fault) => Err(fault),
            None => Ok(self.reached),
        }
    }
}

/// The distances after the quiet moves so far.
#[derive(Clone, Copy)]
pub(crate) struct Counts {
    /// The first faults of the distances after them.
    pub faults: Faults,
    /// The least number of plies, if there is one.
    pub least: Option<u32>,
    /// The greatest number of plies, that of a capture or a pawn move among them.
    pub greatest: u32,
    /// Whether some move doesn't keep what the side to move has.
    pub odd: bool,
}

/// The lesser of two numbers, where there is a first.
fn lesser(first: Option<u32>, other: u32) -> Option<u32>
    ensures { result ≡ lesser first other }
{
    match first {
        Some(first) => Some(first.min(other)),
        None => Some(other),
    }
}

impl Counts {
    /// Before the first move.
    pub fn new(outcome: Outcome) -> Counts
        ensures is { result ≡ no_counts outcome }
        ensures within { AreWithin 101 result }
    {
        Counts {
            faults: Faults::new(),
            least: None,
            greatest: distance::zeroing(outcome),
            odd: false,
        }
    }

    /// With the distance after one move more, or its fault.
    pub fn with(&self, count: &Result<Option<u32>, ValueFault>) -> Counts
        ensures { result ≡ with_count self.now count.now }
    {
        let mut counts = *self;
        match count {
            Ok(Some(plies)) => {
                counts.least = lesser(self.least, *plies);
                counts.greatest = self.greatest.max(*plies);
            }
            Ok(None) => counts.odd = true,
            Err(fault) => counts.faults = self.faults.with(fault),
        }
        counts
    }

    /// The distance that follows from all of them. Where there is none, the table of this material contradicts itself.
    pub fn result(&self, material: Material, outcome: Outcome) -> Result<Distance, ValueFault>
        ensures { result ≡ counts_result material outcome self.now }
    {
        if let Some(fault) = self.faults.first() {
            return Err(fault);
        }
        if distance::is_won(outcome) {
            return match self.least {
                Some(plies) => Ok(Distance::Win(plies)),
                None => Err(ValueFault::Damaged(material)),
            };
        }
        if self.odd {
            return Err(ValueFault::Damaged(material));
        }
        Ok(Distance::Loss(self.greatest))
    }
}
