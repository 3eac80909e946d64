//! Values collected over the captures of a position.

ghost use Rattle.std.specs.Prelude.{◌≡◌};
ghost use Rattle.judge_core.specs.Probing.{worth, worth_in};
ghost use Rattle.judge_core.specs.Distances.{is_by_capture};
ghost use Rattle.judge_core.specs.Inside.Found.{nothing_found, found_with, closed};

use crate::fault::{Faults, ValueFault};
use crate::wdl::Wdl;

/// What captures and the own table say of a position.
#[derive(Clone, Copy)]
pub(crate) struct CaptureSearch {
    /// The best capture other than en passant, a loss without one.
    pub capture: Wdl,
    /// The best capture en passant, a loss without one.
    pub passant: Wdl,
    /// The own table's value.
    pub own: Wdl,
    /// Whether each legal move is en passant, and there is one.
    pub forced: bool,
}

impl CaptureSearch {
    /// Whether the value is that of a capture. It is where en passant alone is legal, where a capture wins, and where
    /// en passant beats all else. It also is where the best capture is better than a draw and as good as the own table.
    pub fn is_by_capture(&self) -> bool
        ensures { result ≡ is_by_capture self.now }
    {
        let best = self.capture.greater(self.passant);
        self.forced
            || best.is_same(Wdl::Win)
            || self.capture.greater(self.own).is_below(self.passant)
            || !best.is_below(self.own) && best.is_winning()
    }

    /// What the position is worth.
    pub fn worth(&self) -> Wdl
        ensures { result ≡ worth self.now }
    {
        if self.forced {
            self.passant
        } else {
            self.capture.greater(self.passant).greater(self.own)
        }
    }
}

/// What the position is worth, or the fault.
pub(crate) fn worth_in(searched: Result<CaptureSearch, ValueFault>) -> Result<Wdl, ValueFault>
    ensures { result ≡ worth_in searched }
{
    match searched {
        Ok(searched) => Ok(searched.worth()),
        Err(fault) => Err(fault),
    }
}

/// The values after the captures so far.
#[derive(Clone, Copy)]
pub(crate) struct Found {
    /// The first faults of their values.
    pub faults: Faults,
    /// The best capture other than en passant, a loss without one.
    pub capture: Wdl,
    /// The best capture en passant, a loss without one.
    pub passant: Wdl,
}

impl Found {
    /// Before the first capture.
    pub fn new() -> Found
        ensures { result ≡ nothing_found }
    {
        Found {
            faults: Faults::new(),
            capture: Wdl::Loss,
            passant: Wdl::Loss,
        }
    }

    /// With the value after one capture more, or its fault.
    pub fn with(&self, reading: &Result<Wdl, ValueFault>, passant: bool) -> Found
        ensures { result ≡ found_with self.now reading.now passant }
    {
        let mut found = *self;
        match reading {
            Ok(value) => {
                if passant {
                    found.passant = self.passant.greater(*value);
                } else {
                    found.capture = self.capture.greater(*value);
                }
            }
            Err(fault) => found.faults = self.faults.with(fault),
        }
        found
    }

    /// After the last capture, with the own table's value, or its fault.
    pub fn close(
        &self,
        own: &Result<Wdl, ValueFault>,
        forced: bool,
    ) -> Result<CaptureSearch, ValueFault>
        ensures { result ≡ closed self.now own.now forced }
    {
        let all = self.with(own, false);
        if let Some(fault) = all.faults.first() {
            return Err(fault);
        }
        match own {
            Ok(own) => Ok(CaptureSearch {
                capture: self.capture,
                passant: self.passant,
                own: *own,
                forced,
            }),
            Err(fault) => Err(*fault),
        }
    }
}
