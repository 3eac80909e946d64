//! Both probes of a position, as numbers.

ghost use Rattle.std.specs.Prelude.{◌≡◌, false, IfOk, OnErr};
ghost use Rattle.judge_core.specs.Answers.{ListsMoves};
ghost use Rattle.judge_core.specs.ProbeResult.{IsProbed, has_both};
ghost use Rattle.judge_core.specs.Ruling.{is_out_of_scope};
ghost use Rattle.judge_core.specs.Tables.{AreFiled};

use crate::fault::ProbeFault;
use crate::set::Set;
use board_core::Position;
use std::alloc::{AllocError, Global};

/// Both probes of a position: each a number, or why there is none. From `Set::probe` and `Set::answers` neither fault
/// is `OutOfMemory`.
#[derive(Clone, Copy)]
pub struct ProbeResult {
    /// The WDL value, as `Wdl::number` gives it: -2 loss, -1 blessed loss, 0 draw, 1 cursed win, 2 win.
    pub wdl: Result<i32, ProbeFault>,
    /// The DTZ value, as `Set::dtz` gives it, in plies: above 0 where the side to move wins, below 0 where it loses.
    pub dtz: Result<i32, ProbeFault>,
}

impl ProbeResult {
    /// Whether both are numbers.
    pub fn has_both(&self) -> bool
        ensures { result ≡ has_both self.now }
    {
        self.wdl.is_ok() && self.dtz.is_ok()
    }
}

impl<'a> Set<'a> {
    /// Both probes of the position, as `wdl` and `dtz` give them.
    ///
    /// The error comes only where memory for a list of moves is refused. The position is then in scope with more than
    /// two men, and has a WDL value that is no draw and not by a capture. The set stays as it was but for its cache.
    pub fn probe(&mut self, alloc: Global, position: &Position) -> Result<ProbeResult, AllocError>
        ensures told { IfOk result (IsProbed self.old.tables position.now) }
        ensures memory { OnErr result ((is_out_of_scope position.now ≡ false) × ListsMoves self.old.tables position.now) }
        ensures filed { AreFiled self.old.tables }
        ensures unchanged { self.new ≡ self.old }
    {
        let answers = self.answers(alloc, position)?;
        Ok(answers.probed)
    }
}
