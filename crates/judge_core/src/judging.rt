//! The verdict on a position.

ghost use Rattle.std.specs.Prelude.{◌≡◌, IfOk, OnErr};
ghost use Rattle.judge_core.specs.Answers.{ListsMovesForVerdict};
ghost use Rattle.judge_core.specs.Ruling.{ruling};
ghost use Rattle.judge_core.specs.Tables.{AreFiled};

use crate::dtz::Beyond;
use crate::found::worth_in;
use crate::located_position::{LocatedPosition, is_bare};
use crate::mobility::has_no_move;
use crate::set::Set;
use crate::verdict;
use crate::wdl::Wdl;
use board_core::{Position, Verdict};
use std::alloc::{AllocError, Global};

impl<'a> Set<'a> {
    /// The verdict on the position; none where the game goes on.
    ///
    /// Checkmate and stalemate come first. Then a position with rights to castle or more than five men has none. A
    /// needed table that is damaged stops the game, and where one is missing there is no verdict. A draw by the tables
    /// is a verdict. A win or a loss is one where the halfmove clock and the distance in plies, as `dtz` gives it, are
    /// at most 99 together. All else has no verdict. The error comes only where memory for a list of moves is refused.
    /// The position is then in scope, with a legal move and more than two men, and its WDL value is a win or a loss and
    /// not by a capture. The set stays as it was but for its cache.
    #[tactic(auto, unfolding(crate::specs::Ruling::ruling))]
    pub fn judge(
        &mut self,
        alloc: Global,
        position: &Position,
    ) -> Result<Option<Verdict>, AllocError>
        ensures value { IfOk result (λ verdict. verdict ≡ ruling self.old.tables position.now) }
        ensures memory { OnErr result (ListsMovesForVerdict self.old.tables position.now) }
        ensures filed { AreFiled self.old.tables }
        ensures unchanged { self.new ≡ self.old }
    {
        // Called for its contract: each table is in its slot.
        let _cache = self.cache();
        if has_no_move(position) {
            return Ok(Some(verdict::end_of(position)));
        }
        if verdict::is_out_of_scope(position) {
            return Ok(None);
        }
        if is_bare(position) {
            return Ok(Some(Verdict::TableDraw));
        }
        let probe = LocatedPosition::of(position);
        let searched = self.capture_search(alloc, &probe);
        let reading = worth_in(searched);
        let winner = match &reading {
            Ok(Wdl::Win) => position.side(),
            Ok(Wdl::Loss) => position.side().other(),
            _ => return Ok(verdict::by_value(&reading)),
        };
        let reach = self.dtz_from_search(alloc, &probe, &searched, Beyond::Visited)?;
        Ok(verdict::by_distance(position, winner, &reach))
    }
}
