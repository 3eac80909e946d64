//! How tables are asked for values.

ghost use Rattle.std.specs.Prelude.{◌≡◌, IfOk, OnErr, false};
ghost use Rattle.judge_core.specs.Root.{IsInScope};
ghost use Rattle.judge_core.specs.Ruling.{is_out_of_scope, ruling};
ghost use Rattle.judge_core.specs.Ask.{IsAnswered, IsRanked, MayLack, ask_of};

use crate::display::Columns;
use crate::root_move::RootMove;
use crate::set::Set;
use board_core::Position;
use std::alloc::{AllocError, Global};

/// How tables are asked for values.
#[derive(Clone, Copy)]
pub enum Ask {
    /// For what the tables of the set say; a missing table is a fault.
    Strict,
    /// Where that is a fault, for what is the same whatever the missing tables hold.
    Determined,
}

impl Ask {
    /// For determined values too, or for the others alone.
    pub fn of(determined: bool) -> Ask
        ensures { result ≡ ask_of determined }
    {
        if determined {
            Ask::Determined
        } else {
            Ask::Strict
        }
    }

    /// Both probes of the position, as `Set::answers` or `Set::determined_answers` gives them, and the verdict on it, which is
    /// the same for both. The error comes only where those calls give it, at a position in scope. The set stays as it was
    /// but for its cache.
    pub fn answers(
        self,
        alloc: Global,
        set: &mut Set<'_>,
        position: &Position,
    ) -> Result<Columns, AllocError>
        ensures told { IfOk result (λ columns. IsAnswered self set.old.tables position.now columns.probed) }
        ensures verdict { IfOk result (λ columns. columns.verdict ≡ ruling set.old.tables position.now) }
        ensures memory { OnErr result (MayLack self set.old.tables position.now) }
        ensures unchanged { set.new ≡ set.old }
    {
        match self {
            Ask::Strict => set.answers(alloc, position),
            Ask::Determined => set.determined_answers(alloc, position),
        }
    }

    /// The legal moves, the best first, as `Set::root` or `Set::determined_root` gives them; none where the position is out
    /// of scope. The error comes only where memory is refused, at a position in scope. The set stays as it was but for its
    /// cache.
    pub fn root(
        self,
        alloc: Global,
        set: &mut Set<'_>,
        position: &Position,
    ) -> Result<Option<Vec<RootMove>>, AllocError>
        ensures moves { IfOk result (IsInScope (λ moves. IsRanked self set.old.tables position.now moves.items) position.now) }
        ensures memory { OnErr result (is_out_of_scope position.now ≡ false) }
        ensures unchanged { set.new ≡ set.old }
    {
        match self {
            Ask::Strict => set.root(alloc, position),
            Ask::Determined => set.determined_root(alloc, position),
        }
    }
}
