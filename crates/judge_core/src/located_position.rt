//! Positions with their men as their table sees them.

ghost use Rattle.std.specs.Prelude.{◌≡◌, ◌<◌, ◌≤◌, IsTrue, IsFalse};
ghost use Rattle.board_core.specs.ComputedMoves.{count_of_men};
ghost use Rattle.board_core.specs.Position.{IsPosition};
ghost use Rattle.judge_core.specs.Inside.Placing.{IsPlacedOf};

use board_core::Position;
use place_index::Placed;
use std::marker::Model;

/// A position to look up in tables, and its men as its table sees them, found once in one pass.
///
/// Contracts see the position.
#[derive(Drop)]
pub(crate) struct LocatedPosition<'p> {
    position: &'p Position,
    placed: Option<Placed>,
}

impl<'p> Model for LocatedPosition<'p> {
    ghost use Rattle.board_core.specs.declared.parts.Parts.{Parts};
    ghost use Rattle.judge_core.specs.Inside.Placing.{position_of, IsProbeOf};

    ghost Value = { Parts };

    ghost view = { position_of };

    ghost invariant = { IsProbeOf };
}

/// Whether the kings are alone; they have no table.
pub(crate) fn is_bare(position: &Position) -> bool
    ensures bare { IsTrue result → count_of_men position.now ≤ 2 }
    ensures more { IsFalse result → 2 < count_of_men position.now }
    ensures position { IsPosition position.now }
{
    // The condition that it is a position serves the proof alone.
    let _parts = position.parts();
    position.men() <= 2
}

/// The position's men as its table sees them: none for bare kings and for more than five men.
fn placed(position: &Position) -> Option<Placed>
    ensures { IsPlacedOf position.now result }
{
    match Placed::of(position) {
        Some(placed) => {
            // The condition that the key is below 145 serves the proof alone.
            let _men = placed.men();
            Some(placed)
        }
        None => None,
    }
}

impl<'p> LocatedPosition<'p> {
    /// A position with its men.
    #[inline(always)]
    pub fn of(position: &'p Position) -> LocatedPosition<'p>
        ensures { result ≡ position.now }
    {
        // The condition that it is a position serves the proof alone.
        let _parts = position.parts();
        let placed = placed(position);
        LocatedPosition { position, placed }
    }

    /// The position.
    pub fn position(&self) -> &'p Position
        ensures is { result.now ≡ self.now }
        ensures position { IsPosition self.now }
    {
        self.position
    }

    /// Its men as its table sees them: none for bare kings and for more than five men.
    pub fn placed(&self) -> &Option<Placed>
        ensures { IsPlacedOf self.now result.now }
    {
        &self.placed
    }
}
