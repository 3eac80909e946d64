//! The source's own board, by which it believes a reported mate or not.

ghost use Rattle.std.specs.Prelude.{◌≡◌, ◌↔◌, IsTrue, Some, IfSome, IfNone};
ghost use Rattle.source_core.specs.Boards.{AreBelieved, IsBelieved, IsKnownBelied, IsMate, IsShown};

use crate::known::Known;
use crate::report::Ruling;
use board_core::{Position, Side, Verdict};

/// The board after the moves that were sent.
#[derive(Clone, Copy)]
pub struct Board<'a> {
    /// How many moves they are, 0 to 4096.
    pub plies: u32,
    /// The position after them.
    pub position: &'a Position,
}

/// Whether this side is to move.
fn has_move(position: &Position, side: Side) -> bool
    ensures { IsTrue result ↔ (position.now.side ≡ side) }
{
    position.side() == side
}

/// Whether the position is as a verdict says, which only a mate or a stalemate tells of it.
fn is_shown(position: &Position, verdict: Verdict) -> bool
    ensures { IsTrue result ↔ IsShown position.now verdict }
{
    match verdict {
        Verdict::WhiteMates => position.is_checkmate() && has_move(position, Side::Black),
        Verdict::BlackMates => position.is_checkmate() && has_move(position, Side::White),
        Verdict::Stalemate => position.is_stalemate(),
        Verdict::TableDraw | Verdict::TableWhite | Verdict::TableBlack | Verdict::Stopped => true,
    }
}

/// Whether a verdict is a mate or a stalemate.
fn is_mate(verdict: Verdict) -> bool
    ensures { IsTrue result ↔ IsMate verdict }
{
    match verdict {
        Verdict::WhiteMates | Verdict::BlackMates | Verdict::Stalemate => true,
        Verdict::TableDraw | Verdict::TableWhite | Verdict::TableBlack | Verdict::Stopped => false,
    }
}

/// Whether a verdict that is reported at a ply may be so after the moves that were sent.
fn is_believed(plies: u32, position: &Position, ruling: Ruling) -> bool
    ensures { IsTrue result ↔ IsBelieved plies position.now ruling }
{
    if ruling.ply < plies {
        !is_mate(ruling.verdict)
    } else if ruling.ply == plies {
        is_shown(position, ruling.verdict)
    } else {
        true
    }
}

impl<'a> Board<'a> {
    /// A verdict that was reported, where it isn't believed.
    fn belies(self, told: Option<Ruling>) -> Option<Ruling>
        ensures some { IfSome result (λ r. (told ≡ Some r) × (IsBelieved self.entry.plies self.entry.position.now r → ⊥)) }
        ensures none { IfNone result (IfSome told (IsBelieved self.entry.plies self.entry.position.now)) }
    {
        let Some(ruling) = told else {
            return None;
        };
        if is_believed(self.plies, self.position, ruling) {
            None
        } else {
            Some(ruling)
        }
    }

    /// A verdict that an arbiter has reported and that isn't believed, if there is one.
    pub(crate) fn belied_in(self, known: &Known) -> Option<Ruling>
        ensures some { IfSome result (IsKnownBelied self.entry.plies self.entry.position.now known.now) }
        ensures none { IfNone result (AreBelieved self.entry.plies self.entry.position.now known.now) }
    {
        match self.belies(known.a.ruling) {
            Some(ruling) => Some(ruling),
            None => self.belies(known.b.ruling),
        }
    }
}
