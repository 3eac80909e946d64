//! The handle of a game that C keeps.

ghost use Rattle.std.specs.Prelude.{◌≡◌, ◌↔◌, None, Some, IsSome, IsTrue};
ghost use Rattle.hofsjurd_c.specs.Owned.{boxed_game};

use crate::held::HeldGame;
use crate::owned_game::OwnedGame;
use crate::raw_box::RawBox;
use std::alloc::Global;

/// A game in play, or none. All bytes zero is a closed handle.
#[repr(C)]
#[derive(Drop)]
pub struct GameHandle {
    /// Whether there is a game.
    pub is_open: bool,
    /// Where it is.
    pub seat: OwnedGame,
    ghost agrees: { IsTrue is_open ↔ IsSome seat.value },
}

impl GameHandle {
    /// A handle without a game.
    pub(crate) fn closed(alloc: Global) -> GameHandle
        ensures { result.seat.value ≡ None }
    {
        GameHandle {
            is_open: false,
            seat: OwnedGame::empty(alloc),
        }
    }

    /// A handle with this game.
    pub(crate) fn open(held: Box<HeldGame>) -> GameHandle
        ensures { result.seat.value ≡ Some held.value }
    {
        GameHandle {
            is_open: true,
            seat: OwnedGame::of(RawBox::of(held)),
        }
    }

    /// Takes the game out, and leaves the handle closed.
    pub(crate) fn take(&mut self, alloc: Global) -> Option<Box<HeldGame>>
        ensures is { boxed_game result ≡ self.old.seat.value }
        ensures closed { self.new.seat.value ≡ None }
    {
        let GameHandle { is_open, seat } = std::mem::replace(self, GameHandle::closed(alloc));
        if is_open {
            return Some(seat.into_raw_box().into_box());
        }
        None
    }
}
