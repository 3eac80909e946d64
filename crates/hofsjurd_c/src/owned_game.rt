//! Room for the pointer of a boxed game, in a form that C can keep.

ghost use Rattle.std.specs.Prelude.{◌≡◌, Option, None, Some, IsSome};
ghost use Rattle.hofsjurd_c.specs.Owned.{game_seat_owns};
ghost use Rattle.hofsjurd_c.specs.declared.held.HeldGame.{HeldGame};

use crate::held::HeldGame;
use crate::raw_box::RawBox;
use std::alloc::Global;
use std::marker::{Model, Send};

/// A pointer without a type. It owns a box where `value` tells one, and nothing otherwise.
#[repr(C)]
#[derive(Drop)]
pub struct OwnedGame {
    at: *mut u8,
    alloc: Global,
    /// What stands there.
    pub ghost value: { Option HeldGame },
}

impl Model for OwnedGame {
    ghost also_owns = { λ s. game_seat_owns s.alloc s.at s.value };
}

impl OwnedGame {
    /// A null pointer, which owns nothing.
    pub(crate) fn empty(alloc: Global) -> OwnedGame
        ensures { result.value ≡ None }
    {
        OwnedGame {
            at: std::ptr::null_mut(),
            alloc,
        }
    }

    /// A pointer that owns the box.
    pub(crate) fn of(loose: RawBox<HeldGame, Global>) -> OwnedGame
        ensures { result.value ≡ Some loose.value }
    {
        let RawBox { at, alloc } = loose;
        OwnedGame {
            at: at as *mut u8,
            alloc,
        }
    }

    /// The box that the pointer owns.
    pub(crate) fn into_raw_box(self) -> RawBox<HeldGame, Global>
        requires { IsSome self.value }
        ensures { self.value ≡ Some result.value }
    {
        let OwnedGame { at, alloc } = self;
        RawBox {
            at: at as *mut HeldGame,
            alloc,
        }
    }
}

// It owns a box of what may pass itself: `proofs` has the proof, in `TheSendSync`.
unsafe impl Send for OwnedGame {}
