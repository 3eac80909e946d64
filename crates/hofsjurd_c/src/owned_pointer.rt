//! Room for the pointer of a box, in a form that C can keep.

ghost use Rattle.std.specs.Prelude.{◌≡◌, Option, None, Some, IsSome};
ghost use Rattle.hofsjurd_c.specs.Owned.{seat_owns};
ghost use Rattle.hofsjurd_c.specs.declared.held.Held.{Held};

use crate::held::Held;
use crate::raw_box::RawBox;
use std::alloc::Global;
use std::marker::{Model, Send};

/// A pointer without a type. It owns a box where `value` tells one, and nothing otherwise.
#[repr(C)]
#[derive(Drop)]
pub struct OwnedPointer {
    at: *mut u8,
    alloc: Global,
    /// What stands there.
    pub ghost value: { Option Held },
}

impl Model for OwnedPointer {
    ghost also_owns = { λ s. seat_owns s.alloc s.at s.value };
}

impl OwnedPointer {
    /// A null pointer, which owns nothing.
    pub(crate) fn empty(alloc: Global) -> OwnedPointer
        ensures { result.value ≡ None }
    {
        OwnedPointer {
            at: std::ptr::null_mut(),
            alloc,
        }
    }

    /// A pointer that owns the box.
    pub(crate) fn of(loose: RawBox<Held, Global>) -> OwnedPointer
        ensures { result.value ≡ Some loose.value }
    {
        let RawBox { at, alloc } = loose;
        OwnedPointer {
            at: at as *mut u8,
            alloc,
        }
    }

    /// The box that the pointer owns.
    pub(crate) fn into_raw_box(self) -> RawBox<Held, Global>
        requires { IsSome self.value }
        ensures { self.value ≡ Some result.value }
    {
        let OwnedPointer { at, alloc } = self;
        RawBox {
            at: at as *mut Held,
            alloc,
        }
    }
}

// It owns a box of what may pass itself: `proofs` has the proof, in `TheSendSync`.
unsafe impl Send for OwnedPointer {}
