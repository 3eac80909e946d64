//! Calls about the tables that a handle has.

ghost use Rattle.std.specs.Prelude.{◌≡◌, None, Some, pos};
ghost use Rattle.hofsjurd_c.specs.declared.held.Held.{Held};
ghost use Rattle.judge_core.specs.Tables.{largest_of};
ghost use Rattle.probe_api.specs.Holds.{TellsHas};
ghost use Rattle.probe_api.specs.Replies.{refused, told};

use crate::handle::Handle;
use probe_api::Reply;
use std::alloc::Global;

/// Whether the set has the table for the material with this name, as `KQvK`: 1 or 0. Kind 0 is its WDL table, every other number its
/// DTZ table.
#[unsafe(no_mangle)]
pub extern "C" fn hofsjurd_has(alloc: Global, handle: &mut Handle, name: &[u8], kind: u8) -> Reply
    ensures closed { handle.old.seat.value ≡ None → result ≡ refused 1 }
    ensures is { (held : Held) → handle.old.seat.value ≡ Some held → TellsHas held.set.tables kind name.now result }
    ensures kept { handle.new.seat.value ≡ handle.old.seat.value }
{
    let Some(held) = handle.take(alloc) else {
        return Reply::refused(1);
    };
    let reply = probe_api::has(&held.set, kind, name);
    *handle = Handle::open(held);
    reply
}

/// The largest number of men of a table in the set, kings included, 0 without a table.
#[unsafe(no_mangle)]
pub extern "C" fn hofsjurd_largest(alloc: Global, handle: &mut Handle) -> Reply
    ensures closed { handle.old.seat.value ≡ None → result ≡ refused 1 }
    ensures is { (held : Held) → handle.old.seat.value ≡ Some held → result ≡ told (pos (largest_of held.set.tables)) }
    ensures kept { handle.new.seat.value ≡ handle.old.seat.value }
{
    let Some(held) = handle.take(alloc) else {
        return Reply::refused(1);
    };
    let reply = probe_api::largest(&held.set);
    *handle = Handle::open(held);
    reply
}
