//! A second handle with the tables of a first, and handles that pass from thread to thread.

ghost use Rattle.std.specs.Prelude.{◌≡◌, ◌≢◌, ◌<◌, ◌≤◌, None, Some};
ghost use Rattle.hofsjurd_c.specs.declared.held.Held.{Held};

use crate::game_handle::GameHandle;
use crate::handle::Handle;
use crate::held::Held;
use judge_core::Set;
use std::alloc::Global;
use std::marker::Send;

/// A set with the tables of this one, in a handle of its own.
fn share_in(alloc: Global, set: &mut Set<'static>, to: &mut Handle, cache: usize) -> u32
    requires closed { to.old.seat.value ≡ None }
    requires some { 1 ≤ cache }
    requires most { cache ≤ 4096 }
    ensures shared { result ≡ 0 → to.new.seat.value ≡ Some (record { set = record { tables = set.old.tables; cache = cache } }) }
    ensures refused { result ≢ 0 → to.new.seat.value ≡ None }
    ensures memory { result ≢ 0 → result ≡ 5 }
    ensures kept { set.new ≡ set.old }
{
    let Ok(other) = set.share(alloc, cache) else {
        return 5;
    };
    let Ok(held) = Box::new(alloc, Held { set: other }) else {
        return 5;
    };
    *to = Handle::open(held);
    0
}

/// Makes a second handle hold the tables that a first one has now, with a cache of its own of so many decoded blocks, 1 to 4096. What it
/// held is freed.
#[unsafe(no_mangle)]
pub extern "C" fn hofsjurd_share(
    alloc: Global,
    from: &mut Handle,
    to: &mut Handle,
    cache: usize,
) -> u32
    ensures closed { from.old.seat.value ≡ None → result ≡ 1 }
    ensures small { (held : Held) → from.old.seat.value ≡ Some held → cache < 1 → result ≡ 81 }
    ensures great { (held : Held) → from.old.seat.value ≡ Some held → 4096 < cache → result ≡ 81 }
    ensures memory { (held : Held) → from.old.seat.value ≡ Some held → 1 ≤ cache → cache ≤ 4096 → result ≢ 0 → result ≡ 5 }
    ensures shared { (held : Held) → from.old.seat.value ≡ Some held → result ≡ 0 → to.new.seat.value ≡ Some (record { set = record { tables = held.set.tables; cache = cache } }) }
    ensures refused { result ≢ 0 → to.new.seat.value ≡ None }
    ensures kept { from.new.seat.value ≡ from.old.seat.value }
{
    let _old = to.take(alloc);
    let Some(mut held) = from.take(alloc) else {
        return 1;
    };
    let status = if cache < 1 || 4096 < cache {
        81
    } else {
        share_in(alloc, &mut held.set, to, cache)
    };
    *from = Handle::open(held);
    status
}

fn may_pass<T: Send>(_value: &T) {}

/// Each handle may pass to another thread with all that it holds: this call stands for the proof that both types are `Send`.
pub fn handles_may_pass(handle: &Handle, game: &GameHandle) {
    may_pass(handle);
    may_pass(game);
}
