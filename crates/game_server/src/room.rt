//! Games that are open, found by their stamps, the one used least recently last.

ghost use Rattle.std.specs.Prelude.{◌≡◌, ◌∷◌, ◌-◌, take, None, IfErr, OnOk};
ghost use Rattle.arbiter_server.specs.Room.{at_stamp};
ghost use Rattle.lru.specs.LruCache.{lru_cache};

use arbiter_server::OpenGameError;
use lru::LruCache;
use move_msg::Stamp;

/// Keeps a game open that was opened. Where there is no room the one that was used least recently is closed. Where memory is refused all is
/// as it was.
pub(crate) fn put_in<S: Drop>(
    seats: &mut LruCache<Stamp, S>,
    stamp: Stamp,
    seat: S,
) -> Result<(), OpenGameError>
    requires { at_stamp seats.old.entries stamp ≡ None }
    ensures ok { OnOk result (seats.new ≡ lru_cache ((stamp, seat) ∷ take (seats.old.cap - 1) seats.old.entries) seats.old.cap) }
    ensures err { IfErr result (λ why. (why ≡ OpenGameError.OutOfMemory) × (seats.new ≡ seats.old)) }
{
    match seats.put(stamp, seat) {
        Ok(_) => Ok(()),
        Err(_) => Err(OpenGameError::OutOfMemory),
    }
}
