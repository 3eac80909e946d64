//! The name of a game.

ghost use Rattle.std.specs.Prelude.{◌≡◌, ◌↔◌, IfSome, IfNone, IsTrue};
ghost use Rattle.std.specs.List.{list_all};
ghost use Rattle.fen_text.specs.Written.{fen_of};
ghost use Rattle.move_msg.specs.Stamps.{IsGameName, is_printable, stamp_of};

use crate::stamp::{Stamp, stamp_by};
use board_core::{Delay, Position};
use std::marker::Model;

/// Whether each byte is a printable one of ASCII, from the space to the tilde.
fn is_printable(name: &[u8]) -> bool
    ensures { result ≡ list_all is_printable name.now }
{
    name.iter().all(|byte| 0x20 <= *byte && *byte <= 0x7e)
}

/// Whether a game may have this name: 1 to 64 bytes, all from 0x20 (the space) to 0x7E (the tilde).
/// It takes no memory.
pub fn is_game_name(name: &[u8]) -> bool
    ensures { IsTrue result ↔ IsGameName name.now }
{
    1 <= name.len() && name.len() <= 64 && is_printable(name)
}

/// The name of a game, 1 to 64 bytes from the space to the tilde. Contracts see its bytes.
#[derive(Drop)]
pub struct GameName<'a> {
    bytes: &'a [u8],
}

impl<'a> Model for GameName<'a> {
    ghost use Rattle.std.specs.Prelude.{ℕ, List};
    ghost use Rattle.move_msg.specs.Stamps.{IsGameName};

    ghost Value = { List ℕ };

    ghost view = { λ n. n.bytes.now };

    ghost invariant = { λ n. IsGameName n.bytes.now };
}

impl<'a> GameName<'a> {
    /// The name of these bytes; none where no game may have it.
    pub fn of(bytes: &'a [u8]) -> Option<GameName<'a>>
        ensures some { IfSome result (λ name. name ≡ bytes.entry.now) }
        ensures none { IfNone result (IsGameName bytes.entry.now → ⊥) }
    {
        if is_game_name(bytes) {
            Some(GameName { bytes })
        } else {
            None
        }
    }

    /// The bytes of the name.
    pub fn as_bytes(&self) -> &'a [u8]
        ensures bytes { result.now ≡ self.now }
        ensures name { IsGameName result.now }
    {
        self.bytes
    }

    /// The stamp of the game of this name with this start, manifest of tables and delay.
    pub fn stamp(&self, start: &Position, manifest: &[u8], delay: Delay) -> Stamp
        ensures { result ≡ stamp_of self.now (fen_of start.now) manifest.now delay }
    {
        stamp_by(self.bytes, start, manifest, delay.plies())
    }
}
