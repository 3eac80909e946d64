//! The identifier of one game.

ghost use Rattle.std.specs.Prelude.{◌≡◌, IfSome, IfNone};
ghost use Rattle.sha2.specs.Sha256.{sha256};
ghost use Rattle.fen_text.specs.Written.{fen_of};
ghost use Rattle.move_msg.specs.Stamps.{IsGameName, IsStamp, stamp_text, stamp_of};

use crate::game_name::is_game_name;
use board_core::Position;
use fen_text::write;
use sha2::{Digest, Sha256};
use std::marker::Model;

/// The identifier of one game in its messages and records: 16 bytes, which contracts see.
#[derive(Clone, Copy, PartialEq, Eq, PartialOrd, Ord, Hash, Debug)]
pub struct Stamp(pub [u8; 16]);

impl Model for Stamp {
    ghost use Rattle.std.specs.Prelude.{ℕ, List};

    ghost Value = { List ℕ };

    ghost view = { λ s. s.0 };

    ghost inverse = { λ bytes. record { 0 = bytes } };
}

/// The line feed, which ends a line.
const LINE_FEED: &str = "\n";

/// The SHA-256 digest (FIPS 180-4) of name, line feed, start, line feed, manifest and, where it isn't 0, the byte of the delay.
fn digest(name: &[u8], start: &[u8], manifest: &[u8], delay: u8) -> [u8; 32]
    ensures { result ≡ sha256 (stamp_text name.now start.now manifest.now delay) }
{
    let mut hasher = Sha256::new();
    hasher.update(name);
    hasher.update(LINE_FEED.as_bytes());
    hasher.update(start);
    hasher.update(LINE_FEED.as_bytes());
    hasher.update(manifest);
    if delay > 0 {
        hasher.update(&[delay]);
    }
    hasher.finalize()
}

/// The first 16 bytes of the digest of a name, a start, a manifest and the byte of a delay.
pub(crate) fn stamp_by(name: &[u8], start: &Position, manifest: &[u8], delay: u8) -> Stamp
    ensures { result ≡ stamp_of name.now (fen_of start.now) manifest.now delay }
{
    let digest = digest(name, write(start).as_str().as_bytes(), manifest, delay);
    let mut stamp = [0; 16];
    stamp.copy_from_slice(&digest[..16]);
    Stamp(stamp)
}

/// Any 16 bytes may be a stamp's; called for its contract.
fn are_of_stamp(bytes: [u8; 16])
    ensures { IsStamp bytes }
{}

impl Stamp {
    /// The stamp of the game with this name, start and manifest of tables: the first 16 bytes of a SHA-256 digest. The
    /// digest is of the name, a line feed, the start's FEN text, a line feed and the manifest's bytes. Where the delay
    /// isn't 0 it follows as one byte.
    ///
    /// None unless a game may have the name (`is_game_name`).
    pub fn of(name: &[u8], start: &Position, manifest: &[u8], delay: u8) -> Option<Stamp>
        ensures some { IfSome result (λ stamp. IsGameName name.now × (stamp ≡ stamp_of name.now (fen_of start.now) manifest.now delay)) }
        ensures none { IfNone result (IsGameName name.now → ⊥) }
    {
        if is_game_name(name) {
            Some(stamp_by(name, start, manifest, delay))
        } else {
            None
        }
    }

    /// Its 16 bytes.
    pub fn as_bytes(&self) -> &[u8; 16]
        ensures bytes { result.now ≡ self.now }
        ensures is { IsStamp self.now }
    {
        are_of_stamp(self.0);
        &self.0
    }
}
