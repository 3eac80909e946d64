//! Paths of games' files.

ghost use Rattle.std.specs.Prelude.{◌↔◌, ◌++◌, ℕ, List, codes, IfSome, IfNone, IsTrue};
ghost use Rattle.command_line.specs.GamePaths.{IsFolderFront, NamesGame};

use game_status::stamp_of;
use move_msg::Stamp;

/// Whether a path up to its last name is nothing, or ends in a slash.
fn is_folder_front(front: &[u8]) -> bool
    ensures { IsTrue result ↔ IsFolderFront front.now }
{
    match front {
        [] => true,
        [.., last] => *last == b'/',
    }
}

/// The stamp of a path without its ending, whose last name is 32 digits.
fn stamp_behind(path: &[u8]) -> Option<Stamp>
    ensures some { IfSome result (λ stamp. NamesGame (path.now ++ codes ".game") stamp) }
    ensures none { IfNone result ((stamp : List ℕ) → NamesGame (path.now ++ codes ".game") stamp → ⊥) }
{
    if path.len() < 32 {
        return None;
    }
    let (front, digits) = path.split_at(path.len() - 32);
    if is_folder_front(front) {
        stamp_of(digits)
    } else {
        None
    }
}

/// The stamp of the game whose file a path names: `FOLDER/STAMP.game`, or `STAMP.game` alone.
///
/// Whether the game that stands there has this stamp can't be told without the manifest of its tables.
pub(crate) fn stamp_in(path: &str) -> Option<Stamp>
    ensures some { IfSome result (λ stamp. NamesGame path.now stamp) }
    ensures none { IfNone result ((stamp : List ℕ) → NamesGame path.now stamp → ⊥) }
{
    let bytes = path.as_bytes();
    if bytes.len() < 5 {
        return None;
    }
    let (rest, ending) = bytes.split_at(bytes.len() - 5);
    if ending == b".game".as_slice() {
        stamp_behind(rest)
    } else {
        None
    }
}
