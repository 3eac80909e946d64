//! Where a folder of games has the file and the record of a game, by its stamp.

ghost use Rattle.std.specs.Prelude.{◌≡◌, string_bytes, IfOk};
ghost use Rattle.arbiter_server.specs.GameFolders.{game_path, kept_path, path_of};

use move_msg::Stamp;
use std::alloc::{AllocError, Global};

/// How many bytes stand behind the folder in the path of a game's file.
const STAMPED: usize = 38;

/// The path of the file of a stamp in a folder: the stamp in 32 lower-case hexadecimal digits, and an ending.
fn path_of(alloc: Global, folder: &str, stamp: Stamp, ending: &str) -> Result<String, AllocError>
    ensures { IfOk result (λ path. string_bytes path ≡ path_of folder.now stamp ending.now) }
{
    let digits = hex::encode(alloc, &stamp.0)?;
    let mut path = String::with_capacity(alloc, folder.len().saturating_add(STAMPED))?;
    path.push_str(folder)?;
    path.push_str("/")?;
    path.push_str(digits.as_str())?;
    path.push_str(ending)?;
    Ok(path)
}

/// Where the file of a game is: `FOLDER/STAMP.game`. The error comes only where memory is refused.
pub fn game_path(alloc: Global, folder: &str, stamp: Stamp) -> Result<String, AllocError>
    ensures { IfOk result (λ path. string_bytes path ≡ game_path folder.now stamp) }
{
    path_of(alloc, folder, stamp, ".game")
}

/// Where the record of a game is kept: `FOLDER/STAMP.kept`. The error comes only where memory is refused.
pub fn kept_path(alloc: Global, folder: &str, stamp: Stamp) -> Result<String, AllocError>
    ensures { IfOk result (λ path. string_bytes path ≡ kept_path folder.now stamp) }
{
    path_of(alloc, folder, stamp, ".kept")
}
