//! The text of a game in its file.

ghost use Rattle.std.specs.Prelude.{◌≡◌, ◌↔◌, Some, true, IsSome, IsTrue};
ghost use Rattle.answer_commands.specs.Inside.Entering.{KeepsFound};
ghost use Rattle.answer_commands.specs.Keeping.{KeepsText};
ghost use Rattle.system_io.specs.KeptFiles.{bytes_of};
ghost use Rattle.timeline.specs.Outsides.{AddsSome};

use std::alloc::Global;
use system_io::ReadFault;
use timeline::System;

/// Why the text of a game isn't in its file.
#[derive(Clone, Copy)]
pub(crate) enum KeepFault {
    /// The file can't be read or written.
    Keeper,
    /// The game has to be new, and its file is there.
    Exists,
    /// Memory was refused.
    OutOfMemory,
}

/// Whether the text of a game stood in its file before.
#[derive(Clone, Copy)]
pub(crate) enum GameText {
    /// It did, and the file is left.
    Stood,
    /// It is written now.
    Written,
}

/// Whether a file has these bytes.
fn has_bytes(found: &Option<Vec<u8>>, text: &[u8]) -> bool
    ensures { IsTrue result ↔ (bytes_of found.now ≡ Some text.now) }
{
    match found {
        Some(bytes) => bytes.as_slice() == text,
        None => false,
    }
}

/// Whether a game that has to be new has a file already.
fn is_barred(is_new: bool, found: &Option<Vec<u8>>) -> bool
    ensures { IsTrue result ↔ ((is_new ≡ true) × IsSome (bytes_of found.now)) }
{
    match found {
        Some(_) => is_new,
        None => false,
    }
}

/// Lets a text take the place of what was found in a file, if it isn't that. Nothing is found in the file of a game that has to be new.
fn keep_over<S: System>(
    system: &S,
    timeline: &mut S::Timeline,
    file: &mut S::File,
    is_new: bool,
    found: &Option<Vec<u8>>,
    text: &[u8],
) -> Result<GameText, KeepFault>
    requires { ((S.outside system.now).file file.old).finds (bytes_of found.now) (bytes_of found.now) }
    ensures { AddsSome (S.outside system.now) timeline.old timeline.new (KeepsFound (S.outside system.now) is_new file.old file.new found.now text.now result) }
{
    if is_barred(is_new, found) {
        return Err(KeepFault::Exists);
    }
    if has_bytes(found, text) {
        return Ok(GameText::Stood);
    }
    match system.put(timeline, file, text) {
        Ok(()) => Ok(GameText::Written),
        Err(_) => Err(KeepFault::Keeper),
    }
}

/// Keeps a text in the file at a path: the file is opened, what a start finds there is read, and the text is put where it isn't that.
pub(crate) fn keep_text<S: System>(
    alloc: Global,
    system: &S,
    timeline: &mut S::Timeline,
    is_new: bool,
    path: &str,
    text: &[u8],
) -> Result<GameText, KeepFault>
    ensures { AddsSome (S.outside system.now) timeline.old timeline.new (KeepsText (S.outside system.now) is_new path.now text.now result) }
{
    let Ok(mut file) = system.file(timeline, alloc, path) else {
        return Err(KeepFault::OutOfMemory);
    };
    match system.start(timeline, alloc, &mut file) {
        Ok(found) => keep_over(system, timeline, &mut file, is_new, &found, text),
        Err(ReadFault::Unreadable) => Err(KeepFault::Keeper),
        Err(ReadFault::OutOfMemory) => Err(KeepFault::OutOfMemory),
    }
}
