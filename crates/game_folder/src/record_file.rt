//! A record that is kept in a file.

ghost use Rattle.std.specs.Prelude.{◌≡◌, ◌≤◌, None, length, IfSome, IsSome};
ghost use Rattle.system_io.specs.KeptFiles.{bytes_of};
ghost use Rattle.timeline.specs.Outsides.{AddsSome};
ghost use Rattle.game_folder.specs.RecordFiles.{PutsFile, StartsFile, TakesFile};

use crate::draft::Draft;
use crate::games::KeptGame;
use arbiter_server::OpenGameError;
use move_msg::Stamp;
use std::alloc::Global;
use system_io::ReadFault;
use timeline::System;

/// A draft of what a start found.
fn over_found(draft: Draft, got: Option<Vec<u8>>) -> Draft
    requires new { draft ≡ record { kept = None; to_put = None } }
    requires short { IfSome got (λ v. length v.items ≤ 8217) }
    ensures { result ≡ record { kept = bytes_of got; to_put = None } }
{
    let mut draft = draft;
    if let Some(bytes) = got {
        draft.found(&bytes);
    }
    draft
}

/// Starts over the file of a record.
fn start_file<S: System>(
    alloc: Global,
    system: &S,
    timeline: &mut S::Timeline,
    draft: Draft,
    file: S::File,
    stamp: Stamp,
) -> Result<KeptGame<S::File>, OpenGameError>
    requires { draft ≡ record { kept = None; to_put = None } }
    ensures { AddsSome (S.outside system.now) timeline.old timeline.new (StartsFile (S.outside system.now) ((S.outside system.now).path file) stamp result) }
{
    let mut file = file;
    match system.start(timeline, alloc, &mut file) {
        Ok(got) => Ok(KeptGame {
            stamp,
            draft: over_found(draft, got),
            file: Some(file),
        }),
        Err(ReadFault::Unreadable) => Err(OpenGameError::Keeper),
        Err(ReadFault::OutOfMemory) => Err(OpenGameError::OutOfMemory),
    }
}

/// The record in the file at a path, as that of the game with this stamp. `Keeper` where the file can't be brought to the disk or read, or
/// has more than 8217 bytes; `OutOfMemory` where memory is refused.
pub(crate) fn take_file<S: System>(
    alloc: Global,
    system: &S,
    timeline: &mut S::Timeline,
    path: &str,
    stamp: Stamp,
) -> Result<KeptGame<S::File>, OpenGameError>
    ensures { AddsSome (S.outside system.now) timeline.old timeline.new (TakesFile (S.outside system.now) path.now stamp result) }
{
    let Ok(draft) = Draft::new(alloc) else {
        return Err(OpenGameError::OutOfMemory);
    };
    let Ok(file) = system.file(timeline, alloc, path) else {
        return Err(OpenGameError::OutOfMemory);
    };
    start_file(alloc, system, timeline, draft, file, stamp)
}

/// Puts what a game has to put, if anything, in the file in which its record is kept.
pub(crate) fn put_file<S: System>(
    system: &S,
    timeline: &mut S::Timeline,
    game: &mut KeptGame<S::File>,
) -> Result<(), OpenGameError>
    requires { IsSome game.old.file }
    ensures { AddsSome (S.outside system.now) timeline.old timeline.new (PutsFile (S.outside system.now) game.old game.new result) }
{
    let Some(bytes) = game.draft.to_put() else {
        return Ok(());
    };
    let Some(file) = &mut game.file else {
        unreachable!()
    };
    let done = system.put(timeline, file, bytes);
    game.draft.settle();
    match done {
        Ok(()) => Ok(()),
        Err(_) => Err(OpenGameError::Keeper),
    }
}
