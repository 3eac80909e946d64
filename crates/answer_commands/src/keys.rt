//! The keys by which datagrams are sealed.

ghost use Rattle.std.specs.Prelude.{◌≡◌};
ghost use Rattle.answer_commands.specs.KeyReads.{GivesKeysOf, ReadsKeys, unread_keys};
ghost use Rattle.timeline.specs.Outsides.{AddsSome};

use answer_parts::Refusal;
use sealed_port::{Keys, MOST_KEY_BYTES};
use std::alloc::Global;
use system_io::{FileWithMode, ReadFault};
use timeline::System;

/// The rights of the group and of others, in the mode of a file.
const RIGHTS_OF_OTHERS: u32 = 0o077;

/// The keys of a file, or why there are none: the group or others may do anything with it; or its first malformed line.
fn keys_of(file: &FileWithMode) -> Result<Keys, Refusal>
    ensures { GivesKeysOf file.now.bytes.items file.now.mode result }
{
    if file.mode & RIGHTS_OF_OTHERS != 0 {
        return Err(Refusal::SharedKey);
    }
    match Keys::read(&file.bytes) {
        Ok(keys) => Ok(keys),
        Err(fault) => Err(Refusal::Key(fault.line())),
    }
}

/// Why there are no keys of a file that wasn't read.
fn unread(fault: ReadFault) -> Refusal
    ensures { result ≡ unread_keys fault }
{
    match fault {
        ReadFault::Unreadable => Refusal::Files,
        ReadFault::OutOfMemory => Refusal::Memory,
    }
}

/// The keys of the file at a path, or why there are none. That is the first of these: the file can't be read, is no regular file, or
/// has more than 130 bytes, or memory for it was refused; the group or others may do anything with it; its first malformed line.
pub(crate) fn read_keys<S: System>(
    alloc: Global,
    system: &S,
    timeline: &mut S::Timeline,
    path: &str,
) -> Result<Keys, Refusal>
    ensures { AddsSome (S.outside system.now) timeline.old timeline.new (ReadsKeys (S.outside system.now).disk path.now result) }
{
    match system.read_with_mode(timeline, alloc, path, MOST_KEY_BYTES) {
        Ok(file) => keys_of(&file),
        Err(fault) => Err(unread(fault)),
    }
}
