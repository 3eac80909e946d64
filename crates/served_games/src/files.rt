//! A call at the file of a record, as a step of the file's history.

ghost use Rattle.timeline.specs.Events.{Found, Put, found_by, is_done};
ghost use Rattle.served_games.specs.FileHistories.{CallsFile};

use std::alloc::Global;
use std::io;
use system_io::ReadFault;
use timeline::System;

/// What a start promises of the file is what its history has of one.
pub fn start<S: System>(
    system: &S,
    timeline: &mut S::Timeline,
    alloc: Global,
    file: &mut S::File,
) -> Result<Option<Vec<u8>>, ReadFault>
    ensures { let o = S.outside system.now in CallsFile o (o.path file.old) file.old file.new (Found (o.path file.old) (found_by result)) }
{
    system.start(timeline, alloc, file)
}

/// So is what a put promises.
pub fn put<S: System>(
    system: &S,
    timeline: &mut S::Timeline,
    file: &mut S::File,
    bytes: &[u8],
) -> io::Result<()>
    ensures { let o = S.outside system.now in CallsFile o (o.path file.old) file.old file.new (Put (o.path file.old) bytes.now (is_done result)) }
{
    system.put(timeline, file, bytes)
}
