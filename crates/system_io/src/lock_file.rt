//! Files of the system that are locked.

ghost use Rattle.std.specs.Prelude.{IfOk};
ghost use Rattle.system_io.specs.Places.{Locks};

use crate::host::LockFault;
use crate::locked::{Locked, lock_at};
use crate::opening::{irregular, unopened};
use crate::reading::ReadFault;
use std::alloc::Global;
use std::fs::File;
use std::rt::Files;
use std::{fs, io};

/// A file that this process has locked. The system lets it go where this is dropped, and where the process ends in any way.
#[derive(Drop)]
pub struct LockFile {
    locked: Locked<File>,
}

impl From<io::Error> for LockFault {
    fn from(error: io::Error) -> LockFault {
        if error.kind() == io::ErrorKind::WouldBlock {
            return LockFault::Held;
        }
        match unopened(error) {
            ReadFault::OutOfMemory => LockFault::OutOfMemory,
            ReadFault::Unreadable => LockFault::Failed,
        }
    }
}

/// What stands behind a file's path in that of the lock beside it.
const BESIDE: &str = ".lock";

/// What stands beside the lock at a path, and why nothing can be kept there: it is no regular file, such as a folder, or a link that leads
/// nowhere.
pub(crate) fn fault_beside<'p, R: Files>(rt: &R, path: &'p str) -> Option<(&'p str, io::Error)> {
    let kept = path.strip_suffix(BESIDE)?;
    match fs::metadata(rt, kept) {
        Ok(stands) if stands.is_file() => None,
        Ok(_) => Some((kept, irregular())),
        Err(error) if fs::symlink_metadata(rt, kept).is_ok() => Some((kept, error)),
        Err(_) => None,
    }
}

impl LockFile {
    /// Locks the file at a path, which is made where nothing stands. Nothing is written to it, and it is not removed. A file of another
    /// user is locked where it can be read. With `.lock` at its end the path is that of the lock beside a file: where something else than
    /// a regular file stands before that end, no lock is made.
    pub(crate) fn at<R: Files<File = File>>(
        rt: &R,
        alloc: Global,
        path: &str,
    ) -> io::Result<LockFile>
        ensures { IfOk result (Locks path.now) }
    {
        if let Some((_, error)) = fault_beside(rt, path) {
            return Err(error);
        }
        match lock_at(rt, alloc, path) {
            Ok(locked) => Ok(LockFile { locked }),
            Err(error) => Err(error),
        }
    }
}
