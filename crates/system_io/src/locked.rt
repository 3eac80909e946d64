//! How a file is locked at its path.

ghost use Rattle.std.specs.Prelude.{IfOk};
ghost use Rattle.system_io.specs.BesideFiles.{IsLockedAt};

use crate::handles::{FileHandle, FilePaths, own_at};
use crate::opening::irregular;
use std::alloc::Global;
use std::io;

/// A file that this process has locked, and the path at which it stood then.
#[derive(Drop)]
pub(crate) struct Locked<H: FileHandle + Drop> {
    file: H,
    path: String,
}

/// Opens the regular file that stands at a path, to be locked. A link is refused.
fn open_standing<P: FilePaths>(paths: &P, path: &str) -> io::Result<P::Handle> {
    if paths.number_at(path)?.is_none() {
        return Err(irregular());
    }
    paths.open_to_lock(path)
}

/// Opens the file at a path, which is made where nothing stands.
fn open<P: FilePaths>(paths: &P, path: &str) -> io::Result<P::Handle> {
    match paths.make(path) {
        Ok(file) => Ok(file),
        Err(error) if error.kind() == io::ErrorKind::AlreadyExists => open_standing(paths, path),
        Err(error) => Err(error),
    }
}

/// Locks the file at a path, which is made where nothing stands. Where another process has locked it, the error is `WouldBlock`.
pub(crate) fn lock_at<P: FilePaths>(
    paths: &P,
    alloc: Global,
    path: &str,
) -> io::Result<Locked<P::Handle>>
    ensures { IfOk result (IsLockedAt P.Handle.facts (P.facts paths.now) path.now) }
{
    let mut file = open(paths, path)?;
    own_at(paths, &mut file, path)?;
    let path = String::from_str(alloc, path)?;
    Ok(Locked { file, path })
}
