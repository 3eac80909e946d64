//! The file beside another, which is to take its name: it is made, written, synced and renamed, each by the type of what came before.

ghost use Rattle.std.specs.Prelude.{[], IfErr, IfOk, IfSome, IsTrue, OnOk, string_bytes};
ghost use Rattle.system_io.specs.BesideFiles.{IsMadeBeside, IsSyncedFrom, IsWrittenBeside};
ghost use Rattle.system_io.specs.Handles.{IsOwnNew, KeepsBytes, KeepsMade, Stays};
ghost use Rattle.system_io.specs.Places.{IsBesideAt};

use crate::handles::{FileHandle, FilePaths, own_at};
use std::alloc::{AllocError, Global};
use std::io;

/// How many names a file beside may have: so many processes may write beside one file at once.
const MOST_NAMES: u32 = 16;

/// A file beside another that this process has made, and that it alone has locked.
#[derive(Drop)]
struct BesideFile<H: FileHandle + Drop> {
    file: H,
    path: String,
}

/// A file beside another, to which bytes were written.
#[derive(Drop)]
pub(crate) struct Written<H: FileHandle + Drop> {
    beside: BesideFile<H>,
}

/// A file beside another, whose bytes are on the disk: only such a one is renamed.
#[derive(Drop)]
pub(crate) struct Synced<H: FileHandle + Drop> {
    beside: BesideFile<H>,
}

/// The name of a file beside: the path with `.new` appended, or with the place before that, from 2 on.
fn name_at(alloc: Global, path: &str, place: u32) -> Result<String, AllocError>
    ensures { IfOk result (λ name. IsBesideAt path.now place (string_bytes name)) }
{
    if place < 2 {
        format!(in alloc; "{path}.new")
    } else {
        format!(in alloc; "{path}.{place}.new")
    }
}

/// Removes an open file that stands at a path, unless another process has locked it.
fn remove_own<P: FilePaths>(paths: &P, file: &mut P::Handle, path: &str) -> io::Result<()> {
    own_at(paths, file, path)?;
    paths.remove_at(file, path)
}

/// Removes what a process that has ended left at the path of a file beside. A file that a process has locked is its own. What is no
/// regular file, such as a link, is neither opened nor removed.
fn clear_at<P: FilePaths>(paths: &P, path: &str) -> io::Result<()> {
    if paths.number_at(path)?.is_none() {
        return Ok(());
    }
    let mut file = paths.open_to_lock(path)?;
    remove_own(paths, &mut file, path)
}

/// Removes what ended processes have left beside a file. What can't be removed stays.
pub(crate) fn clear<P: FilePaths>(paths: &P, alloc: Global, path: &str) {
    for place in 1..MOST_NAMES + 1 {
        let Ok(name) = name_at(alloc, path, place) else {
            return;
        };
        let _cleared = clear_at(paths, name.as_str());
    }
}

/// Locks a file that this process has made. Whether it is its own now: no other process has it locked, or has removed it before.
fn take_own<H: FileHandle>(file: &mut H) -> io::Result<bool>
    ensures own { IfOk result (λ is. IsTrue is → (H.facts file.new).is_locked × (H.facts file.new).is_linked) }
    ensures same { KeepsBytes (H.facts file.old) (H.facts file.new) }
    ensures stays { Stays (H.facts file.old) (H.facts file.new) }
    ensures given { IfOk result (λ is. IsTrue is → KeepsMade (H.facts file.old) (H.facts file.new)) }
    ensures failed { IfErr result (λ _. KeepsMade (H.facts file.old) (H.facts file.new)) }
{
    Ok(file.take_lock()? && file.is_linked()?)
}

/// Locks the file that was made at a path. None where another process has taken it meanwhile. Where it can't be locked or looked at, it is
/// removed.
fn take_made<P: FilePaths>(
    paths: &P,
    mut file: P::Handle,
    path: &str,
) -> io::Result<Option<P::Handle>>
    requires empty { (P.Handle.facts file).holds [] }
    requires made { (P.Handle.facts file).is_made_at path.now }
    ensures { IfOk result (λ got. IfSome got (λ own. IsOwnNew (P.Handle.facts own))) }
{
    match take_own(&mut file) {
        Ok(true) => Ok(Some(file)),
        Ok(false) => Ok(None),
        Err(error) => {
            let _removed = paths.remove_at(&file, path);
            Err(error)
        }
    }
}

/// Makes a file at a path where nothing stands, and locks it. None where something stands there.
fn make_at<P: FilePaths>(paths: &P, path: &str) -> io::Result<Option<P::Handle>>
    ensures { IfOk result (λ got. IfSome got (λ own. IsOwnNew (P.Handle.facts own))) }
{
    match paths.make(path) {
        Ok(file) => take_made(paths, file, path),
        Err(error) if error.kind() == io::ErrorKind::AlreadyExists => Ok(None),
        Err(error) => Err(error),
    }
}

/// Makes a file at a path, in place of what an ended process has left there, and locks it. None where something stands there.
fn make_in_place<P: FilePaths>(paths: &P, path: &str) -> io::Result<Option<P::Handle>>
    ensures { IfOk result (λ got. IfSome got (λ own. IsOwnNew (P.Handle.facts own))) }
{
    if let Some(file) = make_at(paths, path)? {
        return Ok(Some(file));
    }
    let _cleared = clear_at(paths, path);
    make_at(paths, path)
}

/// Makes a file beside the one at a path, under the first of its names at which nothing stands. The error comes where something stands at
/// each, or the system refuses it.
fn make_beside<P: FilePaths>(
    paths: &P,
    alloc: Global,
    path: &str,
) -> io::Result<BesideFile<P::Handle>>
    ensures { IfOk result (IsMadeBeside P.Handle.facts path.now) }
{
    for place in 1..MOST_NAMES + 1 {
        let name = name_at(alloc, path, place)?;
        if let Some(file) = make_in_place(paths, name.as_str())? {
            return Ok(BesideFile { file, path: name });
        }
    }
    Err(io::Error::from(io::ErrorKind::AlreadyExists))
}

/// Removes a file beside, where it still stands.
fn remove<P: FilePaths>(paths: &P, beside: BesideFile<P::Handle>) {
    let BesideFile { mut file, path } = beside;
    let _removed = remove_own(paths, &mut file, path.as_str());
}

/// Removes a file beside to which bytes were written.
pub(crate) fn remove_written<P: FilePaths>(paths: &P, written: Written<P::Handle>) {
    remove(paths, written.beside);
}

/// Removes a file beside that was synced.
pub(crate) fn remove_synced<P: FilePaths>(paths: &P, synced: Synced<P::Handle>) {
    remove(paths, synced.beside);
}

/// Makes a file beside the one at a path, and writes bytes to it, all of them. Where they can't be written, it is removed.
pub(crate) fn write_beside<P: FilePaths>(
    paths: &P,
    alloc: Global,
    path: &str,
    bytes: &[u8],
) -> io::Result<Written<P::Handle>>
    ensures { IfOk result (IsWrittenBeside P.Handle.facts path.now bytes.now) }
{
    let mut beside = make_beside(paths, alloc, path)?;
    match beside.file.write_whole(bytes) {
        Ok(()) => Ok(Written { beside }),
        Err(error) => {
            remove(paths, beside);
            Err(error)
        }
    }
}

/// Syncs the bytes of a file beside. Where they can't be synced, it is removed.
pub(crate) fn sync<P: FilePaths>(
    paths: &P,
    written: Written<P::Handle>,
) -> io::Result<Synced<P::Handle>>
    ensures { IfOk result (IsSyncedFrom P.Handle.facts written) }
{
    let Written { mut beside } = written;
    match beside.file.sync() {
        Ok(()) => Ok(Synced { beside }),
        Err(error) => {
            remove(paths, beside);
            Err(error)
        }
    }
}

/// Gives a file beside another name. Where it can't get it, it is removed.
pub(crate) fn rename<P: FilePaths>(paths: &P, synced: Synced<P::Handle>, to: &str) -> io::Result<()>
    ensures { OnOk result ((P.facts paths.now).renames (string_bytes synced.beside.path) to.now) }
{
    let Synced { beside } = synced;
    match paths.rename_to(beside.path.as_str(), to) {
        Ok(()) => Ok(()),
        Err(error) => {
            remove(paths, beside);
            Err(error)
        }
    }
}
