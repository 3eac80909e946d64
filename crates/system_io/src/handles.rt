//! Open files, and the calls for paths: what each of them achieves. What works over these traits knows nothing else of a file.

ghost use Rattle.std.specs.Prelude.{◌≡◌, ◌++◌, ℕ, List, [], false, true, IfErr, IfOk, IfSome, IsTrue, OnOk};
ghost use Rattle.std.specs.Fs.{asks_create, asks_create_new, asks_truncate};
ghost use Rattle.std.specs.IoError.{error_kind};
ghost use Rattle.std.specs.declared.io.ErrorKind.TheVariants.{NotFound};
ghost use Rattle.system_io.specs.Handles.{CanRemove, HandleFacts, IsOwnAt, KeepsBytes, KeepsMade, PathFacts, StandsAt, Stays};

use crate::opening::open_regular;
use std::fs::{File, Metadata, OpenOptions, TryLockError};
use std::io::{Read, Write};
use std::os::unix::fs::MetadataExt;
use std::rt::Files;
use std::{fs, io};

/// A file, by the numbers that the system gives it.
#[derive(Clone, Copy, PartialEq, Eq)]
pub struct FileNumber {
    /// The device on which it is.
    pub device: u64,
    /// Its number there.
    pub inode: u64,
}

/// An open file.
pub trait FileHandle {
    /// What it holds, and what was achieved with it.
    ghost facts: { Self → HandleFacts };

    /// Writes bytes behind those that it holds, all of them.
    fn write_whole(&mut self, bytes: &[u8]) -> io::Result<()>
        ensures whole { OnOk result ((before : List ℕ) → (facts self.old).holds before → (facts self.new).holds (before ++ bytes.now)) }
        ensures stays { Stays (facts self.old) (facts self.new) }
        ensures made { KeepsMade (facts self.old) (facts self.new) };

    /// Brings its bytes to the disk.
    fn sync(&mut self) -> io::Result<()>
        ensures synced { OnOk result (facts self.new).is_synced }
        ensures same { KeepsBytes (facts self.old) (facts self.new) }
        ensures stays { Stays (facts self.old) (facts self.new) }
        ensures made { KeepsMade (facts self.old) (facts self.new) };

    /// Locks it, if no other process has. Whether this one has its lock now. One that another has locked no longer counts as made.
    fn take_lock(&mut self) -> io::Result<bool>
        ensures locked { IfOk result (λ is. IsTrue is → (facts self.new).is_locked) }
        ensures same { KeepsBytes (facts self.old) (facts self.new) }
        ensures stays { Stays (facts self.old) (facts self.new) }
        ensures given { IfOk result (λ is. IsTrue is → KeepsMade (facts self.old) (facts self.new)) }
        ensures failed { IfErr result (λ _. KeepsMade (facts self.old) (facts self.new)) };

    /// Which file it is.
    fn number(&self) -> io::Result<FileNumber>
        ensures { IfOk result (facts self.now).is_numbered };

    /// Whether it still has a name.
    fn is_linked(&self) -> io::Result<bool>
        ensures { IfOk result (λ is. IsTrue is → (facts self.now).is_linked) };
}

/// The calls for paths.
pub trait FilePaths {
    /// An open file.
    type Handle: FileHandle + Read + Drop;

    /// What stands at paths, and what was achieved there.
    ghost facts: { Self → PathFacts };

    /// Makes a file at a path where nothing stands, to be written. The error is `AlreadyExists` where something stands there.
    fn make(&self, path: &str) -> io::Result<Self::Handle>
        ensures empty { IfOk result (λ file. (Self.Handle.facts file).holds []) }
        ensures made { IfOk result (λ file. (Self.Handle.facts file).is_made_at path.now) };

    /// Opens a regular file as it stands, to be locked.
    fn open_to_lock(&self, path: &str) -> io::Result<Self::Handle>;

    /// Opens the regular file at a path to be read, and tells how many bytes it has. A link is followed. The error is `NotFound` where
    /// nothing stands there, or the link leads nowhere.
    fn open_to_read(&self, path: &str) -> io::Result<(Self::Handle, u64)>
        ensures { IfErr result (λ e. error_kind e ≡ NotFound → (facts self.now).lacks path.now) };

    /// The number of the regular file at a path; none where something else stands there. The error is `NotFound` where nothing does.
    fn number_at(&self, path: &str) -> io::Result<Option<FileNumber>>;

    /// The same, looked at while this process has the lock of an open file. What was looked at before the lock may be gone since.
    fn number_behind_lock(&self, file: &Self::Handle, path: &str) -> io::Result<Option<FileNumber>>
        requires { (Self.Handle.facts file.now).is_locked }
        ensures { IfOk result (λ got. IfSome got ((facts self.now).names path.now)) };

    /// Removes an open file from its path.
    fn remove_at(&self, file: &Self::Handle, path: &str) -> io::Result<()>
        requires { CanRemove (Self.Handle.facts file.now) (facts self.now) path.now };

    /// Gives the file at a path another name.
    fn rename_to(&self, path: &str, to: &str) -> io::Result<()>
        ensures { OnOk result ((facts self.now).renames path.now to.now) };

    /// Syncs the folder in which the file at a path stands, and with it the names in it.
    fn sync_folder_of(&self, path: &str) -> io::Result<()>
        ensures { OnOk result ((facts self.now).syncs path.now) };
}

/// The number of a file.
fn number_of(metadata: &Metadata) -> FileNumber {
    FileNumber {
        device: metadata.dev(),
        inode: metadata.ino(),
    }
}

/// How a file is opened to be written: where nothing stands alone, not even a link.
fn only_new() -> OpenOptions
    ensures { asks_create_new result ≡ true }
{
    let mut options = OpenOptions::new();
    options.read(true).write(true).create_new(true);
    options
}

/// How a file is opened to be locked: to read and write, which never waits, and with nothing made or cut.
fn as_it_stands() -> OpenOptions
    ensures { (asks_create result ≡ false) × (asks_create_new result ≡ false) × (asks_truncate result ≡ false) }
{
    let mut options = OpenOptions::new();
    options.read(true).write(true);
    options
}

/// The path of the folder in which a file stands.
fn folder_of(path: &str) -> &str {
    match path.rfind('/') {
        None => ".",
        Some(0) => "/",
        Some(end) => &path[..end],
    }
}

impl FileHandle for File {
    ghost use Rattle.system_io.specs.Premises.{system_handle};

    ghost facts = { λ _. system_handle };

    fn write_whole(&mut self, bytes: &[u8]) -> io::Result<()> {
        self.write_all(bytes)
    }

    fn sync(&mut self) -> io::Result<()> {
        self.sync_all()
    }

    fn take_lock(&mut self) -> io::Result<bool> {
        match self.try_lock() {
            Ok(()) => Ok(true),
            Err(TryLockError::WouldBlock) => Ok(false),
            Err(TryLockError::Error(error)) => Err(error),
        }
    }

    fn number(&self) -> io::Result<FileNumber> {
        Ok(number_of(&self.metadata()?))
    }

    fn is_linked(&self) -> io::Result<bool> {
        Ok(self.metadata()?.nlink() > 0)
    }
}

impl<R: Files<File = File>> FilePaths for R {
    ghost use Rattle.system_io.specs.Premises.{system_paths};

    type Handle = File;

    ghost facts = { λ _. system_paths };

    fn make(&self, path: &str) -> io::Result<File> {
        only_new().open(self, path)
    }

    // Where this process may only read it, since another user has made it, it is opened to be read: that is enough for a lock.
    fn open_to_lock(&self, path: &str) -> io::Result<File> {
        match as_it_stands().open(self, path) {
            Err(error) if error.kind() == io::ErrorKind::PermissionDenied => fs::open(self, path),
            opened => opened,
        }
    }

    fn open_to_read(&self, path: &str) -> io::Result<(File, u64)> {
        let (file, regular) = open_regular(self, path)?;
        Ok((file, regular.len()))
    }

    fn number_at(&self, path: &str) -> io::Result<Option<FileNumber>> {
        let named = fs::symlink_metadata(self, path)?;
        Ok(named.is_file().then_some(number_of(&named)))
    }

    fn number_behind_lock(&self, _file: &File, path: &str) -> io::Result<Option<FileNumber>> {
        self.number_at(path)
    }

    fn remove_at(&self, _file: &File, path: &str) -> io::Result<()> {
        fs::remove_file(self, path)
    }

    fn rename_to(&self, path: &str, to: &str) -> io::Result<()> {
        fs::rename(self, path, to)
    }

    fn sync_folder_of(&self, path: &str) -> io::Result<()> {
        fs::open(self, folder_of(path))?.sync_all()
    }
}

/// Whether a locked file is the regular file at a path, and no other that a link leads to. It isn't where another process has removed it.
pub(crate) fn stands_at<P: FilePaths>(paths: &P, file: &P::Handle, path: &str) -> io::Result<bool>
    requires { (P.Handle.facts file.now).is_locked }
    ensures { IfOk result (λ is. IsTrue is → StandsAt (P.Handle.facts file.now) (P.facts paths.now) path.now) }
{
    let open = file.number()?;
    match paths.number_behind_lock(file, path) {
        Ok(Some(named)) => Ok(named == open),
        Ok(None) => Ok(false),
        Err(error) if error.kind() == io::ErrorKind::NotFound => Ok(false),
        Err(error) => Err(error),
    }
}

/// Locks an open file that stands at a path. Where another process has locked it, the error is `WouldBlock`, and where it no longer stands
/// there, `NotFound`.
pub(crate) fn own_at<P: FilePaths>(paths: &P, file: &mut P::Handle, path: &str) -> io::Result<()>
    ensures { OnOk result (IsOwnAt (P.Handle.facts file.new) (P.facts paths.now) path.now) }
{
    if !file.take_lock()? {
        return Err(io::Error::from(io::ErrorKind::WouldBlock));
    }
    if stands_at(paths, file, path)? {
        Ok(())
    } else {
        Err(io::Error::from(io::ErrorKind::NotFound))
    }
}
