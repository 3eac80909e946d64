//! Open files and paths in memory, whose calls fail on request.

ghost use Rattle.std.specs.Prelude.{◌≡◌, [], string_bytes, IfErr, IfOk};
ghost use Rattle.std.specs.IoError.{error_kind};
ghost use Rattle.std.specs.declared.io.ErrorKind.TheVariants.{OutOfMemory};
ghost use Rattle.system_fakes.specs.MemoryFiles.{handle_facts};

use crate::memory_disk::{AtPath, found};
use std::alloc::Global;
use std::io::{self, Read};
use system_io::{FileHandle, FileNumber, FilePaths};

/// An open file in memory, which knows whether its bytes were synced, who has its lock and whether it still has a name.
#[derive(Drop)]
pub struct MemoryHandle {
    bytes: Vec<u8>,
    path: String,
    number: FileNumber,
    is_synced: bool,
    is_locked: bool,
    is_linked: bool,
    /// Another process has its lock.
    is_taken: bool,
    /// Its calls fail.
    is_failing: bool,
}

/// The error of a call that fails.
fn failed() -> io::Error {
    io::Error::from(io::ErrorKind::StorageFull)
}

impl MemoryHandle {
    /// A new file at a path, with this number.
    pub fn new(alloc: Global, path: &str, number: FileNumber) -> io::Result<MemoryHandle>
        ensures empty { IfOk result (λ file. (handle_facts file).holds []) }
        ensures made { IfOk result (λ file. (handle_facts file).is_made_at path.now) }
        ensures memory { IfErr result (λ e. error_kind e ≡ OutOfMemory) }
    {
        let path = String::from_str(alloc, path)?;
        Ok(MemoryHandle {
            bytes: Vec::new(alloc),
            path,
            number,
            is_synced: false,
            is_locked: false,
            is_linked: true,
            is_taken: false,
            is_failing: false,
        })
    }

    /// Another process takes its lock from now on.
    pub fn lose_lock(&mut self) {
        self.is_locked = false;
        self.is_taken = true;
    }

    /// Another process has removed it.
    pub fn lose_name(&mut self) {
        self.is_linked = false;
    }

    /// Its calls fail from now on.
    pub fn fail(&mut self) {
        self.is_failing = true;
    }
}

impl Read for MemoryHandle {
    fn read(&mut self, buf: &mut [u8]) -> io::Result<usize> {
        let _room = buf.len();
        Err(failed())
    }
}

impl FileHandle for MemoryHandle {
    ghost use Rattle.system_fakes.specs.MemoryFiles.{handle_facts};

    ghost facts = { handle_facts };

    fn write_whole(&mut self, bytes: &[u8]) -> io::Result<()> {
        if self.is_failing {
            return Err(failed());
        }
        match self.bytes.extend_from_slice(bytes) {
            Ok(()) => {
                self.is_synced = false;
                Ok(())
            }
            Err(_) => Err(io::Error::from(io::ErrorKind::OutOfMemory)),
        }
    }

    fn sync(&mut self) -> io::Result<()> {
        if self.is_failing {
            return Err(failed());
        }
        self.is_synced = true;
        Ok(())
    }

    fn take_lock(&mut self) -> io::Result<bool> {
        if self.is_failing {
            return Err(failed());
        }
        if !self.is_taken {
            self.is_locked = true;
        }
        Ok(!self.is_taken)
    }

    fn number(&self) -> io::Result<FileNumber> {
        if self.is_failing {
            return Err(failed());
        }
        Ok(self.number)
    }

    fn is_linked(&self) -> io::Result<bool> {
        Ok(self.is_linked)
    }
}

/// Paths in memory: which regular file stands at a path, and whether it can be renamed and its folder synced. Of two entries for
/// one path the first counts.
#[derive(Drop)]
pub struct MemoryPaths<'a> {
    alloc: Global,
    files: &'a [AtPath<'a, FileNumber>],
    renames: &'a [AtPath<'a, bool>],
    syncs: &'a [AtPath<'a, bool>],
}

impl<'a> MemoryPaths<'a> {
    /// These files at their paths, with those that can be renamed and those whose folder can be synced.
    pub fn new(
        alloc: Global,
        files: &'a [AtPath<'a, FileNumber>],
        renames: &'a [AtPath<'a, bool>],
        syncs: &'a [AtPath<'a, bool>],
    ) -> MemoryPaths<'a> {
        MemoryPaths {
            alloc,
            files,
            renames,
            syncs,
        }
    }
}

impl<'a> FilePaths for MemoryPaths<'a> {
    ghost use Rattle.system_fakes.specs.MemoryFiles.{path_facts};

    type Handle = MemoryHandle;

    ghost facts = { path_facts };

    fn make(&self, path: &str) -> io::Result<MemoryHandle> {
        match found(self.files, path) {
            Some(_) => Err(io::Error::from(io::ErrorKind::AlreadyExists)),
            None => {
                let number = FileNumber {
                    device: 0,
                    inode: 0,
                };
                MemoryHandle::new(self.alloc, path, number)
            }
        }
    }

    fn open_to_lock(&self, path: &str) -> io::Result<MemoryHandle> {
        match found(self.files, path) {
            Some(number) => MemoryHandle::new(self.alloc, path, number),
            None => Err(io::Error::from(io::ErrorKind::NotFound)),
        }
    }

    fn open_to_read(&self, path: &str) -> io::Result<(MemoryHandle, u64)> {
        match found(self.files, path) {
            Some(number) => Ok((MemoryHandle::new(self.alloc, path, number)?, 0)),
            None => Err(io::Error::from(io::ErrorKind::NotFound)),
        }
    }

    fn number_at(&self, path: &str) -> io::Result<Option<FileNumber>> {
        match found(self.files, path) {
            Some(number) => Ok(Some(number)),
            None => Err(io::Error::from(io::ErrorKind::NotFound)),
        }
    }

    fn number_behind_lock(
        &self,
        _file: &MemoryHandle,
        path: &str,
    ) -> io::Result<Option<FileNumber>> {
        match found(self.files, path) {
            Some(number) => Ok(Some(number)),
            None => Err(io::Error::from(io::ErrorKind::NotFound)),
        }
    }

    fn remove_at(&self, _file: &MemoryHandle, path: &str) -> io::Result<()> {
        match found(self.files, path) {
            Some(_) => Ok(()),
            None => Err(io::Error::from(io::ErrorKind::NotFound)),
        }
    }

    fn rename_to(&self, path: &str, _to: &str) -> io::Result<()> {
        match found(self.renames, path) {
            Some(true) => Ok(()),
            _ => Err(failed()),
        }
    }

    fn sync_folder_of(&self, path: &str) -> io::Result<()> {
        match found(self.syncs, path) {
            Some(true) => Ok(()),
            _ => Err(failed()),
        }
    }
}
