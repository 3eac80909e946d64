//! Folders and files in memory, some of them unreadable.

ghost use Rattle.std.specs.Prelude.{◌↔◌, IfNone, IfSome, IsTrue};
ghost use Rattle.system_io.specs.Disks.{AtFile};
ghost use Rattle.system_fakes.specs.MemoryDisks.{HasMode, HasRegular, IsFoundAt, IsIrregularAt, IsNowhere, IsRegular, disk_of};

use crate::memory_input::MemoryLines;
use crate::texts::owned;
use std::alloc::Global;
use system_io::{Disk, FileWithMode, LineDisk, MOST_BYTES, ReadFault};

/// What stands at a path: the bytes of a file, or the names in a folder.
#[derive(Clone, Copy)]
pub struct AtPath<'a, T: Copy> {
    pub path: &'a str,
    pub holds: T,
}

/// The first entry at a path.
pub(crate) fn found<'a, T: Copy>(all: &[AtPath<'a, T>], path: &str) -> Option<T>
    ensures found { IfSome result (IsFoundAt (λ e. e.path.now) (λ e. e.holds) all.now path.now) }
    ensures nowhere { IfNone result (IsNowhere (λ e. e.path.now) all.now path.now) }
{
    match all {
        [] => None,
        [first, others @ ..] => {
            if first.path == path {
                Some(first.holds)
            } else {
                found(others, path)
            }
        }
    }
}

/// Whether a path is not among these.
fn is_other(paths: &[&str], path: &str) -> bool
    ensures { IsTrue result ↔ IsNowhere (λ p. p.now) paths.now path.now }
{
    match paths {
        [] => true,
        [first, others @ ..] => {
            if *first == path {
                false
            } else {
                is_other(others, path)
            }
        }
    }
}

/// The mode of a file for which none is stated: a regular one that its owner alone may read and write.
const OWN_MODE: u32 = 0o100600;

/// The bits of a mode that tell the kind of a file, and what they are for a regular one.
const KIND: u32 = 0o170000;

const REGULAR: u32 = 0o100000;

/// Whether a mode is that of a regular file.
fn is_regular(mode: u32) -> bool
    ensures { IsTrue result ↔ IsRegular mode }
{
    mode & KIND == REGULAR
}

/// Files, their modes and folders by their paths, and the paths that can't be read. Of two entries for one path the first
/// counts. A file for which no mode is stated has 100600, in octal digits. One whose mode is that of another kind, such as 010600 of a
/// named pipe, can't be read. A folder may list a name without a file at its path; that one can't be read.
#[derive(Clone, Copy)]
pub struct MemoryDisk<'a> {
    pub files: &'a [AtPath<'a, &'a [u8]>],
    pub modes: &'a [AtPath<'a, u32>],
    pub folders: &'a [AtPath<'a, &'a [&'a str]>],
    pub failing: &'a [&'a str],
}

impl<'a> MemoryDisk<'a> {
    /// The bytes of the file at a path, at most 2^30; none where it can't be read.
    fn file_at(&self, path: &str) -> Option<&'a [u8]>
        ensures some { IfSome result (λ bytes. (disk_of self.now).holds path.now bytes.now) }
        ensures none { IfNone result ((disk_of self.now).fails (AtFile path.now)) }
    {
        if !is_other(self.failing, path) {
            return None;
        }
        let _mode = self.regular_at(path)?;
        let bytes = found(self.files, path)?;
        if bytes.len() as u64 > MOST_BYTES {
            return None;
        }
        Some(bytes)
    }

    /// The mode of the regular file at a path, if there is one; none where it is the mode of another kind.
    fn regular_at(&self, path: &str) -> Option<u32>
        ensures some { IfSome result (HasRegular self.now path.now) }
        ensures none { IfNone result (IsIrregularAt self.now path.now) }
    {
        let mode = self.mode_at(path);
        if is_regular(mode) { Some(mode) } else { None }
    }

    /// The mode of the file at a path, if there is one.
    fn mode_at(&self, path: &str) -> u32
        ensures { HasMode self.now path.now result }
    {
        match found(self.modes, path) {
            Some(mode) => mode,
            None => OWN_MODE,
        }
    }
}

impl<'a> Disk for MemoryDisk<'a> {
    ghost use Rattle.system_fakes.specs.MemoryDiskLaws.{holds_one};
    ghost use Rattle.system_fakes.specs.MemoryDisks.{disk_of};

    ghost facts = { disk_of };

    ghost one = { λ d _. holds_one d };

    fn names(&self, alloc: Global, folder: &str) -> Result<Vec<String>, ReadFault> {
        if !is_other(self.failing, folder) {
            return Err(ReadFault::Unreadable);
        }
        match found(self.folders, folder) {
            Some(names) => Ok(owned(alloc, names)?),
            None => Err(ReadFault::Unreadable),
        }
    }

    fn read(&self, alloc: Global, path: &str) -> Result<Vec<u8>, ReadFault> {
        match self.file_at(path) {
            Some(bytes) => Ok(Vec::from_slice(alloc, bytes)?),
            None => Err(ReadFault::Unreadable),
        }
    }

    fn read_within(&self, alloc: Global, path: &str, most: u64) -> Result<Vec<u8>, ReadFault> {
        match self.file_at(path) {
            Some(bytes) if bytes.len() as u64 <= most => Ok(Vec::from_slice(alloc, bytes)?),
            _ => Err(ReadFault::Unreadable),
        }
    }

    fn look_within(&self, alloc: Global, path: &str, most: u64) -> Result<Vec<u8>, ReadFault> {
        self.read_within(alloc, path, most)
    }

    fn read_with_mode(
        &self,
        alloc: Global,
        path: &str,
        most: u64,
    ) -> Result<FileWithMode, ReadFault> {
        let Some(mode) = self.regular_at(path) else {
            return Err(ReadFault::Unreadable);
        };
        match self.read_within(alloc, path, most) {
            Ok(bytes) => Ok(FileWithMode { bytes, mode }),
            Err(fault) => Err(fault),
        }
    }
}

impl<'a> LineDisk for MemoryDisk<'a> {
    type Lines = MemoryLines<'a>;

    fn lines(&self, _alloc: Global, path: &str) -> Result<MemoryLines<'a>, ReadFault> {
        match self.file_at(path) {
            Some(bytes) => Ok(MemoryLines::of(bytes)),
            None => Err(ReadFault::Unreadable),
        }
    }
}
