//! Folders and files of the system.

ghost use Rattle.std.specs.Prelude.{◌≤◌, length, IfOk};
ghost use Rattle.system_io.specs.Disks.{most_bytes};

use crate::disk::{Disk, FileWithMode};
use crate::notes::tell_refused;
use crate::opening::{Regular, open_regular, unopened};
use crate::reading::{MOST_BYTES, ReadFault, read_at_most, unread};
use std::alloc::Global;
use std::fs::DirEntry;
use std::io::Write;
use std::rt::Files;
use std::{fs, io};

/// The folders and files of the system, and a writer for notes.
///
/// Of a folder that can't be listed and a file that can't be read a line is written: the path in double quotes, escaped, and what the
/// system says, but where it need not be there (`look_within`).
#[derive(Drop)]
pub struct SystemDisk<'a, R: Files + AllocGlobal + Clone + Drop, W: Write + Copy + Drop> {
    rt: &'a R,
    notes: W,
}

impl<'a, R, W> SystemDisk<'a, R, W>
where
    R: Files + AllocGlobal + Clone + Drop,
    W: Write + Copy + Drop,
{
    /// The folders and files of this system, whose notes are written with this writer.
    pub fn new(rt: &'a R, notes: W) -> SystemDisk<'a, R, W> {
        SystemDisk { rt, notes }
    }

    /// The system.
    pub(crate) fn rt(&self) -> &'a R {
        self.rt
    }

    /// Tells why what stands at a path is refused.
    pub(crate) fn refused(&self, path: &str, error: io::Error) -> ReadFault {
        tell_refused(self.notes, path, &error);
        unopened(error)
    }
}

/// The name of an entry of a folder; none where it is not UTF-8.
fn name_of<R: Files + AllocGlobal + Clone + Drop>(
    rt: &R,
    entry: io::Result<DirEntry<R>>,
) -> io::Result<Option<String>> {
    match entry {
        Ok(entry) => Ok(Some(String::from_str(rt.alloc(), entry.file_name())?)),
        Err(error) if error.kind() == io::ErrorKind::InvalidFilename => Ok(None),
        Err(error) => Err(error),
    }
}

/// The names in a folder; those that are not UTF-8 are left out.
fn names_in<R: Files + AllocGlobal + Clone + Drop>(
    rt: &R,
    folder: &str,
) -> io::Result<Vec<String>> {
    let mut names = Vec::new(rt.alloc());
    for entry in fs::read_dir(rt, folder)? {
        if let Some(name) = name_of(rt, entry)? {
            names.push(name)?;
        }
    }
    Ok(names)
}

/// All bytes of the regular file at a path, at most `most` and 2^30, and what it is when it is open.
fn bytes_at<R: Files>(
    rt: &R,
    alloc: Global,
    path: &str,
    most: u64,
) -> io::Result<(Vec<u8>, Regular)>
    ensures { IfOk result (λ r. (length r.0.items ≤ most) × (length r.0.items ≤ most_bytes)) }
{
    let (file, regular) = open_regular(rt, path)?;
    match read_at_most(alloc, file, regular.len(), most.min(MOST_BYTES)) {
        Ok(bytes) => Ok((bytes, regular)),
        Err(fault) => Err(unread(fault)),
    }
}

impl<'a, R, W> Disk for SystemDisk<'a, R, W>
where
    R: Files + AllocGlobal + Clone + Drop,
    W: Write + Copy + Drop,
{
    ghost use Rattle.system_io.specs.OutputLaws.{untold};
    ghost use Rattle.system_io.specs.Premises.{system_disk};

    ghost facts = { λ _. system_disk };

    ghost one = { λ _ told. untold told };

    fn names(&self, _alloc: Global, folder: &str) -> Result<Vec<String>, ReadFault> {
        match names_in(self.rt, folder) {
            Ok(names) => Ok(names),
            Err(error) => Err(self.refused(folder, error)),
        }
    }

    fn read(&self, alloc: Global, path: &str) -> Result<Vec<u8>, ReadFault> {
        match bytes_at(self.rt, alloc, path, MOST_BYTES) {
            Ok((bytes, _)) => Ok(bytes),
            Err(error) => Err(self.refused(path, error)),
        }
    }

    fn read_within(&self, alloc: Global, path: &str, most: u64) -> Result<Vec<u8>, ReadFault> {
        match bytes_at(self.rt, alloc, path, most) {
            Ok((bytes, _)) => Ok(bytes),
            Err(error) => Err(self.refused(path, error)),
        }
    }

    fn look_within(&self, alloc: Global, path: &str, most: u64) -> Result<Vec<u8>, ReadFault> {
        match bytes_at(self.rt, alloc, path, most) {
            Ok((bytes, _)) => Ok(bytes),
            Err(error) => Err(unopened(error)),
        }
    }

    fn read_with_mode(
        &self,
        alloc: Global,
        path: &str,
        most: u64,
    ) -> Result<FileWithMode, ReadFault> {
        match bytes_at(self.rt, alloc, path, most) {
            Ok((bytes, regular)) => Ok(FileWithMode {
                bytes,
                mode: regular.mode(),
            }),
            Err(error) => Err(self.refused(path, error)),
        }
    }
}
