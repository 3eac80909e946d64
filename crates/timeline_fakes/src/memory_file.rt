//! A kept file in memory.

ghost use Rattle.std.specs.Prelude.{◌≡◌, ℕ, List, Option, IfOk};
ghost use Rattle.system_fakes.specs.PowerLosses.{disk_facts};
ghost use Rattle.timeline_fakes.specs.Memories.{file_disk, file_path};

use std::alloc::{AllocError, Global};
use system_fakes::{Crash, DiskFile, Outcome};

/// What stands where something is to be kept: these bytes, or nothing; and what comes of the calls for it, the last of the list first.
#[derive(Clone, Copy)]
pub struct KeptStart<'a> {
    /// The bytes that stand there, if any.
    pub bytes: Option<&'a [u8]>,
    /// What comes of its calls: of a put these are a write beside, a sync, a rename and a sync of the folder.
    pub outcomes: &'a [Outcome],
    /// Whether no start can read it.
    pub reads_fail: bool,
}

/// A file at a path, on a disk that can lose power.
#[derive(Drop)]
pub struct MemoryFile {
    pub(crate) path: Vec<u8>,
    pub(crate) disk: DiskFile,
}

impl MemoryFile {
    /// The file at a path.
    pub(crate) fn new(
        alloc: Global,
        path: &str,
        start: KeptStart<'_>,
    ) -> Result<MemoryFile, AllocError>
        ensures { IfOk result (λ file. file_path file ≡ path.now) }
    {
        let path = Vec::from_slice(alloc, path.as_bytes())?;
        let outcomes = Vec::from_slice(alloc, start.outcomes)?;
        let bytes = match start.bytes {
            Some(bytes) => Some(Vec::from_slice(alloc, bytes)?),
            None => None,
        };
        Ok(MemoryFile {
            path,
            disk: DiskFile::new(alloc, bytes, outcomes, start.reads_fail),
        })
    }

    /// The file as the next run finds it, after a stop or a loss of power. What a start was to find before, it finds.
    pub fn stop(self, choice: Crash) -> MemoryFile
        ensures path { file_path result ≡ file_path self }
        ensures same { (a b : Option (List ℕ)) → (disk_facts (file_disk self)).finds a b → (disk_facts (file_disk result)).finds a b }
    {
        let MemoryFile { path, disk } = self;
        MemoryFile {
            path,
            disk: disk.stop(choice),
        }
    }
}
