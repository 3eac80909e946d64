//! Which file stands at the path of a store that is open.

ghost use Rattle.std.specs.Prelude.{◌≤◌, ◌↔◌, IsTrue};
ghost use Rattle.std.specs.Duration.{as_nanos};

use std::alloc::{AllocError, Global};
use std::fs::Metadata;
use std::io::Write;
use std::os::unix::fs::MetadataExt;
use std::time::{Duration, Instant};
use std::{fs, io};

/// Within how many seconds after a look at the path none is made.
const BETWEEN_LOOKS: u64 = 1;

/// A file, by the numbers that the system gives it.
#[derive(Clone, Copy, PartialEq, Eq)]
struct FileNumbers {
    device: u64,
    inode: u64,
}

/// The numbers of a file.
fn numbers_of(metadata: &Metadata) -> FileNumbers {
    FileNumbers {
        device: metadata.dev(),
        inode: metadata.ino(),
    }
}

/// Whether a second has passed since the last look.
fn is_due(passed: Duration) -> bool
    ensures { IsTrue result ↔ (1_000_000_000 ≤ as_nanos passed) }
{
    passed >= Duration::from_secs(BETWEEN_LOOKS)
}

/// The file of a store, as it was opened at a path.
#[derive(Drop)]
pub(crate) struct StoreFile {
    rt: HostRuntime,
    path: String,
    /// Its numbers, where the system gave them.
    numbers: Option<FileNumbers>,
    /// When the path was looked at, where the clock told it.
    looked: Option<Instant>,
}

impl StoreFile {
    /// The file that stands at a path now. The error comes only where memory is refused.
    pub(crate) fn at(rt: HostRuntime, alloc: Global, path: &str) -> Result<StoreFile, AllocError> {
        let numbers = match fs::metadata(&rt, path) {
            Ok(metadata) => Some(numbers_of(&metadata)),
            Err(_) => None,
        };
        Ok(StoreFile {
            rt,
            path: String::from_str(alloc, path)?,
            numbers,
            looked: Instant::now(&rt).ok(),
        })
    }

    /// Whether another file stands at the path, or none. Where the system doesn't say, it counts as the same.
    fn is_other(&self, numbers: FileNumbers) -> bool {
        match fs::metadata(&self.rt, self.path.as_str()) {
            Ok(metadata) => numbers_of(&metadata) != numbers,
            Err(error) => error.kind() == io::ErrorKind::NotFound,
        }
    }

    /// Whether the path is to be looked at again, which counts as a look.
    fn looks_now(&mut self) -> bool {
        let now = Instant::now(&self.rt).ok();
        let is_due = match (now, self.looked) {
            (Some(now), Some(looked)) => is_due(now.duration_since(looked)),
            _ => true,
        };
        if is_due {
            self.looked = now;
        }
        is_due
    }

    /// Whether another file stands at the path, or none, as far as that was looked at: at most once a second.
    pub(crate) fn is_replaced(&mut self) -> bool {
        match self.numbers {
            Some(numbers) => self.looks_now() && self.is_other(numbers),
            None => false,
        }
    }

    /// Writes to standard error that the file is another one.
    pub(crate) fn note_replaced(&self) {
        let mut notes = self.rt.stderr();
        let _told = writeln!(notes, "{:?}: no longer the file that was opened", self.path);
    }
}
