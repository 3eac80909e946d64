//! Why the file of a table isn't that table.

ghost use Rattle.std.specs.Prelude.{◌≡◌};
ghost use Rattle.table_folder.specs.Faults.{file_fault_name};

use arrayvec::ArrayString;
use table_file::TableFault;

/// Why a file isn't the table that it should be.
#[derive(Clone, Copy)]
pub enum FileFault {
    /// No file has the name in the manifest.
    Missing,
    /// The SHA-256 digest of the file's bytes isn't the manifest's.
    Changed,
    /// The bytes are no table of that name.
    Bad(TableFault),
    /// The file can't be read, or has more than 2^30 bytes.
    Unreadable,
}

impl FileFault {
    /// The fault's name, as it is printed.
    pub fn name(self) -> &'static str
        ensures { result.now ≡ file_fault_name self }
    {
        match self {
            FileFault::Missing => "missing",
            FileFault::Changed => "changed",
            FileFault::Bad(fault) => fault.name(),
            FileFault::Unreadable => "unreadable",
        }
    }
}

/// A file of a table that is refused.
#[derive(Clone, Copy)]
pub struct FileRefusal {
    /// The name of the file, as `KQvK.rtbw`.
    pub name: ArrayString<16>,
    /// Why it isn't the table of that name.
    pub fault: FileFault,
}
