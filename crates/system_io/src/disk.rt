//! Folders and files, as they are read.

ghost use Rattle.std.specs.Prelude.{◌≡◌, ◌≤◌, ◌⊎◌, true, length, map, string_bytes, IfOk, IsErrOf};
ghost use Rattle.system_io.specs.Disks.{DiskFacts, AtFile, AtFolder, IsNoSmallFile, HasMore, HoldsOne, most_bytes};

use crate::reading::ReadFault;
use std::alloc::Global;

/// The bytes of a regular file, and its mode: in its last nine bits what its owner, its group and others may do with it.
#[derive(Drop)]
pub struct FileWithMode {
    /// All its bytes.
    pub bytes: Vec<u8>,
    /// The mode, as `stat` has it.
    pub mode: u32,
}

/// Where folders and files are read.
pub trait Disk {
    /// What its folders list, what its files hold, and what can't be read.
    ghost facts: { Self → DiskFacts };

    /// The names in a folder, in any order. A name that is not UTF-8 is left out.
    fn names(&self, alloc: Global, folder: &str) -> Result<Vec<String>, ReadFault>
        ensures listed { IfOk result (λ names. (facts self.now).lists folder.now (map string_bytes names.items)) }
        ensures cause { IsErrOf result ReadFault.Unreadable → (facts self.now).fails (AtFolder folder.now) };

    /// All bytes of a file, at most 2^30.
    fn read(&self, alloc: Global, path: &str) -> Result<Vec<u8>, ReadFault>
        ensures bytes { IfOk result (λ bytes. (facts self.now).holds path.now bytes.items) }
        ensures short { IfOk result (λ bytes. length bytes.items ≤ most_bytes) }
        ensures cause { IsErrOf result ReadFault.Unreadable → (facts self.now).fails (AtFile path.now) };

    /// All bytes of a file of at most this many. Of a longer one only the size is read, or one byte more than that.
    fn read_within(&self, alloc: Global, path: &str, most: u64) -> Result<Vec<u8>, ReadFault>
        ensures bytes { IfOk result (λ bytes. (facts self.now).holds path.now bytes.items) }
        ensures short { IfOk result (λ bytes. length bytes.items ≤ most) }
        ensures cause { IsErrOf result ReadFault.Unreadable → (facts self.now).fails (AtFile path.now) ⊎ HasMore (facts self.now) path.now most };

    /// The same of a file that need not be there, so that nobody is told where it can't be read.
    fn look_within(&self, alloc: Global, path: &str, most: u64) -> Result<Vec<u8>, ReadFault>
        ensures bytes { IfOk result (λ bytes. (facts self.now).holds path.now bytes.items) }
        ensures short { IfOk result (λ bytes. length bytes.items ≤ most) }
        ensures cause { IsErrOf result ReadFault.Unreadable → (facts self.now).fails (AtFile path.now) ⊎ HasMore (facts self.now) path.now most };

    /// All bytes of a regular file of at most this many, and the mode that it has while it is open. What is no regular file, such as
    /// a folder, a device or a named pipe, isn't waited for: it can't be read. A link is followed.
    fn read_with_mode(
        &self,
        alloc: Global,
        path: &str,
        most: u64,
    ) -> Result<FileWithMode, ReadFault>
        ensures bytes { IfOk result (λ f. (facts self.now).holds path.now f.bytes.items) }
        ensures short { IfOk result (λ f. length f.bytes.items ≤ most) }
        ensures mode { IfOk result (λ f. (facts self.now).has_mode path.now f.mode) }
        ensures cause { IsErrOf result ReadFault.Unreadable → IsNoSmallFile (facts self.now) path.now most };

    /// A disk whose contents are stated has one list for each folder and one content for each file.
    ghost one: { (d : Self) → (facts d).is_told ≡ true → HoldsOne (facts d) };
}
