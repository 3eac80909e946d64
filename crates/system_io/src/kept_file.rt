//! The file in which a record is kept, and its replacement by a new one.

ghost use Rattle.std.specs.Prelude.{◌≡◌, ◌≤◌, ◌<◌, ◌⊎◌, ℕ, List, Option, Some, false, length, IsTrue, IfOk, IfErr, IfSome, OnOk, OnErr};
ghost use Rattle.system_io.specs.Failures.{Counts, Risen};
ghost use Rattle.system_io.specs.KeptFiles.{KeptFacts, Written, Synced, Renamed, CannotStart, FindsOldOrNew, FindsOne, HasAny, IsCutOff, IsOneOfFound, bytes_of};
ghost use Rattle.system_io.specs.declared.reading.ReadFault.{ReadFault};

use crate::reading::ReadFault;
use std::alloc::{AllocError, Global};
use std::io;

/// The most bytes that are kept: the length of a record of 4096 moves, 25 bytes and two for each move (record format).
pub const MOST_KEPT_BYTES: usize = 8217;

/// A copy of what stands under a name. The error comes where memory for it is refused; an empty copy takes none.
pub fn copied(alloc: Global, bytes: &Option<Vec<u8>>) -> Result<Option<Vec<u8>>, AllocError>
    ensures same { IfOk result (λ copy. bytes_of copy ≡ bytes_of bytes.now) }
    ensures cause { OnErr result (HasAny (bytes_of bytes.now)) }
{
    let Some(bytes) = bytes else {
        return Ok(None);
    };
    if bytes.is_empty() {
        return Ok(Some(Vec::new(alloc)));
    }
    match Vec::from_slice(alloc, bytes) {
        Ok(copy) => Ok(Some(copy)),
        Err(refused) => Err(refused),
    }
}

/// A file under a name, and a file beside it that is to take that name.
///
/// Exactly the failed calls are counted. A count at its greatest value stays there and is taken as risen. `OutOfMemory`
/// is returned only where memory was refused.
pub trait KeptFile {
    /// How far new bytes are on their way to the name, and what a start finds there.
    ghost facts: { Self → KeptFacts };

    /// Syncs what stands under the name, its bytes and the name itself, since an earlier run may have stopped before
    /// that.
    fn settle(&mut self) -> Result<(), ReadFault>
        ensures settled { OnOk result (facts self.new).settled }
        ensures same { (a b : Option (List ℕ)) → (facts self.old).finds a b → (facts self.new).finds a b }
        ensures cause { IfErr result (facts self.old).cannot_settle }
        ensures still { (fault : ReadFault) → (facts self.new).cannot_read fault → (facts self.old).cannot_read fault }
        ensures count { Counts result (facts self.old).faults (facts self.new).faults };

    /// The bytes of the file under the name, at most 8217, or that there is none.
    fn read(&self, alloc: Global) -> Result<Option<Vec<u8>>, ReadFault>
        ensures found { (facts self.now).settled → IfOk result (λ got. (facts self.now).finds (bytes_of got) (bytes_of got)) }
        ensures short { IfOk result (λ got. IfSome got (λ v. length v.items ≤ 8217)) }
        ensures cause { IfErr result (facts self.now).cannot_read };

    /// Writes bytes to a file beside, in place of what an earlier run may have left there. Nothing else is written.
    fn write_beside(&mut self, bytes: &[u8]) -> io::Result<()>
        ensures written { OnOk result ((facts self.new).reached Written bytes.now) }
        ensures same { (a b : Option (List ℕ)) → (facts self.old).finds a b → (facts self.new).finds a b }
        ensures count { Counts result (facts self.old).faults (facts self.new).faults };

    /// Syncs the file beside.
    fn sync_beside(&mut self) -> io::Result<()>
        ensures synced { OnOk result ((bytes : List ℕ) → (facts self.old).reached Written bytes → (facts self.new).reached Synced bytes) }
        ensures same { (a b : Option (List ℕ)) → (facts self.old).finds a b → (facts self.new).finds a b }
        ensures count { Counts result (facts self.old).faults (facts self.new).faults };

    /// Renames the file beside to the name, replacing the file that had it. The name leads to one file or the other,
    /// also where this fails, and a synced file is complete.
    fn rename(&mut self) -> io::Result<()>
        ensures renamed { OnOk result ((bytes : List ℕ) → (facts self.old).reached Synced bytes → (facts self.new).reached Renamed bytes) }
        ensures either { (old : _) (bytes : _) → (facts self.old).finds old old → (facts self.old).reached Synced bytes → (facts self.new).finds old (Some bytes) }
        ensures count { Counts result (facts self.old).faults (facts self.new).faults };

    /// Syncs the folder, and with it the new name.
    fn sync_folder(&mut self) -> io::Result<()>
        ensures synced { OnOk result ((bytes : List ℕ) → (facts self.old).reached Renamed bytes → (facts self.new).finds (Some bytes) (Some bytes)) }
        ensures same { OnErr result ((a b : Option (List ℕ)) → (facts self.old).finds a b → (facts self.new).finds a b) }
        ensures count { Counts result (facts self.old).faults (facts self.new).faults };

    /// Where every start finds one of two contents, whichever it finds is among any other such two. So the fact has
    /// meaning: an instance that claims every pair of contents fails this clause.
    ghost one: { (f : Self) → FindsOne (facts f) };
}

/// What a start reads: the bytes under the name, once they and the name are synced. Of any two contents that every
/// start is claimed to be among they are one, and every later start finds them.
pub fn begin<F: KeptFile>(alloc: Global, file: &mut F) -> Result<Option<Vec<u8>>, ReadFault>
    ensures one { IfOk result (λ got. IsOneOfFound (F.facts file.old) (bytes_of got)) }
    ensures lasts { IfOk result (λ got. (F.facts file.new).finds (bytes_of got) (bytes_of got)) }
    ensures same { (a b : Option (List ℕ)) → (F.facts file.old).finds a b → (F.facts file.new).finds a b }
    ensures short { IfOk result (λ got. IfSome got (λ v. length v.items ≤ 8217)) }
    ensures cause { IfErr result (CannotStart (F.facts file.old)) }
    ensures count { OnOk result ((F.facts file.new).faults ≡ (F.facts file.old).faults) }
{
    match file.settle() {
        Ok(()) => file.read(alloc),
        Err(fault) => Err(fault),
    }
}

/// Replaces the bytes of the file. Where this fails, or the process stops midway, a start finds the old bytes or the
/// new. It fails only where one of its calls does.
pub fn replace<F: KeptFile>(file: &mut F, bytes: &[u8]) -> io::Result<()>
    ensures ok { OnOk result ((F.facts file.new).finds (Some bytes.now) (Some bytes.now)) }
    ensures err { (old : Option (List ℕ)) → (F.facts file.old).finds old old → OnErr result (FindsOldOrNew (F.facts file.new) old bytes.now) }
    ensures count { Counts result (F.facts file.old).faults (F.facts file.new).faults }
{
    file.write_beside(bytes)?;
    file.sync_beside()?;
    file.rename()?;
    file.sync_folder()
}

/// Makes only the first `calls` calls of `replace`, as where a process stops in the middle of it. Returns whether all
/// four were made and none failed.
pub fn replace_in_part<F: KeptFile>(file: &mut F, bytes: &[u8], calls: usize) -> bool
    ensures cut { IsCutOff (F.facts file.old) bytes.now (F.facts file.new) }
    ensures none { calls ≡ 0 → file.new ≡ file.old }
    ensures beside { calls ≤ 2 → (a b : Option (List ℕ)) → (F.facts file.old).finds a b → (F.facts file.new).finds a b }
    ensures named { calls ≤ 3 → (old : Option (List ℕ)) → (F.facts file.old).finds old old → FindsOldOrNew (F.facts file.new) old bytes.now }
    ensures done { IsTrue result → (F.facts file.new).finds (Some bytes.now) (Some bytes.now) }
    ensures all { IsTrue result → 4 ≤ calls }
    ensures stopped { result ≡ false → (calls < 4) ⊎ Risen (F.facts file.old).faults (F.facts file.new).faults }
    ensures count { IsTrue result → (F.facts file.new).faults ≡ (F.facts file.old).faults }
{
    if calls == 0 || file.write_beside(bytes).is_err() {
        return false;
    }
    if calls == 1 || file.sync_beside().is_err() {
        return false;
    }
    if calls == 2 || file.rename().is_err() || calls == 3 {
        return false;
    }
    file.sync_folder().is_ok()
}
