//! A file in memory, on a disk that can lose power and whose calls fail on request.

ghost use Rattle.std.specs.Prelude.{◌≡◌, ℕ, [], List, slice_index_or, Option, Some, true, false, IsTrue, IfOk, IfErr, OnOk};
ghost use Rattle.system_io.specs.Failures.{Counts, Risen};
ghost use Rattle.system_io.specs.KeptFiles.{IsOneOfFound, bytes_of};
ghost use Rattle.system_io.specs.declared.reading.ReadFault.TheVariants.{Unreadable};
ghost use Rattle.system_fakes.specs.PowerLosses.{HoldsBytes, HoldsSynced, IsAtRest, IsLeftBy, IsLost, IsOnPlatter, IsReadAfter, IsSpoilt, LeavesOneOf, RestsAfter, after_stop, calls_to_come, disk_facts, gives_nothing, left_of, next_of, seen, shown_content};

use std::alloc::Global;
use std::io;
use system_io::{KeptFile, MOST_KEPT_BYTES, ReadFault, begin};

/// The bytes of a file as the system shows them, and whether they are on the platter. Also whether a sync of them has
/// failed; after that no later one brings them there.
#[derive(Drop)]
pub struct Content {
    bytes: Vec<u8>,
    is_synced: bool,
    is_spoiled: bool,
}

/// The outcome of a call.
#[derive(Clone, Copy)]
pub enum Outcome {
    /// It succeeds, and says so.
    Good,
    /// It fails, and has no effect.
    Before,
    /// It fails in the middle: this many bytes are written, or the sync loses bytes, or a name, on the way to the
    /// platter.
    Halfway(usize),
    /// It takes full effect, and yet says that it failed.
    After,
}

/// How a run ends, and what that does to the disk.
#[derive(Drop)]
pub enum Crash {
    /// The process stops, and the system goes on.
    StaysUp,
    /// The power is lost. The fields say which of the candidate files has the name, what is left of one that isn't
    /// synced, and what the file beside holds.
    PowerLost {
        which: usize,
        bytes: Vec<u8>,
        beside: Option<Vec<u8>>,
    },
}

/// A name on a disk, and a file beside it. `stands` is what has the name as the system shows it. `earlier` is what had
/// it at some time since the folder was synced; after a loss of power each of them may have it. `is_name_lost` says
/// that a sync of the folder has failed since the last rename, after which no later sync brings the name to the
/// platter. `outcomes` are the outcomes of the next calls, the last of the list first; calls past its end succeed.
/// Failed calls are counted.
#[derive(Drop)]
pub struct DiskFile {
    alloc: Global,
    stands: Option<Content>,
    earlier: Vec<Option<Content>>,
    is_name_lost: bool,
    beside: Option<Content>,
    outcomes: Vec<Outcome>,
    reads_fail: bool,
    failures: u64,
}

/// The error of a call that fails.
fn failed() -> io::Error {
    io::Error::from(io::ErrorKind::StorageFull)
}

/// A file whose bytes are on the platter.
fn on_platter(bytes: Vec<u8>) -> Content
    ensures bytes { result.bytes.items ≡ bytes.items }
    ensures synced { result.is_synced ≡ true }
{
    Content {
        bytes,
        is_synced: true,
        is_spoiled: false,
    }
}

/// A file whose bytes are written, and not on the platter yet.
fn written(bytes: Vec<u8>) -> Content
    ensures bytes { result.bytes.items ≡ bytes.items }
    ensures whole { result.is_spoiled ≡ false }
{
    Content {
        bytes,
        is_synced: false,
        is_spoiled: false,
    }
}

/// Whether no further sync can bring the bytes of a file to the platter.
fn is_lost(content: &Content) -> bool
    ensures { IsTrue result → IsSpoilt (Some content.now) }
{
    content.is_spoiled && !content.is_synced
}

/// A file after a sync: its bytes are on the platter, unless a sync of them has failed before.
fn synced(content: Content) -> Content
    ensures bytes { result.bytes.items ≡ content.bytes.items }
    ensures synced { content.is_spoiled ≡ false → result.is_synced ≡ true }
{
    let Content {
        bytes,
        is_synced,
        is_spoiled,
    } = content;
    if is_spoiled {
        Content {
            bytes,
            is_synced,
            is_spoiled,
        }
    } else {
        Content {
            bytes,
            is_synced: true,
            is_spoiled,
        }
    }
}

/// What has the name after a loss of power: the earlier holder with this number, or the present one.
fn named(earlier: Vec<Option<Content>>, which: usize, stands: Option<Content>) -> Option<Content>
    ensures { result ≡ slice_index_or earlier.items which stands }
{
    let mut earlier = earlier;
    if which < earlier.len() {
        earlier.remove(which)
    } else {
        stands
    }
}

/// What a loss of power leaves of a file: its bytes where they are synced, and else these.
fn lasting(held: Option<Content>, garbage: Vec<u8>) -> Option<Content>
    ensures left { shown_content result ≡ left_of held garbage.items }
    ensures synced { IsOnPlatter result }
{
    match held {
        Some(content) => {
            if content.is_synced {
                Some(on_platter(content.bytes))
            } else {
                Some(on_platter(garbage))
            }
        }
        None => None,
    }
}

impl DiskFile {
    /// A disk with these bytes, or nothing, under the name.
    pub fn new(
        alloc: Global,
        stands: Option<Vec<u8>>,
        outcomes: Vec<Outcome>,
        reads_fail: bool,
    ) -> DiskFile
        ensures seen { seen result ≡ bytes_of stands }
        ensures rest { IsAtRest result }
        ensures told { (calls_to_come result ≡ outcomes.items) × (gives_nothing result ≡ reads_fail) }
    {
        let stands = match stands {
            Some(bytes) => Some(on_platter(bytes)),
            None => None,
        };
        DiskFile {
            alloc,
            stands,
            earlier: Vec::new(alloc),
            is_name_lost: false,
            beside: None,
            outcomes,
            reads_fail,
            failures: 0,
        }
    }

    /// Counts a failure, and returns its cause.
    fn fail<E>(&mut self, why: E) -> E
        ensures why { result ≡ why }
        ensures risen { Risen self.old.failures self.new.failures }
        ensures stands { self.new.stands ≡ self.old.stands }
        ensures earlier { self.new.earlier ≡ self.old.earlier }
        ensures reads { self.new.reads_fail ≡ self.old.reads_fail }
    {
        self.failures = self.failures.saturating_add(1);
        why
    }

    /// The outcome of the next call.
    fn next(&mut self) -> Outcome
        ensures stands { self.new.stands ≡ self.old.stands }
        ensures earlier { self.new.earlier ≡ self.old.earlier }
        ensures name { self.new.is_name_lost ≡ self.old.is_name_lost }
        ensures beside { self.new.beside ≡ self.old.beside }
        ensures reads { self.new.reads_fail ≡ self.old.reads_fail }
        ensures failures { self.new.failures ≡ self.old.failures }
        ensures outcome { result ≡ next_of self.old.outcomes.items }
    {
        match self.outcomes.pop() {
            Some(outcome) => outcome,
            None => Outcome::Good,
        }
    }

    /// Writes bytes to the file beside.
    fn put_beside(&mut self, bytes: &[u8]) -> io::Result<()>
        ensures written { OnOk result (HoldsBytes self.new.beside bytes.now) }
        ensures stands { self.new.stands ≡ self.old.stands }
        ensures earlier { self.new.earlier ≡ self.old.earlier }
        ensures count { Counts result self.old.failures self.new.failures }
    {
        match Vec::from_slice(self.alloc, bytes) {
            Ok(copy) => {
                self.beside = Some(written(copy));
                Ok(())
            }
            Err(_) => Err(self.fail(io::Error::from(io::ErrorKind::OutOfMemory))),
        }
    }

    /// Brings the bytes of the file beside to the platter, unless a sync of them has failed before.
    fn sync_bytes(&mut self) -> io::Result<()>
        ensures synced { OnOk result ((bytes : List ℕ) → HoldsBytes self.old.beside bytes → HoldsSynced self.new.beside bytes) }
        ensures stands { self.new.stands ≡ self.old.stands }
        ensures earlier { self.new.earlier ≡ self.old.earlier }
        ensures count { Counts result self.old.failures self.new.failures }
    {
        match self.beside.take() {
            Some(content) => {
                self.beside = Some(synced(content));
                Ok(())
            }
            None => Err(self.fail(io::Error::from(io::ErrorKind::NotFound))),
        }
    }

    /// Loses bytes of the file beside on their way to the platter.
    fn spoil(&mut self)
        ensures stands { self.new.stands ≡ self.old.stands }
        ensures earlier { self.new.earlier ≡ self.old.earlier }
        ensures failures { self.new.failures ≡ self.old.failures }
    {
        if let Some(content) = self.beside.take() {
            self.beside = Some(Content {
                bytes: content.bytes,
                is_synced: content.is_synced,
                is_spoiled: true,
            });
        }
    }

    /// Gives the file beside the name.
    fn give_name(&mut self) -> io::Result<()>
        ensures renamed { OnOk result ((bytes : List ℕ) → HoldsSynced self.old.beside bytes → HoldsSynced self.new.stands bytes) }
        ensures name { OnOk result (self.new.is_name_lost ≡ false) }
        ensures either { (old : Option _) (bytes : _) → LeavesOneOf self.old old old → HoldsSynced self.old.beside bytes → LeavesOneOf self.new old (Some bytes) }
        ensures count { Counts result self.old.failures self.new.failures }
    {
        match self.beside.take() {
            Some(content) => match self.earlier.push(self.stands.take()) {
                Ok(()) => {
                    self.stands = Some(content);
                    self.is_name_lost = false;
                    Ok(())
                }
                Err(refused) => {
                    self.stands = refused.value;
                    self.beside = Some(content);
                    Err(self.fail(io::Error::from(io::ErrorKind::OutOfMemory)))
                }
            },
            None => Err(self.fail(io::Error::from(io::ErrorKind::NotFound))),
        }
    }

    /// Brings the names to the platter: an earlier holder can't have the name again. Where a sync has lost the name, it
    /// has no effect.
    fn sync_names(&mut self)
        ensures names { self.old.is_name_lost ≡ false → self.new.earlier.items ≡ [] }
        ensures stands { self.new.stands ≡ self.old.stands }
        ensures reads { self.new.reads_fail ≡ self.old.reads_fail }
        ensures failures { self.new.failures ≡ self.old.failures }
        ensures same { (a b : Option (List ℕ)) → LeavesOneOf self.old a b → LeavesOneOf self.new a b }
    {
        if !self.is_name_lost {
            self.earlier.clear();
        }
    }

    /// Brings what stands under the name, and the name, to the platter.
    fn settle_now(&mut self) -> Result<(), ReadFault>
        ensures rest { OnOk result (IsAtRest self.new) }
        ensures seen { seen self.new ≡ seen self.old }
        ensures reads { self.new.reads_fail ≡ self.old.reads_fail }
        ensures same { (a b : Option (List ℕ)) → LeavesOneOf self.old a b → LeavesOneOf self.new a b }
        ensures cause { IfErr result (λ fault. (fault ≡ Unreadable) × IsLost self.old) }
        ensures count { Counts result self.old.failures self.new.failures }
    {
        if self.is_name_lost {
            return Err(self.fail(ReadFault::Unreadable));
        }
        match self.stands.take() {
            Some(standing) => {
                if is_lost(&standing) {
                    self.stands = Some(standing);
                    return Err(self.fail(ReadFault::Unreadable));
                }
                self.stands = Some(on_platter(standing.bytes));
                self.sync_names();
                Ok(())
            }
            None => {
                self.sync_names();
                Ok(())
            }
        }
    }

    /// The disk after a loss of power, and after it was started again.
    fn lose_power(self, which: usize, bytes: Vec<u8>, beside: Option<Vec<u8>>) -> DiskFile
        ensures left { seen result ≡ after_stop self which bytes.items }
        ensures rest { IsAtRest result }
        ensures same { (a b : Option (List ℕ)) → LeavesOneOf self a b → LeavesOneOf result a b }
    {
        let DiskFile {
            alloc,
            stands,
            earlier,
            is_name_lost: _is_name_lost,
            beside: _beside,
            outcomes,
            reads_fail,
            failures,
        } = self;
        let stands = lasting(named(earlier, which, stands), bytes);
        let beside = match beside {
            Some(bytes) => Some(on_platter(bytes)),
            None => None,
        };
        DiskFile {
            alloc,
            stands,
            earlier: Vec::new(alloc),
            is_name_lost: false,
            beside,
            outcomes,
            reads_fail,
            failures,
        }
    }

    /// The disk as the next run finds it.
    pub fn stop(self, choice: Crash) -> DiskFile
        ensures left { IsLeftBy self choice (seen result) }
        ensures rest { RestsAfter choice result }
        ensures same { (a b : Option (List ℕ)) → (disk_facts self).finds a b → (disk_facts result).finds a b }
    {
        match choice {
            Crash::StaysUp => self,
            Crash::PowerLost {
                which,
                bytes,
                beside,
            } => self.lose_power(which, bytes, beside),
        }
    }
}

/// What a start reads after a stop; after a loss of power it is what that leaves under the name. Of any two contents
/// that the disk claims every start to be among, it is one.
pub fn read_after(
    alloc: Global,
    disk: DiskFile,
    choice: Crash,
) -> Result<Option<Vec<u8>>, ReadFault>
    ensures left { IfOk result (λ got. IsReadAfter disk choice (bytes_of got)) }
    ensures one { IfOk result (λ got. IsOneOfFound (disk_facts disk) (bytes_of got)) }
{
    let mut started = disk.stop(choice);
    begin(alloc, &mut started)
}

impl KeptFile for DiskFile {
    ghost use Rattle.system_fakes.specs.DiskLaws.{either_is};
    ghost use Rattle.system_fakes.specs.PowerLosses.{disk_facts};

    ghost facts = { disk_facts };

    ghost one = { λ d a b c. either_is d a b c };

    fn settle(&mut self) -> Result<(), ReadFault> {
        match self.next() {
            Outcome::Good => self.settle_now(),
            Outcome::Before | Outcome::Halfway(_) | Outcome::After => {
                Err(self.fail(ReadFault::Unreadable))
            }
        }
    }

    fn read(&self, alloc: Global) -> Result<Option<Vec<u8>>, ReadFault> {
        if self.reads_fail {
            return Err(ReadFault::Unreadable);
        }
        match &self.stands {
            Some(content) => {
                if content.bytes.len() > MOST_KEPT_BYTES {
                    return Err(ReadFault::Unreadable);
                }
                if content.bytes.is_empty() {
                    return Ok(Some(Vec::new(alloc)));
                }
                match Vec::from_slice(alloc, &content.bytes) {
                    Ok(copy) => Ok(Some(copy)),
                    Err(_) => Err(ReadFault::OutOfMemory),
                }
            }
            None => Ok(None),
        }
    }

    fn write_beside(&mut self, bytes: &[u8]) -> io::Result<()> {
        match self.next() {
            Outcome::Good => self.put_beside(bytes),
            Outcome::Before => Err(self.fail(failed())),
            Outcome::Halfway(count) => {
                self.put_beside(&bytes[..count.min(bytes.len())])?;
                Err(self.fail(failed()))
            }
            Outcome::After => {
                self.put_beside(bytes)?;
                Err(self.fail(failed()))
            }
        }
    }

    fn sync_beside(&mut self) -> io::Result<()> {
        match self.next() {
            Outcome::Good => self.sync_bytes(),
            Outcome::Before => Err(self.fail(failed())),
            Outcome::Halfway(_) => {
                self.spoil();
                Err(self.fail(failed()))
            }
            Outcome::After => {
                self.sync_bytes()?;
                Err(self.fail(failed()))
            }
        }
    }

    fn rename(&mut self) -> io::Result<()> {
        match self.next() {
            Outcome::Good => self.give_name(),
            Outcome::Before | Outcome::Halfway(_) => Err(self.fail(failed())),
            Outcome::After => {
                self.give_name()?;
                Err(self.fail(failed()))
            }
        }
    }

    fn sync_folder(&mut self) -> io::Result<()> {
        match self.next() {
            Outcome::Good => {
                self.sync_names();
                Ok(())
            }
            Outcome::Before => Err(self.fail(failed())),
            Outcome::Halfway(_) => {
                self.is_name_lost = true;
                Err(self.fail(failed()))
            }
            Outcome::After => {
                self.sync_names();
                Err(self.fail(failed()))
            }
        }
    }
}
