//! A kept file over the calls of a system. Nothing is claimed of the calls; the facts of the file follow from the calls
//! and their results.

ghost use Rattle.std.specs.Prelude.{◌≡◌, ◌≤◌, ◌↔◌, [], ◌∷◌, ℕ, List, Option, Some, IfOk, IfErr, IfSome, IsTrue, OnOk, length};
ghost use Rattle.std.specs.IoError.{error_kind};
ghost use Rattle.system_io.specs.Failures.{Counts, Risen};
ghost use Rattle.system_io.specs.FileCalls.{CallFacts, Failed, RenameFailed, Renamed, SyncedFile, SyncedFolder, Wrote, call_by_answer, read_call};
ghost use Rattle.system_io.specs.Histories.{Passes};
ghost use Rattle.system_io.specs.KeptFiles.{KeptFacts, IsOneOfFound, bytes_of};
ghost use Rattle.system_io.specs.Premises.{IsAsTold};
ghost use Rattle.system_io.specs.Reading.{read_fault_of};
ghost use Rattle.system_io.specs.Traces.{HasTheseBytes, IsFresh, MayTakeName, calls_in, traced_facts};
ghost use Rattle.system_io.specs.declared.reading.ReadFault.{ReadFault};

use crate::kept_file::{KeptFile, MOST_KEPT_BYTES, copied};
use crate::reading::ReadFault;
use std::alloc::Global;
use std::io;

/// The calls of a system for a file under a name and a file beside it. Nothing is claimed of their effect; an instance
/// may record which were made.
pub trait FileCalls {
    /// The calls made, where they are recorded, and why a read or a sync of the folder may fail.
    ghost facts: { Self → CallFacts };

    /// The bytes under the name, at most 8217, or that there are none. They are to be synced before they are read.
    fn read(&mut self, alloc: Global) -> Result<Option<Vec<u8>>, ReadFault>
        ensures short { IfOk result (λ got. IfSome got (λ v. length v.items ≤ 8217)) }
        ensures made { Passes (facts self.old).made (facts self.new).made (read_call result ∷ []) }
        ensures cause { IfErr result (facts self.old).fails }
        ensures still { (fault : ReadFault) → (facts self.new).fails fault → (facts self.old).fails fault };

    /// Makes the file beside anew, and writes it.
    fn write(&mut self, bytes: &[u8]) -> io::Result<()>
        ensures { Passes (facts self.old).made (facts self.new).made (call_by_answer result (Wrote bytes.now) Failed ∷ []) };

    /// Syncs the file beside.
    fn sync(&mut self) -> io::Result<()>
        ensures { Passes (facts self.old).made (facts self.new).made (call_by_answer result SyncedFile Failed ∷ []) };

    /// Renames the file beside to the name.
    fn rename(&mut self) -> io::Result<()>
        ensures { Passes (facts self.old).made (facts self.new).made (call_by_answer result Renamed RenameFailed ∷ []) };

    /// Syncs the folder, and with it the names in it.
    fn sync_folder(&mut self) -> io::Result<()>
        ensures made { Passes (facts self.old).made (facts self.new).made (call_by_answer result SyncedFolder Failed ∷ []) }
        ensures cause { IfErr result (λ e. (facts self.old).fails (read_fault_of (error_kind e))) };
}

/// How far the bytes of the last write have come, by the results of the calls.
#[derive(Clone, Copy)]
pub enum Reach {
    /// They weren't written, or a call failed since.
    Nowhere,
    /// They are written.
    Written,
    /// They are synced.
    Synced,
    /// They have got the name.
    Renamed,
}

/// What the calls made and their results say about a file. `is_known` says whether it is known what may stand under the
/// name. `stands` is what should stand there; `earlier` is what else may, since it did when the folder was last synced
/// or later. `written` is what was written beside it, `reach` how far that has come, and `failures` how often a call
/// has failed.
#[derive(Drop)]
pub struct CallLog<C: Drop> {
    alloc: Global,
    calls: C,
    is_known: bool,
    stands: Option<Vec<u8>>,
    earlier: Vec<Option<Vec<u8>>>,
    written: Option<Vec<u8>>,
    reach: Reach,
    failures: u64,
}

/// Whether both hold the same bytes, or neither holds any.
fn are_same(got: &Option<Vec<u8>>, known: &Option<Vec<u8>>) -> bool
    ensures { IsTrue result ↔ (bytes_of got.now ≡ bytes_of known.now) }
{
    match (got, known) {
        (Some(got), Some(known)) => got.as_slice() == known.as_slice(),
        (None, None) => true,
        _ => false,
    }
}

impl<C: FileCalls + Drop> CallLog<C> {
    /// A file about which nothing is known.
    pub fn new(alloc: Global, calls: C) -> CallLog<C>
        ensures calls { calls_in result ≡ calls }
        ensures fresh { IsFresh result }
    {
        CallLog {
            alloc,
            calls,
            is_known: false,
            stands: None,
            earlier: Vec::new(alloc),
            written: None,
            reach: Reach::Nowhere,
            failures: 0,
        }
    }

    /// The calls.
    pub fn calls(&self) -> &C
        ensures { result.now ≡ calls_in self.now }
    {
        &self.calls
    }

    /// Counts a failure, and returns its cause.
    fn fail<E>(&mut self, why: E) -> E
        ensures why { result ≡ why }
        ensures risen { Risen self.old.failures self.new.failures }
        ensures calls { self.new.calls ≡ self.old.calls }
        ensures known { self.new.is_known ≡ self.old.is_known }
        ensures stands { self.new.stands ≡ self.old.stands }
        ensures earlier { self.new.earlier ≡ self.old.earlier }
    {
        self.failures = self.failures.saturating_add(1);
        why
    }

    /// Records that what was written may have the name from now on.
    fn note_name(&mut self) -> io::Result<()>
        ensures named { OnOk result ((bytes : List ℕ) → HasTheseBytes self.old.written bytes → HasTheseBytes self.new.stands bytes) }
        ensures calls { self.new.calls ≡ self.old.calls }
        ensures known { self.new.is_known ≡ self.old.is_known }
        ensures count { Counts result self.old.failures self.new.failures }
        ensures either { MayTakeName self.old self.new }
    {
        match self.written.take() {
            Some(bytes) => match self.earlier.push(self.stands.take()) {
                Ok(()) => {
                    self.stands = Some(bytes);
                    Ok(())
                }
                Err(refused) => {
                    self.stands = refused.value;
                    self.written = Some(bytes);
                    Err(self.fail(io::Error::from(io::ErrorKind::OutOfMemory)))
                }
            },
            None => Err(self.fail(io::Error::from(io::ErrorKind::NotFound))),
        }
    }
}

/// Under the premise on a system's file: of any two contents that the file claims every start to be among, a start
/// reads one.
pub fn read_as_told<C: FileCalls + Drop>(left: &CallLog<C>)
    ensures { (read : Option (List ℕ)) → IsAsTold left.now read → IsOneOfFound (traced_facts C.facts left.now) read }
{}

/// The error of a call that is out of order.
fn refused() -> io::Error {
    io::Error::from(io::ErrorKind::InvalidInput)
}

impl<C: FileCalls + Drop> KeptFile for CallLog<C> {
    ghost use Rattle.system_io.specs.TraceLaws.{says_one};
    ghost use Rattle.system_io.specs.Traces.{traced_facts};

    ghost facts = { traced_facts C.facts };

    ghost one = { λ t a b c. says_one C.facts t a b c };

    // Where the file is known already, the read must give the known bytes.
    fn settle(&mut self) -> Result<(), ReadFault> {
        if !self.earlier.is_empty() {
            return Err(self.fail(ReadFault::Unreadable));
        }
        let got = match self.calls.read(self.alloc) {
            Ok(got) => got,
            Err(fault) => return Err(self.fail(fault)),
        };
        match self.calls.sync_folder() {
            Ok(()) => {}
            Err(error) => return Err(self.fail(ReadFault::from(error))),
        }
        if self.is_known && !are_same(&got, &self.stands) {
            return Err(self.fail(ReadFault::Unreadable));
        }
        self.stands = got;
        self.is_known = true;
        Ok(())
    }

    fn read(&self, alloc: Global) -> Result<Option<Vec<u8>>, ReadFault> {
        if let Some(bytes) = &self.stands {
            if bytes.len() > MOST_KEPT_BYTES {
                return Err(ReadFault::Unreadable);
            }
        }
        match copied(alloc, &self.stands) {
            Ok(copy) => Ok(copy),
            Err(_) => Err(ReadFault::OutOfMemory),
        }
    }

    fn write_beside(&mut self, bytes: &[u8]) -> io::Result<()> {
        self.reach = Reach::Nowhere;
        if !self.is_known {
            return Err(self.fail(refused()));
        }
        let Ok(copy) = Vec::from_slice(self.alloc, bytes) else {
            return Err(self.fail(io::Error::from(io::ErrorKind::OutOfMemory)));
        };
        match self.calls.write(bytes) {
            Ok(()) => {
                self.written = Some(copy);
                self.reach = Reach::Written;
                Ok(())
            }
            Err(error) => Err(self.fail(error)),
        }
    }

    fn sync_beside(&mut self) -> io::Result<()> {
        let Reach::Written = self.reach else {
            return Err(self.fail(refused()));
        };
        self.reach = Reach::Nowhere;
        match self.calls.sync() {
            Ok(()) => {
                self.reach = Reach::Synced;
                Ok(())
            }
            Err(error) => Err(self.fail(error)),
        }
    }

    fn rename(&mut self) -> io::Result<()> {
        let Reach::Synced = self.reach else {
            return Err(self.fail(refused()));
        };
        self.reach = Reach::Nowhere;
        if !self.is_known {
            return Err(self.fail(refused()));
        }
        self.note_name()?;
        match self.calls.rename() {
            Ok(()) => {
                self.reach = Reach::Renamed;
                Ok(())
            }
            Err(error) => Err(self.fail(error)),
        }
    }

    // After a failed sync a later one may succeed although the name isn't on the disk.
    fn sync_folder(&mut self) -> io::Result<()> {
        let synced = self.calls.sync_folder();
        match synced {
            Ok(()) => {}
            Err(error) => {
                self.reach = Reach::Nowhere;
                return Err(self.fail(error));
            }
        }
        match self.reach {
            Reach::Renamed => {
                self.earlier.clear();
                Ok(())
            }
            Reach::Nowhere | Reach::Written | Reach::Synced => Ok(()),
        }
    }
}
