//! The calls for a kept file in memory. They are recorded, and one of them fails on request.

ghost use Rattle.std.specs.Prelude.{◌≡◌, ◌↔◌, ◌∷◌, [], Some, IsTrue};
ghost use Rattle.std.specs.IoError.{error_kind};
ghost use Rattle.std.specs.declared.io.ErrorKind.TheVariants.{StorageFull};
ghost use Rattle.system_io.specs.FileCalls.{Failed, Read, Wrote};
ghost use Rattle.system_io.specs.Histories.{Passes};
ghost use Rattle.system_io.specs.KeptFiles.{IsLong, bytes_of};
ghost use Rattle.system_fakes.specs.MemoryCalls.{WillFail, call_of, made_by};

use std::alloc::Global;
use std::io;
use system_io::{FileCalls, MOST_KEPT_BYTES, ReadFault, copied};

/// A call that was made.
#[derive(Drop)]
pub enum MadeCall {
    /// The bytes under the name were read, or that there are none.
    Read(Option<Vec<u8>>),
    /// These bytes were written to the file beside.
    Wrote(Vec<u8>),
    /// The file beside was synced.
    SyncedFile,
    /// The file beside got the name.
    Renamed,
    /// The folder was synced.
    SyncedFolder,
    /// A rename failed.
    RenameFailed,
    /// Another call failed.
    Failed,
}

/// A file under a name, a file beside it, and the calls that were made, all in memory.
#[derive(Drop)]
pub struct MemoryCalls {
    alloc: Global,
    stands: Option<Vec<u8>>,
    beside: Option<Vec<u8>>,
    made: Vec<MadeCall>,
    is_whole: bool,
    calls: usize,
    fails_at: Option<usize>,
}

/// The error of a call that fails.
fn failed() -> io::Error
    ensures { error_kind result ≡ StorageFull }
{
    io::Error::from(io::ErrorKind::StorageFull)
}

impl MemoryCalls {
    /// Calls for a file with these bytes, or for no file. The call with this number fails, counted from 0.
    pub fn new(alloc: Global, stands: Option<Vec<u8>>, fails_at: Option<usize>) -> MemoryCalls
        ensures { made_by result ≡ Some [] }
    {
        MemoryCalls {
            alloc,
            stands,
            beside: None,
            made: Vec::new(alloc),
            is_whole: true,
            calls: 0,
            fails_at,
        }
    }

    /// The calls that were made; none where memory for one was refused.
    pub fn made(&self) -> Option<&[MadeCall]> {
        if self.is_whole {
            Some(&self.made)
        } else {
            None
        }
    }

    /// Records a call.
    fn keep(&mut self, call: MadeCall)
        ensures made { Passes (made_by self.old) (made_by self.new) (call_of call ∷ []) }
        ensures stands { self.new.stands ≡ self.old.stands }
        ensures still { WillFail self.new → WillFail self.old }
    {
        if self.made.push(call).is_err() {
            self.is_whole = false;
        }
    }

    /// Records that bytes were read.
    fn keep_read(&mut self, got: &Option<Vec<u8>>)
        ensures made { Passes (made_by self.old) (made_by self.new) (Read (bytes_of got.now) ∷ []) }
        ensures stands { self.new.stands ≡ self.old.stands }
        ensures still { WillFail self.new → WillFail self.old }
    {
        match copied(self.alloc, got) {
            Ok(copy) => self.keep(MadeCall::Read(copy)),
            Err(_) => self.is_whole = false,
        }
    }

    /// Records that bytes were written.
    fn keep_wrote(&mut self, bytes: &[u8])
        ensures { Passes (made_by self.old) (made_by self.new) (Wrote bytes.now ∷ []) }
    {
        match Vec::from_slice(self.alloc, bytes) {
            Ok(copy) => self.keep(MadeCall::Wrote(copy)),
            Err(_) => self.is_whole = false,
        }
    }

    /// Counts a call, and returns whether it fails.
    fn is_failing(&mut self) -> bool
        ensures made { made_by self.new ≡ made_by self.old }
        ensures stands { self.new.stands ≡ self.old.stands }
        ensures cause { IsTrue result → WillFail self.old }
        ensures still { WillFail self.new → WillFail self.old }
    {
        let fails = match self.fails_at {
            Some(number) => number == self.calls,
            None => false,
        };
        self.calls = self.calls.saturating_add(1);
        fails
    }

    /// Whether more bytes stand under the name than are kept.
    fn is_long(&self) -> bool
        ensures { IsTrue result ↔ IsLong (bytes_of self.now.stands) }
    {
        match &self.stands {
            Some(bytes) => bytes.len() > MOST_KEPT_BYTES,
            None => false,
        }
    }

    /// Records that a call failed.
    fn keep_failed(&mut self) -> io::Error
        ensures made { Passes (made_by self.old) (made_by self.new) (Failed ∷ []) }
        ensures kind { error_kind result ≡ StorageFull }
    {
        self.keep(MadeCall::Failed);
        failed()
    }
}

impl FileCalls for MemoryCalls {
    ghost use Rattle.system_fakes.specs.MemoryCalls.{calls_of};

    ghost facts = { calls_of };

    fn read(&mut self, alloc: Global) -> Result<Option<Vec<u8>>, ReadFault> {
        if self.is_failing() || self.is_long() {
            self.keep(MadeCall::Failed);
            return Err(ReadFault::Unreadable);
        }
        match copied(alloc, &self.stands) {
            Ok(got) => {
                self.keep_read(&got);
                Ok(got)
            }
            Err(_) => {
                self.keep(MadeCall::Failed);
                Err(ReadFault::OutOfMemory)
            }
        }
    }

    fn write(&mut self, bytes: &[u8]) -> io::Result<()> {
        if self.is_failing() {
            return Err(self.keep_failed());
        }
        match Vec::from_slice(self.alloc, bytes) {
            Ok(copy) => {
                self.beside = Some(copy);
                self.keep_wrote(bytes);
                Ok(())
            }
            Err(_) => Err(self.keep_failed()),
        }
    }

    fn sync(&mut self) -> io::Result<()> {
        if self.is_failing() || self.beside.is_none() {
            return Err(self.keep_failed());
        }
        self.keep(MadeCall::SyncedFile);
        Ok(())
    }

    fn rename(&mut self) -> io::Result<()> {
        if self.is_failing() || self.beside.is_none() {
            self.keep(MadeCall::RenameFailed);
            return Err(failed());
        }
        self.stands = self.beside.take();
        self.keep(MadeCall::Renamed);
        Ok(())
    }

    fn sync_folder(&mut self) -> io::Result<()> {
        if self.is_failing() {
            return Err(self.keep_failed());
        }
        self.keep(MadeCall::SyncedFolder);
        Ok(())
    }
}
