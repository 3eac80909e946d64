//! A file of the system, and the file beside it.

ghost use Rattle.std.specs.IoError.{error_kind, raw_os_error};
ghost use Rattle.std.specs.Prelude.{◌≡◌, ◌≤◌, ◌∷◌, [], IfErr, IfNone, IfOk, IfSome, IsTrue, OnOk, length, string_bytes};
ghost use Rattle.std.specs.declared.io.ErrorKind.TheVariants.{NotFound};
ghost use Rattle.system_io.specs.Places.{AreFor, IsAtPath};
ghost use Rattle.system_io.specs.Reading.{IsAbsentOr};

use crate::beside_file::{
    Synced, Written, clear, remove_synced, remove_written, rename, sync, write_beside,
};
use crate::call_log::{CallLog, FileCalls};
use crate::handles::{FileHandle, FilePaths};
use crate::kept_file::MOST_KEPT_BYTES;
use crate::notes::tell_refused;
use crate::opening::unopened;
use crate::reading::{ReadFault, read_at_most, unread};
use std::alloc::{AllocError, Global};
use std::fs::File;
use std::io;
use std::io::Write;
use std::rt::Files;

/// The calls of the system for a file by its path. The file beside it is this process's own: it is made where nothing stands, under
/// that path with `.new` appended, or with a number from 2 to 16 before that, and stays locked until it takes the name.
///
/// Of the first call that fails a line is written: the path in double quotes, escaped, and what the system says.
#[derive(Drop)]
pub struct SystemCalls<'a, R: FilePaths + AllocGlobal, W: Write + Copy + Drop> {
    rt: &'a R,
    alloc: Global,
    notes: W,
    path: String,
    is_told: bool,
    written: Option<Written<R::Handle>>,
    synced: Option<Synced<R::Handle>>,
    is_clear: bool,
}

/// Why a file wasn't found, or that nothing stands at its path, which the system tells as `NotFound` and nothing else.
fn unless_absent(error: io::Error) -> Result<Option<Vec<u8>>, ReadFault>
    ensures { IsAbsentOr (raw_os_error error) (error_kind error) result }
{
    match error.kind() {
        io::ErrorKind::NotFound => Ok(None),
        _ => Err(unopened(error)),
    }
}

/// Whether an error is that nothing was found at a path.
fn is_absent(error: &io::Error) -> bool
    ensures { IsTrue result → error_kind error.now ≡ NotFound }
{
    matches!(error.kind(), io::ErrorKind::NotFound)
}

impl<'a, R, W> SystemCalls<'a, R, W>
where
    R: FilePaths + AllocGlobal,
    W: Write + Copy + Drop,
{
    /// The calls for the file at a path, with a writer for notes.
    pub fn at(
        rt: &'a R,
        alloc: Global,
        notes: W,
        path: &str,
    ) -> Result<SystemCalls<'a, R, W>, AllocError>
        ensures { IfOk result (AreFor path.now) }
    {
        let path = String::from_str(alloc, path)?;
        Ok(SystemCalls {
            rt,
            alloc,
            notes,
            path,
            is_told: false,
            written: None,
            synced: None,
            is_clear: false,
        })
    }
}

impl<'a, R, W> SystemCalls<'a, R, W>
where
    R: FilePaths + AllocGlobal,
    W: Write + Copy + Drop,
{
    /// Before the first file beside is made, removes what ended processes have left.
    fn clear_once(&mut self) {
        if !self.is_clear {
            clear(self.rt, self.alloc, self.path.as_str());
            self.is_clear = true;
        }
    }

    /// Removes the file beside, if there is one.
    fn remove_beside(&mut self) {
        if let Some(written) = self.written.take() {
            remove_written(self.rt, written);
        }
        if let Some(synced) = self.synced.take() {
            remove_synced(self.rt, synced);
        }
    }

    /// Tells of a call that failed, if it is the first.
    fn tell(&mut self, error: &io::Error) {
        if !self.is_told {
            tell_refused(self.notes, self.path.as_str(), error);
            self.is_told = true;
        }
    }

    /// The error of a call that failed, which is told.
    fn told(&mut self, error: io::Error) -> io::Error {
        self.tell(&error);
        error
    }

    /// Whether a regular file stands at the path.
    fn is_there(&self) -> bool {
        matches!(self.rt.number_at(self.path.as_str()), Ok(Some(_)))
    }

    /// Opens the file to be read. One that got the name just behind the first try is opened by the second.
    fn open(&self) -> io::Result<(R::Handle, u64)>
        ensures { IfErr result (λ e. error_kind e ≡ NotFound → (R.facts self.now.rt.now).lacks (string_bytes self.now.path)) }
    {
        match self.rt.open_to_read(self.path.as_str()) {
            Err(error) if is_absent(&error) && self.is_there() => {
                self.rt.open_to_read(self.path.as_str())
            }
            opened => opened,
        }
    }

    /// Why the file wasn't opened, which is told, or that nothing stands at its path. A link that leads nowhere, as to a disk that isn't
    /// mounted, stands there, and can't be read.
    fn unless_none_stands(&mut self, error: io::Error) -> Result<(), ReadFault>
        ensures { OnOk result (error_kind error ≡ NotFound) }
    {
        if !is_absent(&error) {
            self.tell(&error);
            return Err(unopened(error));
        }
        if matches!(self.rt.number_at(self.path.as_str()), Ok(None)) {
            self.tell(&error);
            return Err(ReadFault::Unreadable);
        }
        match unless_absent(error) {
            Ok(_) => Ok(()),
            Err(fault) => Err(fault),
        }
    }
}

impl<'a, R, W> FileCalls for SystemCalls<'a, R, W>
where
    R: FilePaths + AllocGlobal,
    W: Write + Copy + Drop,
{
    ghost use Rattle.std.specs.IoError.{error_kind};
    ghost use Rattle.system_io.specs.FileCalls.{Failed, RenameFailed, Renamed, SyncedFile, SyncedFolder, Wrote, call_by_answer, read_call};
    ghost use Rattle.system_io.specs.Histories.{Passes};
    ghost use Rattle.system_io.specs.Premises.{system_calls};
    ghost use Rattle.system_io.specs.Reading.{read_fault_of};
    ghost use Rattle.system_io.specs.SystemFiles.{HasName, HasSynced, HasWritten};
    ghost use Rattle.system_io.specs.declared.reading.ReadFault.{ReadFault};

    ghost facts = { λ _. system_calls };

    fn read(&mut self, alloc: Global) -> Result<Option<Vec<u8>>, ReadFault>
        ensures short { IfOk result (λ got. IfSome got (λ v. length v.items ≤ 8217)) }
        ensures made { Passes system_calls.made system_calls.made (read_call result ∷ []) }
        ensures cause { IfErr result system_calls.fails }
        ensures still { (fault : ReadFault) → system_calls.fails fault → system_calls.fails fault }
        ensures nothing { IfOk result (λ got. IfNone got ((R.facts self.old.rt.now).lacks (string_bytes self.old.path))) }
    {
        let (mut file, length) = match self.open() {
            Ok(opened) => opened,
            Err(error) => {
                return match self.unless_none_stands(error) {
                    Ok(()) => Ok(None),
                    Err(fault) => Err(fault),
                };
            }
        };
        if let Err(error) = file.sync() {
            return Err(ReadFault::from(self.told(error)));
        }
        match read_at_most(alloc, file, length, MOST_KEPT_BYTES as u64) {
            Ok(bytes) => Ok(Some(bytes)),
            Err(fault) => {
                self.tell(&unread(fault));
                Err(fault)
            }
        }
    }

    fn write(&mut self, bytes: &[u8]) -> io::Result<()>
        ensures made { Passes system_calls.made system_calls.made (call_by_answer result (Wrote bytes.now) Failed ∷ []) }
        ensures beside { OnOk result (HasWritten R.Handle.facts (string_bytes self.new.path) bytes.now self.new.written) }
    {
        self.remove_beside();
        self.clear_once();
        match write_beside(self.rt, self.alloc, self.path.as_str(), bytes) {
            Ok(written) => {
                self.written = Some(written);
                Ok(())
            }
            Err(error) => Err(self.told(error)),
        }
    }

    fn sync(&mut self) -> io::Result<()>
        ensures made { Passes system_calls.made system_calls.made (call_by_answer result SyncedFile Failed ∷ []) }
        ensures synced { OnOk result (HasSynced R.Handle.facts self.old.written self.new.synced) }
    {
        let Some(written) = self.written.take() else {
            return Err(self.told(io::Error::from(io::ErrorKind::NotFound)));
        };
        match sync(self.rt, written) {
            Ok(synced) => {
                self.synced = Some(synced);
                Ok(())
            }
            Err(error) => Err(self.told(error)),
        }
    }

    fn rename(&mut self) -> io::Result<()>
        ensures made { Passes system_calls.made system_calls.made (call_by_answer result Renamed RenameFailed ∷ []) }
        ensures renamed { OnOk result (HasName (R.facts self.old.rt.now) (string_bytes self.old.path) self.old.synced) }
    {
        let Some(synced) = self.synced.take() else {
            return Err(self.told(io::Error::from(io::ErrorKind::NotFound)));
        };
        match rename(self.rt, synced, self.path.as_str()) {
            Ok(()) => Ok(()),
            Err(error) => Err(self.told(error)),
        }
    }

    fn sync_folder(&mut self) -> io::Result<()>
        ensures made { Passes system_calls.made system_calls.made (call_by_answer result SyncedFolder Failed ∷ []) }
        ensures cause { IfErr result (λ e. system_calls.fails (read_fault_of (error_kind e))) }
        ensures synced { OnOk result ((R.facts self.old.rt.now).syncs (string_bytes self.old.path)) }
    {
        match self.rt.sync_folder_of(self.path.as_str()) {
            Ok(()) => Ok(()),
            Err(error) => Err(self.told(error)),
        }
    }
}

/// A file of the system.
pub type SystemFile<'a, R, W> = CallLog<SystemCalls<'a, R, W>>;

impl<'a, R, W> CallLog<SystemCalls<'a, R, W>>
where
    R: Files<File = File> + AllocGlobal,
    W: Write + Copy + Drop,
{
    /// The file at a path, with nothing known about it yet, and a writer for notes.
    pub fn at(
        rt: &'a R,
        alloc: Global,
        notes: W,
        path: &str,
    ) -> Result<SystemFile<'a, R, W>, AllocError>
        ensures { IfOk result (IsAtPath path.now) }
    {
        Ok(CallLog::new(alloc, SystemCalls::at(rt, alloc, notes, path)?))
    }
}
