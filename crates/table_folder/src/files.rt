//! Where the names of a folder are listed, and the files of its tables are read.

ghost use Rattle.std.specs.Prelude.{List, Option};
ghost use Rattle.system_io.specs.Disks.{DiskFacts};
ghost use Rattle.task_files.specs.TableReads.{ListsTables, ReadsTable, listed, taken_file};
ghost use Rattle.timeline.specs.Events.{Event};
ghost use Rattle.table_folder.specs.Reads.{PassesSome};

use move_msg::{Manifest, NamedFile};
use std::alloc::Global;
use system_io::ReadFault;
use task_files::{FileName, list_tables, read_table};
use timeline::System;

/// Where the names of a folder are listed, and the files of its tables are read, as a system with a timeline does it (`SystemFiles`).
pub trait TableFiles {
    /// What happened so far.
    type Log;

    /// What folders list, what files hold, and what can't be read.
    ghost facts: { Self → DiskFacts };

    /// What happened so far, in order; none where it isn't recorded.
    ghost events: { Self → Self.Log → Option (List Event) };

    /// The names of the wanted table files of a folder, in rising order, as `list_tables` of task_files has them. No file is read.
    ///
    /// `Unreadable` where the folder can't be read or lists one of them twice, `OutOfMemory` where memory is refused.
    fn wanted_names(
        &self,
        log: &mut Self::Log,
        alloc: Global,
        folder: &str,
        manifest: &Manifest,
    ) -> Result<Vec<FileName>, ReadFault>
        ensures { PassesSome (events self.now log.old) (events self.now log.new) (ListsTables (facts self.now) folder.now manifest.now (listed result)) };

    /// The file of this name in a folder, with the bytes at its path.
    ///
    /// `Unreadable` where it can't be read or has more than 2^30 bytes, `OutOfMemory` where memory is refused.
    fn table_file(
        &self,
        log: &mut Self::Log,
        alloc: Global,
        folder: &str,
        name: &FileName,
    ) -> Result<NamedFile, ReadFault>
        ensures { PassesSome (events self.now log.old) (events self.now log.new) (ReadsTable (facts self.now) folder.now name.now (taken_file result)) };
}

/// The files of a system, over its timeline.
#[derive(Drop)]
pub struct SystemFiles<'s, S> {
    /// The system.
    pub system: &'s S,
}

impl<'s, S: System> TableFiles for SystemFiles<'s, S> {
    type Log = S::Timeline;

    ghost facts = { λ f. (S.outside f.system.now).disk };

    ghost events = { λ f t. (S.outside f.system.now).events t };

    fn wanted_names(
        &self,
        log: &mut S::Timeline,
        alloc: Global,
        folder: &str,
        manifest: &Manifest,
    ) -> Result<Vec<FileName>, ReadFault> {
        list_tables(alloc, self.system, log, folder, manifest)
    }

    fn table_file(
        &self,
        log: &mut S::Timeline,
        alloc: Global,
        folder: &str,
        name: &FileName,
    ) -> Result<NamedFile, ReadFault> {
        read_table(alloc, self.system, log, folder, name)
    }
}
