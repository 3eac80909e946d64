//! The tables of files, and their manifest.

ghost use Rattle.std.specs.Prelude.{◌≡◌, ◌≤◌, ◌⊎◌, map, IfOk, IfErr, Ok, Err};
ghost use Rattle.relay_world.specs.declared.fault.WorldFault.TheVariants.{OutOfMemory};
ghost use Rattle.relay_world.specs.Gathering.{filled_unless_faulty, found_in, tables_of, tables_from, with_table};

use crate::fault::WorldFault;
use crate::file::file_at;
use judge_core::{Set, SetFault};
use std::alloc::{AllocError, Global};
use table_file::{Table, TableFault, open};

/// The table of a file.
fn open_file<'f>(
    alloc: Global,
    name: &[u8],
    bytes: &'f [u8],
) -> Result<Result<Table<'f>, TableFault>, AllocError>
    ensures { IfOk result (λ found. found ≡ found_in (record { name = name.now; bytes = bytes.now })) }
{
    match open(alloc, name, bytes) {
        Ok(table) => Ok(Ok(table)),
        Err(TableFault::OutOfMemory) => Err(AllocError),
        Err(fault) => Ok(Err(fault)),
    }
}

/// Adds the table of the file at this place.
fn add<'f>(
    set: &mut Set<'f>,
    place: usize,
    found: Result<Table<'f>, TableFault>,
) -> Result<Result<(), WorldFault>, AllocError>
    ensures tables { IfOk result (λ added. filled_unless_faulty added set.new.tables ≡ with_table set.old.tables place found.entry) }
    ensures cache { IfOk result (λ _. set.new.cache ≡ set.old.cache) }
{
    match found {
        Err(fault) => Ok(Err(WorldFault::BadTable(place, fault))),
        Ok(table) => match set.add(table) {
            Ok(()) => Ok(Ok(())),
            Err(SetFault::Duplicate) => Ok(Err(WorldFault::DuplicateTable(place))),
            Err(SetFault::OutOfMemory) => Err(AllocError),
        },
    }
}

/// Adds the tables of all files, up to the first that is at fault.
fn add_all<'f>(
    alloc: Global,
    set: &mut Set<'f>,
    files: &'f [(&'f [u8], &'f [u8])],
) -> Result<Result<(), WorldFault>, AllocError>
    ensures tables { IfOk result (λ added. filled_unless_faulty added set.new.tables ≡ tables_from set.old.tables 0 (map found_in (map (λ f. record { name = f.0.now; bytes = f.1.now }) files.now))) }
    ensures cache { IfOk result (λ _. set.new.cache ≡ set.old.cache) }
{
    for place in 0..files.len() {
        let file = file_at(files, place);
        let found = open_file(alloc, file.name, file.bytes)?;
        match add(set, place, found)? {
            Ok(()) => {}
            Err(fault) => return Ok(Err(fault)),
        }
    }
    Ok(Ok(()))
}

/// The set of the tables of files, with a cache of `cache` blocks, or the first fault, place by place.
pub(crate) fn gather<'f>(
    alloc: Global,
    cache: usize,
    files: &'f [(&'f [u8], &'f [u8])],
) -> Result<Set<'f>, WorldFault>
    requires some { 1 ≤ cache }
    requires most { cache ≤ 4096 }
    ensures ok { IfOk result (λ set. tables_of (map (λ f. record { name = f.0.now; bytes = f.1.now }) files.now) ≡ Ok set.tables) }
    ensures cache { IfOk result (λ set. set.cache ≡ cache) }
    ensures err { IfErr result (λ fault. (fault ≡ OutOfMemory) ⊎ (tables_of (map (λ f. record { name = f.0.now; bytes = f.1.now }) files.now) ≡ Err fault)) }
{
    let Ok(set) = Set::new(alloc, cache) else {
        return Err(WorldFault::OutOfMemory);
    };
    let mut set = set;
    match add_all(alloc, &mut set, files) {
        Ok(Ok(())) => Ok(set),
        Ok(Err(fault)) => Err(fault),
        Err(_) => Err(WorldFault::OutOfMemory),
    }
}
