//! Folders of tables.

ghost use Rattle.std.specs.Prelude.{◌≡◌, ◌↔◌, ℕ, List, map, Some, None, IfOk, IfErr, IfSome, IfNone, IsErrOf, IsTrue, Ok, Err};
ghost use Rattle.std.specs.List.{Contains};
ghost use Rattle.move_msg.specs.Manifests.{entry_of};
ghost use Rattle.move_msg.specs.ToldBy.{told_by};
ghost use Rattle.task_files.specs.Outside.{FolderFails};
ghost use Rattle.table_file.specs.Names.{file_name};
ghost use Rattle.table_file.specs.Tables.{contents_at};
ghost use Rattle.table_folder.specs.Folders.{HasTable, IsFolderAt, Says, digest_in, found_in, found_table};
ghost use Rattle.table_folder.specs.Inside.{folder_of};
ghost use Rattle.table_folder.specs.Reads.{LooksAt, OpensFolder, PassesSome, PassesThere};

use crate::fault::FileFault;
use crate::files::TableFiles;
use bumpalo::Bump;
use move_msg::{Line, Manifest, file_digest};
use place_index::Material;
use std::alloc::{AllocError, Global};
use std::marker::Model;
use std::rc::RcSlice;
use system_io::ReadFault;
use table_file::{Table, TableFault, TableKind, file_name, open};
use task_files::FileName;

/// A folder of tables whose files are read when they are asked for.
///
/// Contracts see the disk and the folder: its path, the names of the files that it lists, and the manifest. The bytes of the tables
/// that are opened stay in the arena until that is dropped. An arena with a limit bounds them: where a table has no more room in it,
/// memory is refused.
#[derive(Drop)]
pub struct TableFolder<'r, F> {
    disk: &'r F,
    path: &'r str,
    manifest: &'r Manifest,
    names: RcSlice<FileName>,
    arena: &'r Bump,
}

impl<'r, F> Model for TableFolder<'r, F> {
    ghost use Rattle.std.specs.Rc.{rc_slice_items};
    ghost use Rattle.move_msg.specs.ToldBy.{told_by};
    ghost use Rattle.table_folder.specs.Folders.{FolderOn};

    ghost Value = { FolderOn F };

    ghost view = { λ f. record { disk = f.disk.now; folder = record { path = f.path.now; names = rc_slice_items f.names; manifest = told_by f.manifest.now } } };
}

/// The table of a file.
pub fn open_file<'f>(
    alloc: Global,
    name: &str,
    bytes: &'f [u8],
) -> Result<Result<Table<'f>, FileFault>, AllocError>
    ensures { IfOk result (λ found. found ≡ found_table (contents_at name.now bytes.now)) }
{
    match open(alloc, name.as_bytes(), bytes) {
        Ok(table) => Ok(Ok(table)),
        Err(TableFault::OutOfMemory) => Err(AllocError),
        Err(fault) => Ok(Err(FileFault::Bad(fault))),
    }
}

/// The digest that the lines of a manifest have for a name.
fn digest_of(lines: &[Line], name: &str) -> Option<[u8; 32]>
    ensures { result ≡ digest_in (Some (Ok (map entry_of lines.now))) name.now }
{
    for line in lines {
        if line.name.as_str() == name {
            return Some(line.digest);
        }
    }
    None
}

impl<'r, F: TableFiles> TableFolder<'r, F> {
    /// The folder at a path: its names are listed, and no file is read. With a manifest the tables are those that it names, and their
    /// files are held to its digests.
    ///
    /// `Unreadable` where the folder can't be read, or lists a name twice that is wanted. `OutOfMemory` where memory is refused.
    pub fn open(
        alloc: Global,
        disk: &'r F,
        log: &mut F::Log,
        path: &'r str,
        manifest: &'r Manifest,
        arena: &'r Bump,
    ) -> Result<TableFolder<'r, F>, ReadFault>
        ensures disk { IfOk result (λ f. f.disk ≡ disk.now) }
        ensures folder { IfOk result (λ f. IsFolderAt (F.facts disk.now) path.now (told_by manifest.now) f.folder) }
        ensures cause { IsErrOf result ReadFault.Unreadable → FolderFails (F.facts disk.now) path.now (told_by manifest.now) }
        ensures made { PassesSome (F.events disk.now log.old) (F.events disk.now log.new) (OpensFolder (F.facts disk.now) path.now manifest.now (folder_of result)) }
    {
        let names = match disk.wanted_names(log, alloc, path, manifest) {
            Ok(names) => names,
            Err(fault) => return Err(fault),
        };
        match RcSlice::from_vec(names) {
            Ok(names) => Ok(TableFolder {
                disk,
                path,
                manifest,
                names,
                arena,
            }),
            Err(_) => Err(ReadFault::OutOfMemory),
        }
    }

    /// This folder over another arena, where the bytes of the tables stay that it opens. The error comes where memory is refused.
    pub fn apart<'s>(&self, arena: &'s Bump) -> Result<TableFolder<'s, F>, AllocError>
    where
        'r: 's,
        ensures { IfOk result (λ folder. folder ≡ self.now) }
    {
        let names = self.names.clone()?;
        Ok(TableFolder {
            disk: self.disk,
            path: self.path,
            manifest: self.manifest,
            names,
            arena,
        })
    }

    /// The name of a file that the folder lists.
    fn listed(&self, name: &str) -> Option<&FileName>
        ensures some { IfSome result (λ listed. (listed.now ≡ name.now) × Contains self.now.folder.names name.now) }
        ensures none { IfNone result (Contains self.now.folder.names name.now → ⊥) }
    {
        for listed in self.names.as_slice() {
            if listed.as_str() == name {
                return Some(listed);
            }
        }
        None
    }

    /// The digest that the manifest has for a name; none without a manifest.
    fn digest(&self, name: &str) -> Option<[u8; 32]>
        ensures { result ≡ digest_in self.now.folder.manifest name.now }
    {
        match self.manifest {
            Manifest::Lines(lines) => digest_of(lines, name),
            Manifest::Unnamed | Manifest::BadLine(_) => None,
        }
    }

    /// Whether the folder has a table of this kind for the material: its manifest names the file, or without one the folder lists it.
    pub fn has(&self, kind: TableKind, material: &Material) -> bool
        ensures { IsTrue result ↔ HasTable self.now.folder kind material.now }
    {
        let name = file_name(kind, material);
        match self.manifest {
            Manifest::Unnamed => self.listed(name.as_str()).is_some(),
            _ => self.digest(name.as_str()).is_some(),
        }
    }

    /// The table of bytes that are kept in the arena, but for those of no table.
    fn keep(
        &self,
        alloc: Global,
        name: &str,
        bytes: &[u8],
    ) -> Result<Result<Table<'r>, FileFault>, AllocError>
        ensures { IfOk result (λ found. found ≡ found_table (contents_at name.now bytes.now)) }
    {
        // Bytes in the arena stay, so those at fault aren't put there, however often they are asked for.
        if let Err(fault) = open_file(alloc, name, bytes)? {
            return Ok(Err(fault));
        }
        let kept = self.arena.try_alloc_slice_copy(bytes)?;
        open_file(alloc, name, kept)
    }

    /// The table of the bytes of a file of this name, where they agree with the manifest.
    fn table_in(
        &self,
        alloc: Global,
        name: &str,
        bytes: &[u8],
    ) -> Result<Result<Table<'r>, FileFault>, AllocError>
        ensures { IfOk result (λ found. found ≡ found_in (digest_in self.now.folder.manifest name.now) name.now bytes.now) }
    {
        match self.digest(name) {
            None => self.keep(alloc, name, bytes),
            Some(digest) => {
                if file_digest(bytes) == digest {
                    self.keep(alloc, name, bytes)
                } else {
                    Ok(Err(FileFault::Changed))
                }
            }
        }
    }

    /// The table of a listed file, which is read.
    fn table_of(
        &self,
        log: &mut F::Log,
        alloc: Global,
        listed: &FileName,
    ) -> Result<Result<Table<'r>, FileFault>, AllocError>
        requires { Contains self.now.folder.names listed.now }
        ensures { PassesSome (F.events self.now.disk log.old) (F.events self.now.disk log.new) (LooksAt (F.facts self.now.disk) self.now.folder listed.now result) }
    {
        match self.disk.table_file(log, alloc, self.path, listed) {
            Ok(file) => self.table_in(alloc, listed.as_str(), &file.bytes),
            Err(ReadFault::Unreadable) => Ok(Err(FileFault::Unreadable)),
            Err(ReadFault::OutOfMemory) => Err(AllocError),
        }
    }

    /// The table of a kind for a material, as the folder's file of its name has it. That file is read, if it is listed.
    pub(crate) fn table(
        &self,
        log: &mut F::Log,
        alloc: Global,
        kind: TableKind,
        material: &Material,
    ) -> Result<Result<Table<'r>, FileFault>, AllocError>
        ensures says { IfOk result (Says (F.facts self.now.disk) self.now.folder (file_name kind material.now)) }
        ensures made { PassesThere F.events F.facts self.now log.old log.new (λ disk folder. LooksAt disk folder (file_name kind material.now) result) }
    {
        match self.listed(file_name(kind, material).as_str()) {
            Some(listed) => self.table_of(log, alloc, listed),
            None => Ok(Err(FileFault::Missing)),
        }
    }
}
