//! What a task names, and what was read for it: the files of its folder, its manifest and the input.

ghost use Rattle.std.specs.Prelude.{◌≡◌, map};
ghost use Rattle.move_msg.specs.Files.{AreFiles, table_file_of};
ghost use Rattle.move_msg.specs.ToldBy.{told_by};
ghost use Rattle.task_files.specs.Sources.{named_by, nothing};

use move_msg::{Manifest, NamedFile};
use std::marker::Model;

/// What is read for a task: the folder of its tables, the file of its manifest, whether the input is, and kept files.
#[derive(Clone, Copy)]
pub struct InputPaths<'a> {
    /// The path of the folder, if one is read.
    pub folder: Option<&'a str>,
    /// The path of the manifest, if one is read.
    pub manifest: Option<&'a str>,
    /// Whether the input is read, to its end.
    pub reads_input: bool,
    /// The path of a kept file, if one is read.
    pub kept: Option<&'a str>,
    /// The path of a second kept file, if one is read.
    pub other_kept: Option<&'a str>,
}

impl<'a> InputPaths<'a> {
    /// Nothing is read.
    pub fn none() -> InputPaths<'a>
        ensures { named_by result ≡ nothing }
    {
        InputPaths {
            folder: None,
            manifest: None,
            reads_input: false,
            kept: None,
            other_kept: None,
        }
    }
}

/// What was read for a task. Contracts see the files, the contents of the manifest, the input, and the bytes of the
/// kept files.
#[derive(Drop)]
pub struct Inputs {
    pub(crate) files: Vec<NamedFile>,
    pub(crate) manifest: Manifest,
    pub(crate) input: Vec<u8>,
    pub(crate) kept: Vec<u8>,
    pub(crate) other_kept: Vec<u8>,
}

impl Model for Inputs {
    ghost use Rattle.std.specs.Prelude.{map};
    ghost use Rattle.move_msg.specs.Files.{AreFiles, table_file_of};
    ghost use Rattle.task_files.specs.Given.{Given};
    ghost use Rattle.move_msg.specs.ToldBy.{told_by};

    ghost Value = { Given };

    ghost view = { λ s. record { files = map table_file_of s.files.items; told = told_by s.manifest; input = s.input.items; kept = s.kept.items; other_kept = s.other_kept.items } };

    ghost invariant = { λ s. AreFiles (map table_file_of s.files.items) };
}

/// What is read beside tables: the input, and two kept files.
#[derive(Drop)]
pub(crate) struct Texts {
    pub(crate) input: Vec<u8>,
    pub(crate) kept: Vec<u8>,
    pub(crate) other_kept: Vec<u8>,
}

impl Inputs {
    /// The files, in rising order of names; none where no folder is read.
    pub fn files(&self) -> &[NamedFile]
        ensures files { map table_file_of result.now ≡ self.now.files }
        ensures rising { AreFiles (map table_file_of result.now) }
    {
        &self.files
    }

    /// The manifest.
    pub fn manifest(&self) -> &Manifest
        ensures { told_by result.now ≡ self.now.told }
    {
        &self.manifest
    }

    /// The input; empty where none is read.
    pub fn input(&self) -> &[u8]
        ensures { result.now ≡ self.now.input }
    {
        &self.input
    }

    /// The bytes of the kept file; empty where none is read.
    pub fn kept(&self) -> &[u8]
        ensures { result.now ≡ self.now.kept }
    {
        &self.kept
    }

    /// The bytes of the second kept file; empty where none is read.
    pub fn other_kept(&self) -> &[u8]
        ensures { result.now ≡ self.now.other_kept }
    {
        &self.other_kept
    }
}
