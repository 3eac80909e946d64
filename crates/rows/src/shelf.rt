//! The files and folders that the cases share.

use crate::pieces::{Fault, add_piece};
use std::alloc::{AllocError, Global};
use system_fakes::AtPath;

/// A file.
#[derive(Drop)]
struct Stored<'t> {
    path: &'t str,
    bytes: Vec<u8>,
}

/// A folder and the names that it lists.
#[derive(Drop)]
struct Folder<'t> {
    path: &'t str,
    names: Vec<&'t str>,
}

/// All files and folders.
#[derive(Drop)]
pub(crate) struct Shelf<'t> {
    files: Vec<Stored<'t>>,
    modes: Vec<AtPath<'t, u32>>,
    folders: Vec<Folder<'t>>,
}

/// Whether a line says nothing.
pub(crate) fn is_comment(line: &str) -> bool {
    line.is_empty() || line.starts_with('#')
}

/// The first line of a paragraph that says something.
pub(crate) fn head_of(paragraph: &str) -> &str {
    for line in paragraph.lines() {
        if !is_comment(line) {
            return line;
        }
    }
    ""
}

/// A line's first word, and what follows.
pub(crate) fn parted(line: &str) -> (&str, &str) {
    line.split_once(' ').unwrap_or((line, ""))
}

impl<'t> Shelf<'t> {
    /// Without any.
    pub(crate) fn new(alloc: Global) -> Shelf<'t> {
        Shelf {
            files: Vec::new(alloc),
            modes: Vec::new(alloc),
            folders: Vec::new(alloc),
        }
    }

    /// What the file at a path holds.
    pub(crate) fn bytes_at(&self, path: &str) -> Option<&[u8]> {
        for file in &self.files {
            if file.path == path {
                return Some(&file.bytes);
            }
        }
        None
    }

    /// Adds what a line of a file's paragraph says.
    fn add_line(&self, alloc: Global, bytes: &mut Vec<u8>, line: &str) -> Result<(), Fault> {
        let (mark, text) = parted(line);
        match mark.strip_prefix('|') {
            Some(kind) => add_piece(alloc, self, bytes, kind, text),
            None if is_comment(line) || mark == "file" => Ok(()),
            None => Err(Fault::Line),
        }
    }

    /// What the lines of a file's paragraph say.
    fn bytes_of(&self, alloc: Global, paragraph: &str) -> Result<Vec<u8>, Fault> {
        let mut bytes = Vec::new(alloc);
        for line in paragraph.lines() {
            self.add_line(alloc, &mut bytes, line)?;
        }
        Ok(bytes)
    }

    /// Adds the file of a paragraph. The path has none yet.
    fn add_file(&mut self, alloc: Global, path: &'t str, paragraph: &str) -> Result<(), Fault> {
        if self.bytes_at(path).is_some() {
            return Err(Fault::Line);
        }
        let bytes = self.bytes_of(alloc, paragraph)?;
        match self.files.push(Stored { path, bytes }) {
            Ok(()) => Ok(()),
            Err(_) => Err(Fault::Memory),
        }
    }

    /// Adds a folder by its path and its names.
    fn add_folder(&mut self, alloc: Global, text: &'t str) -> Result<(), Fault> {
        let (path, names) = parted(text);
        let names = words_of(alloc, names)?;
        match self.folders.push(Folder { path, names }) {
            Ok(()) => Ok(()),
            Err(_) => Err(Fault::Memory),
        }
    }

    /// Adds the mode of a file, in octal digits, by its path.
    fn add_mode(&mut self, text: &'t str) -> Result<(), Fault> {
        let (path, digits) = parted(text);
        let Ok(holds) = u32::from_str_radix(digits, 8) else {
            return Err(Fault::Line);
        };
        match self.modes.push(AtPath { path, holds }) {
            Ok(()) => Ok(()),
            Err(_) => Err(Fault::Memory),
        }
    }

    /// The modes of files by their paths.
    pub(crate) fn modes(&self) -> &[AtPath<'t, u32>] {
        &self.modes
    }

    /// Adds the file, the mode or the folder of a paragraph, if it has one.
    pub(crate) fn add(&mut self, alloc: Global, paragraph: &'t str) -> Result<(), Fault> {
        let (word, text) = parted(head_of(paragraph));
        match word {
            "file" => self.add_file(alloc, text, paragraph),
            "mode" => self.add_mode(text),
            "folder" => self.add_folder(alloc, text),
            _ => Ok(()),
        }
    }

    /// The files by their paths.
    pub(crate) fn files(&self, alloc: Global) -> Result<Vec<AtPath<'_, &[u8]>>, AllocError> {
        let mut files = Vec::new(alloc);
        for file in &self.files {
            files.push(AtPath {
                path: file.path,
                holds: file.bytes.as_slice(),
            })?;
        }
        Ok(files)
    }

    /// The folders by their paths.
    pub(crate) fn folders(&self, alloc: Global) -> Result<Vec<AtPath<'_, &[&str]>>, AllocError> {
        let mut folders = Vec::new(alloc);
        for folder in &self.folders {
            folders.push(AtPath {
                path: folder.path,
                holds: folder.names.as_slice(),
            })?;
        }
        Ok(folders)
    }
}

/// The words of a text.
fn words_of<'t>(alloc: Global, text: &'t str) -> Result<Vec<&'t str>, AllocError> {
    let mut words = Vec::new(alloc);
    for word in text.split_ascii_whitespace() {
        words.push(word)?;
    }
    Ok(words)
}
