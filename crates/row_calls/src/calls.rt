//! Calls of the libraries that no command shows, each told as lines.

use crate::deliveries::tell_arbiter;
use crate::rounds::tell_rounds;
use crate::{files, positions, tables, texts};
use std::alloc::{AllocError, Global};
use system_fakes::MemoryDisk;

/// Why nothing is told.
#[derive(Clone, Copy)]
pub enum Fault {
    /// There is no such call, or it doesn't take the words or the input.
    Line,
    /// Memory was refused.
    Memory,
}

impl From<AllocError> for Fault {
    fn from(_e: AllocError) -> Fault {
        Fault::Memory
    }
}

/// What a call is given.
#[derive(Clone, Copy)]
pub struct Given<'a> {
    /// Its words.
    pub words: &'a [&'a str],
    /// The bytes of its input.
    pub input: &'a [u8],
    /// The disk on which the files are that its words name.
    pub disk: &'a MemoryDisk<'a>,
}

/// A number.
pub(crate) fn number_of(text: &str) -> Result<usize, Fault> {
    text.parse::<usize>().or(Err(Fault::Line))
}

/// A line's first word, and what follows.
pub(crate) fn parted(line: &str) -> (&str, &str) {
    line.split_once(' ').unwrap_or((line, ""))
}

impl<'a> Given<'a> {
    /// The word at a place, the first being 0.
    pub(crate) fn word(&self, place: usize) -> Result<&'a str, Fault> {
        self.words.get(place).copied().ok_or(Fault::Line)
    }
}

/// Adds what the call of this name gives, as lines. The names, and what each call takes and tells, are those of
/// `crates/rows/data/README.md`, "Calls".
///
/// `Line` where there is no such call, or it doesn't take what it is given.
pub fn tell_call(
    alloc: Global,
    told: &mut String,
    name: &str,
    given: &Given<'_>,
) -> Result<(), Fault> {
    if let Some(done) = positions::tell(alloc, told, name, given) {
        return done;
    }
    if let Some(done) = texts::tell(alloc, told, name, given) {
        return done;
    }
    if let Some(done) = tables::tell(alloc, told, name, given) {
        return done;
    }
    if let Some(done) = files::tell(alloc, told, name, given) {
        return done;
    }
    match name {
        "arbiter" => tell_arbiter(alloc, told, given),
        "rounds" => tell_rounds(alloc, told, given),
        _ => Err(Fault::Line),
    }
}
