//! A case: the input of the program, and what is wanted of it.

use crate::pieces::{Fault, add_piece, number_of};
use crate::shelf::{Shelf, head_of, is_comment, parted};
use std::alloc::{AllocError, Global};
use system_fakes::{MemoryInput, Outcome};
use timeline_fakes::{Binds, KeptStart};

/// What is run.
#[derive(Clone, Copy)]
pub(crate) enum Call<'t> {
    /// The program over the files of the shelf.
    Shelf,
    /// The words are paths of the system, which are read.
    System,
    /// The words are only read, as the task of this name.
    Task(&'t str),
    /// An answerer gets the lines of the input. It answers the number of bytes of each.
    Lines,
    /// The call of a library that has this name.
    Library(&'t str),
}

/// What stands where a record is kept.
#[derive(Clone, Copy)]
enum Stands {
    /// Nothing.
    Nothing,
    /// A file.
    Bytes,
    /// Something that can't be read.
    Unreadable,
    /// Nothing, in a folder that can't be synced.
    Unsettled,
}

/// What is wanted.
#[derive(Drop)]
pub(crate) struct Wanted {
    pub(crate) output: Vec<u8>,
    /// The output need only begin so.
    pub(crate) is_front: bool,
    pub(crate) errors: Vec<u8>,
    pub(crate) status: u8,
    /// How many notes there are.
    pub(crate) notes: usize,
}

/// A case.
#[derive(Drop)]
pub(crate) struct Case<'t> {
    pub(crate) call: Call<'t>,
    pub(crate) words: Vec<&'t str>,
    pub(crate) wanted: Wanted,
    /// How many of the writes and flushes are refused in turn, each in a run of its own.
    pub(crate) refused_writes: usize,
    /// The number of a call that fails, of those that may.
    pub(crate) fails_at: Option<usize>,
    /// Standard error can't be written.
    pub(crate) is_mute: bool,
    input: Vec<u8>,
    /// Standard input fails behind its bytes.
    input_fails: bool,
    is_bound: bool,
    datagrams: Vec<Vec<u8>>,
    stands: Stands,
    kept: Vec<u8>,
    /// What comes of the calls for a file in a folder that can't be synced: the first fails.
    unsettled: [Outcome; 1],
}

/// Adds the words of a text. Those in double quotes, with the spaces in them, are one.
fn add_words<'t>(words: &mut Vec<&'t str>, text: &'t str) -> Result<(), AllocError> {
    for (place, part) in text.split('"').enumerate() {
        if place % 2 == 1 {
            words.push(part)?;
        } else {
            add_parted(words, part)?;
        }
    }
    Ok(())
}

/// Adds the words of a text without quotes.
fn add_parted<'t>(words: &mut Vec<&'t str>, text: &'t str) -> Result<(), AllocError> {
    for word in text.split_ascii_whitespace() {
        words.push(word)?;
    }
    Ok(())
}

impl Wanted {
    /// Nothing, and the status 0.
    fn new(alloc: Global) -> Wanted {
        Wanted {
            output: Vec::new(alloc),
            is_front: false,
            errors: Vec::new(alloc),
            status: 0,
            notes: 0,
        }
    }
}

impl<'t> Case<'t> {
    /// One without words, input or a port that can be bound, of which nothing is wanted.
    pub(crate) fn new(alloc: Global) -> Case<'t> {
        Case {
            call: Call::Shelf,
            words: Vec::new(alloc),
            wanted: Wanted::new(alloc),
            refused_writes: 0,
            fails_at: None,
            is_mute: false,
            input: Vec::new(alloc),
            input_fails: true,
            is_bound: false,
            datagrams: Vec::new(alloc),
            stands: Stands::Unreadable,
            kept: Vec::new(alloc),
            unsettled: [Outcome::Before],
        }
    }

    /// Its standard input.
    pub(crate) fn input(&self) -> MemoryInput<'_> {
        MemoryInput {
            bytes: &self.input,
            fails: self.input_fails,
        }
    }

    /// Where a port can be bound.
    pub(crate) fn binds(&self) -> Binds<'_> {
        if self.is_bound {
            Binds::At("b:1", "t:1")
        } else {
            Binds::Nowhere
        }
    }

    /// The datagrams that wait at that port.
    pub(crate) fn datagrams(&self) -> &[Vec<u8>] {
        &self.datagrams
    }

    /// What stands where something is to be kept.
    pub(crate) fn elsewhere(&self) -> KeptStart<'_> {
        KeptStart {
            bytes: match self.stands {
                Stands::Bytes => Some(self.kept.as_slice()),
                _ => None,
            },
            outcomes: match self.stands {
                Stands::Unsettled => &self.unsettled,
                _ => &[],
            },
            reads_fail: matches!(self.stands, Stands::Unreadable),
        }
    }

    /// The bytes of its standard input.
    pub(crate) fn input_bytes(&self) -> &[u8] {
        &self.input
    }

    /// Adds a piece of the input, or that it fails behind what it has.
    fn add_input(
        &mut self,
        alloc: Global,
        shelf: &Shelf<'_>,
        kind: &str,
        text: &str,
    ) -> Result<(), Fault> {
        self.input_fails = kind == "!";
        if self.input_fails {
            return Ok(());
        }
        add_piece(alloc, shelf, &mut self.input, kind, text)
    }

    /// Adds a datagram that waits at the port.
    fn add_datagram(
        &mut self,
        alloc: Global,
        shelf: &Shelf<'_>,
        digits: &str,
    ) -> Result<(), Fault> {
        let mut datagram = Vec::new(alloc);
        add_piece(alloc, shelf, &mut datagram, "x", digits)?;
        match self.datagrams.push(datagram) {
            Ok(()) => Ok(()),
            Err(_) => Err(Fault::Memory),
        }
    }

    /// Sets what stands where the record is to be kept.
    fn set_kept(&mut self, alloc: Global, shelf: &Shelf<'_>, text: &str) -> Result<(), Fault> {
        self.stands = match text {
            "nothing" => Stands::Nothing,
            "unreadable" => Stands::Unreadable,
            "unsettled" => Stands::Unsettled,
            _ => Stands::Bytes,
        };
        match text.strip_prefix("bytes") {
            Some(digits) => add_piece(alloc, shelf, &mut self.kept, "x", digits.trim_start()),
            None if matches!(self.stands, Stands::Bytes) => Err(Fault::Line),
            None => Ok(()),
        }
    }

    /// Sets the status that is wanted.
    fn set_status(&mut self, text: &str) -> Result<(), Fault> {
        match text.parse::<u8>() {
            Ok(status) => {
                self.wanted.status = status;
                Ok(())
            }
            Err(_) => Err(Fault::Line),
        }
    }

    /// Sets what a line of one word and a value says.
    fn set(
        &mut self,
        alloc: Global,
        shelf: &Shelf<'_>,
        word: &str,
        text: &'t str,
    ) -> Result<(), Fault> {
        match word {
            "$" => return Ok(add_words(&mut self.words, text)?),
            "status" => return self.set_status(text),
            "datagram" => return self.add_datagram(alloc, shelf, text),
            "kept" => return self.set_kept(alloc, shelf, text),
            "writes" => self.refused_writes = number_of(text)?,
            "fails" => self.fails_at = Some(number_of(text)?),
            "notes" => self.wanted.notes = number_of(text)?,
            "task" => self.call = Call::Task(text),
            "call" => self.call = Call::Library(text),
            _ => return self.mark(word, text),
        }
        Ok(())
    }

    /// Sets what a line of one word says.
    fn mark(&mut self, word: &str, text: &str) -> Result<(), Fault> {
        match word {
            "tell" => self.call = Call::Lines,
            "system" => self.call = Call::System,
            "bound" => self.is_bound = true,
            "mute" => self.is_mute = true,
            "front" => self.wanted.is_front = true,
            _ => return Err(Fault::Line),
        }
        if text.is_empty() {
            Ok(())
        } else {
            Err(Fault::Line)
        }
    }

    /// Adds what a line says.
    fn add(&mut self, alloc: Global, shelf: &Shelf<'_>, line: &'t str) -> Result<(), Fault> {
        let (word, text) = parted(line);
        if let Some(kind) = word.strip_prefix('<') {
            return self.add_input(alloc, shelf, kind, text);
        }
        if let Some(kind) = word.strip_prefix('>') {
            return add_piece(alloc, shelf, &mut self.wanted.output, kind, text);
        }
        if let Some(kind) = word.strip_prefix('!') {
            return add_piece(alloc, shelf, &mut self.wanted.errors, kind, text);
        }
        self.set(alloc, shelf, word, text)
    }

    /// Adds what the lines of a paragraph say.
    pub(crate) fn read(
        &mut self,
        alloc: Global,
        shelf: &Shelf<'_>,
        paragraph: &'t str,
    ) -> Result<(), Fault> {
        for line in paragraph.lines() {
            if !is_comment(line) {
                self.add(alloc, shelf, line)?;
            }
        }
        Ok(())
    }
}

/// Whether a paragraph is a case: it says something, and not of a file, its mode or a folder.
pub(crate) fn is_case(paragraph: &str) -> bool {
    let (word, _) = parted(head_of(paragraph));
    !matches!(word, "" | "file" | "mode" | "folder")
}
