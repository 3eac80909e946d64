//! An input in memory, which may fail at its end.

ghost use Rattle.std.specs.Prelude.{◌≡◌, ◌↔◌, IsTrue, false};
ghost use Rattle.system_fakes.specs.MemoryInputs.{HasNoEnd};

use std::alloc::{AllocError, Global};
use std::io::BufRead;
use system_io::{Input, LineReader, MOST_BYTES, ReadFault, drop_line_feed};

/// An input of these bytes, which ends after them or fails there.
#[derive(Clone, Copy)]
pub struct MemoryInput<'a> {
    pub bytes: &'a [u8],
    pub fails: bool,
}

impl<'a> MemoryInput<'a> {
    /// Whether it can't be read to its end, since it fails there or has more than 2^30 bytes.
    fn has_no_end(&self) -> bool
        ensures { IsTrue result ↔ HasNoEnd self.now }
    {
        self.fails || self.bytes.len() as u64 > MOST_BYTES
    }
}

/// The lines of an input in memory, all of which have already arrived.
#[derive(Drop)]
pub struct MemoryLines<'a> {
    left: &'a [u8],
    fails: bool,
}

impl<'a> MemoryLines<'a> {
    /// The lines of bytes that end.
    pub(crate) fn of(bytes: &'a [u8]) -> MemoryLines<'a>
        ensures bytes { result.left.now ≡ bytes.now }
        ensures whole { result.fails ≡ false }
    {
        MemoryLines {
            left: bytes,
            fails: false,
        }
    }
}

impl<'a> LineReader for MemoryLines<'a> {
    ghost use Rattle.system_fakes.specs.MemoryInputs.{memory_line_facts};

    ghost facts = { memory_line_facts };

    fn next_line(&mut self, line: &mut Vec<u8>) -> Result<bool, ReadFault> {
        line.clear();
        if self.left.is_empty() {
            return if self.fails {
                Err(ReadFault::Unreadable)
            } else {
                Ok(false)
            };
        }
        match self.left.read_until(b'\n', line) {
            Ok(_) => {
                if self.fails && !line.ends_with(b"\n") {
                    return Err(ReadFault::Unreadable);
                }
                drop_line_feed(line);
                Ok(true)
            }
            Err(_) => Err(ReadFault::OutOfMemory),
        }
    }

    fn has_line(&self) -> bool {
        self.left.contains(&b'\n')
    }
}

impl<'a> Input for MemoryInput<'a> {
    type Lines = MemoryLines<'a>;

    ghost use Rattle.system_fakes.specs.MemoryInputs.{gives_one, input_of};

    ghost facts = { input_of };

    ghost one = { λ i _. gives_one i };

    fn read_to_end(&self, alloc: Global) -> Result<Vec<u8>, ReadFault> {
        if self.has_no_end() {
            return Err(ReadFault::Unreadable);
        }
        if self.bytes.is_empty() {
            return Ok(Vec::new(alloc));
        }
        Ok(Vec::from_slice(alloc, self.bytes)?)
    }

    fn lines(&self, _alloc: Global) -> Result<MemoryLines<'a>, AllocError> {
        Ok(MemoryLines {
            left: self.bytes,
            fails: self.has_no_end(),
        })
    }
}
