//! The standard input.

use crate::bounded_lines::BoundedLines;
use crate::input::Input as Source;
use crate::reading::{MOST_BYTES, ReadFault, read_at_most};
use std::alloc::{AllocError, Global};
use std::io::{BufReader, Input};

/// The standard input of the system. Its lines can't be read on past one of more than 2^30 bytes.
#[derive(Drop)]
pub struct SystemInput<'a, R: Input + Drop> {
    rt: &'a R,
}

impl<'a, R: Input + Drop> SystemInput<'a, R> {
    /// The standard input of this system.
    pub fn new(rt: &'a R) -> SystemInput<'a, R> {
        SystemInput { rt }
    }
}

impl<'a, R: Input + Drop> Source for SystemInput<'a, R> {
    type Lines = BufReader<BoundedLines<R::Reader>, Global>;

    ghost use Rattle.system_io.specs.OutputLaws.{untold};
    ghost use Rattle.system_io.specs.Premises.{system_input};

    ghost facts = { λ _. system_input };

    ghost one = { λ _ told. untold told };

    fn read_to_end(&self, alloc: Global) -> Result<Vec<u8>, ReadFault> {
        read_at_most(alloc, self.rt.reader(), 0, MOST_BYTES)
    }

    fn lines(&self, alloc: Global) -> Result<Self::Lines, AllocError> {
        match BufReader::new(alloc, BoundedLines::new(self.rt.reader())) {
            Ok(lines) => Ok(lines),
            Err(_) => Err(AllocError),
        }
    }
}
