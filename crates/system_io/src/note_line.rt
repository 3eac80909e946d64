//! A line that is noted in one piece.

use arrayvec::ArrayVec;
use std::io::Write;

/// How many bytes of a line are held, so that they go out by one write.
const HELD_BYTES: usize = 1024;

/// A line on its way to a writer. It goes out by one write where it has at most 1024 bytes, so that lines of several processes don't
/// mix. What can't be written is left out.
#[derive(Drop)]
pub(crate) struct NoteLine<W: Write + Drop> {
    out: W,
    held: ArrayVec<u8, HELD_BYTES>,
}

impl<W: Write + Drop> NoteLine<W> {
    /// An empty line to a writer.
    pub(crate) fn over(out: W) -> NoteLine<W> {
        NoteLine {
            out,
            held: ArrayVec::new(),
        }
    }

    /// Adds a part of the line.
    pub(crate) fn push(&mut self, part: &[u8]) {
        if self.held.try_extend_from_slice(part).is_err() {
            self.write();
            let _written = self.out.write_all(part);
        }
    }

    /// Writes what is held.
    pub(crate) fn write(&mut self) {
        let _written = self.out.write_all(self.held.as_slice());
        self.held.clear();
    }
}
