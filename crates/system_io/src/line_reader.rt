//! An input that is read line by line as it comes.

ghost use Rattle.std.specs.Prelude.{◌≡◌, ◌↔◌, IfOk, IsErrOf, IsTrue};
ghost use Rattle.std.specs.List.{Contains};
ghost use Rattle.std.specs.Io.BufRead.{strip_last};
ghost use Rattle.system_io.specs.LineReaders.{LineFacts, ReadsIfAny};

use crate::reading::ReadFault;
use std::alloc::Global;
use std::io::{BufRead, BufReader, Read};

/// An input that is read line by line as it comes.
pub trait LineReader {
    /// Its remaining bytes, where they are known, and whether it can't be read to its end.
    ghost facts: { Self → LineFacts };

    /// Replaces the buffer's contents by the next line, without its line feed, and returns whether there is one. The
    /// last line may lack its line feed.
    ///
    /// It reads nothing after the line feed, so it waits for no more than the line. The buffer's capacity is that of
    /// the longest line so far. After an error a part of a line may be lost.
    fn next_line(&mut self, line: &mut Vec<u8>) -> Result<bool, ReadFault>
        ensures read { IfOk result (ReadsIfAny (facts self.old).left (facts self.new).left line.new.items) }
        ensures cause { IsErrOf result ReadFault.Unreadable → (facts self.old).fails }
        ensures memory { IsErrOf result ReadFault.OutOfMemory → (facts self.old).takes_memory }
        ensures same { (facts self.new).fails → (facts self.old).fails }
        ensures room { (facts self.new).takes_memory → (facts self.old).takes_memory };

    /// Whether a whole line has come already, so that the next one is read without waiting. It reads nothing.
    fn has_line(&self) -> bool
        ensures { IsTrue result ↔ Contains (facts self.now).ahead 10 };
}

/// Removes a line feed from the end, if there is one.
pub fn drop_line_feed(line: &mut Vec<u8>)
    ensures { line.new.items ≡ strip_last 10 line.old.items }
{
    if let Some(last) = line.as_slice().last() {
        if *last == b'\n' {
            line.truncate(line.len() - 1);
        }
    }
}

impl<R: Read + Drop> LineReader for BufReader<R, Global> {
    ghost use Rattle.std.specs.Io.Buffered.{reader_buffer, reader_remaining};
    ghost use Rattle.system_io.specs.Premises.{system_lines};

    ghost facts = { λ r. system_lines (reader_remaining R.remaining r) (reader_buffer r) };

    fn next_line(&mut self, line: &mut Vec<u8>) -> Result<bool, ReadFault> {
        line.clear();
        match self.read_until(b'\n', line) {
            Ok(0) => Ok(false),
            Ok(_) => {
                drop_line_feed(line);
                Ok(true)
            }
            Err(error) => Err(ReadFault::from(error)),
        }
    }

    fn has_line(&self) -> bool {
        self.buffer().contains(&b'\n')
    }
}
