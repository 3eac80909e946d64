//! Where a program's output goes, and how the program ends.

ghost use Rattle.std.specs.Prelude.{IfOk, OnErr, OnOk};
ghost use Rattle.std.specs.Io.KnownBytes.{Keeps};
ghost use Rattle.system_io.specs.Outputs.{HasEnded, OutputFacts, StartsEmpty, NotBoth, WritesFront};

use std::alloc::{AllocError, Global};
use std::io::{self, BufWriter, Write};

/// Why output was not written to its end.
#[derive(Clone, Copy, PartialEq, Eq, Debug)]
pub enum WriteFault {
    /// The writer failed.
    Io,
}

/// Where a program's output goes.
pub trait Output: Write {
    /// Whether everything written has gone out, or some of it can't.
    ghost facts: { Self → OutputFacts };

    /// Writes all bytes. The error comes only where a write was refused; a prefix of them is written then.
    fn put(&mut self, bytes: &[u8]) -> Result<(), WriteFault>
        ensures front { WritesFront (Self.contents self.old) (Self.contents self.new) bytes.now result }
        ensures cause { OnErr result (facts self.old).refuses };

    /// Flushes everything written. The error comes where some of it can't go out.
    fn flush_all(&mut self) -> Result<(), WriteFault>
        ensures kept { Keeps (Self.contents self.old) (Self.contents self.new) }
        ensures gone { OnOk result (facts self.new).gone }
        ensures stuck { OnErr result (facts self.new).stuck };

    /// What has gone out isn't stuck. So the facts have meaning: an instance that claims both fails this clause.
    ghost one: { (o : Self) → NotBoth (facts o) };
}

/// Writes all bytes. Where a write is refused, or takes none of them, a prefix of them is written.
fn write_front<W: Write>(out: &mut W, bytes: &[u8]) -> Result<(), WriteFault>
    ensures { WritesFront (W.contents out.old) (W.contents out.new) bytes.now result }
{
    let mut written = 0;
    for _ in 0..u64::MAX {
        if written == bytes.len() {
            return Ok(());
        }
        match out.write(&bytes[written..]) {
            Ok(0) => return Err(WriteFault::Io),
            Ok(n) => written += n,
            Err(error) => {
                if error.kind() != io::ErrorKind::Interrupted {
                    return Err(WriteFault::Io);
                }
            }
        }
    }
    Err(WriteFault::Io)
}

/// A buffered output that knows whether its last flush has failed.
#[derive(Drop)]
pub struct BufferedOutput<W: Write + Drop> {
    buffer: BufWriter<W>,
    is_stuck: bool,
}

impl<W: Write + Drop> BufferedOutput<W> {
    /// A buffered output over a writer, with nothing written yet. The error comes where memory for the buffer is
    /// refused.
    pub fn new(alloc: Global, writer: W) -> Result<BufferedOutput<W>, AllocError>
        ensures { IfOk result (StartsEmpty writer) }
    {
        match BufWriter::new(alloc, writer) {
            Ok(buffer) => Ok(BufferedOutput {
                buffer,
                is_stuck: false,
            }),
            Err(_) => Err(AllocError),
        }
    }
}

impl<W: Write + Drop> Write for BufferedOutput<W> {
    ghost use Rattle.std.specs.Io.Buffered.{writer_contents};

    ghost contents = { λ o. writer_contents W.contents o.buffer };

    fn write(&mut self, bytes: &[u8]) -> io::Result<usize> {
        self.buffer.write(bytes)
    }

    fn flush(&mut self) -> io::Result<()> {
        self.buffer.flush()
    }

    fn write_all(&mut self, bytes: &[u8]) -> io::Result<()> {
        self.buffer.write_all(bytes)
    }
}

impl<W: Write + Drop> Output for BufferedOutput<W> {
    ghost use Rattle.std.specs.Io.Buffered.{writer_buffer};
    ghost use Rattle.system_io.specs.OutputLaws.{not_both};
    ghost use Rattle.system_io.specs.Premises.{system_output};

    ghost facts = { λ o. system_output (writer_buffer o.buffer) o.is_stuck };

    ghost one = { λ o gone stuck. not_both o.is_stuck gone.1 stuck };

    fn put(&mut self, bytes: &[u8]) -> Result<(), WriteFault> {
        write_front(&mut self.buffer, bytes)
    }

    fn flush_all(&mut self) -> Result<(), WriteFault> {
        match self.buffer.flush() {
            Ok(()) => {
                self.is_stuck = false;
                Ok(())
            }
            Err(_) => {
                self.is_stuck = true;
                Err(WriteFault::Io)
            }
        }
    }
}

impl Output for Vec<u8> {
    ghost use Rattle.system_io.specs.Outputs.{holds_nothing_back};

    ghost facts = { λ _. holds_nothing_back };

    ghost one = { λ _ gone stuck. stuck };

    fn put(&mut self, bytes: &[u8]) -> Result<(), WriteFault> {
        write_front(self, bytes)
    }

    fn flush_all(&mut self) -> Result<(), WriteFault> {
        Ok(())
    }
}

/// Ends the output, and returns the program's exit status. It is that of the answer where all of it has gone out, and 1
/// where it was not written or can't go out.
pub fn end<O: Output>(out: &mut O, answered: Result<u8, WriteFault>) -> u8
    ensures { HasEnded (O.facts out.new) answered result }
{
    match (answered, out.flush_all()) {
        (Ok(status), Ok(())) => status,
        _ => 1,
    }
}
