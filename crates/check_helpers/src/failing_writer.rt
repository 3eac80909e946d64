//! A writer that fails from one call on.

use std::io::{self, Write};
use system_io::{Output, WriteFault};

/// A writer that takes at most 16 bytes at once and fails from one call on.
#[derive(Drop)]
pub struct Failing {
    calls: u32,
    fails_at: u32,
}

impl Failing {
    /// One that fails from the call of this number on, the first being 0.
    pub fn at(fails_at: u32) -> Failing {
        Failing { calls: 0, fails_at }
    }
}

impl Write for Failing {
    fn write(&mut self, buf: &[u8]) -> io::Result<usize> {
        if self.calls == self.fails_at {
            return Err(io::Error::from(io::ErrorKind::BrokenPipe));
        }
        self.calls = self.calls.wrapping_add(1);
        Ok(buf.len().min(16))
    }

    fn flush(&mut self) -> io::Result<()> {
        Ok(())
    }
}

impl Output for Failing {
    ghost use Rattle.system_io.specs.Outputs.{holds_nothing_back};

    ghost facts = { λ _. holds_nothing_back };

    ghost one = { λ _ gone stuck. stuck };

    fn put(&mut self, bytes: &[u8]) -> Result<(), WriteFault> {
        match self.write_all(bytes) {
            Ok(()) => Ok(()),
            Err(_) => Err(WriteFault::Io),
        }
    }

    fn flush_all(&mut self) -> Result<(), WriteFault> {
        Ok(())
    }
}
