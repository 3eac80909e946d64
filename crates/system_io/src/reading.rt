//! Bytes that are read to their end.

ghost use Rattle.std.specs.Prelude.{◌≡◌, ◌≤◌, length, IfOk, IfSome};
ghost use Rattle.std.specs.IoError.{error_kind};
ghost use Rattle.system_io.specs.Disks.{most_bytes};
ghost use Rattle.system_io.specs.Reading.{read_fault_of};
ghost use Rattle.system_io.specs.declared.reading.ReadFault.TheVariants.{OutOfMemory};

use std::alloc::{AllocError, Global};
use std::io::{self, Read};

/// The most bytes that an input or a file may have, 2^30.
pub const MOST_BYTES: u64 = 1_073_741_824;

/// Why something wasn't read.
#[derive(Clone, Copy)]
pub enum ReadFault {
    /// It doesn't exist, can't be read, or has more bytes than allowed.
    Unreadable,
    /// Memory was refused.
    OutOfMemory,
}

impl From<AllocError> for ReadFault {
    ghost from_gives = { λ _ e. e ≡ OutOfMemory };

    fn from(_e: AllocError) -> ReadFault {
        ReadFault::OutOfMemory
    }
}

impl From<io::Error> for ReadFault {
    ghost from_gives = { λ error fault. fault ≡ read_fault_of (error_kind error) };

    fn from(error: io::Error) -> ReadFault {
        match error.kind() {
            io::ErrorKind::OutOfMemory => ReadFault::OutOfMemory,
            _ => ReadFault::Unreadable,
        }
    }
}

/// The error of a file that was opened, and then not read.
pub(crate) fn unread(fault: ReadFault) -> io::Error {
    match fault {
        ReadFault::Unreadable => {
            io::Error::new(io::ErrorKind::InvalidData, "too long, or a read failed")
        }
        ReadFault::OutOfMemory => io::Error::from(io::ErrorKind::OutOfMemory),
    }
}

/// All bytes of a reader, if they are at most `most`; of more, one byte past that number is read. Room for the expected
/// number of bytes, and one, is allocated at once.
pub fn read_at_most<R: Read + Drop>(
    alloc: Global,
    reader: R,
    expected: u64,
    most: u64,
) -> Result<Vec<u8>, ReadFault>
    requires { most ≤ most_bytes }
    ensures whole { IfOk result (λ bytes. IfSome (R.remaining reader) (λ all. bytes.items ≡ all)) }
    ensures short { IfOk result (λ bytes. length bytes.items ≤ most) }
{
    if expected > most {
        return Err(ReadFault::Unreadable);
    }
    let mut bytes = Vec::with_capacity(alloc, expected as usize + 1)?;
    match reader.take(most + 1).read_to_end(&mut bytes) {
        Ok(_) => {}
        Err(error) => return Err(ReadFault::from(error)),
    }
    if bytes.len() as u64 > most {
        return Err(ReadFault::Unreadable);
    }
    Ok(bytes)
}
