//! The descriptors of standard input, output and errors.

ghost use Rattle.std.specs.Prelude.{IfOk};
ghost use Rattle.system_io.specs.Descriptors.{IsAboveStandard};

use std::fs::File;
use std::os::fd::{AsRawFd, IntoRawFd};
use std::rt::Files;
use std::{fs, io};

/// The greatest of the descriptors 0 to 2 of standard input, output and errors.
const STANDARD: i32 = 2;

/// Opens a file above the descriptors 0 to 2. So each of these is open, since the system gives the lowest that isn't, and nothing that
/// is opened later gets one of them.
///
/// One that the program was started without leads to the folder `/` from then on, from which nothing can be read, and to which nothing
/// can be written. The error comes where the system refuses to open that folder.
pub fn open_above_standard<R: Files<File = File>>(rt: &R) -> io::Result<File>
    ensures { IfOk result IsAboveStandard }
{
    for _ in 0..STANDARD + 2 {
        let file = fs::open(rt, "/")?;
        if file.as_raw_fd() > STANDARD {
            return Ok(file);
        }
        let _kept = file.into_raw_fd();
    }
    Err(io::Error::from(io::ErrorKind::Other))
}
