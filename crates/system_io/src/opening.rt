//! How files of the system are opened to be read.

ghost use Rattle.std.specs.IoError.{error_kind, raw_os_error};
ghost use Rattle.system_io.specs.Reading.{IsUnopened};

use crate::reading::ReadFault;
use std::fs::{Metadata, OpenFile};
use std::marker::Model;
use std::os::unix::fs::MetadataExt;
use std::rt::Files;
use std::{fs, io};

/// The error of what is no regular file: a folder, a device, a named pipe or a socket.
pub(crate) fn irregular() -> io::Error {
    io::Error::new(io::ErrorKind::InvalidInput, "no regular file")
}

/// The metadata of a regular file.
#[derive(Drop)]
pub(crate) struct Regular {
    metadata: Metadata,
}

impl Model for Regular {
    ghost use Rattle.std.specs.Fs.{file_type, IsFile};
    ghost use Rattle.std.specs.declared.fs.attrs.Metadata.{Metadata};

    ghost Value = { Metadata };

    ghost view = { λ r. r.metadata };

    ghost invariant = { λ r. IsFile (file_type r.metadata) };
}

impl Regular {
    /// The metadata of what is a regular file; the error comes where it is none.
    fn of(metadata: Metadata) -> io::Result<Regular> {
        if metadata.is_file() {
            Ok(Regular { metadata })
        } else {
            Err(irregular())
        }
    }

    /// How many bytes the file has.
    pub(crate) fn len(&self) -> u64 {
        self.metadata.len()
    }

    /// Its mode.
    pub(crate) fn mode(&self) -> u32 {
        self.metadata.mode()
    }
}

/// Opens the file at a path, which is a regular one, to be read.
fn open<R: Files>(rt: &R, path: &str, _stands: Regular) -> io::Result<R::File> {
    fs::open(rt, path)
}

/// Opens the regular file at a path to be read. A link is followed. What is no regular file is refused before it is opened, since to
/// open a named pipe would wait for its other end, and to open a device may act on it. It is looked at once more when it is open.
pub(crate) fn open_regular<R: Files>(rt: &R, path: &str) -> io::Result<(R::File, Regular)> {
    let file = open(rt, path, Regular::of(fs::metadata(rt, path)?)?)?;
    let regular = Regular::of(file.metadata()?)?;
    Ok((file, regular))
}

/// Why a file or a folder wasn't opened. Where no descriptor is left, as ENFILE and EMFILE tell, that is as memory that was refused:
/// what stands there may be opened later.
pub(crate) fn unopened(error: io::Error) -> ReadFault
    ensures { IsUnopened (raw_os_error error) (error_kind error) result }
{
    match error.raw_os_error() {
        Some(23 | 24) => ReadFault::OutOfMemory,
        _ => ReadFault::from(error),
    }
}
