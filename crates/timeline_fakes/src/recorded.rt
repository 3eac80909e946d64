//! What happened, as it is recorded.

ghost use Rattle.std.specs.Prelude.{◌≡◌, ◌≤◌, map, string_bytes, IfOk, IfSome};
ghost use Rattle.timeline.specs.Events as event;
ghost use Rattle.timeline.specs.Events.{bytes_found, bytes_read, came_in_time, came_or_missed, found_by, line_read, mode_read, names_read, stamped};
ghost use Rattle.timeline_fakes.specs.Memories.{Batch, event_of, listed};

use std::alloc::{AllocError, Global};
use std::net::SocketAddr;
use std::time::Duration;
use system_io::{
    BindFault, Entry, FileWithMode, Key, LockFault, PortFault, ReadFault, StoreFault, copied,
};
use timeline::Stream;

/// What happened; each is the event of its name. Texts and paths are as bytes.
#[derive(Drop)]
pub enum Recorded {
    FolderListed {
        path: Vec<u8>,
        names: Result<Vec<Vec<u8>>, ReadFault>,
    },
    FileRead {
        path: Vec<u8>,
        bytes: Result<Vec<u8>, ReadFault>,
    },
    FileSought {
        path: Vec<u8>,
        bytes: Result<Vec<u8>, ReadFault>,
    },
    FileWithModeRead {
        path: Vec<u8>,
        got: Result<FileWithMode, ReadFault>,
    },
    InputRead {
        bytes: Result<Vec<u8>, ReadFault>,
    },
    FileLinesOpened {
        path: Vec<u8>,
        is_done: bool,
    },
    InputLinesOpened {
        is_done: bool,
    },
    LineRead {
        line: Result<Option<Vec<u8>>, ReadFault>,
        had_come: bool,
    },
    Wrote {
        to: Stream,
        bytes: Vec<u8>,
    },
    Flushed {
        to: Stream,
    },
    Refused {
        to: Stream,
    },
    Noted {
        line: Vec<u8>,
    },
    PortBound {
        address: Vec<u8>,
        to: Vec<Vec<u8>>,
        done: Result<(), BindFault>,
    },
    Came {
        from: Option<SocketAddr>,
        bytes: Vec<u8>,
    },
    Quiet {
        wait: Duration,
    },
    Missed,
    Sent {
        to: SocketAddr,
        bytes: Vec<u8>,
    },
    Locked {
        path: Vec<u8>,
        done: Result<(), LockFault>,
    },
    FileOpened {
        path: Vec<u8>,
        is_done: bool,
    },
    Found {
        path: Vec<u8>,
        got: Result<Option<Vec<u8>>, ReadFault>,
    },
    Put {
        path: Vec<u8>,
        bytes: Vec<u8>,
        is_done: bool,
    },
    StoreOpened {
        path: Vec<u8>,
        done: Result<(), StoreFault>,
    },
    RecordSought {
        path: Vec<u8>,
        stamp: Key,
        got: Option<Vec<u8>>,
    },
    Committed {
        path: Vec<u8>,
        entries: Vec<Entry>,
        is_done: bool,
    },
}

/// What happened, or that memory for recording it was refused.
pub(crate) type Made = Result<Recorded, AllocError>;

/// A copy of what was read.
fn same_bytes(
    alloc: Global,
    got: &Result<Vec<u8>, ReadFault>,
) -> Result<Result<Vec<u8>, ReadFault>, AllocError>
    ensures { IfOk result (λ copy. bytes_read copy ≡ bytes_read got.now) }
{
    match got {
        Ok(bytes) => Ok(Ok(Vec::from_slice(alloc, bytes)?)),
        Err(fault) => Ok(Err(*fault)),
    }
}

/// A copy of texts, as bytes.
fn all_bytes(alloc: Global, texts: &[&str]) -> Result<Vec<Vec<u8>>, AllocError>
    ensures { IfOk result (λ all. map (λ w. w.items) all.items ≡ map (λ s. s.now) texts.now) }
{
    let mut all = Vec::new(alloc);
    for text in texts {
        all.push(Vec::from_slice(alloc, text.as_bytes())?)?;
    }
    Ok(all)
}

/// A copy of names, as bytes.
fn names_bytes(alloc: Global, names: &[String]) -> Result<Vec<Vec<u8>>, AllocError>
    ensures { IfOk result (λ all. map (λ name. name.items) all.items ≡ map string_bytes names.now) }
{
    let mut all = Vec::new(alloc);
    for name in names {
        all.push(Vec::from_slice(alloc, name.as_bytes())?)?;
    }
    Ok(all)
}

pub(crate) fn folder_listed(
    alloc: Global,
    path: &str,
    names: &Result<Vec<String>, ReadFault>,
) -> Made
    ensures { IfOk result (λ made. event_of made ≡ event.FolderListed path.now (names_read names.now)) }
{
    let names = match names {
        Ok(names) => Ok(names_bytes(alloc, names)?),
        Err(fault) => Err(*fault),
    };
    let path = Vec::from_slice(alloc, path.as_bytes())?;
    Ok(Recorded::FolderListed { path, names })
}

pub(crate) fn file_read(alloc: Global, path: &str, bytes: &Result<Vec<u8>, ReadFault>) -> Made
    ensures { IfOk result (λ made. event_of made ≡ event.FileRead path.now (bytes_read bytes.now)) }
{
    let path = Vec::from_slice(alloc, path.as_bytes())?;
    let bytes = same_bytes(alloc, bytes)?;
    Ok(Recorded::FileRead { path, bytes })
}

pub(crate) fn file_sought(alloc: Global, path: &str, bytes: &Result<Vec<u8>, ReadFault>) -> Made
    ensures { IfOk result (λ made. event_of made ≡ event.FileSought path.now (bytes_read bytes.now)) }
{
    let path = Vec::from_slice(alloc, path.as_bytes())?;
    let bytes = same_bytes(alloc, bytes)?;
    Ok(Recorded::FileSought { path, bytes })
}

pub(crate) fn file_with_mode_read(
    alloc: Global,
    path: &str,
    got: &Result<FileWithMode, ReadFault>,
) -> Made
    ensures { IfOk result (λ made. event_of made ≡ event.FileWithModeRead path.now (mode_read got.now)) }
{
    let got = match got {
        Ok(file) => Ok(FileWithMode {
            bytes: Vec::from_slice(alloc, &file.bytes)?,
            mode: file.mode,
        }),
        Err(fault) => Err(*fault),
    };
    let path = Vec::from_slice(alloc, path.as_bytes())?;
    Ok(Recorded::FileWithModeRead { path, got })
}

pub(crate) fn input_read(alloc: Global, bytes: &Result<Vec<u8>, ReadFault>) -> Made
    ensures { IfOk result (λ made. event_of made ≡ event.InputRead (bytes_read bytes.now)) }
{
    let bytes = same_bytes(alloc, bytes)?;
    Ok(Recorded::InputRead { bytes })
}

pub(crate) fn file_lines_opened(alloc: Global, path: &str, is_done: bool) -> Made
    ensures { IfOk result (λ made. event_of made ≡ event.LinesOpened (event.FromFile path.now) is_done) }
{
    let path = Vec::from_slice(alloc, path.as_bytes())?;
    Ok(Recorded::FileLinesOpened { path, is_done })
}

pub(crate) fn line_taken(
    alloc: Global,
    got: &Result<bool, ReadFault>,
    line: &[u8],
    had_come: bool,
) -> Made
    ensures { IfOk result (λ made. event_of made ≡ event.LineRead (line_read got.now line.now) had_come) }
{
    let line = match got {
        Ok(true) => Ok(Some(Vec::from_slice(alloc, line)?)),
        Ok(false) => Ok(None),
        Err(fault) => Err(*fault),
    };
    Ok(Recorded::LineRead { line, had_come })
}

pub(crate) fn wrote(alloc: Global, to: Stream, bytes: &[u8]) -> Made
    ensures { IfOk result (λ made. event_of made ≡ event.Wrote to bytes.now) }
{
    let bytes = Vec::from_slice(alloc, bytes)?;
    Ok(Recorded::Wrote { to, bytes })
}

/// The line of these parts.
#[tactic(auto, using(crate::proofs::NoteLaws::is_line_of))]
fn line_of(alloc: Global, parts: &[&str]) -> Result<Vec<u8>, AllocError>
    ensures { IfOk result (λ line. line.items ≡ event.line_of (map (λ s. s.now) parts.now)) }
{
    let line = parts.concat(alloc)?;
    Ok(line.into_bytes())
}

pub(crate) fn noted(alloc: Global, parts: &[&str]) -> Made
    ensures { IfOk result (λ made. event_of made ≡ event.Noted (event.line_of (map (λ s. s.now) parts.now))) }
{
    let line = line_of(alloc, parts)?;
    Ok(Recorded::Noted { line })
}

pub(crate) fn port_bound(
    alloc: Global,
    address: &str,
    to: &[&str],
    done: Result<(), BindFault>,
) -> Made
    ensures { IfOk result (λ made. event_of made ≡ event.PortBound address.now (map (λ s. s.now) to.now) done) }
{
    let address = Vec::from_slice(alloc, address.as_bytes())?;
    let to = all_bytes(alloc, to)?;
    Ok(Recorded::PortBound { address, to, done })
}

pub(crate) fn came(alloc: Global, from: Option<SocketAddr>, bytes: &[u8]) -> Made
    ensures { IfOk result (λ made. event_of made ≡ event.Came from bytes.now) }
{
    let bytes = Vec::from_slice(alloc, bytes)?;
    Ok(Recorded::Came { from, bytes })
}

pub(crate) fn sent(alloc: Global, to: SocketAddr, bytes: &[u8]) -> Made
    ensures { IfOk result (λ made. event_of made ≡ event.Sent to bytes.now) }
{
    let bytes = Vec::from_slice(alloc, bytes)?;
    Ok(Recorded::Sent { to, bytes })
}

pub(crate) fn locked(alloc: Global, path: &str, done: Result<(), LockFault>) -> Made
    ensures { IfOk result (λ made. event_of made ≡ event.Locked path.now done) }
{
    let path = Vec::from_slice(alloc, path.as_bytes())?;
    Ok(Recorded::Locked { path, done })
}

pub(crate) fn file_opened(alloc: Global, path: &str, is_done: bool) -> Made
    ensures { IfOk result (λ made. event_of made ≡ event.FileOpened path.now is_done) }
{
    let path = Vec::from_slice(alloc, path.as_bytes())?;
    Ok(Recorded::FileOpened { path, is_done })
}

pub(crate) fn found(alloc: Global, path: &[u8], got: &Result<Option<Vec<u8>>, ReadFault>) -> Made
    ensures { IfOk result (λ made. event_of made ≡ event.Found path.now (found_by got.now)) }
{
    let got = match got {
        Ok(got) => Ok(copied(alloc, got)?),
        Err(fault) => Err(*fault),
    };
    let path = Vec::from_slice(alloc, path)?;
    Ok(Recorded::Found { path, got })
}

pub(crate) fn put(alloc: Global, path: &[u8], bytes: &[u8], is_done: bool) -> Made
    ensures { IfOk result (λ made. event_of made ≡ event.Put path.now bytes.now is_done) }
{
    let path = Vec::from_slice(alloc, path)?;
    let bytes = Vec::from_slice(alloc, bytes)?;
    Ok(Recorded::Put {
        path,
        bytes,
        is_done,
    })
}

pub(crate) fn store_opened(alloc: Global, path: &str, done: Result<(), StoreFault>) -> Made
    ensures { IfOk result (λ made. event_of made ≡ event.StoreOpened path.now done) }
{
    let path = Vec::from_slice(alloc, path.as_bytes())?;
    Ok(Recorded::StoreOpened { path, done })
}

pub(crate) fn record_sought(alloc: Global, path: &[u8], stamp: &Key, got: Option<&[u8]>) -> Made
    ensures { IfOk result (λ made. event_of made ≡ event.RecordSought path.now stamp.now (bytes_found got.entry)) }
{
    let got = match got {
        Some(bytes) => Some(Vec::from_slice(alloc, bytes)?),
        None => None,
    };
    let path = Vec::from_slice(alloc, path)?;
    Ok(Recorded::RecordSought {
        path,
        stamp: *stamp,
        got,
    })
}

/// Copies of entries.
pub(crate) fn same_entries(alloc: Global, entries: &[Entry]) -> Result<Vec<Entry>, AllocError>
    ensures { IfOk result (λ all. map stamped all.items ≡ map stamped entries.now) }
{
    let mut all = Vec::new(alloc);
    for entry in entries {
        all.push(Entry {
            stamp: entry.stamp,
            count: entry.count,
            record: Vec::from_slice(alloc, &entry.record)?,
        })?;
    }
    Ok(all)
}

pub(crate) fn committed(
    alloc: Global,
    path: &[u8],
    entries: Result<Vec<Entry>, AllocError>,
    is_done: bool,
) -> Made
    ensures { (all : Batch) → IfOk entries (λ v. map stamped v.items ≡ all) → IfOk result (λ made. event_of made ≡ event.Committed path.now all is_done) }
{
    let entries = entries?;
    let path = Vec::from_slice(alloc, path)?;
    Ok(Recorded::Committed {
        path,
        entries,
        is_done,
    })
}

/// What came of a receive with this sender and buffer.
pub(crate) fn received(
    alloc: Global,
    got: &Result<usize, PortFault>,
    from: Option<SocketAddr>,
    buffer: &[u8; 64],
) -> Made
    requires { IfOk got.now (λ n. n ≤ 64) }
    ensures { IfOk result (λ made. event_of made ≡ came_or_missed got.now from buffer.now) }
{
    match got {
        Ok(length) => came(alloc, from, &buffer[..*length]),
        Err(_) => Ok(Recorded::Missed),
    }
}

/// What came of a receive with this sender and buffer, within a time.
pub(crate) fn received_in_time(
    alloc: Global,
    got: &Result<Option<usize>, PortFault>,
    from: Option<SocketAddr>,
    buffer: &[u8; 64],
    wait: Duration,
) -> Made
    requires { IfOk got.now (λ came. IfSome came (λ n. n ≤ 64)) }
    ensures { IfOk result (λ made. event_of made ≡ came_in_time got.now from buffer.now wait) }
{
    match got {
        Ok(Some(length)) => came(alloc, from, &buffer[..*length]),
        Ok(None) => Ok(Recorded::Quiet { wait }),
        Err(_) => Ok(Recorded::Missed),
    }
}
