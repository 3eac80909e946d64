//! What the folders and files of the system are read as.

use move_msg::file_digest;
use std::alloc::{AllocError, Global};
use std::fmt::Write;
use std::io::sink;
use system_io::{Disk, ReadFault, SystemDisk};

/// The names in a folder, sorted.
fn names_in(rt: &HostRuntime, folder: &str) -> Result<Vec<String>, ReadFault> {
    let mut names = SystemDisk::new(rt, sink()).names(rt.alloc(), folder)?;
    names.sort()?;
    Ok(names)
}

/// Tells the names in a folder, or that it can't be listed.
fn tell_names(rt: &HostRuntime, told: &mut String, folder: &str) -> Result<(), AllocError> {
    let Ok(names) = names_in(rt, folder) else {
        return writeln!(told, "no folder");
    };
    for name in &names {
        writeln!(told, "lists {name}")?;
    }
    Ok(())
}

/// Tells the digest of bytes.
fn tell_digest(alloc: Global, told: &mut String, bytes: &[u8]) -> Result<(), AllocError> {
    let digits = hex::encode(alloc, file_digest(bytes))?;
    let length = bytes.len();
    writeln!(told, "holds {length} {digits}")
}

/// Tells how many bytes a file has and their digest, or that it can't be read.
fn tell_file(rt: &HostRuntime, told: &mut String, path: &str) -> Result<(), AllocError> {
    match SystemDisk::new(rt, sink()).read(rt.alloc(), path) {
        Ok(bytes) => tell_digest(rt.alloc(), told, &bytes),
        Err(_) => writeln!(told, "no file"),
    }
}

/// Tells whether a file may be read that may have so many bytes.
fn tell_within(
    rt: &HostRuntime,
    told: &mut String,
    path: &str,
    most: u64,
) -> Result<(), AllocError> {
    let is_read = SystemDisk::new(rt, sink())
        .read_within(rt.alloc(), path, most)
        .is_ok();
    writeln!(told, "within {most} {is_read}")
}

/// Tells what each path of the words is as a folder and as a file of the system, and whether the file has at most 79 or 80 bytes.
pub(crate) fn tell_system(
    rt: &HostRuntime,
    told: &mut String,
    words: &[&str],
) -> Result<(), AllocError> {
    for path in words {
        tell_names(rt, told, path)?;
        tell_file(rt, told, path)?;
        tell_within(rt, told, path, 79)?;
        tell_within(rt, told, path, 80)?;
    }
    Ok(())
}
