//! The pieces of which a case file's bytes are put together.

use crate::shelf::Shelf;
use std::alloc::{AllocError, Global};

/// Why a case can't be read.
#[derive(Clone, Copy)]
pub(crate) enum Fault {
    /// A line is none that a case file has.
    Line,
    /// Memory was refused.
    Memory,
}

impl From<AllocError> for Fault {
    fn from(_e: AllocError) -> Fault {
        Fault::Memory
    }
}

/// Adds a line.
fn add_line(bytes: &mut Vec<u8>, text: &str) -> Result<(), AllocError> {
    bytes.extend_from_slice(text.as_bytes())?;
    bytes.extend_from_slice(b"\n")
}

/// Adds what stands in hexadecimal digits.
fn add_hex(alloc: Global, bytes: &mut Vec<u8>, digits: &str) -> Result<(), Fault> {
    let Ok(decoded) = hex::decode(alloc, digits) else {
        return Err(Fault::Line);
    };
    Ok(bytes.extend_from_slice(&decoded)?)
}

/// A number.
pub(crate) fn number_of(text: &str) -> Result<usize, Fault> {
    text.parse::<usize>().or(Err(Fault::Line))
}

/// Adds so many bytes that are zero.
fn add_zeros(bytes: &mut Vec<u8>, count: &str) -> Result<(), Fault> {
    for _ in 0..number_of(count)? {
        bytes.extend_from_slice(&[0])?;
    }
    Ok(())
}

/// Adds a line so many times.
fn add_repeated(bytes: &mut Vec<u8>, text: &str) -> Result<(), Fault> {
    let (count, line) = text.split_once(' ').unwrap_or((text, ""));
    for _ in 0..number_of(count)? {
        add_line(bytes, line)?;
    }
    Ok(())
}

/// Adds what stands in hexadecimal digits, so many times.
fn add_repeated_hex(alloc: Global, bytes: &mut Vec<u8>, text: &str) -> Result<(), Fault> {
    let (count, digits) = text.split_once(' ').ok_or(Fault::Line)?;
    for _ in 0..number_of(count)? {
        add_hex(alloc, bytes, digits)?;
    }
    Ok(())
}

/// Sets the byte at a place, the first being 0, to a number.
fn set_byte(bytes: &mut [u8], text: &str) -> Result<(), Fault> {
    let (place, byte) = text.split_once(' ').ok_or(Fault::Line)?;
    let byte = byte.parse::<u8>().or(Err(Fault::Line))?;
    match bytes.get_mut(number_of(place)?) {
        Some(there) => {
            *there = byte;
            Ok(())
        }
        None => Err(Fault::Line),
    }
}

/// Leaves out what stands behind so many bytes.
fn cut(bytes: &mut Vec<u8>, text: &str) -> Result<(), Fault> {
    bytes.truncate(number_of(text)?);
    Ok(())
}

/// Adds what a file of the shelf holds.
fn add_file(bytes: &mut Vec<u8>, shelf: &Shelf<'_>, path: &str) -> Result<(), Fault> {
    match shelf.bytes_at(path) {
        Some(file) => Ok(bytes.extend_from_slice(file)?),
        None => Err(Fault::Line),
    }
}

/// The first and the last number of a range, and the path behind them.
fn range_of(text: &str) -> Result<(usize, usize, &str), Fault> {
    let (first, others) = text.split_once(' ').ok_or(Fault::Line)?;
    let (last, path) = others.split_once(' ').ok_or(Fault::Line)?;
    Ok((number_of(first)?, number_of(last)?, path))
}

/// Adds the lines of a text whose numbers are in a range, the first being 1.
fn add_range(bytes: &mut Vec<u8>, text: &str, first: usize, last: usize) -> Result<(), AllocError> {
    for (before, line) in text.lines().enumerate() {
        if before < last && before.saturating_add(1) >= first {
            add_line(bytes, line)?;
        }
    }
    Ok(())
}

/// Adds some lines of a file of the shelf.
fn add_lines(bytes: &mut Vec<u8>, shelf: &Shelf<'_>, range: &str) -> Result<(), Fault> {
    let (first, last, path) = range_of(range)?;
    match str::from_utf8(shelf.bytes_at(path).ok_or(Fault::Line)?) {
        Ok(text) => Ok(add_range(bytes, text, first, last)?),
        Err(_) => Err(Fault::Line),
    }
}

/// Adds the piece of this kind.
pub(crate) fn add_piece(
    alloc: Global,
    shelf: &Shelf<'_>,
    bytes: &mut Vec<u8>,
    kind: &str,
    text: &str,
) -> Result<(), Fault> {
    match kind {
        "" => Ok(add_line(bytes, text)?),
        "-" => Ok(bytes.extend_from_slice(text.as_bytes())?),
        "x" => add_hex(alloc, bytes, text),
        "0" => add_zeros(bytes, text),
        "*" => add_repeated(bytes, text),
        "*x" => add_repeated_hex(alloc, bytes, text),
        "=" => set_byte(bytes, text),
        "/" => cut(bytes, text),
        "@" => add_file(bytes, shelf, text),
        "#" => add_lines(bytes, shelf, text),
        _ => Err(Fault::Line),
    }
}
