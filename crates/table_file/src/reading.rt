//! Fields of a table file, from left to right.

ghost use Rattle.std.specs.Prelude.{◌≡◌, ◌≢◌, ◌≤◌, ◌+◌, ◌*◌, length, slice_index, IfOk, IfErr};
ghost use Rattle.table_file.specs.declared.fault.TableFault.TheVariants.{OutOfMemory};
ghost use Rattle.table_file.specs.Reading.{Gives, byte_at, taken_at, word_at, four_bytes_at, exponent_at, risen, has_bit};

use crate::fault::TableFault;
use byteorder::{ByteOrder, LittleEndian};
use std::marker::Model;

/// Some bytes of the file, one after the other.
#[derive(Drop)]
pub(crate) struct FileBytes<'a> {
    bytes: &'a [u8],
}

impl<'a> Model for FileBytes<'a> {
    ghost use Rattle.std.specs.Prelude.{ℕ, List};

    ghost Value = { List ℕ };

    ghost view = { λ a. a.bytes.now };
}

impl<'a> FileBytes<'a> {
    pub(crate) fn new(bytes: &'a [u8]) -> FileBytes<'a>
        ensures { result ≡ bytes.now }
    {
        FileBytes { bytes }
    }

    pub(crate) fn bytes(&self) -> &'a [u8]
        ensures { result.now ≡ self.now }
    {
        self.bytes
    }
}

/// One byte, and what is left.
#[tactic(auto, unfolding(crate::specs::Reading::byte_at))]
pub(crate) fn byte(bytes: &[u8]) -> Result<(u8, &[u8]), TableFault>
    ensures is { Gives (λ x. (x.0, x.1.now)) result (byte_at bytes.now) }
    ensures no_memory { IfErr result (λ e. e ≢ OutOfMemory) }
{
    match bytes {
        [] => Err(TableFault::Truncated),
        [first, rest @ ..] => Ok((*first, rest)),
    }
}

/// So many bytes, and what is left.
#[tactic(auto, unfolding(crate::specs::Reading::taken_at))]
pub(crate) fn taken(n: usize, bytes: &[u8]) -> Result<(&[u8], &[u8]), TableFault>
    ensures is { Gives (λ x. (x.0.now, x.1.now)) result (taken_at n bytes.now) }
    ensures all { IfOk result (λ x. length x.0.now ≡ n) }
    ensures no_memory { IfErr result (λ e. e ≢ OutOfMemory) }
{
    if bytes.len() < n {
        return Err(TableFault::Truncated);
    }
    let (front, rest) = bytes.split_at(n);
    Ok((front, rest))
}

/// A number of two bytes, the low one first, and what is left.
#[tactic(auto, unfolding(crate::specs::Reading::word_at))]
pub(crate) fn word(bytes: &[u8]) -> Result<(u16, &[u8]), TableFault>
    ensures is { Gives (λ x. (x.0, x.1.now)) result (word_at bytes.now) }
    ensures no_memory { IfErr result (λ e. e ≢ OutOfMemory) }
{
    if bytes.len() < 2 {
        return Err(TableFault::Truncated);
    }
    let (_, rest) = bytes.split_at(2);
    Ok((LittleEndian::read_u16(bytes), rest))
}

/// A number of four bytes, the low ones first, and what is left.
#[tactic(auto, unfolding(crate::specs::Reading::four_bytes_at))]
pub(crate) fn number(bytes: &[u8]) -> Result<(u32, &[u8]), TableFault>
    ensures is { Gives (λ x. (x.0, x.1.now)) result (four_bytes_at bytes.now) }
    ensures no_memory { IfErr result (λ e. e ≢ OutOfMemory) }
{
    if bytes.len() < 4 {
        return Err(TableFault::Truncated);
    }
    let (_, rest) = bytes.split_at(4);
    Ok((LittleEndian::read_u32(bytes), rest))
}

/// The number of two bytes at a place, the low one first.
pub(crate) fn word_at(bytes: &[u8], at: usize) -> u16
    requires { at + 2 ≤ length bytes.now }
    ensures { result ≡ slice_index bytes.now at + 256 * slice_index bytes.now (at + 1) }
{
    LittleEndian::read_u16(&bytes[at..])
}

/// The number of four bytes at a place, the low ones first.
pub(crate) fn number_at(bytes: &[u8], at: usize) -> u32
    requires { at + 4 ≤ length bytes.now }
    ensures { result ≡ slice_index bytes.now at + 256 * slice_index bytes.now (at + 1) + 65536 * slice_index bytes.now (at + 2) + 16777216 * slice_index bytes.now (at + 3) }
{
    LittleEndian::read_u32(&bytes[at..])
}

/// An exponent between two bounds, and what is left.
#[tactic(auto, unfolding(crate::specs::Reading::exponent_at))]
pub(crate) fn exponent(least: u8, greatest: u8, bytes: &[u8]) -> Result<(u8, &[u8]), TableFault>
    ensures is { Gives (λ x. (x.0, x.1.now)) result (exponent_at least greatest bytes.now) }
    ensures sound { IfOk result (λ x. (least ≤ x.0) × (x.0 ≤ greatest)) }
    ensures no_memory { IfErr result (λ e. e ≢ OutOfMemory) }
{
    let (exponent, rest) = byte(bytes)?;
    if exponent < least || greatest < exponent {
        return Err(TableFault::BadExponent);
    }
    Ok((exponent, rest))
}

/// Whether the bit of that worth is set.
pub(crate) fn has_bit(worth: u8, flags: u8) -> bool
    requires { 1 ≤ worth }
    ensures { result ≡ has_bit worth flags }
{
    flags / worth % 2 == 1
}

/// The bytes from the next even place of the file on.
pub(crate) fn even(bytes: &[u8]) -> &[u8]
    ensures { result.now ≡ risen 2 bytes.now }
{
    &bytes[bytes.len() % 2..]
}

/// The bytes from the next multiple of 64 on.
pub(crate) fn aligned(bytes: &[u8]) -> &[u8]
    ensures { result.now ≡ risen 64 bytes.now }
{
    &bytes[bytes.len() % 64..]
}
