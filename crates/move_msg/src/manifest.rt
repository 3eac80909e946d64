//! Manifests of tables.

ghost use Rattle.std.specs.Prelude.{◌≡◌, ◌<◌, ◌++◌, ◌⊎◌, ◌↔◌, ℕ, List, map, length, slice_index, IsTrue, IfSome, IfNone, IfOk, IfErr, OnOk, IsErrOf};
ghost use Rattle.hex.specs.Hex.{encode_lower};
ghost use Rattle.move_msg.specs.declared.manifest.ManifestFault.{ManifestFault};
ghost use Rattle.move_msg.specs.declared.manifest.ManifestFault.TheVariants.{BadLine, OutOfMemory};
ghost use Rattle.move_msg.specs.Manifests.{Entry, AreEntries, IsEntry, IsAfter, IsBefore, IsFirstBadLine, HasFirstLine, SpellsManifest, entry_of, entry_text, line_text};
ghost use Rattle.move_msg.specs.Files.{AreFiles, entries_of, entry_for, table_file_of};
ghost use Rattle.move_msg.specs.TableNames.{IsFileName};

use crate::files::{NamedFile, file_digest};
use crate::table_name::{after, cut, is_file_name};
use arrayvec::ArrayString;
use std::alloc::{AllocError, Global};
use std::cmp::Ordering;

/// A file of a table and the digest of its bytes.
#[derive(Clone, Copy, Debug)]
pub struct Line {
    /// The SHA-256 digest (FIPS 180-4) of the file's bytes.
    pub digest: [u8; 32],
    /// The name of the file, as `KQvK.rtbw`.
    pub name: ArrayString<16>,
}

impl Line {
    /// The line of the file with this name and these bytes.
    pub fn of(name: ArrayString<16>, bytes: &[u8]) -> Line
        ensures is { entry_of result ≡ entry_for (record { name = name.bytes; bytes = bytes.now }) }
        ensures entry { IsFileName name.bytes → IsEntry (entry_of result) }
    {
        Line {
            digest: file_digest(bytes),
            name,
        }
    }
}

/// Why bytes are no manifest.
#[derive(Clone, Copy, PartialEq, Eq, Debug)]
pub enum ManifestFault {
    /// The line of this number, counted from 1, is malformed, or its name doesn't come after the one before.
    BadLine(usize),
    /// Memory was refused.
    OutOfMemory,
}

impl From<AllocError> for ManifestFault {
    ghost from_gives = { λ _ e. e ≡ OutOfMemory };

    fn from(_e: AllocError) -> ManifestFault {
        ManifestFault::OutOfMemory
    }
}

/// The digest with these 64 lower-case hexadecimal digits.
fn digest_of(text: &[u8]) -> Option<[u8; 32]>
    ensures some { IfSome result (λ digest. (length digest ≡ 32) × ((i : ℕ) → slice_index digest i < 256) × (text.now ≡ encode_lower digest)) }
    ensures none { IfNone result ((digest : List ℕ) → length digest ≡ 32 → ((i : ℕ) → slice_index digest i < 256) → text.now ≡ encode_lower digest → ⊥) }
{
    let mut digest = [0; 32];
    if hex::decode_to_slice(text, &mut digest).is_err() {
        return None;
    }
    let mut again = [0; 64];
    if hex::encode_to_slice(&digest, &mut again).is_err() {
        return None;
    }
    if again.as_slice() != text {
        return None;
    }
    Some(digest)
}

/// The name of a table's file as a text.
fn file_name(name: &[u8]) -> Option<ArrayString<16>>
    ensures some { IfSome result (λ text. (text.bytes ≡ name.now) × IsFileName name.now) }
    ensures none { IfNone result (IsFileName name.now → ⊥) }
{
    if !is_file_name(name) {
        return None;
    }
    let Ok(name) = str::from_utf8(name) else {
        return None;
    };
    ArrayString::from(name).ok()
}

/// The entry of a line without its line feed.
fn line_of(text: &[u8]) -> Option<Line>
    ensures some { IfSome result (λ line. IsEntry (entry_of line) × (text.now ≡ entry_text (entry_of line))) }
    ensures none { IfNone result ((e : Entry) → IsEntry e → text.now ≡ entry_text e → ⊥) }
{
    if text.len() < 64 {
        return None;
    }
    let (digits, rest) = text.split_at(64);
    let Some(digest) = digest_of(digits) else {
        return None;
    };
    let Some(rest) = after(rest, b' ') else {
        return None;
    };
    let Some(rest) = after(rest, b' ') else {
        return None;
    };
    let Some(name) = file_name(rest) else {
        return None;
    };
    Some(Line { digest, name })
}

/// The entry of the first line, and the bytes after it.
fn first_line(bytes: &[u8]) -> Option<(Line, &[u8])>
    ensures some { IfSome result (λ found. IsEntry (entry_of found.0) × (bytes.now ≡ line_text (entry_of found.0) ++ found.1.now)) }
    ensures none { IfNone result ((e : Entry) (rest : List ℕ) → IsEntry e → bytes.now ≡ line_text e ++ rest → ⊥) }
{
    let Some((text, rest)) = cut(bytes, b'\n') else {
        return None;
    };
    let Some(line) = line_of(text) else {
        return None;
    };
    Some((line, rest))
}

/// Whether the one line's name comes before the other's.
fn is_before(first: &Line, second: &Line) -> bool
    ensures { IsTrue result ↔ IsBefore (entry_of first.now) (entry_of second.now) }
{
    match first.name.as_str().cmp(second.name.as_str()) {
        Ordering::Less => true,
        Ordering::Equal | Ordering::Greater => false,
    }
}

/// Whether the line's name comes after that of the last of these.
fn is_after(lines: &[Line], line: &Line) -> bool
    ensures { IsTrue result ↔ IsAfter (map entry_of lines.now) (entry_of line.now) }
{
    match lines.last() {
        Some(last) => is_before(last, line),
        None => true,
    }
}

/// The lines of a manifest (manifest format), or the first fault. `BadLine` has the number of the first malformed line.
/// `OutOfMemory` comes where memory is refused, and only where the first line is well formed.
pub fn manifest_read(alloc: Global, bytes: &[u8]) -> Result<Vec<Line>, ManifestFault>
    ensures ok { IfOk result (λ lines. SpellsManifest bytes.now (map entry_of lines.items)) }
    ensures err { IfErr result (λ fault. (fault ≡ OutOfMemory) ⊎ ((k : ℕ) × (fault ≡ BadLine k) × IsFirstBadLine bytes.now k)) }
    ensures memory { IsErrOf result OutOfMemory → HasFirstLine bytes.now }
{
    let mut lines = Vec::new(alloc);
    let mut rest = bytes;
    while !rest.is_empty() {
        let fault = ManifestFault::BadLine(lines.len() + 1);
        let Some((line, more)) = first_line(rest) else {
            return Err(fault);
        };
        if !is_after(&lines, &line) {
            return Err(fault);
        }
        let Ok(()) = lines.push(line) else {
            return Err(ManifestFault::OutOfMemory);
        };
        rest = more;
    }
    Ok(lines)
}

/// Appends a line and its line feed.
#[tactic(auto, unfolding(crate::specs::Manifests::entry_text))]
fn push_line(line: &Line, out: &mut Vec<u8>) -> Result<(), AllocError>
    ensures { OnOk result (out.new.items ≡ out.old.items ++ line_text (entry_of line.now)) }
{
    let mut digits = [0; 64];
    hex::encode_to_slice(&line.digest, &mut digits).unwrap();
    out.extend_from_slice(&digits)?;
    out.extend_from_slice(b"  ")?;
    out.extend_from_slice(line.name.as_str().as_bytes())?;
    out.push(b'\n')?;
    Ok(())
}

/// The bytes of a manifest with these lines. The caller ensures that their names are names of table files, each after
/// the one before in byte order. The error comes only where memory is refused.
pub fn manifest_write(alloc: Global, lines: &[Line]) -> Result<Vec<u8>, AllocError>
    requires { AreEntries (map entry_of lines.now) }
    ensures { IfOk result (λ bytes. SpellsManifest bytes.items (map entry_of lines.now)) }
{
    let mut bytes = Vec::new(alloc);
    for line in lines {
        push_line(line, &mut bytes)?;
    }
    Ok(bytes)
}

/// The bytes of the manifest of these files. The caller ensures that their names are names of table files, each after
/// the one before in byte order. The error comes only where memory is refused.
pub fn manifest_of(alloc: Global, files: &[NamedFile]) -> Result<Vec<u8>, AllocError>
    requires { AreFiles (map table_file_of files.now) }
    ensures { IfOk result (λ bytes. SpellsManifest bytes.items (entries_of (map table_file_of files.now))) }
{
    let mut lines = Vec::new(alloc);
    for file in files {
        lines.push(Line::of(file.name, &file.bytes))?;
    }
    manifest_write(alloc, &lines)
}
