//! The note on a game that was in a folder before it is entered there.

ghost use Rattle.std.specs.Prelude.{◌≡◌, ◌↔◌, IsTrue, take, drop};
ghost use Rattle.answer_commands.specs.Earlier.{CountsMoves, NotesKnown, Recounts, SeeksCount, earlier_words};
ghost use Rattle.answer_commands.specs.Inside.Entering.{FindsMoves};
ghost use Rattle.answer_commands.specs.Inside.StoreReading.{known_of};
ghost use Rattle.hex.specs.Hex.{encode_lower};
ghost use Rattle.timeline.specs.Outsides.{AddsSome};

use crate::store_reading::Records;
use arrayvec::ArrayString;
use game_reports::found_in;
use itoa::Buffer;
use move_msg::{Record, Stamp};
use std::alloc::Global;
use system_io::{Entry, MOST_KEPT_BYTES};
use timeline::System;

/// Whether bytes have a stamp where a record has its own.
fn has_stamp(bytes: &[u8], stamp: Stamp) -> bool
    ensures { IsTrue result ↔ (take 16 (drop 3 bytes.now) ≡ stamp) }
{
    bytes.len() >= 19 && bytes[3..19] == stamp.0[..]
}

/// How many moves the record of a game has that these bytes spell. It takes no memory.
fn moves_in(bytes: &[u8], stamp: Stamp) -> Option<u32>
    ensures { CountsMoves stamp bytes.now result }
{
    if has_stamp(bytes, stamp) {
        match Record::summary(bytes) {
            Some((count, _code)) => Some(count),
            None => None,
        }
    } else {
        None
    }
}

/// How many moves the record of a game has that is looked for in its file.
fn seek_moves<S: System>(
    alloc: Global,
    system: &S,
    timeline: &mut S::Timeline,
    path: &str,
    stamp: Stamp,
) -> Option<u32>
    ensures { AddsSome (S.outside system.now) timeline.old timeline.new (SeeksCount (S.outside system.now).disk path.now stamp result) }
{
    match system.look_within(timeline, alloc, path, MOST_KEPT_BYTES as u64) {
        Ok(bytes) => moves_in(&bytes, stamp),
        Err(_) => None,
    }
}

/// How many moves the record of a game has, of the store or else of its file.
fn find_moves<S: System>(
    alloc: Global,
    system: &S,
    timeline: &mut S::Timeline,
    entries: &[Entry],
    path: &str,
    stamp: Stamp,
) -> Option<u32>
    ensures { AddsSome (S.outside system.now) timeline.old timeline.new (FindsMoves (S.outside system.now) path.now stamp entries.now result) }
{
    match found_in(entries, stamp) {
        Some(bytes) => moves_in(bytes, stamp),
        None => seek_moves(alloc, system, timeline, path, stamp),
    }
}

/// How many moves the record of a game has; none where there is no record that can be read.
fn count_moves<S: System>(
    alloc: Global,
    system: &S,
    timeline: &mut S::Timeline,
    records: &Records,
    path: &str,
    stamp: Stamp,
) -> Option<u32>
    ensures { AddsSome (S.outside system.now) timeline.old timeline.new (Recounts (S.outside system.now).disk path.now stamp (known_of records.now) result) }
{
    match records {
        Records::Read(entries) => find_moves(alloc, system, timeline, entries, path, stamp),
        Records::Unasked | Records::Unread => None,
    }
}

/// A stamp in lower-case hexadecimal digits.
fn digits_of(stamp: Stamp) -> [u8; 32]
    ensures { result ≡ encode_lower stamp }
{
    let mut digits = [0; 32];
    hex::encode_to_slice(stamp.as_bytes(), &mut digits).unwrap();
    digits
}

/// A stamp in lower-case hexadecimal digits, as a text.
fn stamp_text(stamp: Stamp) -> ArrayString<32>
    ensures { result.bytes ≡ encode_lower stamp }
{
    let digits = digits_of(stamp);
    ArrayString::from_byte_string(&digits).unwrap()
}

/// The line that says that a game was there. It takes no memory.
fn earlier_line(stamp: Stamp, count: Option<u32>) -> ArrayString<128>
    ensures { result.bytes ≡ earlier_words stamp count }
{
    let mut line = ArrayString::new();
    line.push_str(stamp_text(stamp).as_str());
    match count {
        Some(count) => {
            line.push_str(" was there before, with ");
            line.push_str(Buffer::new().format(count));
            line.push_str(" moves");
        }
        None => line.push_str(" was there before"),
    }
    line
}

/// Notes that a game was there before, with the number of its recorded moves, where its record can be read: that of the store, or else the
/// one in the file at this path.
pub(crate) fn note_known<S: System>(
    alloc: Global,
    system: &S,
    timeline: &mut S::Timeline,
    records: &Records,
    path: &str,
    stamp: Stamp,
)
    ensures { AddsSome (S.outside system.now) timeline.old timeline.new (NotesKnown (S.outside system.now).disk path.now stamp (known_of records.now)) }
{
    let count = count_moves(alloc, system, timeline, records, path, stamp);
    let line = earlier_line(stamp, count);
    system.note(timeline, &[line.as_str()]);
}
