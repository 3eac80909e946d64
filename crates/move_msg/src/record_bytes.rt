//! Records of a game as bytes.

ghost use Rattle.std.specs.Prelude.{◌≡◌, ◌≤◌, ◌<◌, ◌^◌, ◌++◌, ◌⊎◌, ◌↔◌, List, length, IsTrue, IfSome, IfNone, IfOk, IfErr, OnOk, IsErrOf, Ok, Err, Some};
ghost use Rattle.std.specs.Int.{w16, to_be_bytes};
ghost use Rattle.board_core.specs.declared.moves.Move.{Move};
ghost use Rattle.board_core.specs.declared.verdict.Verdict.{Verdict};
ghost use Rattle.move_msg.specs.declared.record_bytes.Record.{Record};
ghost use Rattle.move_msg.specs.declared.record_bytes.RecordFault.{RecordFault};
ghost use Rattle.move_msg.specs.declared.record_bytes.RecordFault.TheVariants.{OutOfMemory};
ghost use Rattle.board_core.specs.Delays.{most_delay};
ghost use Rattle.move_msg.specs.Numbers.{most_moves};
ghost use Rattle.move_msg.specs.Records.{AppendsMoves, SpellsRecord, WritesRecord, SpellsMoves, HasCounts, HasRecordHead, HasRecordLayout, IsFirstRecordFault, body_in, code_or_none, delay_in, framed, record_fault_name, words_at};
ghost use Rattle.move_msg.specs.Words.{SpellsWord};
ghost use Rattle.move_msg.specs.Inside.Layouts.{header_at};

use crate::count::MOST_MOVES;
use crate::move_list::MoveList;
use crate::stamp::Stamp;
use crate::words::{of_word, word};
use board_core::{Move, Verdict};
use byteorder::{BigEndian, ByteOrder};
use std::alloc::{AllocError, Global};

/// What an arbiter keeps of a game.
#[derive(Debug, Drop)]
pub struct Record {
    /// The game.
    pub stamp: Stamp,
    /// How many further plies a verdict by tables has to hold, 0 to 8 in an encoded record.
    pub delay: u8,
    /// The verdict after the moves, if there is one.
    pub verdict: Option<Verdict>,
    /// The moves from the start on.
    pub moves: MoveList,
}

/// Why bytes are no record, in the order in which faults are reported. The length and the numbers are each checked
/// twice.
#[derive(Clone, Copy, PartialEq, Eq, Debug)]
pub enum RecordFault {
    /// There are fewer than 24 bytes, in version 2 fewer than 25, or not as many as the number of moves requires.
    BadLength,
    /// They don't begin with `SR` and the version 1 or 2.
    BadHead,
    /// The delay is above 8, the code of the verdict above 7, the number of moves above 4096 or a
    /// word above 20479.
    BadField,
    /// Memory was refused. All but the words is well formed then.
    OutOfMemory,
}

impl RecordFault {
    /// The name of the fault, for printing.
    pub fn name(self) -> &'static str
        ensures { result.now ≡ record_fault_name self }
    {
        match self {
            RecordFault::BadLength => "BadLength",
            RecordFault::BadHead => "BadHead",
            RecordFault::BadField => "BadField",
            RecordFault::OutOfMemory => "OutOfMemory",
        }
    }
}

impl From<AllocError> for RecordFault {
    ghost from_gives = { λ _ e. e ≡ OutOfMemory };

    fn from(_e: AllocError) -> RecordFault {
        RecordFault::OutOfMemory
    }
}

/// The code of a verdict, 1 to 7; 0 for none.
pub(crate) fn code_or_none(verdict: Option<Verdict>) -> u8
    ensures { result ≡ code_or_none verdict }
{
    match verdict {
        Some(verdict) => verdict.code(),
        None => 0,
    }
}

/// The verdict with this code; none for 0.
fn verdict_of(code: u8) -> Option<Verdict>
    requires { code ≤ 7 }
    ensures { code_or_none result ≡ code }
{
    Verdict::from_code(code)
}

/// Appends the word of a move.
fn push_word(m: Move, out: &mut Vec<u8>) -> Result<(), AllocError>
    ensures { OnOk result ((code : _) × SpellsWord code m × (out.new.items ≡ out.old.items ++ to_be_bytes w16 code)) }
{
    let mut bytes = [0; 2];
    BigEndian::write_u16(&mut bytes, word(m));
    out.extend_from_slice(&bytes)?;
    Ok(())
}

/// Appends the words of moves.
pub(crate) fn push_words(moves: &[Move], out: &mut Vec<u8>) -> Result<(), AllocError>
    ensures { OnOk result (AppendsMoves out.old.items out.new.items moves.now) }
{
    for m in moves {
        push_word(*m, out)?;
    }
    Ok(())
}

/// Appends all that precedes the words, in version 2.
#[tactic(auto, unfolding(crate::specs::Records::record_frame, crate::specs::Records::body_text))]
fn push_front(game: &Record, out: &mut Vec<u8>) -> Result<(), AllocError>
    ensures ok { OnOk result ((words : List _) → out.new.items ++ words ≡ out.old.items ++ framed game.now words) }
    ensures fits { (length game.now.stamp ≡ 16) × (length game.now.moves ≤ most_moves) }
{
    let stamp = game.stamp.as_bytes();
    let mut count = [0; 4];
    BigEndian::write_u32(&mut count, game.moves.count().number());
    out.extend_from_slice(&[b'S', b'R', 2])?;
    out.extend_from_slice(stamp)?;
    out.push(game.delay)?;
    out.push(code_or_none(game.verdict))?;
    out.extend_from_slice(&count)?;
    Ok(())
}

/// The word at the front of the bytes, and the bytes after it; none where there are fewer than two bytes.
fn first_word(bytes: &[u8]) -> Option<(u16, &[u8])>
    ensures some { IfSome result (λ found. (found.0 < 2 ^ 16) × (bytes.now ≡ to_be_bytes w16 found.0 ++ found.1.now)) }
    ensures none { IfNone result (length bytes.now < 2) }
{
    match bytes {
        [high, low, rest @ ..] => Some((u16::from_be_bytes([*high, *low]), rest)),
        _ => None,
    }
}

/// Whether bytes are words that stand for moves.
fn are_words(bytes: &[u8]) -> bool
    ensures { IsTrue result ↔ ((ms : List Move) × SpellsMoves bytes.now ms) }
{
    let mut rest = bytes;
    while let Some((word, tail)) = first_word(rest) {
        let Some(_) = of_word(word) else {
            return false;
        };
        rest = tail;
    }
    rest.is_empty()
}

/// The moves that words stand for.
fn read_words(alloc: Global, bytes: &[u8]) -> Result<Vec<Move>, RecordFault>
    ensures ok { IfOk result (λ moves. SpellsMoves bytes.now moves.items) }
    ensures err { IfErr result (λ fault. (fault ≡ RecordFault.OutOfMemory)
        ⊎ ((fault ≡ RecordFault.BadField) × ((ms : List Move) → SpellsMoves bytes.now ms → ⊥))) }
{
    let mut moves = Vec::with_capacity(alloc, bytes.len() / 2)?;
    let mut rest = bytes;
    while let Some((word, tail)) = first_word(rest) {
        let Some(m) = of_word(word) else {
            return Err(RecordFault::BadField);
        };
        let Ok(()) = moves.push(m) else {
            return Err(RecordFault::OutOfMemory);
        };
        rest = tail;
    }
    if rest.is_empty() {
        Ok(moves)
    } else {
        Err(RecordFault::BadField)
    }
}

/// What stands before the words of a record.
#[derive(Clone, Copy)]
struct Header {
    stamp: Stamp,
    delay: u8,
    code: u8,
    count: u32,
}

/// Whether bytes begin with the head of a record.
fn has_head(bytes: &[u8]) -> bool
    requires { 24 ≤ length bytes.now }
    ensures { IsTrue result ↔ HasRecordHead bytes.now }
{
    bytes[0] == b'S' && bytes[1] == b'R' && (bytes[2] == 1 || bytes[2] == 2)
}

/// The delay, and the bytes after the stamp and the delay. Version 1 has no such byte, which means a delay of 0.
fn body_of(bytes: &[u8]) -> (u8, &[u8])
    requires { 24 ≤ length bytes.now }
    ensures delay { result.0 ≡ delay_in bytes.now }
    ensures body { result.1.now ≡ body_in bytes.now }
{
    if bytes[2] == 1 {
        let (_, body) = bytes.split_at(19);
        (0, body)
    } else {
        let (_, body) = bytes.split_at(20);
        (bytes[19], body)
    }
}

/// The head and the words of bytes that are a record if their words stand for moves.
#[tactic(auto, unfolding(crate::specs::Inside::Layouts::header_at))]
fn read_front(bytes: &[u8]) -> Result<(Header, &[u8]), RecordFault>
    ensures ok { IfOk result (λ front. HasRecordLayout bytes.now × (front.0 ≡ header_at bytes.now) × (front.1.now ≡ words_at (body_in bytes.now))) }
    ensures err { IfErr result (IsFirstRecordFault bytes.now) }
    ensures other { IfErr result (λ fault. fault ≡ RecordFault.BadField → HasCounts bytes.now → ⊥) }
{
    if bytes.len() < 24 {
        return Err(RecordFault::BadLength);
    }
    if !has_head(bytes) {
        return Err(RecordFault::BadHead);
    }
    let (delay, body) = body_of(bytes);
    if body.len() < 5 {
        return Err(RecordFault::BadLength);
    }
    let code = body[0];
    let count = u32::from_be_bytes([body[1], body[2], body[3], body[4]]);
    if delay > 8 || code > 7 || count > MOST_MOVES {
        return Err(RecordFault::BadField);
    }
    if body.len() != 5 + 2 * count as usize {
        return Err(RecordFault::BadLength);
    }
    let mut stamp = [0; 16];
    stamp.copy_from_slice(&bytes[3..19]);
    let (_, words) = body.split_at(5);
    let header = Header {
        stamp: Stamp(stamp),
        delay,
        code,
        count,
    };
    Ok((header, words))
}

impl Record {
    /// The bytes of the record (record format, version 2): 25 and two for each move.
    ///
    /// The caller ensures that the delay is at most 8. The error comes only where memory is refused.
    pub fn encode(&self, alloc: Global) -> Result<Vec<u8>, AllocError>
        requires { self.now.delay ≤ most_delay }
        ensures written { IfOk result (λ bytes. WritesRecord bytes.items self.now) }
        ensures spelled { IfOk result (λ bytes. SpellsRecord bytes.items self.now) }
        ensures size { IfOk result (λ bytes. length bytes.items ≤ 8217) }
    {
        let mut bytes = Vec::with_capacity(alloc, 25 + 2 * self.moves.as_slice().len())?;
        push_front(self, &mut bytes)?;
        push_words(self.moves.as_slice(), &mut bytes)?;
        Ok(bytes)
    }

    /// The record that the bytes encode (record format, versions 1 and 2), or their first fault, in this order.
    /// `BadLength` below 24 bytes; `BadHead`; `BadLength` below 25 bytes in version 2. `BadField` for the delay, the
    /// verdict's code and the number of moves. `BadLength` where that number requires another length; `BadField` for
    /// the words. `OutOfMemory`, where memory is refused, comes only when all but the words is well formed.
    ///
    /// Version 1 has no delay: its records have the delay 0.
    pub fn decode(alloc: Global, bytes: &[u8]) -> Result<Record, RecordFault>
        ensures ok { IfOk result (SpellsRecord bytes.now) }
        ensures only { (r : Record) → SpellsRecord bytes.now r → (result ≡ Ok r) ⊎ (result ≡ Err RecordFault.OutOfMemory) }
        ensures err { IfErr result (λ fault. (fault ≡ RecordFault.OutOfMemory → ⊥) → IsFirstRecordFault bytes.now fault) }
        ensures only_fault { (fault : RecordFault) → IsFirstRecordFault bytes.now fault → (result ≡ Err fault) ⊎ (result ≡ Err RecordFault.OutOfMemory) }
        ensures memory { IsErrOf result RecordFault.OutOfMemory → HasRecordLayout bytes.now }
    {
        let (header, words) = match read_front(bytes) {
            Ok(front) => front,
            Err(fault) => return Err(fault),
        };
        match read_words(alloc, words) {
            Ok(moves) => Ok(Record {
                stamp: header.stamp,
                delay: header.delay,
                verdict: verdict_of(header.code),
                moves: MoveList::from_vec(moves),
            }),
            Err(fault) => Err(fault),
        }
    }

    /// The number of moves, 0 to 4096, and the code of the verdict, 0 for none, of an encoded record (record format,
    /// versions 1 and 2). None of other bytes. It takes no memory.
    pub fn summary(bytes: &[u8]) -> Option<(u32, u8)>
        ensures some { IfSome result (λ found. (r : Record) × SpellsRecord bytes.now r × (found ≡ (length r.moves, code_or_none r.verdict))) }
        ensures only { (r : Record) → SpellsRecord bytes.now r → result ≡ Some (length r.moves, code_or_none r.verdict) }
    {
        let Ok((header, words)) = read_front(bytes) else {
            return None;
        };
        if !are_words(words) {
            return None;
        }
        Some((header.count, header.code))
    }
}
