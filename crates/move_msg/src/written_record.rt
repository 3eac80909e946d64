//! A record with its bytes, which moves are appended to.

ghost use Rattle.std.specs.Prelude.{◌≡◌, ◌+◌, ◌≤◌, ◌<◌, ◌^◌, ◌++◌, length, take, drop, cond, is_ok, IfOk, IfErr, OnOk, OnErr, IsErrOf, List, None, Ok, Err, ◌⊎◌};
ghost use Rattle.board_core.specs.Delays.{most_delay};
ghost use Rattle.move_msg.specs.Numbers.{most_moves};
ghost use Rattle.move_msg.specs.Records.{SpellsMoves, SpellsRecord, WritesRecord, HasRecordLayout, IsFirstRecordFault, body_text, cut_back, gone_on};
ghost use Rattle.move_msg.specs.declared.record_bytes.Record.{Record};
ghost use Rattle.move_msg.specs.declared.record_bytes.RecordFault.{RecordFault};

use crate::record_bytes::{Record, RecordFault, code_or_none, push_words};
use board_core::{Move, Verdict};
use std::alloc::{AllocError, Global};
use std::marker::Model;

/// A record and its bytes, which aren't written anew where moves are appended; contracts see the record.
#[derive(Drop)]
pub struct WrittenRecord {
    record: Record,
    bytes: Vec<u8>,
}

impl Model for WrittenRecord {
    ghost use Rattle.move_msg.specs.declared.record_bytes.Record.{Record};
    ghost use Rattle.move_msg.specs.Records.{WritesRecord};

    ghost Value = { Record };

    ghost view = { λ w. w.record };

    ghost invariant = { λ w. WritesRecord w.bytes.items w.record };
}

/// The words of moves.
fn words_of(alloc: Global, moves: &[Move]) -> Result<Vec<u8>, AllocError>
    requires { length moves.now ≤ most_moves }
    ensures { IfOk result (λ words. SpellsMoves words.items moves.now) }
{
    let mut words = Vec::with_capacity(alloc, 2 * moves.len())?;
    push_words(moves, &mut words)?;
    Ok(words)
}

/// Appends bytes. Where there is too little room it grows by 64 bytes more than it has to, and no further.
fn append_bytes(bytes: &mut Vec<u8>, more: &[u8]) -> Result<(), AllocError>
    ensures { bytes.new.items ≡ cond (is_ok result) (bytes.old.items ++ more.now) bytes.old.items }
{
    if bytes.capacity() - bytes.len() < more.len() {
        bytes.reserve_exact(more.len() + 64)?;
    }
    bytes.extend_from_slice(more)
}

/// Writes another code and another number of moves before the words.
fn rewrite(bytes: &mut Vec<u8>, code: u8, count: u32)
    requires { 25 ≤ length bytes.old.items }
    ensures { bytes.new.items ≡ take 20 bytes.old.items ++ body_text code count (drop 25 bytes.old.items) }
{
    let [first, second, third, last] = count.to_be_bytes();
    bytes[20] = code;
    bytes[21] = first;
    bytes[22] = second;
    bytes[23] = third;
    bytes[24] = last;
}

impl WrittenRecord {
    /// A record and its bytes. The caller ensures that the delay is at most 8. The error comes only where memory is
    /// refused.
    pub fn of(alloc: Global, game: Record) -> Result<WrittenRecord, AllocError>
        requires { game.delay ≤ most_delay }
        ensures { IfOk result (λ w. w ≡ game) }
    {
        let bytes = game.encode(alloc)?;
        Ok(WrittenRecord {
            record: game,
            bytes,
        })
    }

    /// The record that the bytes encode, as `Record::decode` reads it, and its bytes.
    pub fn read(alloc: Global, bytes: &[u8]) -> Result<WrittenRecord, RecordFault>
        ensures ok { IfOk result (SpellsRecord bytes.now) }
        ensures only { (r : Record) → SpellsRecord bytes.now r → (result ≡ Ok r) ⊎ (result ≡ Err RecordFault.OutOfMemory) }
        ensures err { IfErr result (λ fault. (fault ≡ RecordFault.OutOfMemory → ⊥) → IsFirstRecordFault bytes.now fault) }
        ensures only_fault { (fault : RecordFault) → IsFirstRecordFault bytes.now fault → (result ≡ Err fault) ⊎ (result ≡ Err RecordFault.OutOfMemory) }
        ensures memory { IsErrOf result RecordFault.OutOfMemory → HasRecordLayout bytes.now }
    {
        match Record::decode(alloc, bytes) {
            Ok(record) => match WrittenRecord::of(alloc, record) {
                Ok(written) => Ok(written),
                Err(_) => Err(RecordFault::OutOfMemory),
            },
            Err(fault) => Err(fault),
        }
    }

    /// The record.
    pub fn as_record(&self) -> &Record
        ensures { result.now ≡ self.now }
    {
        &self.record
    }

    /// Its bytes (record format, version 2).
    pub fn as_bytes(&self) -> &[u8]
        ensures written { WritesRecord result.now self.now }
        ensures spelled { SpellsRecord result.now self.now }
        ensures size { length result.now ≤ 8217 }
    {
        self.bytes.as_slice()
    }

    /// Appends moves, and sets the verdict after them. The caller ensures that there are at most 4096 moves then. The
    /// error comes only where memory is refused, and leaves the record as it was.
    pub fn go_on(
        &mut self,
        alloc: Global,
        more: &[Move],
        verdict: Option<Verdict>,
    ) -> Result<(), AllocError>
        requires { length self.old.moves + length more.now ≤ most_moves }
        ensures ok { OnOk result (self.new ≡ gone_on self.old more.now verdict) }
        ensures err { OnErr result (self.new ≡ self.old) }
    {
        let words = words_of(alloc, more)?;
        self.record.moves.append(more)?;
        let Ok(()) = append_bytes(&mut self.bytes, &words) else {
            let count = self.record.moves.as_slice().len() - more.len();
            self.record.moves.truncate(count);
            return Err(AllocError);
        };
        self.record.verdict = verdict;
        let count = self.record.moves.count().number();
        rewrite(&mut self.bytes, code_or_none(verdict), count);
        Ok(())
    }

    /// Takes all moves after the first `count` back, and the verdict.
    pub fn cut_back(&mut self, count: usize)
        requires { count ≤ length self.old.moves }
        ensures { self.new ≡ cut_back self.old count }
    {
        self.record.moves.truncate(count);
        self.record.verdict = None;
        self.bytes.truncate(25 + 2 * count);
        rewrite(&mut self.bytes, 0, count as u32);
    }
}
