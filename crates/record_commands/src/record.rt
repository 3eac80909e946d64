//! `record`: the contents of a kept record.

ghost use Rattle.std.specs.Prelude.{◌≡◌, ◌++◌, IfOk, OnErr, OnOk, codes};
ghost use Rattle.fen_text.specs.Coordinates.{move_text};
ghost use Rattle.std.specs.Io.KnownBytes.{Appends};
ghost use Rattle.move_msg.specs.TextLines.{ended, text_of};
ghost use Rattle.record_commands.specs.Record.{IsReply, RecordTakesMemory, delay_words, moves_words, record_lines, recorded_verdict_words, spaced, stamp_words};
ghost use Rattle.answer_parts.specs.Asked.{reply_of};

use answer_parts::{Answer, Refusal};
use arbiter_server::verdict_or_none;
use board_core::{Move, Verdict};
use command_line::ShowRecord;
use fen_text::write_move;
use move_msg::{Record, RecordFault, Stamp};
use std::alloc::{AllocError, Global};
use std::io::Write;
use system_io::WriteFault;
use task_files::Inputs;

/// Writes bytes.
fn put<W: Write>(out: &mut W, bytes: &[u8]) -> Result<(), WriteFault>
    ensures { OnOk result (Appends (W.contents out.old) (W.contents out.new) bytes.now) }
{
    match out.write_all(bytes) {
        Ok(()) => Ok(()),
        Err(_) => Err(WriteFault::Io),
    }
}

/// Writes a stamp in hexadecimal digits.
fn put_stamp<W: Write>(out: &mut W, stamp: Stamp) -> Result<(), WriteFault>
    ensures { OnOk result (Appends (W.contents out.old) (W.contents out.new) (ended (stamp_words stamp))) }
{
    let mut digits = [0; 32];
    hex::encode_to_slice(stamp.as_bytes(), &mut digits).unwrap();
    put(out, b"stamp ")?;
    put(out, &digits)?;
    put(out, b"\n")
}

/// Writes a delay.
fn put_delay<W: Write>(out: &mut W, plies: u8) -> Result<(), WriteFault>
    ensures { OnOk result (Appends (W.contents out.old) (W.contents out.new) (ended (delay_words plies))) }
{
    match writeln!(out, "delay {plies}") {
        Ok(()) => Ok(()),
        Err(_) => Err(WriteFault::Io),
    }
}

/// Writes a move in coordinates, after a space.
fn put_move<W: Write>(out: &mut W, m: &Move) -> Result<(), WriteFault>
    ensures { OnOk result (Appends (W.contents out.old) (W.contents out.new) (codes " " ++ move_text m.now)) }
{
    put(out, b" ")?;
    put(out, write_move(m).as_str().as_bytes())
}

/// Writes moves in coordinates, each after a space.
fn put_spaced<W: Write>(out: &mut W, moves: &[Move]) -> Result<(), WriteFault>
    ensures { OnOk result (Appends (W.contents out.old) (W.contents out.new) (spaced moves.now)) }
{
    for m in moves {
        match put_move(out, m) {
            Ok(()) => {}
            Err(fault) => return Err(fault),
        }
    }
    Ok(())
}

/// Writes the line of moves.
fn put_moves<W: Write>(out: &mut W, moves: &[Move]) -> Result<(), WriteFault>
    ensures { OnOk result (Appends (W.contents out.old) (W.contents out.new) (ended (moves_words moves.now))) }
{
    put(out, b"moves")?;
    put_spaced(out, moves)?;
    put(out, b"\n")
}

/// Writes a verdict, or that there is none.
fn put_verdict<W: Write>(out: &mut W, verdict: Option<Verdict>) -> Result<(), WriteFault>
    ensures { OnOk result (Appends (W.contents out.old) (W.contents out.new) (ended (recorded_verdict_words verdict))) }
{
    let verdict = verdict_or_none(verdict);
    match writeln!(out, "verdict {verdict}") {
        Ok(()) => Ok(()),
        Err(_) => Err(WriteFault::Io),
    }
}

/// Writes the lines of a record.
#[tactic(auto, unfolding(crate::specs::Record::record_lines))]
fn put_record<W: Write>(out: &mut W, kept: &Record) -> Result<(), WriteFault>
    ensures { OnOk result (Appends (W.contents out.old) (W.contents out.new) (text_of (record_lines kept.now))) }
{
    put_stamp(out, kept.stamp)?;
    put_delay(out, kept.delay)?;
    put_moves(out, kept.moves.as_slice())?;
    put_verdict(out, kept.verdict)
}

/// The text of a record.
fn text_of(alloc: Global, kept: &Record) -> Result<Vec<u8>, AllocError>
    ensures { IfOk result (λ text. text.items ≡ text_of (record_lines kept.now)) }
{
    let mut text = Vec::new(alloc);
    match put_record(&mut text, kept) {
        Ok(()) => Ok(text),
        Err(_) => Err(AllocError),
    }
}

/// The answer: a line for each part of the record in the kept file, or why it is none.
pub fn answer(alloc: Global, task: &ShowRecord<'_>, sources: &Inputs) -> Result<Answer, AllocError>
    ensures ok { IfOk result (λ a. IsReply sources.now.kept (reply_of a)) }
    ensures memory { OnErr result (RecordTakesMemory sources.now.kept) }
{
    match Record::decode(alloc, sources.kept()) {
        Ok(record) => match text_of(alloc, &record) {
            Ok(text) => Ok(Answer::Text(text, true)),
            Err(fault) => Err(fault),
        },
        Err(fault) => match fault {
            RecordFault::OutOfMemory => Err(AllocError),
            _ => Ok(Answer::Refused(Refusal::Record(fault))),
        },
    }
}
