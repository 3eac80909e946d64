//! Calls of messages, records, manifests and words of moves.

use crate::calls::{Fault, Given, number_of};
use crate::positions::position_of;
use fen_text::{read_move, write_move};
use move_msg::{
    Message, Record, Stamp, is_game_name, manifest_read, manifest_write, of_word, word,
};
use std::alloc::{AllocError, Global};
use std::fmt::Write;

/// Tells bytes in hexadecimal digits, behind a word.
pub(crate) fn tell_hex(
    alloc: Global,
    told: &mut String,
    what: &str,
    bytes: &[u8],
) -> Result<(), AllocError> {
    let digits = hex::encode(alloc, bytes)?;
    writeln!(told, "{what} {digits}")
}

/// The bytes of a word in hexadecimal digits.
pub(crate) fn bytes_of(alloc: Global, digits: &str) -> Result<Vec<u8>, Fault> {
    match hex::decode(alloc, digits) {
        Ok(bytes) => Ok(bytes),
        Err(_) => Err(Fault::Line),
    }
}

/// Tells the squares of a move by their numbers, what a pawn becomes, its word, and its text.
fn tell_move(told: &mut String, text: &str) -> Result<(), AllocError> {
    let Some(m) = read_move(text.as_bytes()) else {
        return writeln!(told, "none");
    };
    let (from, to) = (m.from.number(), m.to.number());
    let (number, again) = (word(m), write_move(&m));
    let again = again.as_str();
    writeln!(told, "{from} {to} {:?} {number} {again}", m.promotion)
}

/// Tells the moves of texts.
fn tell_moves(told: &mut String, given: &Given<'_>) -> Result<(), Fault> {
    for text in given.words {
        tell_move(told, text)?;
    }
    Ok(())
}

/// Tells the move of a word by its number.
fn tell_word(told: &mut String, number: u16) -> Result<(), AllocError> {
    let Some(m) = of_word(number) else {
        return writeln!(told, "none");
    };
    let text = write_move(&m);
    let text = text.as_str();
    writeln!(told, "{text}")
}

/// Tells the moves of words by their numbers.
fn tell_words(told: &mut String, given: &Given<'_>) -> Result<(), Fault> {
    for text in given.words {
        let number = u16::try_from(number_of(text)?).or(Err(Fault::Line))?;
        tell_word(told, number)?;
    }
    Ok(())
}

/// Tells a message with its sender's number, and its stamp and the bytes that are written of it.
fn tell_good_message(
    alloc: Global,
    told: &mut String,
    message: &Message,
) -> Result<(), AllocError> {
    let sender = message.sender().number();
    writeln!(told, "{message} by {sender}")?;
    tell_hex(alloc, told, "stamp", &message.stamp().0)?;
    tell_hex(alloc, told, "bytes", &message.encode())
}

/// Tells the message of bytes, or why they are none.
fn tell_message(alloc: Global, told: &mut String, bytes: &[u8]) -> Result<(), AllocError> {
    match Message::decode(bytes) {
        Ok(message) => tell_good_message(alloc, told, &message),
        Err(fault) => {
            let name = fault.name();
            writeln!(told, "refused {name}")
        }
    }
}

/// Tells the messages of words.
fn tell_messages(alloc: Global, told: &mut String, given: &Given<'_>) -> Result<(), Fault> {
    for text in given.words {
        let bytes = bytes_of(alloc, text)?;
        tell_message(alloc, told, &bytes)?;
    }
    Ok(())
}

/// Tells what is written again: `again` where it is the same, else these bytes.
fn tell_again(
    alloc: Global,
    told: &mut String,
    bytes: &[u8],
    written: &[u8],
) -> Result<(), AllocError> {
    if bytes == written {
        writeln!(told, "again")
    } else {
        tell_hex(alloc, told, "written", written)
    }
}

/// Tells the delay, the verdict and the number of moves of a record, its stamp, and what is written of it.
fn tell_good_record(
    alloc: Global,
    told: &mut String,
    bytes: &[u8],
    record: &Record,
) -> Result<(), AllocError> {
    let (delay, verdict) = (record.delay, record.verdict);
    let moves = record.moves.count().number();
    writeln!(told, "delay {delay}, verdict {verdict:?}, moves {moves}")?;
    tell_hex(alloc, told, "stamp", record.stamp.as_bytes())?;
    if delay > 8 {
        return Ok(());
    }
    tell_again(alloc, told, bytes, &record.encode(alloc)?)
}

/// Tells the record of bytes, or why they are none.
fn tell_record(alloc: Global, told: &mut String, bytes: &[u8]) -> Result<(), AllocError> {
    match Record::decode(alloc, bytes) {
        Ok(record) => tell_good_record(alloc, told, bytes, &record),
        Err(fault) => {
            let name = fault.name();
            writeln!(told, "refused {name}")
        }
    }
}

/// Tells the summary of a record, and the record, of the input.
fn tell_records(alloc: Global, told: &mut String, given: &Given<'_>) -> Result<(), Fault> {
    let summary = Record::summary(given.input);
    writeln!(told, "summary {summary:?}")?;
    Ok(tell_record(alloc, told, given.input)?)
}

/// Tells how many lines the manifest of the input has, and what is written of it; or its first line at fault.
fn tell_manifest(alloc: Global, told: &mut String, given: &Given<'_>) -> Result<(), Fault> {
    let Ok(lines) = manifest_read(alloc, given.input) else {
        return Ok(writeln!(told, "none")?);
    };
    let count = lines.len();
    writeln!(told, "lines {count}")?;
    let written = manifest_write(alloc, &lines)?;
    Ok(tell_again(alloc, told, given.input, &written)?)
}

/// Tells the stamp of the game with a name, the first word in hexadecimal digits, a start and a delay, by the manifest of the input.
fn tell_stamp(alloc: Global, told: &mut String, given: &Given<'_>) -> Result<(), Fault> {
    let name = bytes_of(alloc, given.word(0)?)?;
    let start = position_of(given.word(1)?)?;
    let delay = number_of(given.word(2)?)?.min(255) as u8;
    let is_name = is_game_name(&name);
    writeln!(told, "name {is_name}")?;
    match Stamp::of(&name, &start, given.input, delay) {
        Some(stamp) => Ok(tell_hex(alloc, told, "stamp", stamp.as_bytes())?),
        None => Ok(writeln!(told, "none")?),
    }
}

/// Tells what a call of this module gives, if the name is that of one.
pub(crate) fn tell(
    alloc: Global,
    told: &mut String,
    name: &str,
    given: &Given<'_>,
) -> Option<Result<(), Fault>> {
    match name {
        "move" => Some(tell_moves(told, given)),
        "word" => Some(tell_words(told, given)),
        "message" => Some(tell_messages(alloc, told, given)),
        "record" => Some(tell_records(alloc, told, given)),
        "manifest" => Some(tell_manifest(alloc, told, given)),
        "stamp" => Some(tell_stamp(alloc, told, given)),
        _ => None,
    }
}
