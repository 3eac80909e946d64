//! Probes that are made over and over, of a set that keeps few blocks.

use crate::calls::{Fault, Given, number_of};
use crate::files::opened;
use crate::positions::position_of;
use board_core::Position;
use judge_core::Set;
use std::alloc::{AllocError, Global};
use std::fmt::Write;
use system_io::Disk;

/// The name of the table at a path.
fn name_of(path: &str) -> &str {
    path.rsplit_once('/').unwrap_or(("", path)).1
}

/// Whether a word is the path of a table.
fn is_table(word: &str) -> bool {
    word.ends_with(".rtbw") || word.ends_with(".rtbz")
}

/// Reads the table at a path.
fn add_table(
    alloc: Global,
    files: &mut Vec<Vec<u8>>,
    given: &Given<'_>,
    path: &str,
) -> Result<(), Fault> {
    let bytes = given.disk.read(alloc, path).or(Err(Fault::Line))?;
    match files.push(bytes) {
        Ok(()) => Ok(()),
        Err(_) => Err(Fault::Memory),
    }
}

/// The bytes of the tables that the words name.
pub(crate) fn read_tables(alloc: Global, given: &Given<'_>) -> Result<Vec<Vec<u8>>, Fault> {
    let mut files = Vec::new(alloc);
    for word in given.words.iter().skip(1) {
        if is_table(word) {
            add_table(alloc, &mut files, given, word)?;
        }
    }
    Ok(files)
}

/// Adds a table to a set, or tells why it is refused.
fn add<'a>(
    alloc: Global,
    told: &mut String,
    set: &mut Set<'a>,
    path: &str,
    file: &'a [u8],
) -> Result<(), Fault> {
    let Ok(table) = opened(alloc, name_of(path), file) else {
        return Err(Fault::Line);
    };
    match set.add(table) {
        Ok(()) => Ok(()),
        Err(fault) => Ok(writeln!(told, "refused {fault:?}")?),
    }
}

/// A set of the tables of the words that keeps as many blocks as the first word says. Tells which are refused.
pub(crate) fn set_of<'a>(
    alloc: Global,
    told: &mut String,
    given: &Given<'_>,
    files: &'a [Vec<u8>],
) -> Result<Set<'a>, Fault> {
    let cache = number_of(given.word(0)?)?;
    if cache == 0 || cache > 4096 {
        return Err(Fault::Line);
    }
    let mut set = Set::new(alloc, cache)?;
    for (word, file) in given.words.iter().skip(1).zip(files.iter()) {
        add(alloc, told, &mut set, word, file)?;
    }
    Ok(set)
}

/// Tells the value and the verdict of a position.
fn tell_probe(
    alloc: Global,
    told: &mut String,
    set: &mut Set<'_>,
    position: &Position,
) -> Result<(), AllocError> {
    let value = set.wdl(alloc, position).map(|value| value.number());
    write!(told, "{value:?} ")?;
    let verdict = set.judge(alloc, position)?;
    writeln!(told, "{verdict:?}")
}

/// Tells the values and the verdicts of positions, one after the other.
fn tell_round(
    alloc: Global,
    told: &mut String,
    set: &mut Set<'_>,
    texts: &[&str],
) -> Result<(), Fault> {
    for text in texts {
        tell_probe(alloc, told, set, &position_of(text)?)?;
    }
    Ok(())
}

/// Tells a round that comes to something else than the first.
fn tell_other(told: &mut String, first: &str, other: &str) -> Result<(), AllocError> {
    if first == other {
        return Ok(());
    }
    write!(told, "then\n{other}")
}

/// Tells so many rounds: what the first one comes to, and each other one that comes to something else.
fn tell_each_round(
    alloc: Global,
    told: &mut String,
    set: &mut Set<'_>,
    texts: &[&str],
    rounds: usize,
) -> Result<(), Fault> {
    let mut first = String::new(alloc);
    tell_round(alloc, &mut first, set, texts)?;
    told.push_str(&first)?;
    for _ in 1..rounds {
        let mut other = String::new(alloc);
        tell_round(alloc, &mut other, set, texts)?;
        tell_other(told, &first, &other)?;
    }
    Ok(())
}

/// The positions of the words, which stand between so many tables and the last word.
fn positions_of<'a>(given: &Given<'a>, tables: usize) -> Result<&'a [&'a str], Fault> {
    match given.words {
        [_, others @ .., _] => others.get(tables..).ok_or(Fault::Line),
        _ => Err(Fault::Line),
    }
}

/// Tells so many rounds of each two of these positions.
fn tell_pairs(
    alloc: Global,
    told: &mut String,
    set: &mut Set<'_>,
    texts: &[&str],
    rounds: usize,
) -> Result<(), Fault> {
    for pair in texts.chunks(2) {
        tell_each_round(alloc, told, set, pair, rounds)?;
    }
    Ok(())
}

/// Tells how many decoded blocks are kept, of how many that may be.
fn tell_kept(told: &mut String, set: &Set<'_>) -> Result<(), AllocError> {
    let (kept, most) = (set.kept_blocks(), set.cache());
    writeln!(told, "kept {kept} of {most}")
}

/// How many rounds the last of the words says.
fn rounds_of(given: &Given<'_>) -> Result<usize, Fault> {
    match given.words {
        [.., last] => number_of(last),
        [] => Err(Fault::Line),
    }
}

/// Tells what the tables of the words, by their paths, tell of the positions behind them, of each two in as many rounds as the last
/// word says. The first word says how many decoded blocks may be kept; in the end it is told how many are.
pub(crate) fn tell_rounds(
    alloc: Global,
    told: &mut String,
    given: &Given<'_>,
) -> Result<(), Fault> {
    let files = read_tables(alloc, given)?;
    let mut set = set_of(alloc, told, given, &files)?;
    let texts = positions_of(given, files.len())?;
    tell_pairs(alloc, told, &mut set, texts, rounds_of(given)?)?;
    Ok(tell_kept(told, &set)?)
}
