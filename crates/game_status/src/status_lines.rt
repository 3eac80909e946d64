//! The lines of games whose records are told.

ghost use Rattle.std.specs.Prelude.{◌≡◌, ◌≤◌, ◌+◌, ◌++◌, codes, length};
ghost use Rattle.std.specs.Fmt.{decimal};
ghost use Rattle.arbiter_server.specs.ServedLines.{verdict_or_none};
ghost use Rattle.hex.specs.Hex.{encode_lower};
ghost use Rattle.move_msg.specs.Records.{record_fault_name};
ghost use Rattle.record_audit.specs.Findings.{refused_record};
ghost use Rattle.game_status.specs.Comparisons.{compared_words};
ghost use Rattle.arbiter_server.specs.GameFiles.{line_number};
ghost use Rattle.game_status.specs.Entries.{fault_words, listed_fault_words};
ghost use Rattle.game_status.specs.Statuses.{columns_of_two, fault_line, game_told_by, kept_words, line_of_one, line_of_two, other_fault_line};

use crate::comparing::{Compared, mark_of, mark_of_two};
use crate::entry::EntryFault;
use crate::side::Side;
use crate::telling::{GameTold, Mark};
use arbiter_server::{GameFileFault, verdict_or_none};
use board_core::Verdict;
use line_teller::LineWords;
use move_msg::{Record, RecordFault, Stamp};

/// What is told of a game.
#[derive(Drop)]
pub enum Look {
    /// How far one folder has come.
    One(Side),
    /// How far both have come, and what comes of comparing them.
    Both(Side, Side, Compared),
    /// What is at fault in the first folder.
    AtFault(EntryFault),
    /// What is at fault in the second one alone.
    OtherAtFault(EntryFault),
}

/// A stamp in lower-case hexadecimal digits, and a space.
pub(crate) fn stamped(stamp: Stamp) -> LineWords
    ensures is { result ≡ encode_lower stamp ++ codes " " }
    ensures size { length result ≡ 33 }
{
    let mut line = LineWords::new();
    line.add_stamp(stamp);
    line.add(" ");
    line
}

/// Adds how many moves there are and a verdict.
pub fn add_moves(line: &mut LineWords, count: usize, verdict: Option<Verdict>)
    requires { length line.old ≤ 200 }
    ensures is { line.new ≡ line.old ++ decimal count ++ codes " " ++ verdict_or_none verdict }
    ensures size { length line.new ≤ length line.old + 51 }
{
    line.add_number(count);
    line.add(" ");
    line.add(verdict_or_none(verdict));
}

/// Adds how many moves are kept and the verdict.
fn add_kept(line: &mut LineWords, kept: &Option<Record>)
    requires { length line.old ≤ 200 }
    ensures is { line.new ≡ line.old ++ kept_words kept.now }
    ensures size { length line.new ≤ length line.old + 51 }
{
    match kept {
        None => line.add("- none"),
        Some(record) => add_moves(line, record.moves.as_slice().len(), record.verdict),
    }
}

/// Adds what comes of comparing two records.
pub(crate) fn add_compared(line: &mut LineWords, compared: Compared)
    requires { length line.old ≤ 200 }
    ensures is { line.new ≡ line.old ++ compared_words compared }
    ensures size { length line.new ≤ length line.old + 48 }
{
    match compared {
        Compared::Agree => line.add("agree"),
        Compared::Behind(moves) => line.add_counted("behind ", moves),
        Compared::Unopened => line.add("unopened"),
        Compared::Differ(ply) => line.add_counted("differ ", ply),
    }
}

/// The line at fault of a game's file, in words.
fn line_words(fault: GameFileFault) -> &'static str
    ensures is { result.now ≡ codes "line " ++ decimal (line_number fault) }
    ensures short { length result.now ≤ 20 }
{
    match fault {
        GameFileFault::Name => "line 1",
        GameFileFault::Start => "line 2",
        GameFileFault::Delay => "line 3",
        GameFileFault::More => "line 4",
    }
}

/// Why bytes are no record, in words.
fn record_words(fault: RecordFault) -> &'static str
    ensures is { result.now ≡ codes "record " ++ record_fault_name fault }
    ensures short { length result.now ≤ 20 }
{
    match fault {
        RecordFault::BadLength => "record BadLength",
        RecordFault::BadHead => "record BadHead",
        RecordFault::BadField => "record BadField",
        RecordFault::OutOfMemory => "record OutOfMemory",
    }
}

/// What is at fault, in words.
pub(crate) fn fault_words(fault: EntryFault) -> &'static str
    ensures is { result.now ≡ fault_words fault }
    ensures short { length result.now ≤ 20 }
{
    match fault {
        EntryFault::NoGame => "NoGame",
        EntryFault::BadGame(fault) => line_words(fault),
        EntryFault::Keeper => "keeper",
        EntryFault::BadRecord(fault) => record_words(fault),
        EntryFault::OtherStamp => "stamp",
        EntryFault::OtherGame => "OtherGame",
    }
}

/// Adds the refusal of bytes that are no record.
pub fn add_refused_record(line: &mut LineWords, fault: RecordFault)
    requires { length line.old ≤ 200 }
    ensures is { line.new ≡ line.old ++ refused_record fault }
    ensures size { length line.new ≤ length line.old + 31 }
{
    line.add("refused ");
    line.add(record_words(fault));
}

/// Adds what is at fault.
fn add_fault(line: &mut LineWords, fault: EntryFault)
    requires { length line.old ≤ 200 }
    ensures { line.new ≡ line.old ++ listed_fault_words fault }
{
    line.add("refused ");
    line.add(fault_words(fault));
}

/// The line of a game of one folder.
fn line_of_one(stamp: Stamp, side: &Side) -> LineWords
    ensures { result ≡ line_of_one stamp side.now }
{
    let mut line = stamped(stamp);
    add_kept(&mut line, &side.kept);
    line.add(" ");
    line.add_bytes(side.game.name.as_slice());
    line
}

/// Adds how many moves are kept and the verdict, and a space.
fn add_column(line: &mut LineWords, kept: &Option<Record>)
    requires { length line.old ≤ 200 }
    ensures is { line.new ≡ line.old ++ kept_words kept.now ++ codes " " }
    ensures size { length line.new ≤ length line.old + 52 }
{
    add_kept(line, kept);
    line.add(" ");
}

/// A line of a game of two folders, to its name.
fn columns(stamp: Stamp, one: &Side, other: &Side, compared: Compared) -> LineWords
    ensures is { result ≡ columns_of_two stamp one.now.kept other.now.kept compared }
    ensures size { length result ≤ 185 }
{
    let mut line = stamped(stamp);
    add_column(&mut line, &one.kept);
    add_column(&mut line, &other.kept);
    add_compared(&mut line, compared);
    line
}

/// The line of a game of two folders.
fn line_of_two(stamp: Stamp, one: &Side, other: &Side, compared: Compared) -> LineWords
    ensures { result ≡ line_of_two stamp one.now other.now compared }
{
    let mut line = columns(stamp, one, other, compared);
    line.add(" ");
    line.add_bytes(one.game.name.as_slice());
    line
}

/// The line of a game of which something is at fault.
pub(crate) fn fault_line(stamp: Stamp, fault: EntryFault) -> LineWords
    ensures { result ≡ fault_line stamp fault }
{
    let mut line = stamped(stamp);
    add_fault(&mut line, fault);
    line
}

/// The line of a game of which something is at fault in the second folder alone.
pub(crate) fn other_fault_line(stamp: Stamp, fault: EntryFault) -> LineWords
    ensures { result ≡ other_fault_line stamp fault }
{
    let mut line = stamped(stamp);
    line.add("other ");
    add_fault(&mut line, fault);
    line
}

/// What is told of a game of which this is found.
pub fn told_by(stamp: Stamp, look: &Look) -> GameTold
    ensures { result ≡ game_told_by stamp look.now }
{
    match look {
        Look::One(side) => GameTold::new(line_of_one(stamp, side), mark_of(&side.kept)),
        Look::Both(side, other, compared) => GameTold::new(
            line_of_two(stamp, side, other, *compared),
            mark_of_two(&side.kept, *compared),
        ),
        Look::AtFault(fault) => GameTold::new(fault_line(stamp, *fault), Mark::AtFault),
        Look::OtherAtFault(fault) => GameTold::new(other_fault_line(stamp, *fault), Mark::AtFault),
    }
}
