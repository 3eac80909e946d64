//! The lines of games that are audited.

ghost use Rattle.std.specs.Prelude.{◌≡◌, ◌≤◌, ◌+◌, ◌++◌, codes, length};
ghost use Rattle.hex.specs.Hex.{encode_lower};
ghost use Rattle.record_audit.specs.Findings.{finding_words};
ghost use Rattle.game_status.specs.GameAudits.{audit_told, kept_finding, mark_of_look, pair_mark, pair_words, parted_words, sound_line, unsound_line};

use crate::comparing::{Compared, mark_of};
use crate::entry::EntryFault;
use crate::status_lines::{
    Look, add_compared, add_moves, add_refused_record, fault_line, other_fault_line, stamped,
};
use crate::telling::{GameTold, Mark};
use arbiter_server::verdict_or_none;
use line_teller::LineWords;
use move_msg::{Record, Stamp};
use record_audit::Finding;

/// What is wrong with a game whose files an audit can read.
#[derive(Clone, Copy)]
pub enum Unsound {
    /// The game's file isn't that of its stamp, by these tables.
    OtherGame,
    /// The moves or the verdict of the record aren't those of the game.
    Record(Finding),
    /// Those of the second folder's record alone.
    OtherRecord(Finding),
}

/// What an audit tells of a game.
#[derive(Drop)]
pub enum AuditLook {
    /// What the files have; each record among it is one that an arbiter of the game keeps.
    Sound(Look),
    /// What is wrong.
    Wrong(Unsound),
}

/// Adds a finding.
pub fn add_finding(line: &mut LineWords, finding: Finding)
    requires { length line.old ≤ 180 }
    ensures is { line.new ≡ line.old ++ finding_words finding }
    ensures size { length line.new ≤ length line.old + 54 }
{
    match finding {
        Finding::Whole(count, verdict) => {
            line.add("ok ");
            add_moves(line, count, verdict);
        }
        Finding::BadRecord(fault) => add_refused_record(line, fault),
        Finding::OtherStamp => line.add("refused stamp"),
        Finding::BadMoves(place) => line.add_counted("refused moves ", place),
        Finding::BadVerdict(verdict) => {
            line.add("refused verdict ");
            line.add(verdict_or_none(verdict));
        }
    }
}

/// Adds what is found of a record that is whole, or that none is kept.
fn add_found(line: &mut LineWords, kept: &Option<Record>)
    requires { length line.old ≤ 180 }
    ensures is { line.new ≡ line.old ++ kept_finding kept.now }
    ensures size { length line.new ≤ length line.old + 54 }
{
    match kept {
        None => line.add("- none"),
        Some(record) => add_finding(
            line,
            Finding::Whole(record.moves.as_slice().len(), record.verdict),
        ),
    }
}

/// Adds what is found of a record of the second folder and what comes of comparing it, each behind a space.
fn add_parted(line: &mut LineWords, other: &Option<Record>, compared: Compared)
    requires { length line.old ≤ 100 }
    ensures { line.new ≡ line.old ++ parted_words other.now compared }
{
    line.add(" ");
    add_found(line, other);
    line.add(" ");
    add_compared(line, compared);
}

/// Adds that the second folder keeps the same, where something is kept.
fn add_agree(line: &mut LineWords, other: &Option<Record>)
    requires { length line.old ≤ 100 }
    ensures { line.new ≡ line.old ++ pair_words other.now Compared.Agree }
{
    match other {
        None => {}
        Some(_) => line.add(" agree"),
    }
}

/// Adds what the second folder keeps, by what comes of comparing it.
fn add_pair(line: &mut LineWords, other: &Option<Record>, compared: Compared)
    requires { length line.old ≤ 100 }
    ensures { line.new ≡ line.old ++ pair_words other.now compared }
{
    match compared {
        Compared::Agree => add_agree(line, other),
        Compared::Behind(_) => add_parted(line, other, compared),
        Compared::Unopened => add_parted(line, other, compared),
        Compared::Differ(_) => add_parted(line, other, compared),
    }
}

/// What is found of the record of one folder.
fn one_line(stamp: Stamp, kept: &Option<Record>) -> LineWords
    ensures is { result ≡ encode_lower stamp ++ codes " " ++ kept_finding kept.now }
    ensures size { length result ≤ 87 }
{
    let mut line = stamped(stamp);
    add_found(&mut line, kept);
    line
}

/// What is found of the records of two folders and what comes of comparing them.
fn both_line(
    stamp: Stamp,
    kept: &Option<Record>,
    other: &Option<Record>,
    compared: Compared,
) -> LineWords
    ensures { result ≡ encode_lower stamp ++ codes " " ++ kept_finding kept.now ++ pair_words other.now compared }
{
    let mut line = one_line(stamp, kept);
    add_pair(&mut line, other, compared);
    line
}

/// The line of a game whose records are whole, or whose files are at fault.
fn sound_line(stamp: Stamp, look: &Look) -> LineWords
    ensures { result ≡ sound_line stamp look.now }
{
    match look {
        Look::One(side) => one_line(stamp, &side.kept),
        Look::Both(side, other, compared) => {
            both_line(stamp, &side.kept, &other.kept, *compared)
        }
        Look::AtFault(fault) => fault_line(stamp, *fault),
        Look::OtherAtFault(fault) => other_fault_line(stamp, *fault),
    }
}

/// The line of a record of the first folder that isn't whole.
fn record_line(stamp: Stamp, finding: Finding) -> LineWords
    ensures { result ≡ encode_lower stamp ++ codes " " ++ finding_words finding }
{
    let mut line = stamped(stamp);
    add_finding(&mut line, finding);
    line
}

/// The line of a record of the second folder that isn't whole.
fn other_record_line(stamp: Stamp, finding: Finding) -> LineWords
    ensures { result ≡ encode_lower stamp ++ codes " " ++ codes "other " ++ finding_words finding }
{
    let mut line = stamped(stamp);
    line.add("other ");
    add_finding(&mut line, finding);
    line
}

/// The line of a game with which something is wrong.
fn unsound_line(stamp: Stamp, unsound: Unsound) -> LineWords
    ensures { result ≡ unsound_line stamp unsound }
{
    match unsound {
        Unsound::OtherGame => fault_line(stamp, EntryFault::OtherGame),
        Unsound::Record(finding) => record_line(stamp, finding),
        Unsound::OtherRecord(finding) => other_record_line(stamp, finding),
    }
}

/// How a game is counted of which both folders keep a whole record, or none.
fn pair_mark(kept: &Option<Record>, compared: Compared) -> Mark
    ensures { result ≡ pair_mark kept.now compared }
{
    match compared {
        Compared::Agree => mark_of(kept),
        Compared::Behind(_) => Mark::Differs,
        Compared::Unopened => Mark::Differs,
        Compared::Differ(_) => Mark::Differs,
    }
}

/// How a game is counted whose records are whole, or whose files are at fault.
fn mark_of_look(look: &Look) -> Mark
    ensures { result ≡ mark_of_look look.now }
{
    match look {
        Look::One(side) => mark_of(&side.kept),
        Look::Both(side, _, compared) => pair_mark(&side.kept, *compared),
        Look::AtFault(_) => Mark::AtFault,
        Look::OtherAtFault(_) => Mark::AtFault,
    }
}

/// What is told of a game that is audited.
pub fn audit_told(stamp: Stamp, look: &AuditLook) -> GameTold
    ensures { result ≡ audit_told stamp look.now }
{
    match look {
        AuditLook::Sound(look) => GameTold::new(sound_line(stamp, look), mark_of_look(look)),
        AuditLook::Wrong(unsound) => GameTold::new(unsound_line(stamp, *unsound), Mark::AtFault),
    }
}
