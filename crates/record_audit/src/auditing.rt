//! Kept files held to the rules of a game, and two of them to one another.

ghost use Rattle.std.specs.Prelude.{◌≡◌, ◌≤◌, ◌<◌, ◌^◌, ◌&&◌, IfOk, IfSome, IfNone, OnErr, List, ℕ, length, min, take};
ghost use Rattle.board_core.specs.Delays.{most_delay};
ghost use Rattle.move_msg.specs.declared.record_bytes.Record.{Record as Records};
ghost use Rattle.move_msg.specs.Records.{SpellsRecord};
ghost use Rattle.judge_core.specs.Standings.{ListsMovesInGame};
ghost use Rattle.arbiter_core.specs.Opens.{IsBadKept, IsOfGame};
ghost use Rattle.arbiter_core.specs.declared.fault.OpenFault.TheVariants as OpenFault;
ghost use Rattle.record_audit.specs.Findings.{AreCompared, AreOfOneGame, IsComparison, IsFound, IsFoundOf, agree, is_whole};
ghost use Rattle.record_audit.specs.Findings.{IsAuditedAs, IsOfRecord, rules_of, rules_with};
ghost use Rattle.record_audit.specs.Inside.Auditing.{ArePartedAt, EndsPart, IsFoundBy, IsHeldTo, PartsAfter};

use arbiter_server::verdict_or_none;
use board_core::{Delay, Move, Position, Verdict};
use judge_core::{GameOutcome, Set};
use move_msg::{Record, RecordFault, Stamp};
use std::alloc::{AllocError, Global};
use std::fmt;

/// The finding on a kept file.
#[derive(Clone, Copy)]
pub enum Finding {
    /// An arbiter of the game can be opened over it: how many moves its record has, and the verdict.
    Whole(usize, Option<Verdict>),
    /// The bytes are no record.
    BadRecord(RecordFault),
    /// The record is of another game, or of one with another delay.
    OtherStamp,
    /// The move at this place, the first being 0, isn't legal in its turn or comes after a verdict.
    BadMoves(usize),
    /// The verdict isn't this one, which the last ply has.
    BadVerdict(Option<Verdict>),
}

impl Finding {
    /// Whether an arbiter can be opened over it.
    pub fn is_whole(self) -> bool
        ensures { result ≡ is_whole self }
    {
        match self {
            Finding::Whole(_, _) => true,
            _ => false,
        }
    }
}

impl fmt::Display for Finding {
    ghost use Rattle.std.specs.Prelude.{Some};
    ghost use Rattle.record_audit.specs.Findings.{finding_words};

    ghost output = { λ finding. Some (finding_words finding) };

    fn fmt<W: fmt::Write>(&self, f: &mut fmt::Formatter<W>) -> fmt::Result {
        match self {
            Finding::Whole(count, verdict) => {
                let verdict = verdict_or_none(*verdict);
                write!(f, "ok {count} {verdict}")
            }
            Finding::BadRecord(fault) => write!(f, "refused record {}", fault.name()),
            Finding::OtherStamp => f.write_str("refused stamp"),
            Finding::BadMoves(place) => write!(f, "refused moves {place}"),
            Finding::BadVerdict(verdict) => {
                let verdict = verdict_or_none(*verdict);
                write!(f, "refused verdict {verdict}")
            }
        }
    }
}

/// The finding where the last ply has a verdict, or has none.
fn held_to(count: usize, told: Option<Verdict>, ruled: Option<Verdict>) -> Finding
    ensures { IsHeldTo count told ruled result }
{
    if told == ruled {
        Finding::Whole(count, told)
    } else {
        Finding::BadVerdict(ruled)
    }
}

/// The finding on this number of moves and a verdict, by the outcome of the moves.
fn found_by(outcome: GameOutcome, count: usize, told: Option<Verdict>) -> Finding
    ensures { IsFoundBy outcome count told result }
{
    match outcome {
        GameOutcome::Illegal { place } => Finding::BadMoves(place),
        GameOutcome::Ruled { ply, .. } if ply != count => Finding::BadMoves(ply),
        GameOutcome::Ruled { verdict, .. } => held_to(count, told, Some(verdict)),
        GameOutcome::Going => held_to(count, told, None),
    }
}

/// The rules of a game, to which records are held.
#[derive(Drop)]
pub struct Auditor<'a> {
    /// The stamp of the game.
    pub stamp: Stamp,
    /// Its start.
    pub start: Position,
    /// For how many further plies a verdict by tables must hold.
    pub delay: Delay,
    /// Its tables.
    pub set: Set<'a>,
}

/// The finding on a file, and its record where it has one.
#[derive(Drop)]
pub struct Audited {
    /// The finding.
    pub finding: Finding,
    /// The record.
    pub kept: Option<Record>,
}

/// The finding on a record of a game from this start, by the moves and the verdict alone: the game is that of the record's stamp and
/// delay. The error comes only where memory is refused.
pub fn judge_moves(
    alloc: Global,
    set: &mut Set<'_>,
    start: &Position,
    kept: &Record,
) -> Result<Finding, AllocError>
    requires { kept.now.delay ≤ most_delay }
    ensures found { IfOk result (IsFoundOf (rules_with start.now set.old.tables kept.now) kept.now) }
    ensures own { IfOk result (IsOfRecord kept.now) }
    ensures memory { OnErr result (ListsMovesInGame (rules_with start.now set.old.tables kept.now) kept.now.moves) }
    ensures same { set.new ≡ set.old }
{
    let moves = kept.moves.as_slice();
    let outcome = set.judge_game(alloc, start, moves, kept.delay)?;
    Ok(found_by(outcome, moves.len(), kept.verdict))
}

/// The finding on a record.
fn judge_record(
    alloc: Global,
    auditor: &mut Auditor<'_>,
    kept: &Record,
) -> Result<Finding, AllocError>
    ensures found { IfOk result (λ finding. (bytes : List ℕ) → SpellsRecord bytes kept.now → IsFound (rules_of auditor.old) auditor.old.stamp bytes finding) }
    ensures memory { OnErr result (IsOfGame (rules_of auditor.old) auditor.old.stamp kept.now × ListsMovesInGame (rules_of auditor.old) kept.now.moves) }
    ensures same { auditor.new ≡ auditor.old }
{
    if kept.stamp != auditor.stamp || kept.delay != auditor.delay.plies() {
        return Ok(Finding::OtherStamp);
    }
    judge_moves(alloc, &mut auditor.set, &auditor.start, kept)
}

/// The finding on a file's bytes, and their record. The error comes only where an opening over these bytes may want memory.
pub fn audit(alloc: Global, auditor: &mut Auditor<'_>, bytes: &[u8]) -> Result<Audited, AllocError>
    ensures found { IfOk result (λ a. IsFound (rules_of auditor.old) auditor.old.stamp bytes.now a.finding) }
    ensures spelled { IfOk result (λ a. IfSome a.kept (SpellsRecord bytes.now)) }
    ensures none { IfOk result (λ a. IfNone a.kept ((r : Records) → SpellsRecord bytes.now r → ⊥)) }
    ensures memory { OnErr result (IsBadKept (rules_of auditor.old) auditor.old.stamp bytes.now OpenFault.OutOfMemory) }
    ensures same { auditor.new ≡ auditor.old }
{
    match Record::decode(alloc, bytes) {
        Ok(record) => {
            let finding = judge_record(alloc, auditor, &record)?;
            Ok(Audited {
                finding,
                kept: Some(record),
            })
        }
        Err(fault) => match fault {
            RecordFault::OutOfMemory => Err(AllocError),
            _ => Ok(Audited {
                finding: Finding::BadRecord(fault),
                kept: None,
            }),
        },
    }
}

/// The number of common first moves of two lists, where they part before one of them ends.
fn parting(one: &[Move], other: &[Move]) -> Option<usize>
    ensures some { IfSome result (ArePartedAt one.now other.now) }
    ensures none { IfNone result (take (min (length one.now) (length other.now)) one.now ≡ take (min (length one.now) (length other.now)) other.now) }
{
    let shorter = one.len().min(other.len());
    for count in 0..shorter {
        if one[count] != other[count] {
            return Some(count);
        }
    }
    None
}

/// The ply at which a longer record parts from one that it begins with, which ends so: at the verdict or at the next
/// move.
fn parting_after(count: usize, verdict: Option<Verdict>) -> usize
    requires { count < 2 ^ 32 }
    ensures { PartsAfter count verdict result }
{
    if verdict.is_some() { count } else { count + 1 }
}

/// The first ply at which two records part, one of which begins with the moves of the other. It follows from their
/// numbers of moves and verdicts; none where they are equal.
fn parting_of_ends(
    count: usize,
    verdict: Option<Verdict>,
    other_count: usize,
    other_verdict: Option<Verdict>,
) -> Option<usize>
    requires few { count < 2 ^ 32 }
    requires other_few { other_count < 2 ^ 32 }
    ensures { EndsPart count verdict other_count other_verdict result }
{
    if count < other_count {
        Some(parting_after(count, verdict))
    } else if other_count < count {
        Some(parting_after(other_count, other_verdict))
    } else if verdict == other_verdict {
        None
    } else {
        Some(count)
    }
}

/// The first ply at which two records of one game part: their moves up to it differ, or their verdicts at it. None where all is the
/// same.
fn compare_moves(one: &Record, other: &Record) -> Option<usize>
    ensures { AreOfOneGame one.now other.now → AreCompared one.now other.now result }
{
    let its = one.moves.as_slice();
    let others = other.moves.as_slice();
    match parting(its, others) {
        Some(count) => Some(count + 1),
        None => parting_of_ends(its.len(), one.verdict, others.len(), other.verdict),
    }
}

/// The first ply at which two records part. None where they are equal. Records of different games part at ply 0. It takes no memory.
pub fn compare_records(one: &Record, other: &Record) -> Option<usize>
    ensures { AreCompared one.now other.now result }
{
    if one.stamp != other.stamp || one.delay != other.delay {
        return Some(0);
    }
    compare_moves(one, other)
}

/// The comparison of two files that both have a record; none where one has none.
pub fn compare_files(one: &Audited, other: &Audited) -> Option<Option<usize>>
    ensures { (bytes its : List ℕ) → IsAuditedAs bytes one.now → IsAuditedAs its other.now → IsComparison bytes its result }
{
    match (&one.kept, &other.kept) {
        (Some(one), Some(other)) => Some(compare_records(one, other)),
        _ => None,
    }
}

/// Whether two files are whole, and their records equal.
pub fn are_whole_and_agree(one: &Audited, other: &Audited, compared: Option<Option<usize>>) -> bool
    ensures { result ≡ (is_whole one.now.finding && (is_whole other.now.finding && agree compared)) }
{
    let agree = matches!(compared, Some(None));
    one.finding.is_whole() && other.finding.is_whole() && agree
}
