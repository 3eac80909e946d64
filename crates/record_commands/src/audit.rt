//! `audit`: whether kept files are records of a game as an arbiter of it keeps them, and whether two of them agree.

ghost use Rattle.std.specs.Prelude.{◌≡◌, Ok, option_map, IfOk, OnErr};
ghost use Rattle.record_commands.specs.Audits.{IsAudited, audited_one, audited_two};
ghost use Rattle.record_commands.specs.Audit.{IsAuditResult, IsReply, other_in};
ghost use Rattle.answer_parts.specs.Asked.{reply_of};
ghost use Rattle.record_audit.specs.Findings.{rules_of};
ghost use Rattle.answer_parts.specs.Looks.{gathered};
ghost use Rattle.answer_parts.specs.Reply.{IsText};

use answer_parts::{Answer, Line, Refusal, gather};
use board_core::Position;
use command_line::{Audit, CacheSize};
use fen_text::read;
use judge_core::Set;
use move_msg::manifest_of;
use record_audit::{Audited, Auditor, are_whole_and_agree, audit, compare_files};
use std::alloc::{AllocError, Global};
use task_files::Inputs;

/// The finding on one file, as an answer.
fn answer_one(alloc: Global, one: &Audited) -> Result<Answer, AllocError>
    ensures { IfOk result (λ a. reply_of a ≡ audited_one one.now.finding) }
{
    let lines = [Line::Finding(one.finding)];
    let lines = Vec::from_slice(alloc, &lines)?;
    Ok(Answer::Lines(lines, one.finding.is_whole()))
}

/// The findings on two files and their comparison, as an answer.
fn answer_two(
    alloc: Global,
    one: &Audited,
    other: &Audited,
    compared: Option<Option<usize>>,
) -> Result<Answer, AllocError>
    ensures { IfOk result (λ a. reply_of a ≡ audited_two one.now.finding other.now.finding compared) }
{
    let lines = [Line::Finding(one.finding), Line::Finding(other.finding)];
    let mut lines = Vec::from_slice(alloc, &lines)?;
    if let Some(compared) = compared {
        lines.push(Line::Compared(compared))?;
    }
    let done = are_whole_and_agree(one, other, compared);
    Ok(Answer::Lines(lines, done))
}

/// The findings on kept files by the rules of a game.
fn answer_files(
    alloc: Global,
    auditor: &mut Auditor<'_>,
    one: &[u8],
    other: Option<&[u8]>,
) -> Result<Answer, AllocError>
    ensures { IfOk result (λ a. IsAudited (rules_of auditor.old) auditor.old.stamp one.now (option_map (λ s. s.now) other.entry) (reply_of a)) }
{
    let one = audit(alloc, auditor, one)?;
    match other {
        None => answer_one(alloc, &one),
        Some(other) => {
            let other = audit(alloc, auditor, other)?;
            answer_two(alloc, &one, &other, compare_files(&one, &other))
        }
    }
}

/// The bytes of the second kept file, if it is named.
fn other_in<'s>(task: &Audit<'_>, sources: &'s Inputs) -> Option<&'s [u8]>
    ensures { option_map (λ s. s.now) result ≡ other_in task.now sources.now }
{
    match task.other {
        Some(_) => Some(sources.other_kept()),
        None => None,
    }
}

/// The findings on the kept files by these tables.
fn answer_by(
    alloc: Global,
    task: &Audit<'_>,
    sources: &Inputs,
    start: &Position,
    set: Set<'_>,
) -> Result<Answer, AllocError>
    requires { Ok set.tables ≡ gathered sources.now }
    ensures { IfOk result (λ a. IsAuditResult task.now sources.now start.now (reply_of a)) }
{
    let manifest = manifest_of(alloc, sources.files())?;
    let mut auditor = Auditor {
        stamp: task.name.stamp(start, &manifest, task.delay),
        start: *start,
        delay: task.delay,
        set,
    };
    answer_files(alloc, &mut auditor, sources.kept(), other_in(task, sources))
}

/// The findings on the kept files by the tables of the files, or their refusal.
fn answer_from(
    alloc: Global,
    task: &Audit<'_>,
    sources: &Inputs,
    start: &Position,
) -> Result<Answer, AllocError>
    ensures { IfOk result (λ a. IsAuditResult task.now sources.now start.now (reply_of a)) }
{
    match gather(alloc, sources, CacheSize::usual())? {
        Ok(set) => answer_by(alloc, task, sources, start, set),
        Err(refusal) => Ok(Answer::Refused(refusal)),
    }
}

/// The findings on the kept files: each is judged as an arbiter of the game judges it at its opening, and is only
/// read. Of two records the answer has the ply at which they part. A text that is no position is refused first,
/// then the tables.
pub fn answer(alloc: Global, task: &Audit<'_>, sources: &Inputs) -> Result<Answer, AllocError>
    ensures ok { IfOk result (λ a. IsReply task.now sources.now (reply_of a)) }
    ensures memory { OnErr result (IsText task.now.start.now) }
{
    match read(task.start.as_bytes()) {
        Err(fault) => Ok(Answer::Refused(Refusal::Fen(fault))),
        Ok(start) => answer_from(alloc, task, sources, &start),
    }
}
