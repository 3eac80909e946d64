//! Probes of a position, and of a position's text.

ghost use Rattle.std.specs.Prelude.{◌≡◌};
ghost use Rattle.judge_core.specs.ProbeResult.{numbered};
ghost use Rattle.probe_api.specs.Replies.{probe_reply, Tells, TellsBoard, TellsText, TellsWdl, TellsDtz, TellsVerdict, TellsKnownWdl, TellsDeterminedWdl, TellsDeterminedDtz};

use crate::board::{Board, position_on};
use crate::reply::{Reply, fen_status, position_status, probed, verdict_number};
use board_core::Position;
use fen_text::read;
use judge_core::{ProbeFault, Set, Wdl};
use std::alloc::Global;

/// What is asked of a position.
#[derive(Clone, Copy)]
pub enum Question {
    /// The value by the WDL tables.
    Wdl,
    /// The distance by the DTZ tables.
    Dtz,
    /// The verdict.
    Verdict,
    /// The value as soon as it is known: a capture that wins is it, whatever is missing or damaged elsewhere.
    KnownWdl,
    /// The value that is the same whatever the missing tables hold.
    DeterminedWdl,
    /// The distance that is the same whatever the missing tables hold.
    DeterminedDtz,
}

/// The number that a WDL probe tells.
fn number_in(wdl: Result<Wdl, ProbeFault>) -> Result<i32, ProbeFault>
    ensures { result ≡ numbered wdl }
{
    match wdl {
        Ok(value) => Ok(i32::from(value.number())),
        Err(fault) => Err(fault),
    }
}

/// What a WDL probe tells.
pub(crate) fn wdl_reply(wdl: Result<Wdl, ProbeFault>) -> Reply
    ensures { result ≡ probe_reply (numbered wdl) }
{
    probed(number_in(wdl))
}

/// The WDL value.
fn wdl(alloc: Global, set: &mut Set<'_>, position: &Position) -> Reply
    ensures is { TellsWdl set.old.tables position.now result }
    ensures kept { set.new ≡ set.old }
{
    let wdl = set.wdl(alloc, position);
    wdl_reply(wdl)
}

/// The distance in plies.
fn dtz(alloc: Global, set: &mut Set<'_>, position: &Position) -> Reply
    ensures is { TellsDtz set.old.tables position.now result }
    ensures kept { set.new ≡ set.old }
{
    let dtz = set.dtz(alloc, position);
    probed(dtz)
}

/// The verdict's number, 0 where the game goes on.
fn verdict(alloc: Global, set: &mut Set<'_>, position: &Position) -> Reply
    ensures is { TellsVerdict set.old.tables position.now result }
    ensures kept { set.new ≡ set.old }
{
    match set.judge(alloc, position) {
        Ok(verdict) => Reply::ok(verdict_number(verdict)),
        Err(_) => Reply::refused(5),
    }
}

/// The WDL value as soon as it is known.
fn known_wdl(alloc: Global, set: &mut Set<'_>, position: &Position) -> Reply
    ensures is { TellsKnownWdl set.old.tables position.now result }
    ensures kept { set.new ≡ set.old }
{
    let wdl = set.known_wdl(alloc, position);
    wdl_reply(wdl)
}

/// The WDL value, by the tables or else whatever the missing ones hold.
fn determined_wdl(alloc: Global, set: &mut Set<'_>, position: &Position) -> Reply
    ensures is { TellsDeterminedWdl set.old.tables position.now result }
    ensures kept { set.new ≡ set.old }
{
    let wdl = set.determined_wdl(alloc, position);
    wdl_reply(wdl)
}

/// The distance in plies, by the tables or else whatever the missing ones hold.
fn determined_dtz(alloc: Global, set: &mut Set<'_>, position: &Position) -> Reply
    ensures is { TellsDeterminedDtz set.old.tables position.now result }
    ensures kept { set.new ≡ set.old }
{
    let dtz = set.determined_dtz(alloc, position);
    probed(dtz)
}

/// What is asked of a position.
// Inlined, the question is known where it is asked: 14 instructions less.
#[inline(always)]
pub(crate) fn answer(
    alloc: Global,
    set: &mut Set<'_>,
    question: Question,
    position: &Position,
) -> Reply
    ensures is { Tells question set.old.tables position.now result }
    ensures kept { set.new ≡ set.old }
{
    match question {
        Question::Wdl => wdl(alloc, set, position),
        Question::Dtz => dtz(alloc, set, position),
        Question::Verdict => verdict(alloc, set, position),
        Question::KnownWdl => known_wdl(alloc, set, position),
        Question::DeterminedWdl => determined_wdl(alloc, set, position),
        Question::DeterminedDtz => determined_dtz(alloc, set, position),
    }
}

/// What is asked of the position that a text spells, or the fault of the text.
pub fn answer_text(alloc: Global, set: &mut Set<'_>, question: Question, text: &[u8]) -> Reply
    ensures is { TellsText question set.old.tables text.now result }
    ensures kept { set.new ≡ set.old }
{
    match read(text) {
        Ok(position) => answer(alloc, set, question, &position),
        Err(fault) => Reply::refused(fen_status(fault)),
    }
}

/// What is asked of the position that a board shows, or the first fault of what it shows.
pub fn answer_board(alloc: Global, set: &mut Set<'_>, question: Question, board: &Board) -> Reply
    ensures is { TellsBoard question set.old.tables board.now result }
    ensures kept { set.new ≡ set.old }
{
    match position_on(board) {
        Ok(position) => answer(alloc, set, question, &position),
        Err(fault) => Reply::refused(position_status(fault)),
    }
}
