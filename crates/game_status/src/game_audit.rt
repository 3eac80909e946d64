//! Games of folders that are audited by one set of tables.

ghost use Rattle.std.specs.Prelude.{◌≡◌, ◌≤◌, ◌↔◌, IfOk, IfSome, IfNone, IsTrue};
ghost use Rattle.board_core.specs.Delays.{most_delay};
ghost use Rattle.arbiter_server.specs.Games.{IsGameOf};
ghost use Rattle.game_status.specs.GameAudits.{AreFewDelays, IsAuditOf, IsSoundPair, IsSoundSide, IsSoundLook, IsUnsoundLook, IsUnsoundPair, IsUnsoundSide, IsUntrue, IsWholeRecord};

use crate::audit_lines::{AuditLook, Unsound};
use crate::side::Side;
use crate::status_lines::Look;
use arbiter_server::Game;
use board_core::Position;
use judge_core::Set;
use move_msg::{Record, Stamp};
use record_audit::{Finding, judge_moves};
use std::alloc::{AllocError, Global};

/// By what games are audited.
#[derive(Drop)]
pub struct AuditTables<'a> {
    /// The tables.
    pub set: Set<'a>,
    /// The manifest of their files, by which games are stamped.
    pub manifest: &'a [u8],
}

/// Whether two stamps are one.
fn is_same_stamp(one: Stamp, other: Stamp) -> bool
    ensures { IsTrue result ↔ (one ≡ other) }
{
    one == other
}

/// Whether a game's file is that of a stamp, by tables with this manifest.
fn is_own(game: &Game, manifest: &[u8], stamp: Stamp) -> bool
    ensures { IsTrue result ↔ IsGameOf manifest.now stamp game.now.name.items game.now.start game.now.delay }
{
    match Stamp::of(
        game.name.as_slice(),
        &game.start,
        manifest,
        game.delay.plies(),
    ) {
        Some(own) => is_same_stamp(own, stamp),
        None => false,
    }
}

/// What is wrong with the record of a game, by its moves and its verdict; none where it is whole or nothing is kept.
fn fault_in(
    alloc: Global,
    set: &mut Set<'_>,
    start: &Position,
    kept: &Option<Record>,
) -> Result<Option<Finding>, AllocError>
    requires { IfSome kept.now (λ r. r.delay ≤ most_delay) }
    ensures none { IfOk result (λ fault. IfNone fault (IsWholeRecord start.now set.old.tables kept.now)) }
    ensures some { IfOk result (λ fault. IfSome fault (IsUntrue start.now set.old.tables kept.now)) }
    ensures same { set.new ≡ set.old }
{
    let Some(record) = kept else {
        return Ok(None);
    };
    let finding = judge_moves(alloc, set, start, record)?;
    if finding.is_whole() {
        Ok(None)
    } else {
        Ok(Some(finding))
    }
}

/// What is wrong with a game by its file and its record in one folder.
fn unsound_side(
    alloc: Global,
    tables: &mut AuditTables<'_>,
    stamp: Stamp,
    side: &Side,
) -> Result<Option<Unsound>, AllocError>
    requires { IfSome side.now.kept (λ r. r.delay ≤ most_delay) }
    ensures none { IfOk result (λ found. IfNone found (IsSoundSide tables.old.manifest.now tables.old.set.tables stamp side.now)) }
    ensures some { IfOk result (λ found. IfSome found (IsUnsoundSide tables.old.manifest.now tables.old.set.tables stamp side.now)) }
    ensures same { tables.new ≡ tables.old }
{
    if !is_own(&side.game, tables.manifest, stamp) {
        return Ok(Some(Unsound::OtherGame));
    }
    match fault_in(alloc, &mut tables.set, &side.game.start, &side.kept)? {
        None => Ok(None),
        Some(finding) => Ok(Some(Unsound::Record(finding))),
    }
}

/// What is wrong with a game by its file and both its records.
fn unsound_pair(
    alloc: Global,
    tables: &mut AuditTables<'_>,
    stamp: Stamp,
    side: &Side,
    other: &Option<Record>,
) -> Result<Option<Unsound>, AllocError>
    requires first { IfSome side.now.kept (λ r. r.delay ≤ most_delay) }
    requires second { IfSome other.now (λ r. r.delay ≤ most_delay) }
    ensures none { IfOk result (λ found. IfNone found (IsSoundPair tables.old.manifest.now tables.old.set.tables stamp side.now other.now)) }
    ensures some { IfOk result (λ found. IfSome found (IsUnsoundPair tables.old.manifest.now tables.old.set.tables stamp side.now other.now)) }
    ensures same { tables.new ≡ tables.old }
{
    if let Some(unsound) = unsound_side(alloc, tables, stamp, side)? {
        return Ok(Some(unsound));
    }
    match fault_in(alloc, &mut tables.set, &side.game.start, other)? {
        None => Ok(None),
        Some(finding) => Ok(Some(Unsound::OtherRecord(finding))),
    }
}

/// What is wrong with a game of which the files have this. Nothing more is where they are at fault.
fn unsound_in(
    alloc: Global,
    tables: &mut AuditTables<'_>,
    stamp: Stamp,
    look: &Look,
) -> Result<Option<Unsound>, AllocError>
    requires { AreFewDelays look.now }
    ensures none { IfOk result (λ found. IfNone found (IsSoundLook tables.old.manifest.now tables.old.set.tables stamp look.now)) }
    ensures some { IfOk result (λ found. IfSome found (IsUnsoundLook tables.old.manifest.now tables.old.set.tables stamp look.now)) }
    ensures same { tables.new ≡ tables.old }
{
    match look {
        Look::One(side) => unsound_side(alloc, tables, stamp, side),
        Look::Both(side, other, _) => unsound_pair(alloc, tables, stamp, side, &other.kept),
        Look::AtFault(_) => Ok(None),
        Look::OtherAtFault(_) => Ok(None),
    }
}

/// What an audit tells of a game of which the files have this. The error comes only where memory is refused.
pub fn audit_of(
    alloc: Global,
    tables: &mut AuditTables<'_>,
    stamp: Stamp,
    look: Look,
) -> Result<AuditLook, AllocError>
    requires { AreFewDelays look }
    ensures told { IfOk result (IsAuditOf tables.old.manifest.now tables.old.set.tables stamp look) }
    ensures same { tables.new ≡ tables.old }
{
    match unsound_in(alloc, tables, stamp, &look)? {
        None => Ok(AuditLook::Sound(look)),
        Some(unsound) => Ok(AuditLook::Wrong(unsound)),
    }
}
