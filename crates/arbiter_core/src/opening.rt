//! Opening an arbiter.

ghost use Rattle.std.specs.Prelude.{◌≡◌, ◌≤◌, IfOk, IfErr, IsErr, OnErr, IsTrue, ◌↔◌, IfSome, IfNone, Option, Some, None, Result, Ok, Err, false};
ghost use Rattle.board_core.specs.Delays.{most_delay};
ghost use Rattle.fen_text.specs.Written.{fen_of};
ghost use Rattle.move_msg.specs.Stamps.{IsGameName, stamp_of};
ghost use Rattle.arbiter_core.specs.Setups.{setup_view, terms_with, rules_at, IsGood, IsIdentity};
ghost use Rattle.std.specs.Result.{result_map_both};
ghost use Rattle.judge_core.specs.Answers.{ListsMovesForVerdict};
ghost use Rattle.arbiter_core.specs.Opens.{IsOpening, OpensIfGood, IsResumed, IsBadKept, IsWhole, at_end, first_record};
ghost use Rattle.arbiter_core.specs.Delivers.{IsKept};
ghost use Rattle.arbiter_core.specs.Resting.{CanWake, awake, setup_with};
ghost use Rattle.judge_core.specs.Tables.{Holding};
ghost use Rattle.arbiter_core.specs.Inside.Playing.{IsPlayedRecord, played_of, recorded_in};
ghost use Rattle.arbiter_core.specs.Inside.Starting.{IsNotResumed, IsPutFirst, OpensAs, identity_by, recorded_by};

use crate::arbiter::Arbiter;
use crate::fault::OpenFault;
use crate::keeper::{KeepFault, Keeper};
use crate::played::Played;
use crate::reorder_buffer::ReorderBuffer;
use crate::setup::{Setup, Terms};
use crate::state::ArbiterState;
use board_core::Delay;
use judge_core::{GameOutcome, Set, Standing, Verdict};
use move_msg::{MoveList, Record, RecordFault, Stamp, WrittenRecord};
use std::alloc::{AllocError, Global};

/// Why an arbiter was not opened, and the setup as it was given, but for its cache.
#[derive(Drop)]
pub struct Refused<'a> {
    /// Why.
    pub fault: OpenFault,
    /// The setup.
    pub setup: Setup<'a>,
}

/// The stamp of the game by its terms; none where no game may have the name.
fn identify(terms: &Terms<'_>) -> Option<Stamp>
    ensures some { (set : Holding) → IfSome result (λ stamp. IsGood (terms_with terms.now set) × IsIdentity (terms_with terms.now set) (identity_by terms.now stamp)) }
    ensures none { (set : Holding) → IfNone result (IsGood (terms_with terms.now set) → ⊥) }
{
    let name = terms.name.as_slice();
    Stamp::of(name, &terms.start, terms.manifest, terms.delay.plies())
}

/// The verdict at the last ply of a game of so many moves; none where the game doesn't get there.
fn at_end(outcome: GameOutcome, count: usize) -> Option<Option<Verdict>>
    ensures { result ≡ at_end outcome count }
{
    match outcome {
        GameOutcome::Ruled { ply, verdict } => {
            if ply == count {
                Some(Some(verdict))
            } else {
                None
            }
        }
        GameOutcome::Illegal { .. } => None,
        GameOutcome::Going => Some(None),
    }
}

/// Whether a record is of the game with this stamp, judged with this delay.
fn is_of_game(kept: &Record, stamp: Stamp, delay: Delay) -> bool
    ensures { IsTrue result ↔ ((kept.now.stamp ≡ stamp) × (kept.now.delay ≡ delay)) }
{
    kept.stamp == stamp && kept.delay == delay.plies()
}

/// The recorded state from a record, if it is one of this game that an arbiter can run from. `OutOfMemory` comes only
/// where memory for a list of moves is refused, while a record of this game is judged.
fn go_on_from(
    alloc: Global,
    tables: &mut Set<'_>,
    terms: &Terms<'_>,
    stamp: Stamp,
    kept: WrittenRecord,
) -> Result<Played, OpenFault>
    ensures same { tables.new ≡ tables.old }
    ensures ok { IfOk result (λ p. IsPlayedRecord (terms_with terms.now tables.old) stamp p × (p.record ≡ kept) × IsWhole (rules_at (terms_with terms.now tables.old)) (recorded_by kept)) }
    ensures err { IfErr result (IsNotResumed (rules_at (terms_with terms.now tables.old)) stamp kept) }
{
    let record = kept.as_record();
    if !is_of_game(record, stamp, terms.delay) {
        return Err(OpenFault::OtherStamp);
    }
    let moves = record.moves.as_slice();
    let Ok(followed) = tables.follow(alloc, &terms.start, moves, terms.delay) else {
        return Err(OpenFault::OutOfMemory);
    };
    let Some(verdict) = at_end(followed.outcome, moves.len()) else {
        return Err(OpenFault::BadRecord);
    };
    if record.verdict != verdict {
        return Err(OpenFault::BadRecord);
    }
    Ok(Played {
        record: kept,
        standing: followed.standing,
    })
}

/// The recorded state from kept bytes, if they are a record of this game.
fn resume(
    alloc: Global,
    tables: &mut Set<'_>,
    terms: &Terms<'_>,
    stamp: Stamp,
    bytes: &[u8],
) -> Result<Played, OpenFault>
    ensures same { tables.new ≡ tables.old }
    ensures ok { IfOk result (λ p. IsPlayedRecord (terms_with terms.now tables.old) stamp p × IsResumed (rules_at (terms_with terms.now tables.old)) stamp bytes.now (recorded_in p)) }
    ensures err { IfErr result (IsBadKept (rules_at (terms_with terms.now tables.old)) stamp bytes.now) }
{
    match WrittenRecord::read(alloc, bytes) {
        Ok(record) => go_on_from(alloc, tables, terms, stamp, record),
        Err(fault) => match fault {
            RecordFault::OutOfMemory => Err(OpenFault::OutOfMemory),
            _ => Err(OpenFault::BadRecord),
        },
    }
}

/// The record before the first move, and where the game stands. The error comes only where memory for a list of moves is
/// refused, while the start is judged.
fn first(
    alloc: Global,
    tables: &mut Set<'_>,
    terms: &Terms<'_>,
    stamp: Stamp,
) -> Result<(Record, Standing), AllocError>
    ensures in_range { IfOk result (λ f. f.0.delay ≤ most_delay) }
    ensures same { tables.new ≡ tables.old }
    ensures ok { IfOk result (λ f. IsPlayedRecord (terms_with terms.now tables.old) stamp (played_of f.0 f.1) × (recorded_by f.0 ≡ first_record (rules_at (terms_with terms.now tables.old)))) }
    ensures memory { OnErr result (ListsMovesForVerdict tables.old.tables terms.now.start) }
{
    let standing = tables.begin(alloc, &terms.start)?;
    let verdict = standing.verdict(terms.delay);
    let record = Record {
        stamp,
        delay: terms.delay.plies(),
        verdict,
        moves: MoveList::from_vec(Vec::new(alloc)),
    };
    Ok((record, standing))
}

/// Puts the first record with the keeper.
fn put_first<K: Keeper>(
    alloc: Global,
    keeper: &mut K,
    tables: &mut Set<'_>,
    terms: &Terms<'_>,
    stamp: Stamp,
) -> Result<Played, OpenFault>
    ensures same { tables.new ≡ tables.old }
    ensures put { IsPutFirst K.facts (terms_with terms.now tables.old) (identity_by terms.now stamp) keeper.old keeper.new result }
{
    let Ok((record, standing)) = first(alloc, tables, terms, stamp) else {
        return Err(OpenFault::OutOfMemory);
    };
    let Ok(record) = WrittenRecord::of(alloc, record) else {
        return Err(OpenFault::OutOfMemory);
    };
    match keeper.put(record.as_bytes()) {
        Ok(()) => Ok(Played { record, standing }),
        Err(_) => Err(OpenFault::KeeperFailed),
    }
}

/// The recorded state from what is kept.
fn recorded<K: Keeper>(
    alloc: Global,
    keeper: &mut K,
    tables: &mut Set<'_>,
    terms: &Terms<'_>,
    stamp: Stamp,
) -> Result<Played, OpenFault>
    ensures same { tables.new ≡ tables.old }
    ensures played { IfOk result (IsPlayedRecord (terms_with terms.now tables.old) stamp) }
    ensures opens { OpensAs K.facts (terms_with terms.now tables.old) (identity_by terms.now stamp) keeper.old keeper.new result }
{
    match keeper.get(alloc) {
        Ok(Some(bytes)) => resume(alloc, tables, terms, stamp, &bytes),
        Ok(None) => put_first(alloc, keeper, tables, terms, stamp),
        Err(KeepFault::Failed) => Err(OpenFault::KeeperFailed),
        Err(KeepFault::OutOfMemory) => Err(OpenFault::OutOfMemory),
    }
}

/// Why an arbiter was not opened, and its terms as they were given.
#[derive(Drop)]
pub struct RefusedTerms<'a> {
    /// Why.
    pub fault: OpenFault,
    /// The terms.
    pub terms: Terms<'a>,
}

impl<'a> ArbiterState<'a> {
    /// Opens the arbiter of the game with this stamp by tables that it is lent, as `Arbiter::open`. The stamp is that of the terms, which
    /// isn't looked at again.
    pub fn open_known<K: Keeper>(
        alloc: Global,
        tables: &mut Set<'_>,
        keeper: &mut K,
        terms: Terms<'a>,
        stamp: Stamp,
    ) -> Result<ArbiterState<'a>, RefusedTerms<'a>>
        requires named { IsGameName terms.name.items }
        requires stamped { stamp ≡ stamp_of terms.name.items (fen_of terms.start) terms.manifest.now terms.delay }
        // The tables stay as they were, but for their cache.
        ensures same { tables.new ≡ tables.old }
        ensures back { IfErr result (λ r. r.terms ≡ terms.entry) }
        // It is opened from these terms, and runs.
        ensures setup { IfOk result (λ a. setup_with a tables.old ≡ terms_with terms.entry tables.old) }
        ensures runs { IfOk result (λ a. a.is_down ≡ false) }
        // By these tables its record is whole.
        ensures wakes { IfOk result (λ a. CanWake a tables.old) }
        // The record of a running arbiter is what is kept.
        ensures keeps { IfOk result (λ a. IsKept (K.facts.kept keeper.new) (awake a tables.old)) }
        ensures opens { IsOpening K.facts (terms_with terms.entry tables.old) keeper.old keeper.new (result_map_both (λ a. awake a tables.old) (λ r. r.fault) result) }
    {
        // Called for its contract: a delay has at most 8 plies.
        let _plies = terms.delay.plies();
        match recorded(alloc, keeper, tables, &terms, stamp) {
            Ok(played) => Ok(ArbiterState {
                terms,
                played,
                window: ReorderBuffer::empty(),
                down: false,
            }),
            Err(fault) => Err(RefusedTerms { fault, terms }),
        }
    }

    /// Opens an arbiter by tables that it is lent, as `Arbiter::open`. Terms are bad only by their name.
    pub fn open<K: Keeper>(
        alloc: Global,
        tables: &mut Set<'_>,
        keeper: &mut K,
        terms: Terms<'a>,
    ) -> Result<ArbiterState<'a>, RefusedTerms<'a>>
        ensures same { tables.new ≡ tables.old }
        ensures back { IfErr result (λ r. r.terms ≡ terms.entry) }
        ensures setup { IfOk result (λ a. setup_with a tables.old ≡ terms_with terms.entry tables.old) }
        ensures runs { IfOk result (λ a. a.is_down ≡ false) }
        ensures wakes { IfOk result (λ a. CanWake a tables.old) }
        ensures keeps { IfOk result (λ a. IsKept (K.facts.kept keeper.new) (awake a tables.old)) }
        ensures bad { (IsGood (terms_with terms.entry tables.old) → ⊥) → IfErr result (λ r. r.fault ≡ OpenFault.BadSetup) × IsErr result × (keeper.new ≡ keeper.old) }
        ensures good { OpensIfGood K.facts (terms_with terms.entry tables.old) keeper.old keeper.new (result_map_both (λ a. awake a tables.old) (λ r. r.fault) result) }
    {
        let Some(stamp) = identify(&terms) else {
            return Err(RefusedTerms {
                fault: OpenFault::BadSetup,
                terms,
            });
        };
        ArbiterState::open_known(alloc, tables, keeper, terms, stamp)
    }
}

impl<'a> Arbiter<'a> {
    /// Opens an arbiter over what is kept. It runs from a kept record of this game. Where nothing is kept, the record
    /// before the first move is put first.
    ///
    /// Errors come in this order. `BadSetup`: the name is none of a game, the number none of an arbiter, or the delay
    /// is above 8 plies. `KeeperFailed`: the get failed. Where something is kept: `BadRecord` if it is no record, then
    /// `OtherStamp` if its stamp or its delay differs. Then `BadRecord` again if its moves aren't legal in turn, a ply
    /// before its last has a verdict, or its verdict isn't the one at its last ply. Where nothing is kept,
    /// `KeeperFailed`: the put failed. `OutOfMemory` comes where memory was refused, and before a put. Over a kept
    /// record, of either version, nothing is put. An error returns the setup, unchanged but for its cache.
    pub fn open<K: Keeper>(
        alloc: Global,
        keeper: &mut K,
        setup: Setup<'a>,
    ) -> Result<Arbiter<'a>, Refused<'a>>
        ensures back { IfErr result (λ r. setup_view r.setup ≡ setup_view setup.entry) }
        // It is opened from this setup, and runs.
        ensures setup { IfOk result (λ a. a.setup ≡ setup_view setup.entry) }
        ensures runs { IfOk result (λ a. a.is_down ≡ false) }
        ensures bad { (IsGood (setup_view setup.entry) → ⊥) → IfErr result (λ r. r.fault ≡ OpenFault.BadSetup) × IsErr result × (keeper.new ≡ keeper.old) }
        // The record of a running arbiter is what is kept.
        ensures keeps { IfOk result (λ a. IsKept (K.facts.kept keeper.new) a) }
        ensures good { OpensIfGood K.facts (setup_view setup.entry) keeper.old keeper.new (result_map_both (λ a. a) (λ r. r.fault) result) }
    {
        let (terms, set) = match setup.apart() {
            Ok(parts) => parts,
            Err(setup) => {
                return Err(Refused {
                    fault: OpenFault::BadSetup,
                    setup,
                });
            }
        };
        let mut set = set;
        match ArbiterState::open(alloc, &mut set, keeper, terms) {
            Ok(state) => Ok(Arbiter::wake(state, set)),
            Err(refused) => {
                let RefusedTerms { fault, terms } = refused;
                Err(Refused {
                    fault,
                    setup: terms.with(set),
                })
            }
        }
    }
}
