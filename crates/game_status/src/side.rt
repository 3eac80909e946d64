//! How far a folder has come with one game: its record, by the file alone.

ghost use Rattle.std.specs.Prelude.{IfErr, IfOk};
ghost use Rattle.move_msg.specs.Records.{SpellsRecord};
ghost use Rattle.game_status.specs.Sides.{IsOfStamp};
ghost use Rattle.game_status.specs.Inside.Decoding.{AreSides, IsNoRecordOf, IsNoSide};

use crate::entry::{Entry, EntryFault};
use arbiter_server::Game;
use board_core::Delay;
use move_msg::{Record, RecordFault, Stamp};
use std::alloc::{AllocError, Global};

/// How far a folder has come with a game.
#[derive(Drop)]
pub struct Side {
    /// What the game's file tells.
    pub game: Game,
    /// Its record, if one is kept.
    pub kept: Option<Record>,
}

/// The record of a stamp and a delay that the bytes are, or why they are none.
fn record_of(
    alloc: Global,
    bytes: &[u8],
    stamp: Stamp,
    delay: Delay,
) -> Result<Result<Record, EntryFault>, AllocError>
    ensures record { IfOk result (λ r. IfOk r (λ kept. SpellsRecord bytes.now kept × IsOfStamp kept stamp delay)) }
    ensures fault { IfOk result (λ r. IfErr r (IsNoRecordOf bytes.now stamp delay)) }
{
    let record = match Record::decode(alloc, bytes) {
        Ok(record) => record,
        Err(fault) => match fault {
            RecordFault::OutOfMemory => return Err(AllocError),
            _ => return Ok(Err(EntryFault::BadRecord(fault))),
        },
    };
    if record.stamp != stamp || record.delay != delay.plies() {
        return Ok(Err(EntryFault::OtherStamp));
    }
    Ok(Ok(record))
}

/// How far the game of a stamp has come by what a folder has of it, or why that can't be told. The error comes only where memory is
/// refused.
pub fn side_of(
    alloc: Global,
    entry: Entry,
    stamp: Stamp,
) -> Result<Result<Side, EntryFault>, AllocError>
    ensures side { IfOk result (λ r. IfOk r (AreSides entry stamp)) }
    ensures fault { IfOk result (λ r. IfErr r (IsNoSide entry stamp)) }
{
    let Entry { game, kept } = entry;
    let Some(bytes) = kept else {
        return Ok(Ok(Side { game, kept: None }));
    };
    match record_of(alloc, &bytes, stamp, game.delay)? {
        Ok(record) => Ok(Ok(Side {
            game,
            kept: Some(record),
        })),
        Err(fault) => Ok(Err(fault)),
    }
}
