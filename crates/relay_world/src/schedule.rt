//! The text of a schedule.

ghost use Rattle.std.specs.Prelude.{◌≡◌, ◌⊎◌, ◌≤◌, ℕ, IfOk, IfErr, IsErrOf, OnErr};
ghost use Rattle.fen_text.specs.Cuts.{cut_at};
ghost use Rattle.relay_world.specs.declared.event.Event.{Event};
ghost use Rattle.relay_world.specs.declared.schedule.ScheduleFault.TheVariants.{BadLine, OutOfMemory};
ghost use Rattle.relay_world.specs.Texts.{AreEvents, IsBadEvent, IsFirstBadScheduleLine, ScheduleTakesMemory, SpellsSchedule, TakesForFirst};

use crate::event::Event;
use crate::lines::{read_event, read_moves, read_name, read_start};
use board_core::{Move, Position};
use fen_text::cut_first;
use std::alloc::{AllocError, Global};
use std::vec::Vec;

/// A game and what happens to its two arbiters, as read from a text.
#[derive(Drop)]
pub struct Schedule {
    /// The name of the game.
    pub name: Vec<u8>,
    /// The position before the first move.
    pub start: Position,
    /// The moves that the source sends.
    pub moves: Vec<Move>,
    /// The events, in order.
    pub events: Vec<Event>,
}

/// Why a text is no schedule.
#[derive(Clone, Copy, PartialEq, Eq, Debug)]
pub enum ScheduleFault {
    /// The line with this number, counted from 1, is the first malformed one; it may be a missing one.
    BadLine(usize),
    /// Memory was refused.
    OutOfMemory,
}

/// The events of the lines from the fourth on, or the number of the first line at fault.
fn read_events(alloc: Global, text: &[u8]) -> Result<Result<Vec<Event>, usize>, AllocError>
    ensures ok { IfOk result (λ read. IfOk read (λ events. AreEvents (cut_at 10 text.now) events.items)) }
    ensures err { IfOk result (λ read. IfErr read (λ k. IsBadEvent 4 k (cut_at 10 text.now))) }
    ensures memory { OnErr result (TakesForFirst (cut_at 10 text.now)) }
{
    let mut events = Vec::new(alloc);
    let mut rest = text;
    while let Some((line, tail)) = cut_first(rest, b'\n') {
        let Some(event) = read_event(alloc, line)? else {
            return Ok(Err(4 + events.len()));
        };
        events.push(event)?;
        rest = tail;
    }
    if rest.is_empty() {
        Ok(Ok(events))
    } else {
        Ok(Err(4 + events.len()))
    }
}

/// The schedule that a text spells (schedule format), or the number of its first line at fault.
///
/// A text is lines that end with a line feed. The first three are `name TEXT`, `start FEN`, and `moves` followed by at
/// most 4096 moves in coordinates, a space before each. A name has 1 to 64 bytes, all from 0x20 (the space) to 0x7E
/// (the tilde). Each further line is an event: `restart WHO KEEP`, `deliver WHO INDEX KEEP`, `noise WHO HEX KEEP` or
/// `ask WHO`. WHO is `A` or `B`. KEEP is `good`, `old` or `new`. INDEX is 0 to 999999 in digits without needless zeros.
/// HEX is two digits of either case for each byte, and `-` for no bytes. A missing line counts as the one after the
/// last. `OutOfMemory` comes where memory is refused for the moves, for the bytes of an event, or for the name. None is
/// taken where one of the first two lines is malformed, or a third one that begins with no move, or a fourth one
/// without bytes.
pub fn read(alloc: Global, text: &[u8]) -> Result<Schedule, ScheduleFault>
    ensures ok { IfOk result (SpellsSchedule text.now) }
    ensures err { IfErr result (λ fault. (fault ≡ OutOfMemory) ⊎ ((k : ℕ) × (fault ≡ BadLine k) × IsFirstBadScheduleLine text.now k)) }
    ensures memory { IsErrOf result OutOfMemory → (k : ℕ) → IsFirstBadScheduleLine text.now k → 3 ≤ k }
    ensures taken { IsErrOf result OutOfMemory → ScheduleTakesMemory text.now }
{
    let Some((line, rest)) = cut_first(text, b'\n') else {
        return Err(ScheduleFault::BadLine(1));
    };
    let Some(name) = read_name(line) else {
        return Err(ScheduleFault::BadLine(1));
    };
    let Some((line, rest)) = cut_first(rest, b'\n') else {
        return Err(ScheduleFault::BadLine(2));
    };
    let Some(start) = read_start(line) else {
        return Err(ScheduleFault::BadLine(2));
    };
    let Some((line, rest)) = cut_first(rest, b'\n') else {
        return Err(ScheduleFault::BadLine(3));
    };
    let moves = match read_moves(alloc, line) {
        Ok(Some(moves)) => moves,
        Ok(None) => return Err(ScheduleFault::BadLine(3)),
        Err(_) => return Err(ScheduleFault::OutOfMemory),
    };
    let events = match read_events(alloc, rest) {
        Ok(Ok(events)) => events,
        Ok(Err(number)) => return Err(ScheduleFault::BadLine(number)),
        Err(_) => return Err(ScheduleFault::OutOfMemory),
    };
    let Ok(name) = Vec::from_slice(alloc, name) else {
        return Err(ScheduleFault::OutOfMemory);
    };
    Ok(Schedule {
        name,
        start,
        moves,
        events,
    })
}
