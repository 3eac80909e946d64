//! A schedule from its first world to its last.

ghost use Rattle.std.specs.Prelude.{◌≡◌, ◌≤◌, ◌⊎◌, map, length, IfOk, IfErr, Err};
ghost use Rattle.board_core.specs.declared.moves.Move.{Move};
ghost use Rattle.move_msg.specs.declared.arbiter_id.Sender.TheVariants.{Source};
ghost use Rattle.move_msg.specs.Numbers.{most_moves};
ghost use Rattle.arbiter_core.specs.Answering.{sent_by};
ghost use Rattle.arbiter_core.specs.Setups.{SetupView};
ghost use Rattle.judge_core.specs.Tables.{Tables};
ghost use Rattle.relay_world.specs.declared.fault.WorldFault.TheVariants.{OutOfMemory};
ghost use Rattle.relay_world.specs.Gathering.{tables_of};
ghost use Rattle.relay_world.specs.Inside.Pairs.{IsBegunFor, PairIs};
ghost use Rattle.relay_world.specs.Runs.{Runs, TellsWorld, WorldView, judged_by};
ghost use Rattle.relay_world.specs.Worlds.{Judged, World as Worlds};

use crate::event::Event;
use crate::fault::WorldFault;
use crate::game::Game;
use crate::gathering::gather;
use crate::listing::manifest_of;
use crate::pair::{Pair, run_from};
use crate::replica::Replica;
use crate::world::World;
use arbiter_core::MemoryKeeper;
use board_core::Move;
use judge_core::Set;
use move_msg::{ArbiterId, Message, Sender, Stamp};
use place_index::tables_are_numbered;
use std::alloc::{AllocError, Global};
use std::vec::Vec;
use table_file::reads_what_is_laid_out;

/// The moves that the source sends.
fn sent(alloc: Global, stamp: Stamp, moves: &[Move]) -> Result<Vec<Message>, AllocError>
    requires { length moves.now ≤ most_moves }
    ensures { IfOk result (λ log. log.items ≡ sent_by stamp Source 0 moves.now) }
{
    let mut log = Vec::new(alloc);
    for i in 0..moves.len() {
        let message = Message::Move {
            stamp,
            sender: Sender::Source,
            number: i as u32,
            m: moves[i],
        };
        let Ok(()) = log.push(message) else {
            return Err(AllocError);
        };
    }
    Ok(log)
}

/// Both arbiters closed, nothing kept, and the moves sent.
fn begin<'a>(
    alloc: Global,
    game: &'a Game,
    manifest: &'a [u8],
    first: Set<'a>,
    second: Set<'a>,
) -> Result<Pair<'a>, AllocError>
    ensures { (tables : Tables) → first.entry.tables ≡ tables → second.entry.tables ≡ tables → IfOk result (IsBegunFor (judged_by game.now tables manifest.now)) }
{
    let stamp = game.stamp(manifest);
    let first_keeper = MemoryKeeper::new(alloc)?;
    let second_keeper = MemoryKeeper::new(alloc)?;
    let log = sent(alloc, stamp, game.moves())?;
    let a = game.setup(manifest, ArbiterId::A, first);
    let b = game.setup(manifest, ArbiterId::B, second);
    Ok(Pair {
        stamp,
        first: Replica::closed(a, first_keeper),
        second: Replica::closed(b, second_keeper),
        log,
    })
}

/// The states of both arbiters, what they keep and what was sent.
fn world_of(pair: Pair<'_>) -> World
    ensures { (game : Judged) (a b : SetupView) (world : Worlds) → a.delay ≡ game.rules.delay → b.delay ≡ game.rules.delay → PairIs game a b pair.entry world → TellsWorld game result world }
{
    let Pair {
        stamp: _,
        first,
        second,
        log,
    } = pair;
    let first_state = first.state();
    let second_state = second.state();
    World {
        first: first_state,
        first_keeper: first.into_keeper(),
        second: second_state,
        second_keeper: second.into_keeper(),
        log,
    }
}

/// Runs a schedule: two arbiters of a game, A and B, both closed and with nothing kept, and a log of everything that was ever
/// sent, at first the game's moves, number i at place i. Then one event after the other.
///
/// - A message of the log is delivered to an arbiter, which answers it; an index past the log's end and a closed
/// arbiter do nothing. - Noise is delivered to an arbiter likewise, but bytes that encode a message of this game do
/// nothing: nobody forges one. - An arbiter is closed, unless it is closed already, and opened over what is kept. - An
/// arbiter that runs without a verdict requests moves from the other.
///
/// `keep` is the outcome of the put that the event makes, if any. What an arbiter sends is appended to the log.
///
/// `tables` are files by name, in any order. Each arbiter has all of them, with a cache of `cache` blocks, 1 to 4096;
/// their manifest is by rising name. `BadTable` and `DuplicateTable` name the first file at fault, place by place.
/// `OutOfMemory` comes where memory is refused before or in any event, but not for the cache of a probe. No world is
/// returned then. Each run takes memory, for two sets and two keepers, so this error may come for any game and any
/// files. The number of blocks changes nothing in the result.
pub fn run<'a>(
    alloc: Global,
    game: &'a Game,
    tables: &'a [(&'a [u8], &'a [u8])],
    cache: usize,
    events: &[Event],
) -> Result<World, WorldFault>
    requires some { 1 ≤ cache }
    requires most { cache ≤ 4096 }

    // There are worlds, one more than the events. The first has both arbiters closed, nothing kept and the game's moves
    // as log. Each next one is the step of its event, and the last is the one that is returned. In each of them each
    // kept record is that of the game's first so many moves, with the first verdict exactly at its ply, and two kept
    // verdicts are one.
    ensures worlds { IfOk result (Runs game.now (map (λ f. record { name = f.0.now; bytes = f.1.now }) tables.now) events.now) }

    // The result depends on the game, the files and the events alone: another run of them, at any number of blocks, has
    // the same result.
    ensures one { IfOk result (λ told. (other : WorldView) → Runs game.now (map (λ f. record { name = f.0.now; bytes = f.1.now }) tables.now) events.now other → other ≡ told) }

    // The error is the first file at fault.
    ensures faults { IfErr result (λ fault. (fault ≡ OutOfMemory) ⊎ (tables_of (map (λ f. record { name = f.0.now; bytes = f.1.now }) tables.now) ≡ Err fault)) }
{
    let first = gather(alloc, cache, tables)?;
    let second = gather(alloc, cache, tables)?;
    tables_are_numbered();
    reads_what_is_laid_out();
    let Ok(manifest) = manifest_of(alloc, tables) else {
        return Err(WorldFault::OutOfMemory);
    };
    let Ok(begun) = begin(alloc, game, &manifest, first, second) else {
        return Err(WorldFault::OutOfMemory);
    };
    let Ok(ended) = run_from(alloc, begun, events) else {
        return Err(WorldFault::OutOfMemory);
    };
    Ok(world_of(ended))
}
