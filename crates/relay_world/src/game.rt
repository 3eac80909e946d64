//! A game of which two arbiters keep the record.

ghost use Rattle.std.specs.Prelude.{◌≡◌, ◌≤◌, ◌<◌, ◌↔◌, length, IfOk, IsErrOf};
ghost use Rattle.arbiter_core.specs.Setups.{IsGood, setup_view};
ghost use Rattle.board_core.specs.Delays.{most_delay};
ghost use Rattle.move_msg.specs.Numbers.{most_moves};
ghost use Rattle.move_msg.specs.Senders.{who_number};
ghost use Rattle.move_msg.specs.Stamps.{IsGameName};
ghost use Rattle.relay_world.specs.Runs.{IsGame, judged_by};

use crate::fault::GameFault;
use arbiter_core::{Setup, name_of};
use board_core::{Delay, Move, Position};
use judge_core::Set;
use move_msg::{ArbiterId, MoveList, Stamp, is_game_name};
use std::alloc::Global;
use std::marker::Model;
use std::vec::Vec;

/// A game: its name, the position before the first move, the moves that its source sends, and for how many further plies a
/// verdict by tables must hold. The moves need not be legal.
#[derive(Drop)]
pub struct Game {
    name: Vec<u8>,
    start: Position,
    moves: MoveList,
    delay: Delay,
}

impl Model for Game {
    ghost use Rattle.relay_world.specs.Runs.{GameView, IsGame};

    ghost Value = { GameView };

    ghost view = { λ g. record { name = g.name.items; start = g.start; moves = g.moves; delay = g.delay } };

    ghost invariant = { λ g. IsGame (record { name = g.name.items; start = g.start; moves = g.moves; delay = g.delay }) };
}

impl Game {
    /// The game with this name, start, moves and delay. The error is the first that applies. `BadName`: the name hasn't
    /// 1 to 64 bytes, all from 0x20 (the space) to 0x7E (the tilde). `TooManyMoves`: above 4096. `BadDelay`: above 8.
    /// `OutOfMemory`: memory for name and moves is refused, which each game takes.
    pub fn new(
        alloc: Global,
        name: &[u8],
        start: Position,
        moves: &[Move],
        delay: u8,
    ) -> Result<Game, GameFault>
        ensures ok { IfOk result (λ game. game ≡ record { name = name.now; start = start; moves = moves.now; delay = delay }) }
        ensures good { IfOk result IsGame }
        ensures name { IsErrOf result GameFault.BadName ↔ (IsGameName name.now → ⊥) }
        ensures moves { IsErrOf result GameFault.TooManyMoves ↔ (IsGameName name.now × (most_moves < length moves.now)) }
        ensures memory { IsErrOf result GameFault.OutOfMemory → IsGame (record { name = name.now; start = start; moves = moves.now; delay = delay }) }
        ensures delay { IsErrOf result GameFault.BadDelay ↔ (IsGameName name.now × (length moves.now ≤ most_moves) × (most_delay < delay)) }
    {
        if !is_game_name(name) {
            return Err(GameFault::BadName);
        }
        if moves.len() > 4096 {
            return Err(GameFault::TooManyMoves);
        }
        let Some(delay) = Delay::new(delay) else {
            return Err(GameFault::BadDelay);
        };
        let Ok(name) = Vec::from_slice(alloc, name) else {
            return Err(GameFault::OutOfMemory);
        };
        let Ok(moves) = Vec::from_slice(alloc, moves) else {
            return Err(GameFault::OutOfMemory);
        };
        Ok(Game {
            name,
            start,
            moves: MoveList::from_vec(moves),
            delay,
        })
    }

    /// The moves that the source sends.
    pub(crate) fn moves(&self) -> &[Move]
        ensures is { result.now ≡ self.now.moves }
        ensures few { length result.now ≤ most_moves }
    {
        self.moves.as_slice()
    }

    /// The stamp of the game where it is judged by tables with this manifest.
    pub(crate) fn stamp(&self, manifest: &[u8]) -> Stamp
        ensures { (tables : _) → result ≡ (judged_by self.now tables manifest.now).stamp }
    {
        Stamp::of(&self.name, &self.start, manifest, self.delay.plies()).unwrap()
    }

    /// The setup of one of the two arbiters.
    pub(crate) fn setup<'a>(&'a self, manifest: &'a [u8], me: ArbiterId, set: Set<'a>) -> Setup<'a>
        ensures is { setup_view result ≡ record { name = self.now.name; start = self.now.start; manifest = manifest.now; me = who_number me; delay = self.now.delay; set = set.entry } }
        ensures good { IsGood (setup_view result) }
    {
        Setup {
            name: name_of(&self.name),
            start: self.start,
            manifest,
            me: me.number(),
            delay: self.delay.plies(),
            set,
        }
    }
}
