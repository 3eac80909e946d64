//! Moves that wait for their turn.

ghost use Rattle.std.specs.Prelude.{◌≡◌, ◌<◌, length};
ghost use Rattle.arbiter_core.specs.Answering.{nothing_waits, still_waits, waits_too};

use board_core::Move;
use std::marker::Model;

/// Moves that came before their turn: place i, from 0 to 30, has the one whose number is i + 1 above the count, if it came.
#[derive(Drop)]
pub(crate) struct ReorderBuffer {
    places: [Option<Move>; 31],
}

impl Model for ReorderBuffer {
    ghost use Rattle.std.specs.Prelude.{◌≡◌, List, Option, length};
    ghost use Rattle.board_core.specs.declared.moves.Move.{Move};

    ghost Value = { List (Option Move) };

    ghost view = { λ w. w.places };

    ghost invariant = { λ w. length w.places ≡ 31 };
}

impl ReorderBuffer {
    /// No move waits.
    pub fn empty() -> ReorderBuffer
        ensures { result ≡ nothing_waits }
    {
        ReorderBuffer { places: [None; 31] }
    }

    /// A move waits at this place, 0 to 30, unless one waits there already.
    pub fn wait(&mut self, place: usize, m: Move)
        requires { place < 31 }
        ensures { self.new ≡ waits_too self.old place m }
    {
        if self.places[place].is_none() {
            self.places[place] = Some(m);
        }
    }

    /// The moves that still wait once the count is higher by n.
    pub fn after(&self, n: usize) -> ReorderBuffer
        ensures { result ≡ still_waits self.now n }
    {
        let mut places = [None; 31];
        for i in n..31 {
            places[i - n] = self.places[i];
        }
        ReorderBuffer { places }
    }

    /// The places in turn.
    pub fn places(&self) -> &[Option<Move>]
        ensures places { result.now ≡ self.now }
        ensures all { length self.now ≡ 31 }
    {
        &self.places
    }
}
