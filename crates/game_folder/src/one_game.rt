//! One game, whose record is kept in a file.

ghost use Rattle.std.specs.Prelude.{◌≡◌, ◌||◌, false, not, IfErr, Err, Ok};
ghost use Rattle.arbiter_server.specs.GameFiles.{game_as_told};
ghost use Rattle.timeline.specs.Events.{is_done};
ghost use Rattle.timeline.specs.Outsides.{AddsSome};
ghost use Rattle.game_folder.specs.Holdings.{CommitsGames, IsKeptIn, KeepsIn, TakesGame};
ghost use Rattle.game_folder.specs.OneGame.{OneGameView, one_game_facts};
ghost use Rattle.game_folder.specs.Places.{InFile};

use crate::games::{Games, KeptGame};
use crate::record_file::{put_file, take_file};
use arbiter_core::{Name, name_of};
use arbiter_server::{GameConfig, OpenGameError, Uncommitted};
use board_core::{Delay, Position};
use move_msg::Stamp;
use std::alloc::Global;
use std::marker::Model;
use timeline::System;

/// One game, and the path of the file of its record. What it puts goes into that file at once; after a put that failed no more can be
/// committed.
#[derive(Drop)]
pub struct OneGame<'f> {
    stamp: Stamp,
    name: Name,
    start: Position,
    delay: Delay,
    path: &'f str,
    is_lost: bool,
}

impl<'f> Model for OneGame<'f> {
    ghost use Rattle.arbiter_server.specs.GameFiles.{game_as_told};
    ghost use Rattle.game_folder.specs.OneGame.{OneGameView};

    ghost Value = { OneGameView };

    ghost view = { λ g. record { at = record { stamp = g.stamp; game = game_as_told g.name.items g.start g.delay; path = g.path.now }; is_lost = g.is_lost } };
}

impl<'f> OneGame<'f> {
    /// The game with this stamp, name, start and delay, whose record is in the file at a path.
    pub fn new(
        stamp: Stamp,
        name: Name,
        start: Position,
        delay: Delay,
        path: &'f str,
    ) -> OneGame<'f>
        ensures { result ≡ record { at = record { stamp = stamp; game = game_as_told name.items start delay; path = path.now }; is_lost = false } }
    {
        OneGame {
            stamp,
            name,
            start,
            delay,
            path,
            is_lost: false,
        }
    }
}

impl<'f, S: System> Games<S> for OneGame<'f> {
    ghost facts = { λ system. one_game_facts (S.outside system) };

    /// `NoGame` where the stamp is another one.
    fn find(
        &self,
        _alloc: Global,
        _system: &S,
        _timeline: &mut S::Timeline,
        stamp: Stamp,
    ) -> Result<GameConfig, OpenGameError> {
        if stamp != self.stamp {
            return Err(OpenGameError::NoGame);
        }
        Ok(GameConfig {
            name: name_of(self.name.as_slice()),
            start: self.start,
            delay: self.delay,
        })
    }

    fn take(
        &mut self,
        alloc: Global,
        system: &S,
        timeline: &mut S::Timeline,
        stamp: Stamp,
    ) -> Result<KeptGame<S::File>, OpenGameError>
        ensures made { let o = S.outside system.now in AddsSome o timeline.old timeline.new (TakesGame (one_game_facts o) o self.old self.new stamp result) }
        ensures same { self.new ≡ self.old }
    {
        take_file(alloc, system, timeline, self.path, stamp)
    }

    fn keep(
        &mut self,
        system: &S,
        timeline: &mut S::Timeline,
        game: &mut KeptGame<S::File>,
    ) -> Result<(), OpenGameError>
        requires { IsKeptIn (S.outside system.now) (InFile self.old.at.path) game.old.file }
        ensures made { let o = S.outside system.now in KeepsIn (one_game_facts o) o self.old self.new game.old game.new timeline.old timeline.new result }
        ensures lost { self.new ≡ record self.old { is_lost = self.old.is_lost || not (is_done result) } }
    {
        let done = put_file(system, timeline, game);
        if done.is_err() {
            self.is_lost = true;
        }
        done
    }

    fn commit(&mut self, _system: &S, _timeline: &mut S::Timeline) -> Result<(), Uncommitted>
        ensures made { AddsSome (S.outside _system.now) _timeline.old _timeline.new (CommitsGames (one_game_facts (S.outside _system.now)) self.old self.new result) }
        ensures same { self.new ≡ self.old }
        ensures why { IfErr result (λ why. why ≡ Uncommitted.StoreLost) }
    {
        if self.is_lost {
            return Err(Uncommitted::StoreLost);
        }
        Ok(())
    }
}
