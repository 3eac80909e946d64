//! Where games are found, and their records kept.

ghost use Rattle.game_folder.specs.Holdings.{CommitsGames, FindsGame, GamesFacts, IsKeptIn, KeepsIn, TakesGame};
ghost use Rattle.timeline.specs.Outsides.{AddsSome};

use crate::draft::Draft;
use arbiter_server::{GameConfig, OpenGameError, Uncommitted};
use move_msg::Stamp;
use std::alloc::Global;
use timeline::System;

/// The record of a game, and where it is kept.
#[derive(Drop)]
pub struct KeptGame<F: Drop> {
    /// The stamp of the game.
    pub stamp: Stamp,
    /// The record, as it is to be kept.
    pub draft: Draft,
    /// The file in which it is kept; none where it is kept in a store.
    pub file: Option<F>,
}

/// Games, each under its stamp: what is told of it, and its record. What a call does outside is said by its events.
pub trait Games<S: System> {
    /// Where records are kept, what was noted, and which events each call makes. It may depend on the system: only that knows the path of
    /// a store.
    ghost facts: { S → GamesFacts Self };

    /// What is told of the game with this stamp.
    fn find(
        &self,
        alloc: Global,
        system: &S,
        timeline: &mut S::Timeline,
        stamp: Stamp,
    ) -> Result<GameConfig, OpenGameError>
        ensures made { AddsSome (S.outside system.now) timeline.old timeline.new (FindsGame (facts system.now) self.now stamp result) };

    /// The record of the game with this stamp, as it is noted or kept by now.
    fn take(
        &mut self,
        alloc: Global,
        system: &S,
        timeline: &mut S::Timeline,
        stamp: Stamp,
    ) -> Result<KeptGame<S::File>, OpenGameError>
        ensures made { AddsSome (S.outside system.now) timeline.old timeline.new (TakesGame (facts system.now) (S.outside system.now) self.old self.new stamp result) };

    /// Keeps what a game has to put, if anything: it is put in its file at once, or noted. Nothing is to be put afterwards. After an error
    /// what is kept is what a start finds, which may be the record of before or the new one.
    fn keep(
        &mut self,
        system: &S,
        timeline: &mut S::Timeline,
        game: &mut KeptGame<S::File>,
    ) -> Result<(), OpenGameError>
        requires { IsKeptIn (S.outside system.now) ((facts system.now).places ((facts system.now).place self.old) game.old.stamp) game.old.file }
        ensures made { KeepsIn (facts system.now) (S.outside system.now) self.old self.new game.old game.new timeline.old timeline.new result };

    /// Commits what was noted. No answer to a datagram goes out before. After an error it stays noted; where that isn't for want of memory
    /// alone, no more can be committed.
    fn commit(&mut self, system: &S, timeline: &mut S::Timeline) -> Result<(), Uncommitted>
        ensures made { AddsSome (S.outside system.now) timeline.old timeline.new (CommitsGames (facts system.now) self.old self.new result) };
}
