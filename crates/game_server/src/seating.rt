//! A game that is opened for a message, and answers it.

ghost use Rattle.std.specs.Prelude.{◌≡◌, [], None};
ghost use Rattle.arbiter_server.specs.Games.{IsGameOf};
ghost use Rattle.arbiter_server.specs.Told.{unopened_by};
ghost use Rattle.move_msg.specs.Messages.{stamp_in};
ghost use Rattle.game_folder.specs.Holdings.{IsKeptIn};
ghost use Rattle.game_server.specs.Seats.{IsSeat};
ghost use Rattle.game_server.specs.Inside.Seating.{DeliversIn, OpensForIn, OpensOverIn, OpensTakenIn};

use crate::lookup::{found, opens_game};
use crate::seat::{Answer, Reply, Seat};
use crate::server::Shared;
use arbiter_core::{ArbiterState, OpenFault, Terms};
use arbiter_server::{DatagramReport, GameConfig, Line, OpenGameError};
use game_folder::{Games, KeptGame};
use move_msg::{Message, Stamp};
use smallvec::SmallVec;
use std::alloc::Global;
use timeline::System;

/// What is told of a game whose arbiter can't be opened.
fn unopened(fault: OpenFault) -> OpenGameError
    ensures { result ≡ unopened_by fault }
{
    match fault {
        OpenFault::OtherStamp => OpenGameError::OtherGame,
        OpenFault::OutOfMemory => OpenGameError::OutOfMemory,
        OpenFault::BadSetup | OpenFault::KeeperFailed | OpenFault::BadRecord => {
            OpenGameError::Keeper
        }
    }
}

/// Opens a game over its record, and keeps the first one where there was none.
fn open_over<'a, S: System, G: Games<S> + Drop>(
    shared: &mut Shared<'a, G>,
    system: &S,
    timeline: &mut S::Timeline,
    kept: KeptGame<S::File>,
    game: GameConfig,
) -> Result<Seat<'a, S::File>, OpenGameError>
    requires game { IsGameOf shared.old.config.manifest.now kept.stamp game.name.items game.start game.delay }
    requires within { IsKeptIn (S.outside system.now) ((G.facts system.now).places ((G.facts system.now).place shared.old.games) kept.stamp) kept.file }
    requires clean { kept.draft.to_put ≡ None }
    ensures made { OpensOverIn (S.outside system.now) (G.facts system.now) shared.old shared.new kept game timeline.old timeline.new result }
{
    let GameConfig { name, start, delay } = game;
    let terms = Terms {
        name,
        start,
        manifest: shared.config.manifest,
        me: shared.config.me,
        delay,
    };
    let mut kept = kept;
    match ArbiterState::open_known(
        shared.alloc,
        &mut shared.tables,
        &mut kept.draft,
        terms,
        kept.stamp,
    ) {
        Ok(state) => match shared.games.keep(system, timeline, &mut kept) {
            Ok(()) => Ok(Seat { state, kept }),
            Err(_) => Err(OpenGameError::Keeper),
        },
        Err(refused) => Err(unopened(refused.fault)),
    }
}

/// Takes the record of a game that was found, and opens it.
fn open_found<'a, S: System, G: Games<S> + Drop>(
    shared: &mut Shared<'a, G>,
    system: &S,
    timeline: &mut S::Timeline,
    stamp: Stamp,
    game: GameConfig,
) -> Result<Seat<'a, S::File>, OpenGameError>
    requires { IsGameOf shared.old.config.manifest.now stamp game.name.items game.start game.delay }
    ensures made { OpensTakenIn (S.outside system.now) (G.facts system.now) shared.old shared.new stamp game timeline.old timeline.new result }
{
    match shared.games.take(shared.alloc, system, timeline, stamp) {
        Ok(kept) => open_over(shared, system, timeline, kept, game),
        Err(why) => Err(why),
    }
}

/// Opens the game that a message is of, where it is one that opens games.
pub(crate) fn open_for<'a, S: System, G: Games<S> + Drop>(
    shared: &mut Shared<'a, G>,
    system: &S,
    timeline: &mut S::Timeline,
    message: &Message,
) -> Result<Seat<'a, S::File>, OpenGameError>
    ensures made { OpensForIn (S.outside system.now) (G.facts system.now) shared.old shared.new message.now timeline.old timeline.new result }
{
    if !opens_game(message) {
        return Err(OpenGameError::NotOpen);
    }
    let stamp = message.stamp();
    match found(
        shared.alloc,
        system,
        timeline,
        &shared.games,
        shared.config.manifest,
        stamp,
    ) {
        Ok(game) => open_found(shared, system, timeline, stamp, game),
        Err(why) => Err(why),
    }
}

/// What is answered where nothing is sent: the line alone.
pub(crate) fn line_alone(alloc: Global, line: Line) -> Reply
    ensures outputs { result.outputs.items ≡ [] }
    ensures line { result.line ≡ line }
{
    Reply {
        outputs: SmallVec::new(alloc),
        line,
    }
}

/// Lets the arbiter of a game that is open answer a message, and keeps what it has to put. Where its record can't be kept, its answer isn't
/// sent, and the game is to be closed.
pub(crate) fn deliver<'a, S: System, G: Games<S> + Drop>(
    shared: &mut Shared<'a, G>,
    system: &S,
    timeline: &mut S::Timeline,
    seat: &mut Seat<'a, S::File>,
    message: &Message,
) -> Answer
    requires { IsSeat (S.outside system.now) (G.facts system.now) shared.old.games shared.old.tables (stamp_in message.now) seat.old }
    ensures made { DeliversIn (S.outside system.now) (G.facts system.now) shared.old shared.new seat.old seat.new message.now timeline.old timeline.new result }
{
    let stamp = message.stamp();
    match seat.state.deliver(
        shared.alloc,
        &mut shared.tables,
        &mut seat.kept.draft,
        message,
    ) {
        Ok(outputs) => match shared.games.keep(system, timeline, &mut seat.kept) {
            Ok(()) => {
                let heard = DatagramReport::Recorded(seat.state.count(), seat.state.verdict());
                let line = Line::Answered(stamp, heard);
                Answer::Stays(Reply { outputs, line })
            }
            Err(_) => {
                let line = Line::Answered(stamp, DatagramReport::KeeperLost);
                Answer::Closes(line_alone(shared.alloc, line))
            }
        },
        Err(fault) => {
            let line = Line::Answered(stamp, DatagramReport::refused(fault));
            Answer::Stays(line_alone(shared.alloc, line))
        }
    }
}
