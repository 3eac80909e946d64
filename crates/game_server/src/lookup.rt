//! A game that is looked for by its stamp.

ghost use Rattle.std.specs.Prelude.{◌≡◌};
ghost use Rattle.arbiter_server.specs.Acts.{opens_game};
ghost use Rattle.timeline.specs.Outsides.{AddsSome};
ghost use Rattle.game_server.specs.Inside.Seating.{LooksUp};

use arbiter_server::{GameConfig, OpenGameError};
use game_folder::Games;
use move_msg::{GameName, Message, Stamp};
use std::alloc::Global;
use timeline::System;

/// Whether a game that isn't open is opened for a message: an acknowledgement and a verdict change no record, and nothing is answered
/// to them.
pub(crate) fn opens_game(message: &Message) -> bool
    ensures { result ≡ opens_game message.now }
{
    match message {
        Message::Move { .. } | Message::Fetch { .. } => true,
        Message::Ack { .. } | Message::Verdict { .. } => false,
    }
}

/// The game that has this stamp, by tables of this manifest.
pub(crate) fn found<S: System, G: Games<S>>(
    alloc: Global,
    system: &S,
    timeline: &mut S::Timeline,
    games: &G,
    manifest: &[u8],
    stamp: Stamp,
) -> Result<GameConfig, OpenGameError>
    ensures made { AddsSome (S.outside system.now) timeline.old timeline.new (LooksUp (G.facts system.now) games.now manifest.now stamp result) }
{
    let game = match games.find(alloc, system, timeline, stamp) {
        Ok(game) => game,
        Err(why) => return Err(why),
    };
    let Some(name) = GameName::of(game.name.as_slice()) else {
        return Err(OpenGameError::OtherGame);
    };
    if name.stamp(&game.start, manifest, game.delay) != stamp {
        return Err(OpenGameError::OtherGame);
    }
    Ok(game)
}
