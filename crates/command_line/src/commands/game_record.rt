//! The words of `record --games`: the record of a game in a folder, as it is kept.

ghost use Rattle.std.specs.Prelude.{◌≡◌, IfErr, IfOk, Some, codes};
ghost use Rattle.clap.specs.Words.{Text, first_value, found_of};
ghost use Rattle.command_line.specs.Commands.GameRecord.{faults};
ghost use Rattle.command_line.specs.GamePaths.{SpellsStamp};
ghost use Rattle.command_line.specs.Misuses.{IsFirstMisuse, fault_words};

use crate::words::usage::ValueFault;
use crate::words::values::stamp_word;
use clap::ArgMatches;
use move_msg::Stamp;

/// The record of a game in a folder.
#[derive(Clone, Copy)]
pub struct GameRecord<'a> {
    /// The folder.
    pub games: &'a str,
    /// The stamp of the game. The record is that of the file `STAMP.kept`, of whatever game it is.
    pub stamp: Stamp,
}

impl<'a> GameRecord<'a> {
    /// The task with these values for a folder, or the first thing that is wrong with them.
    pub(crate) fn of(
        games: &'a str,
        matches: &ArgMatches<'a>,
    ) -> Result<GameRecord<'a>, ValueFault<'a>>
        ensures games { IfOk result (λ task. task.games.now ≡ games.now) }
        ensures stamp { IfOk result (λ task. (text : Text) × (Some text ≡ first_value (found_of matches.now) (codes "FILE")) × SpellsStamp text task.stamp) }
        ensures err { IfErr result (λ fault. IsFirstMisuse (first_value (found_of matches.now)) faults (fault_words fault)) }
    {
        Ok(GameRecord {
            games,
            stamp: stamp_word(matches)?,
        })
    }
}
