//! The words of `audit --games`: the audit of the games of a folder, or of two.

ghost use Rattle.std.specs.Prelude.{◌≡◌, IfErr, IfOk, OnOk};
ghost use Rattle.clap.specs.Words.{first_value, found_of};
ghost use Rattle.command_line.specs.Commands.AuditGames.{HasValues, LacksGameWords, faults, named, without_faults};
ghost use Rattle.command_line.specs.Misuses.{AreWell, IsFirstMisuse, fault_words};
ghost use Rattle.task_files.specs.Sources.{named_by};

use crate::words::usage::{Instead, ValueFault};
use crate::words::values::{option_in, without, without_word};
use clap::ArgMatches;
use task_files::InputPaths;

/// The audit of the games of a folder.
#[derive(Clone, Copy)]
pub struct AuditGames<'a> {
    /// The folder.
    pub games: &'a str,
    /// A second one, if it is named.
    pub other: Option<&'a str>,
    /// The folder of the tables.
    pub tables: &'a str,
    /// The file of the manifest that the tables are held to, if one is named.
    pub manifest: Option<&'a str>,
}

/// That the words tell no game and name no kept file.
fn no_game_in<'a>(matches: &ArgMatches<'a>) -> Result<(), ValueFault<'a>>
    ensures ok { OnOk result (LacksGameWords (first_value (found_of matches.now))) }
    ensures well { OnOk result (AreWell (first_value (found_of matches.now)) without_faults) }
    ensures err { IfErr result (λ fault. IsFirstMisuse (first_value (found_of matches.now)) without_faults (fault_words fault)) }
{
    without(matches, "name", Instead::Games)?;
    without(matches, "start", Instead::Games)?;
    without(matches, "delay", Instead::Games)?;
    without_word(matches, "FILE", Instead::Games)
}

impl<'a> AuditGames<'a> {
    /// The task with these values, or the first thing that is wrong with them.
    pub(crate) fn of(matches: &ArgMatches<'a>) -> Result<AuditGames<'a>, ValueFault<'a>>
        ensures ok { IfOk result (HasValues (first_value (found_of matches.now))) }
        ensures err { IfErr result (λ fault. IsFirstMisuse (first_value (found_of matches.now)) faults (fault_words fault)) }
    {
        let games = option_in(matches, "games")?;
        no_game_in(matches)?;
        Ok(AuditGames {
            games,
            other: matches.get_str("other"),
            tables: option_in(matches, "tables")?,
            manifest: matches.get_str("manifest"),
        })
    }

    /// What is read for it before it answers: not its folders of games, which it reads itself.
    pub fn places(&self) -> InputPaths<'a>
        ensures { named_by result ≡ named self.now }
    {
        InputPaths {
            folder: Some(self.tables),
            manifest: self.manifest,
            reads_input: false,
            kept: None,
            other_kept: None,
        }
    }
}
