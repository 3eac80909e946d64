//! The words of `audit`: whether kept files are records of a game as an arbiter of it keeps them, and whether two of them agree.

ghost use Rattle.std.specs.Prelude.{◌≡◌, IfErr, IfOk};
ghost use Rattle.clap.specs.Words.{first_value, found_of};
ghost use Rattle.command_line.specs.Commands.Audit.{HasValues, faults, named};
ghost use Rattle.command_line.specs.Misuses.{IsFirstMisuse, fault_words};
ghost use Rattle.task_files.specs.Sources.{named_by};

use crate::commands::options::{DELAY, GAMES, MANIFEST, NAME, OTHER_GAMES, START, TABLES};
use crate::commands::{Form, Group, Stands, Summary, Value};
use crate::words::usage::ValueFault;
use crate::words::values::{delay_in, game_words_in, word_in};
use board_core::Delay;
use clap::ArgMatches;
use move_msg::GameName;
use task_files::InputPaths;

/// Whether kept files are records of a game as an arbiter of it keeps them.
#[derive(Drop)]
pub struct Audit<'a> {
    /// The name of the game.
    pub name: GameName<'a>,
    /// The FEN text of its start.
    pub start: &'a str,
    /// The folder of the tables.
    pub tables: &'a str,
    /// The file of the manifest that the tables are held to, if one is named.
    pub manifest: Option<&'a str>,
    /// For how many further plies a verdict by tables must hold.
    pub delay: Delay,
    /// The kept file.
    pub file: &'a str,
    /// A second one, if it is named.
    pub other: Option<&'a str>,
}

/// The values of `audit`.
pub(crate) const VALUES: [Value; 9] = [
    Value {
        stands: Stands::NeededInFirst,
        ..NAME
    },
    Value {
        stands: Stands::NeededInFirst,
        ..START
    },
    TABLES,
    MANIFEST,
    Value {
        stands: Stands::OptionalInFirst,
        ..DELAY
    },
    Value {
        stands: Stands::NeededInSecond,
        ..GAMES
    },
    Value {
        stands: Stands::OptionalInSecond,
        ..OTHER_GAMES
    },
    Value {
        name: "FILE",
        form: Form::Word,
        word: "FILE",
        about: "a kept record",
        stands: Stands::NeededInFirst,
    },
    Value {
        name: "OTHER",
        form: Form::Word,
        word: "FILE",
        about: "the record of the other arbiter, with which it is compared",
        stands: Stands::OptionalInFirst,
    },
];

/// What help says of `audit`.
pub(crate) const SUMMARY: Summary = Summary {
    group: Group::Games,
    about: "whether kept records are those of a game, and agree",
    example: "adjudicate audit --games east --other west --tables DIR",
    output: "",
};

impl<'a> Audit<'a> {
    /// The task with these values, or the first thing that is wrong with them.
    pub(crate) fn of(matches: &ArgMatches<'a>) -> Result<Audit<'a>, ValueFault<'a>>
        ensures ok { IfOk result (HasValues (first_value (found_of matches.now))) }
        ensures err { IfErr result (λ fault. IsFirstMisuse (first_value (found_of matches.now)) faults (fault_words fault)) }
    {
        let game = game_words_in(matches)?;
        Ok(Audit {
            name: game.name,
            start: game.start,
            tables: game.tables,
            manifest: matches.get_str("manifest"),
            delay: delay_in(matches)?,
            file: word_in(matches, "FILE")?,
            other: matches.get_str("OTHER"),
        })
    }

    /// What is read for it.
    pub fn places(&self) -> InputPaths<'a>
        ensures { named_by result ≡ named self.now }
    {
        InputPaths {
            folder: Some(self.tables),
            manifest: self.manifest,
            reads_input: false,
            kept: Some(self.file),
            other_kept: self.other,
        }
    }
}
