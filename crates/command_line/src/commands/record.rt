//! The words of `record`: the contents of a kept record.

ghost use Rattle.std.specs.Prelude.{◌≡◌, IfErr, IfOk};
ghost use Rattle.clap.specs.Words.{first_value, found_of};
ghost use Rattle.command_line.specs.Commands.Record.{HasValues, faults, named};
ghost use Rattle.command_line.specs.Misuses.{IsFirstMisuse, fault_words};
ghost use Rattle.task_files.specs.Sources.{named_by};

use crate::commands::options::GAMES;
use crate::commands::{Form, Group, Stands, Summary, Value};
use crate::words::usage::ValueFault;
use crate::words::values::word_in;
use clap::ArgMatches;
use task_files::InputPaths;

/// The contents of a kept record.
#[derive(Clone, Copy)]
pub struct ShowRecord<'a> {
    /// The kept file.
    pub file: &'a str,
}

/// The file of a kept record.
const KEPT_FILE: Value = Value {
    name: "FILE",
    form: Form::Word,
    word: "FILE",
    about: "the file of a kept record",
    stands: Stands::NeededInFirst,
};

/// The folder of a game.
const FOLDER_OF_GAMES: Value = Value {
    stands: Stands::NeededInSecond,
    ..GAMES
};

/// The values of `record`.
pub(crate) const VALUES: [Value; 2] = [KEPT_FILE, FOLDER_OF_GAMES];

/// The values of `record` as help shows them: with `--games` the word is a stamp.
pub(crate) const SHOWN: [Value; 3] = [
    KEPT_FILE,
    FOLDER_OF_GAMES,
    Value {
        name: "FILE",
        form: Form::Word,
        word: "STAMP",
        about: "the stamp of the game, 32 lower-case hexadecimal digits",
        stands: Stands::NeededInSecond,
    },
];

/// What help says of `record`.
pub(crate) const SUMMARY: Summary = Summary {
    group: Group::Games,
    about: "what a kept record says; or the record of a game in a folder",
    example: "adjudicate record --games DIR 72b21246fca973341bd3df781b702e9f",
    output: "",
};

impl<'a> ShowRecord<'a> {
    /// The task with these values, or the first thing that is wrong with them.
    pub(crate) fn of(matches: &ArgMatches<'a>) -> Result<ShowRecord<'a>, ValueFault<'a>>
        ensures ok { IfOk result (HasValues (first_value (found_of matches.now))) }
        ensures err { IfErr result (λ fault. IsFirstMisuse (first_value (found_of matches.now)) faults (fault_words fault)) }
    {
        Ok(ShowRecord {
            file: word_in(matches, "FILE")?,
        })
    }

    /// What is read for it.
    pub fn places(&self) -> InputPaths<'a>
        ensures { named_by result ≡ named self.now }
    {
        InputPaths {
            folder: None,
            manifest: None,
            reads_input: false,
            kept: Some(self.file),
            other_kept: None,
        }
    }
}
