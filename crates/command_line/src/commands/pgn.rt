//! The words of `pgn`: what tables say of the games of a PGN file, a line each.

ghost use Rattle.std.specs.Prelude.{◌≡◌, IfErr, IfOk};
ghost use Rattle.clap.specs.Words.{first_value, found_of};
ghost use Rattle.task_files.specs.Sources.{named_by};
ghost use Rattle.command_line.specs.Commands.Pgn.{HasValues, faults, named};
ghost use Rattle.command_line.specs.Misuses.{IsFirstMisuse, fault_words};

use crate::commands::options::{ALL_TABLES, DELAY, JSON, MANIFEST, MEMORY, TABLES};
use crate::commands::{Form, Group, Stands, Summary, Value};
use crate::words::lazy_folders::read_at_once;
use crate::words::numbers::{Megabytes, is_set};
use crate::words::usage::ValueFault;
use crate::words::values::{delay_in, memory_in, option_in};
use board_core::Delay;
use clap::ArgMatches;
use task_files::InputPaths;

/// What tables say of the games of a PGN file.
#[derive(Clone, Copy)]
pub struct JudgePgn<'a> {
    /// The folder of the tables.
    pub tables: &'a str,
    /// The file of the manifest that the tables are held to, if one is named.
    pub manifest: Option<&'a str>,
    /// Whether all tables are read before the first game.
    pub all_tables: bool,
    /// How many megabytes of tables are kept at most, where each is read when it is asked for.
    pub memory: Option<Megabytes>,
    /// For how many further plies a verdict by tables must hold.
    pub delay: Delay,
    /// Whether the answers are written as JSON.
    pub json: bool,
    /// Whether only games are told whose result is another one than the verdict's.
    pub differ: bool,
    /// The file, if one is named; else the input is read.
    pub file: Option<&'a str>,
}

/// The values of `pgn`.
pub(crate) const VALUES: [Value; 8] = [
    TABLES,
    MANIFEST,
    ALL_TABLES,
    MEMORY,
    DELAY,
    JSON,
    Value {
        name: "differ",
        form: Form::Flag,
        word: "",
        about: "prints only the games whose result is another than the verdict",
        stands: Stands::Optional,
    },
    Value {
        name: "FILE",
        form: Form::Word,
        word: "FILE",
        about: "the file of games; standard input unless given",
        stands: Stands::Optional,
    },
];

/// What help says of `pgn`.
pub(crate) const SUMMARY: Summary = Summary {
    group: Group::Games,
    about: "the first verdict of each game of a PGN file, beside its result",
    example: "adjudicate pgn --tables DIR games.pgn",
    output: "a game: its number, its plies, ply and word of its first verdict or - open, its result, and
    agree, differ, or - where there is nothing to compare",
};

impl<'a> JudgePgn<'a> {
    /// The task with these values, or the first thing that is wrong with them.
    pub(crate) fn of(matches: &ArgMatches<'a>) -> Result<JudgePgn<'a>, ValueFault<'a>>
        ensures ok { IfOk result (HasValues (first_value (found_of matches.now))) }
        ensures err { IfErr result (λ fault. IsFirstMisuse (first_value (found_of matches.now)) faults (fault_words fault)) }
    {
        Ok(JudgePgn {
            tables: option_in(matches, "tables")?,
            manifest: matches.get_str("manifest"),
            all_tables: is_set(matches.get_str("all-tables")),
            memory: memory_in(matches)?,
            delay: delay_in(matches)?,
            json: is_set(matches.get_str("json")),
            differ: is_set(matches.get_str("differ")),
            file: matches.get_str("FILE"),
        })
    }

    /// What is read for it.
    pub fn places(&self) -> InputPaths<'a>
        ensures { named_by result ≡ named self.now }
    {
        InputPaths {
            folder: read_at_once(!self.all_tables, Some(self.tables)),
            manifest: self.manifest,
            reads_input: false,
            kept: None,
            other_kept: None,
        }
    }
}
