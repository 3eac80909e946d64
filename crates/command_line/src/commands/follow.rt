//! The words of `follow`: the game of the moves of the input, ply by ply as they come.

ghost use Rattle.std.specs.Prelude.{◌≡◌, IfErr, IfOk};
ghost use Rattle.clap.specs.Words.{first_value, found_of};
ghost use Rattle.command_line.specs.Commands.Follow.{HasValues, faults, named};
ghost use Rattle.command_line.specs.Misuses.{IsFirstMisuse, fault_words};
ghost use Rattle.task_files.specs.Sources.{named_by};

use crate::commands::options::{ALL_TABLES, DELAY, MANIFEST, SAN, START_WORD, TABLES_IF_ANY};
use crate::commands::{Group, Summary, Value};
use crate::words::lazy_folders::read_at_once;
use crate::words::numbers::is_set;
use crate::words::usage::ValueFault;
use crate::words::values::{delay_in, word_in};
use board_core::Delay;
use clap::ArgMatches;
use task_files::InputPaths;

/// The game of the input, ply by ply.
#[derive(Clone, Copy)]
pub struct Follow<'a> {
    /// The folder of the tables, if one is named.
    pub tables: Option<&'a str>,
    /// The file of the manifest that the tables are held to, if one is named.
    pub manifest: Option<&'a str>,
    /// Whether all tables are read before the first ply.
    pub all_tables: bool,
    /// For how many further plies a verdict by tables must hold.
    pub delay: Delay,
    /// Whether the moves are written in standard algebraic notation.
    pub san: bool,
    /// The FEN text of the position before the first move.
    pub fen: &'a str,
}

/// The values of `follow`.
pub(crate) const VALUES: [Value; 6] = [TABLES_IF_ANY, MANIFEST, ALL_TABLES, DELAY, SAN, START_WORD];

/// What help says of `follow`.
pub(crate) const SUMMARY: Summary = Summary {
    group: Group::Games,
    about: "each ply of the game on standard input, as its moves come",
    example: "echo b1b8 | adjudicate follow \"7k/8/6K1/8/8/8/8/1Q6 w - - 0 1\"",
    output: "",
};

impl<'a> Follow<'a> {
    /// The task with these values, or the first thing that is wrong with them.
    pub(crate) fn of(matches: &ArgMatches<'a>) -> Result<Follow<'a>, ValueFault<'a>>
        ensures ok { IfOk result (HasValues (first_value (found_of matches.now))) }
        ensures err { IfErr result (λ fault. IsFirstMisuse (first_value (found_of matches.now)) faults (fault_words fault)) }
    {
        Ok(Follow {
            tables: matches.get_str("tables"),
            manifest: matches.get_str("manifest"),
            all_tables: is_set(matches.get_str("all-tables")),
            delay: delay_in(matches)?,
            san: is_set(matches.get_str("san")),
            fen: word_in(matches, "FEN")?,
        })
    }

    /// What is read for it before it answers: not the input, whose lines are read as they come.
    pub fn places(&self) -> InputPaths<'a>
        ensures { named_by result ≡ named self.now }
    {
        InputPaths {
            folder: read_at_once(!self.all_tables, self.tables),
            manifest: self.manifest,
            reads_input: false,
            kept: None,
            other_kept: None,
        }
    }
}
