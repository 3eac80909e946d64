//! The words of `list`: the manifest of the tables in a folder.

ghost use Rattle.std.specs.Prelude.{IfErr, IfOk};
ghost use Rattle.clap.specs.Words.{first_value, found_of};
ghost use Rattle.command_line.specs.Commands.List.{HasValues, faults};
ghost use Rattle.command_line.specs.Misuses.{IsFirstMisuse, fault_words};

use crate::commands::options::{FOLDER, PROGRESS};
use crate::commands::{Group, Summary, Value};
use crate::words::numbers::is_set;
use crate::words::usage::ValueFault;
use crate::words::values::word_in;
use clap::ArgMatches;

/// The manifest of the tables in a folder.
#[derive(Clone, Copy)]
pub struct List<'a> {
    /// The folder.
    pub folder: &'a str,
    /// Whether the progress is written.
    pub progress: bool,
}

/// The values of `list`.
pub(crate) const VALUES: [Value; 2] = [PROGRESS, FOLDER];

/// What help says of `list`.
pub(crate) const SUMMARY: Summary = Summary {
    group: Group::Tables,
    about: "the manifest of the tables in a folder",
    example: "adjudicate list DIR > tables.txt",
    output: "",
};

impl<'a> List<'a> {
    /// The task with these values, or the first thing that is wrong with them.
    pub(crate) fn of(matches: &ArgMatches<'a>) -> Result<List<'a>, ValueFault<'a>>
        ensures ok { IfOk result (HasValues (first_value (found_of matches.now))) }
        ensures err { IfErr result (λ fault. IsFirstMisuse (first_value (found_of matches.now)) faults (fault_words fault)) }
    {
        Ok(List {
            progress: is_set(matches.get_str("progress")),
            folder: word_in(matches, "DIR")?,
        })
    }
}
