//! The words of `check`: whether the tables in a folder are those of a manifest.

ghost use Rattle.std.specs.Prelude.{IfErr, IfOk};
ghost use Rattle.clap.specs.Words.{first_value, found_of};
ghost use Rattle.command_line.specs.Commands.Check.{HasValues, faults};
ghost use Rattle.command_line.specs.Misuses.{IsFirstMisuse, fault_words};

use crate::commands::options::{FOLDER, MANIFEST, PROGRESS};
use crate::commands::{Group, Stands, Summary, Value};
use crate::words::numbers::is_set;
use crate::words::usage::ValueFault;
use crate::words::values::{option_in, word_in};
use clap::ArgMatches;

/// Whether the tables in a folder are those of a manifest.
#[derive(Clone, Copy)]
pub struct Check<'a> {
    /// The file of the manifest.
    pub manifest: &'a str,
    /// The folder.
    pub folder: &'a str,
    /// Whether the progress is written.
    pub progress: bool,
}

/// The values of `check`.
pub(crate) const VALUES: [Value; 3] = [
    Value {
        about: "the manifest",
        stands: Stands::Needed,
        ..MANIFEST
    },
    PROGRESS,
    FOLDER,
];

/// What help says of `check`.
pub(crate) const SUMMARY: Summary = Summary {
    group: Group::Tables,
    about: "whether the tables in a folder are those of a manifest",
    example: "adjudicate check --manifest tables.txt DIR",
    output: "",
};

impl<'a> Check<'a> {
    /// The task with these values, or the first thing that is wrong with them.
    pub(crate) fn of(matches: &ArgMatches<'a>) -> Result<Check<'a>, ValueFault<'a>>
        ensures ok { IfOk result (HasValues (first_value (found_of matches.now))) }
        ensures err { IfErr result (λ fault. IsFirstMisuse (first_value (found_of matches.now)) faults (fault_words fault)) }
    {
        Ok(Check {
            manifest: option_in(matches, "manifest")?,
            progress: is_set(matches.get_str("progress")),
            folder: word_in(matches, "DIR")?,
        })
    }
}
