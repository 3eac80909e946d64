//! The words of `run`: two arbiters under the schedule of the input.

ghost use Rattle.std.specs.Prelude.{IfOk, IfErr};
ghost use Rattle.clap.specs.Words.{first_value, found_of};
ghost use Rattle.command_line.specs.Commands.Run.{HasValues, faults};
ghost use Rattle.command_line.specs.Misuses.{IsFirstMisuse, fault_words};

use crate::commands::options::{CACHE, DELAY, TABLES_IF_ANY};
use crate::commands::{Group, Summary, Value};
use crate::words::numbers::CacheSize;
use crate::words::usage::ValueFault;
use crate::words::values::{cache_in, delay_in};
use board_core::Delay;
use clap::ArgMatches;

/// Two arbiters under the schedule of the input.
#[derive(Clone, Copy)]
pub struct RunSchedule<'a> {
    /// The folder of the tables, if one is named.
    pub tables: Option<&'a str>,
    /// How many decoded blocks the cache of each arbiter may have.
    pub cache: CacheSize,
    /// For how many further plies a verdict by tables must hold.
    pub delay: Delay,
}

/// The values of `run`.
pub(crate) const VALUES: [Value; 3] = [TABLES_IF_ANY, CACHE, DELAY];

/// What help says of `run`.
pub(crate) const SUMMARY: Summary = Summary {
    group: Group::Arbiters,
    about: "two arbiters under the schedule on standard input",
    example: "adjudicate run --tables DIR < schedule",
    output: "",
};

impl<'a> RunSchedule<'a> {
    /// The task with these values, or the first thing that is wrong with them.
    pub(crate) fn of(matches: &ArgMatches<'a>) -> Result<RunSchedule<'a>, ValueFault<'a>>
        ensures ok { IfOk result (HasValues (first_value (found_of matches.now))) }
        ensures err { IfErr result (λ fault. IsFirstMisuse (first_value (found_of matches.now)) faults (fault_words fault)) }
    {
        Ok(RunSchedule {
            tables: matches.get_str("tables"),
            cache: cache_in(matches)?,
            delay: delay_in(matches)?,
        })
    }
}
