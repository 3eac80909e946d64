//! The words of `status`: how far the games of a folder have come, or those of two, as lines, as metrics or as JSON.

ghost use Rattle.std.specs.Prelude.{◌≡◌, IfErr, IfOk, OnOk, codes};
ghost use Rattle.clap.specs.Words.{first_value, found_of};
ghost use Rattle.command_line.specs.Commands.Status.{HasValues, faults, report_by, report_told};
ghost use Rattle.command_line.specs.declared.words.usage.Instead.TheVariants.{Prometheus};
ghost use Rattle.command_line.specs.Misuses.{IsFirstMisuse, IsToldMisuse, Holds, FlagNotWith, fault_words};
ghost use Rattle.command_line.specs.Numbers.{is_set};

use crate::commands::options::{GAMES, OTHER_GAMES};
use crate::commands::{Form, Group, Stands, Summary, Value};
use crate::words::numbers::is_set;
use crate::words::usage::{Instead, ValueFault};
use crate::words::values::{option_in, without_flag};
use clap::ArgMatches;
use game_status::ReportForm;

/// How far the games of a folder have come.
#[derive(Clone, Copy)]
pub struct ShowStatus<'a> {
    /// The folder.
    pub games: &'a str,
    /// A second one, if it is named.
    pub other: Option<&'a str>,
    /// As which report for programs it is shown, if not in lines.
    pub report: Option<ReportForm>,
}

/// The values of `status`.
pub(crate) const VALUES: [Value; 4] = [
    GAMES,
    OTHER_GAMES,
    Value {
        name: "prometheus",
        form: Form::Flag,
        word: "",
        about: "writes how many games there are of each kind, as metrics",
        stands: Stands::Optional,
    },
    Value {
        name: "json",
        form: Form::Flag,
        word: "",
        about: "writes one JSON object with all games, on a line; not with --prometheus",
        stands: Stands::Optional,
    },
];

/// What help says of `status`.
pub(crate) const SUMMARY: Summary = Summary {
    group: Group::Games,
    about: "how far the games of a folder have come, and whether two folders agree",
    example: "adjudicate status --games east --other west",
    output: "a game: its stamp, how many moves it has, its verdict or none, its name; - none without a record
  with --other agree: both have the same; behind N: one has N moves fewer, and no verdict;
    differ PLY: they differ first at this ply; unopened: one has no record, and the other no move",
};

/// As which report it is shown, by whether metrics and JSON are asked for.
fn report_of(metrics: bool, json: bool) -> Option<ReportForm>
    ensures { result ≡ report_by metrics json }
{
    if metrics {
        return Some(ReportForm::Metrics);
    }
    if json {
        return Some(ReportForm::Json);
    }
    None
}

/// As which report it is shown, by the words; not as both.
fn report_in<'a>(matches: &ArgMatches<'a>) -> Result<Option<ReportForm>, ValueFault<'a>>
    ensures ok { IfOk result (λ report. report ≡ report_told (first_value (found_of matches.now))) }
    ensures well { OnOk result (Holds (first_value (found_of matches.now)) (FlagNotWith Prometheus (codes "json")) → ⊥) }
    ensures err { IfErr result (λ fault. IsToldMisuse (first_value (found_of matches.now)) (FlagNotWith Prometheus (codes "json")) (fault_words fault)) }
{
    without_flag(matches, "json", Instead::Prometheus)?;
    let metrics = is_set(matches.get_str("prometheus"));
    let json = is_set(matches.get_str("json"));
    Ok(report_of(metrics, json))
}

impl<'a> ShowStatus<'a> {
    /// The task with these values, or the first thing that is wrong with them.
    pub(crate) fn of(matches: &ArgMatches<'a>) -> Result<ShowStatus<'a>, ValueFault<'a>>
        ensures ok { IfOk result (HasValues (first_value (found_of matches.now))) }
        ensures err { IfErr result (λ fault. IsFirstMisuse (first_value (found_of matches.now)) faults (fault_words fault)) }
    {
        Ok(ShowStatus {
            games: option_in(matches, "games")?,
            other: matches.get_str("other"),
            report: report_in(matches)?,
        })
    }
}
