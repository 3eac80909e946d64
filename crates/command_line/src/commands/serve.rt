//! The words of `serve`: requests of HTTP that are answered by the tables of a folder, and by folders of games.

ghost use Rattle.std.specs.Prelude.{◌≡◌, IfErr, IfOk, OnOk, codes, option_map};
ghost use Rattle.clap.specs.Words.{first_value, found_of};
ghost use Rattle.command_line.specs.Commands.Serve.{HasValues, faults};
ghost use Rattle.command_line.specs.Misuses.{Holds, IsFirstMisuse, IsToldMisuse, WithoutGames, fault_words};

use crate::commands::options::{BIND, GAMES_SHOWN, MANIFEST, MEMORY, OTHER_GAMES, TABLES};
use crate::commands::{Form, Group, Stands, Summary, Value};
use crate::words::numbers::{Megabytes, is_set};
use crate::words::usage::ValueFault;
use crate::words::values::{check_bind, memory_in, option_in, requests_in};
use clap::ArgMatches;

/// Requests that are answered by the tables of a folder, and by folders of games.
#[derive(Clone, Copy)]
pub struct Serve<'a> {
    /// The folder of the tables.
    pub tables: &'a str,
    /// The manifest that its files are held to, if one is named.
    pub manifest: Option<&'a str>,
    /// The address at which requests come: a host, a colon and a port.
    pub bind: &'a str,
    /// How many megabytes of tables are kept, if there is a bound.
    pub memory: Option<Megabytes>,
    /// After how many answers it ends, 2^64 - 1 unless set.
    pub requests: u64,
    /// The folder of games that pages show, if one is named.
    pub games: Option<&'a str>,
    /// A second one, with which the first is compared, if it is named.
    pub other: Option<&'a str>,
    /// Whether a line is written for each request.
    pub log: bool,
}

/// After how many requests it ends.
const REQUESTS: Value = Value {
    name: "requests",
    form: Form::Option,
    word: "N",
    about: "ends after so many requests, 0 to 4294967295; never unless set",
    stands: Stands::Optional,
};

/// Whether requests are logged.
const LOG: Value = Value {
    name: "log",
    form: Form::Flag,
    word: "",
    about: "writes a line for each request on standard error",
    stands: Stands::Optional,
};

/// The values of `serve`.
pub(crate) const VALUES: [Value; 8] = [
    TABLES,
    MANIFEST,
    BIND,
    MEMORY,
    REQUESTS,
    GAMES_SHOWN,
    OTHER_GAMES,
    LOG,
];

/// What help says of `serve`.
pub(crate) const SUMMARY: Summary = Summary {
    group: Group::Positions,
    about: "pages with a board and of games, and the tablebase API of Lichess, over HTTP",
    example: "adjudicate serve --tables DIR --bind 127.0.0.1:8080 --games east",
    output: "",
};

/// The second folder, if it is named; not without the first one.
fn other_in<'a>(matches: &ArgMatches<'a>) -> Result<Option<&'a str>, ValueFault<'a>>
    ensures ok { IfOk result (λ other. option_map (λ s. s.now) other ≡ first_value (found_of matches.now) (codes "other")) }
    ensures well { OnOk result (Holds (first_value (found_of matches.now)) (WithoutGames (codes "other")) → ⊥) }
    ensures err { IfErr result (λ fault. IsToldMisuse (first_value (found_of matches.now)) (WithoutGames (codes "other")) (fault_words fault)) }
{
    let Some(other) = matches.get_str("other") else {
        return Ok(None);
    };
    match matches.get_str("games") {
        Some(_) => Ok(Some(other)),
        None => Err(ValueFault::WithoutGames("other")),
    }
}

impl<'a> Serve<'a> {
    /// The task with these values, or the first thing that is wrong with them.
    pub(crate) fn of(matches: &ArgMatches<'a>) -> Result<Serve<'a>, ValueFault<'a>>
        ensures ok { IfOk result (HasValues (first_value (found_of matches.now))) }
        ensures err { IfErr result (λ fault. IsFirstMisuse (first_value (found_of matches.now)) faults (fault_words fault)) }
    {
        let tables = option_in(matches, "tables")?;
        let bind = option_in(matches, "bind")?;
        check_bind(matches)?;
        let memory = memory_in(matches)?;
        let requests = requests_in(matches)?;
        Ok(Serve {
            tables,
            manifest: matches.get_str("manifest"),
            bind,
            memory,
            requests,
            games: matches.get_str("games"),
            other: other_in(matches)?,
            log: is_set(matches.get_str("log")),
        })
    }
}
