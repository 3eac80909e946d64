//! The words of `host`: arbiters of any number of games; these are its words, and `hosting` serves the games.

ghost use Rattle.std.specs.Prelude.{IfOk, IfErr};
ghost use Rattle.clap.specs.Words.{found_of, first_value};
ghost use Rattle.command_line.specs.Inside.HostingParts.{AreHostEnds, AreHostTerms};
ghost use Rattle.command_line.specs.Commands.Host.{end_faults, term_faults};
ghost use Rattle.command_line.specs.Misuses.{AreWell, IsFirstMisuse, fault_words};

use crate::commands::options::{
    BIND, CACHE, DATAGRAMS, GAMES, KEY, MANIFEST, ME, RECIPIENTS, TABLES,
};
use crate::commands::{Form, Group, Stands, Summary, Value};
use crate::words::numbers::{CacheSize, StoreForm, is_set};
use crate::words::usage::ValueFault;
use crate::words::values::{
    at_once_in, cache_in, check_bind, datagrams_in, log_in, me_in, option_in, recipients_in,
    store_in,
};
use arbiter_server::LogForm;
use clap::ArgMatches;
use move_msg::ArbiterId;
use std::num::NonZeroUsize;
use task_files::InputPaths;

/// What arbiters of games are opened from.
#[derive(Drop)]
pub struct HostGames<'a> {
    /// The folder of the games.
    pub games: &'a str,
    /// The folder of the tables.
    pub tables: &'a str,
    /// The file of their manifest, if one is named; then the tables are those of its lines.
    pub manifest: Option<&'a str>,
    /// The address at which datagrams come.
    pub bind: &'a str,
    /// To whom answers are sent: addresses and `sender`, which commas part.
    pub to: &'a str,
    /// Which of the two arbiters of each game it is.
    pub me: ArbiterId,
    /// How many games are open at once, at most; 65535 or less.
    pub at_once: NonZeroUsize,
    /// How many decoded blocks the tables may keep.
    pub cache: CacheSize,
    /// How many datagrams are answered.
    pub datagrams: u64,
    /// Which lines are written.
    pub log: LogForm,
    /// Where the records of the games are kept.
    pub store: StoreForm,
    /// Whether the games go on where these can't be written.
    pub outlives_log: bool,
    /// The file of the keys by which datagrams are sealed, if they are.
    pub key: Option<&'a str>,
}

/// The values of `host`.
pub(crate) const VALUES: [Value; 13] = [
    GAMES,
    TABLES,
    MANIFEST,
    BIND,
    RECIPIENTS,
    ME,
    Value {
        name: "at-once",
        form: Form::Option,
        word: "N",
        about: "games that are open at once, 1 to 65535; 256 unless set",
        stands: Stands::Optional,
    },
    CACHE,
    DATAGRAMS,
    KEY,
    Value {
        name: "log",
        form: Form::Option,
        word: "all|changes|none",
        about: "which lines are written; all unless set",
        stands: Stands::Optional,
    },
    Value {
        name: "store",
        form: Form::Option,
        word: "sqlite|files",
        about: "where records are kept; sqlite, one store, unless set",
        stands: Stands::Optional,
    },
    Value {
        name: "log-failures-ignored",
        form: Form::Flag,
        word: "",
        about: "goes on without lines where one can't be written; ends unless set",
        stands: Stands::Optional,
    },
];

/// What help says of `host`.
pub(crate) const SUMMARY: Summary = Summary {
    group: Group::Arbiters,
    about: "an arbiter of each game of a folder, at one UDP port",
    example: "adjudicate host --games east --tables DIR --me 1 --bind 127.0.0.1:7331 --to sender,127.0.0.1:7332",
    output: "",
};

/// The folders and the addresses.
#[derive(Clone, Copy)]
struct Endpoints<'a> {
    games: &'a str,
    tables: &'a str,
    bind: &'a str,
    to: &'a str,
}

/// The numbers, which lines are written, and where records are kept.
#[derive(Clone, Copy)]
struct Limits {
    me: ArbiterId,
    at_once: NonZeroUsize,
    cache: CacheSize,
    datagrams: u64,
    log: LogForm,
    store: StoreForm,
}

/// The folders and the addresses, of options that have to be there.
fn ends_in<'a>(matches: &ArgMatches<'a>) -> Result<Endpoints<'a>, ValueFault<'a>>
    ensures ok { IfOk result (λ e. AreHostEnds (first_value (found_of matches.now)) e.games.now e.tables.now e.bind.now e.to.now) }
    ensures well { IfOk result (λ e. AreWell (first_value (found_of matches.now)) end_faults) }
    ensures err { IfErr result (λ fault. IsFirstMisuse (first_value (found_of matches.now)) end_faults (fault_words fault)) }
{
    Ok(Endpoints {
        games: option_in(matches, "games")?,
        tables: option_in(matches, "tables")?,
        bind: option_in(matches, "bind")?,
        to: recipients_in(matches)?,
    })
}

/// The numbers, which lines are written, and where records are kept.
fn terms_in<'a>(matches: &ArgMatches<'a>) -> Result<Limits, ValueFault<'a>>
    ensures ok { IfOk result (λ t. AreHostTerms (first_value (found_of matches.now)) t.me t.at_once.value t.cache t.datagrams t.log t.store) }
    ensures err { IfErr result (λ fault. IsFirstMisuse (first_value (found_of matches.now)) term_faults (fault_words fault)) }
{
    let terms = Limits {
        me: me_in(matches)?,
        at_once: at_once_in(matches)?,
        cache: cache_in(matches)?,
        datagrams: datagrams_in(matches)?,
        log: log_in(matches)?,
        store: store_in(matches)?,
    };
    check_bind(matches)?;
    Ok(terms)
}

impl<'a> HostGames<'a> {
    ghost use Rattle.std.specs.Prelude.{◌≡◌, IfOk, IfErr};
    ghost use Rattle.clap.specs.Words.{found_of, first_value};
    ghost use Rattle.task_files.specs.Sources.{named_by};
    ghost use Rattle.command_line.specs.Misuses.{IsFirstMisuse, fault_words};
    ghost use Rattle.command_line.specs.Commands.Host.{HasValues, faults, named};

    /// The task with these values, or the first thing that is wrong with them.
    pub(crate) fn of(matches: &ArgMatches<'a>) -> Result<HostGames<'a>, ValueFault<'a>>
        ensures ok { IfOk result (HasValues (first_value (found_of matches.now))) }
        ensures err { IfErr result (λ fault. IsFirstMisuse (first_value (found_of matches.now)) faults (fault_words fault)) }
    {
        let ends = ends_in(matches)?;
        let terms = terms_in(matches)?;
        Ok(HostGames {
            games: ends.games,
            tables: ends.tables,
            manifest: matches.get_str("manifest"),
            bind: ends.bind,
            to: ends.to,
            me: terms.me,
            at_once: terms.at_once,
            cache: terms.cache,
            datagrams: terms.datagrams,
            log: terms.log,
            store: terms.store,
            outlives_log: is_set(matches.get_str("log-failures-ignored")),
            key: matches.get_str("key"),
        })
    }

    /// What is read for it.
    pub fn places(&self) -> InputPaths<'a>
        ensures { named_by result ≡ named self.now }
    {
        InputPaths {
            folder: Some(self.tables),
            manifest: self.manifest,
            reads_input: false,
            kept: None,
            other_kept: None,
        }
    }
}
