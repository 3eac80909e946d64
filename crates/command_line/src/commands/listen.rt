//! The words of `listen`: an arbiter that answers datagrams; these are its words, and `listening` serves them.

ghost use Rattle.std.specs.Prelude.{IfOk, IfErr};
ghost use Rattle.clap.specs.Words.{found_of, first_value};
ghost use Rattle.command_line.specs.Inside.ListeningParts.{AreListenEnds, AreListenTerms};
ghost use Rattle.command_line.specs.Commands.Listen.{end_faults, term_faults};
ghost use Rattle.command_line.specs.Misuses.{AreWell, IsFirstMisuse, fault_words};

use crate::commands::options::{BIND, DATAGRAMS, DELAY, KEY, ME, NAME, RECIPIENTS, START, TABLES};
use crate::commands::{Form, Group, Stands, Summary, Value};
use crate::words::numbers::is_set;
use crate::words::usage::ValueFault;
use crate::words::values::{
    check_bind, datagrams_in, delay_in, game_words_in, me_in, option_in, recipients_in,
};
use board_core::Delay;
use clap::ArgMatches;
use move_msg::{ArbiterId, GameName};
use task_files::InputPaths;

/// The values of an arbiter that answers datagrams.
#[derive(Drop)]
pub struct Listen<'a> {
    /// The name of the game.
    pub name: GameName<'a>,
    /// The FEN text of its start.
    pub start: &'a str,
    /// The folder of the tables.
    pub tables: &'a str,
    /// Which of the two arbiters it is.
    pub me: ArbiterId,
    /// The address at which datagrams come.
    pub bind: &'a str,
    /// To whom answers are sent: addresses and `sender`, separated by commas.
    pub to: &'a str,
    /// The file in which the record is kept.
    pub kept: &'a str,
    /// How many datagrams are answered.
    pub datagrams: u64,
    /// For how many further plies a verdict by tables must hold.
    pub delay: Delay,
    /// Whether moves are requested from the other arbiter first.
    pub fetch: bool,
    /// Whether the address at which datagrams come is told first.
    pub ready: bool,
    /// The file of the keys by which datagrams are sealed, if they are.
    pub key: Option<&'a str>,
}

/// The values of `listen`.
pub(crate) const VALUES: [Value; 12] = [
    NAME,
    START,
    TABLES,
    ME,
    BIND,
    RECIPIENTS,
    Value {
        name: "kept",
        form: Form::Option,
        word: "FILE",
        about: "the file of its record, created where there is none",
        stands: Stands::Needed,
    },
    DATAGRAMS,
    DELAY,
    Value {
        name: "fetch",
        form: Form::Flag,
        word: "",
        about: "asks the other arbiter once, at the start, for moves",
        stands: Stands::Optional,
    },
    Value {
        name: "ready",
        form: Form::Flag,
        word: "",
        about: "writes ready and the bound address as the first line",
        stands: Stands::Optional,
    },
    KEY,
];

/// What help says of `listen`.
pub(crate) const SUMMARY: Summary = Summary {
    group: Group::Arbiters,
    about: "an arbiter of one game, at a UDP port",
    example: "adjudicate listen --name Game1 --start \"7k/8/6K1/8/8/8/8/1Q6 w - - 0 1\" --tables DIR --me 1 \\
      --bind 127.0.0.1:7311 --to sender,127.0.0.1:7312 --kept a.kept",
    output: "",
};

/// The addresses and the kept file.
#[derive(Clone, Copy)]
struct Endpoints<'a> {
    bind: &'a str,
    to: &'a str,
    kept: &'a str,
}

/// The numbers, whether it asks first, and whether it tells its address.
#[derive(Clone, Copy)]
struct Limits {
    me: ArbiterId,
    datagrams: u64,
    delay: Delay,
    fetch: bool,
    ready: bool,
}

/// The addresses and the kept file, of options that have to be there.
fn ends_in<'a>(matches: &ArgMatches<'a>) -> Result<Endpoints<'a>, ValueFault<'a>>
    ensures ok { IfOk result (λ e. AreListenEnds (first_value (found_of matches.now)) e.bind.now e.to.now e.kept.now) }
    ensures well { IfOk result (λ e. AreWell (first_value (found_of matches.now)) end_faults) }
    ensures err { IfErr result (λ fault. IsFirstMisuse (first_value (found_of matches.now)) end_faults (fault_words fault)) }
{
    Ok(Endpoints {
        bind: option_in(matches, "bind")?,
        to: recipients_in(matches)?,
        kept: option_in(matches, "kept")?,
    })
}

/// The numbers, whether it asks first, and whether it tells its address.
fn terms_in<'a>(matches: &ArgMatches<'a>) -> Result<Limits, ValueFault<'a>>
    ensures ok { IfOk result (λ t. AreListenTerms (first_value (found_of matches.now)) t.me t.datagrams t.delay t.fetch t.ready) }
    ensures err { IfErr result (λ fault. IsFirstMisuse (first_value (found_of matches.now)) term_faults (fault_words fault)) }
{
    let terms = Limits {
        me: me_in(matches)?,
        datagrams: datagrams_in(matches)?,
        delay: delay_in(matches)?,
        fetch: is_set(matches.get_str("fetch")),
        ready: is_set(matches.get_str("ready")),
    };
    check_bind(matches)?;
    Ok(terms)
}

impl<'a> Listen<'a> {
    ghost use Rattle.std.specs.Prelude.{◌≡◌, IfOk, IfErr};
    ghost use Rattle.clap.specs.Words.{found_of, first_value};
    ghost use Rattle.task_files.specs.Sources.{named_by};
    ghost use Rattle.command_line.specs.Misuses.{IsFirstMisuse, fault_words};
    ghost use Rattle.command_line.specs.Commands.Listen.{IsListening, faults, named};

    /// The task with these values, or the first thing that is wrong with them.
    pub(crate) fn of(matches: &ArgMatches<'a>) -> Result<Listen<'a>, ValueFault<'a>>
        ensures ok { IfOk result (IsListening (first_value (found_of matches.now))) }
        ensures err { IfErr result (λ fault. IsFirstMisuse (first_value (found_of matches.now)) faults (fault_words fault)) }
    {
        let game = match game_words_in(matches) {
            Ok(game) => game,
            Err(fault) => return Err(fault),
        };
        let ends = match ends_in(matches) {
            Ok(ends) => ends,
            Err(fault) => return Err(fault),
        };
        let terms = match terms_in(matches) {
            Ok(terms) => terms,
            Err(fault) => return Err(fault),
        };
        Ok(Listen {
            name: game.name,
            start: game.start,
            tables: game.tables,
            me: terms.me,
            bind: ends.bind,
            to: ends.to,
            kept: ends.kept,
            datagrams: terms.datagrams,
            delay: terms.delay,
            fetch: terms.fetch,
            ready: terms.ready,
            key: matches.get_str("key"),
        })
    }

    /// What is read for it.
    pub fn places(&self) -> InputPaths<'a>
        ensures { named_by result ≡ named self.now }
    {
        InputPaths {
            folder: Some(self.tables),
            manifest: None,
            reads_input: false,
            kept: None,
            other_kept: None,
        }
    }
}
