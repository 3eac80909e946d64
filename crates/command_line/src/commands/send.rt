//! The words of `send`: the source of a game; these are its words, and `sending` sends the moves.

ghost use Rattle.std.specs.Prelude.{◌≡◌, Some, None, IfOk, IfErr, IsSome, OnOk, codes};
ghost use Rattle.clap.specs.Words.{found_of, first_value};
ghost use Rattle.command_line.specs.Inside.SendingParts.{AreSendTerms};
ghost use Rattle.command_line.specs.Commands.Send.{HasSentGame, IsGameInFile, IsToldGame, bind_or_any, file_faults, sent_faults, term_faults};
ghost use Rattle.command_line.specs.Misuses.{AreWell, Beside, IsFirstMisuse, IsToldMisuse, fault_words};

use crate::commands::options::{
    BIND, DELAY, KEY, MANIFEST_OF_GAME, NAME, RECIPIENTS, SAN, START, TABLES,
};
use crate::commands::{Form, Group, Stands, Summary, Value};
use crate::words::game_paths::stamp_in;
use crate::words::numbers::is_set;
use crate::words::usage::{ValueFault, Wanted};
use crate::words::values::{check_bind, delay_in, game_words_in, to_in, tries_in, wait_in};
use board_core::Delay;
use clap::ArgMatches;
use move_msg::{GameName, Stamp};

/// A game as words tell it.
#[derive(Drop)]
pub struct ToldGame<'a> {
    /// Its name.
    pub name: GameName<'a>,
    /// The FEN text of its start.
    pub start: &'a str,
    /// The folder of the tables.
    pub tables: &'a str,
}

/// The file of a game.
#[derive(Clone, Copy)]
pub struct GameFile<'a> {
    /// Its path.
    pub path: &'a str,
    /// The stamp of the game, which is the file's name.
    pub stamp: Stamp,
}

/// How the game that is sent is told.
#[derive(Drop)]
pub enum SentGame<'a> {
    /// By words.
    Told(ToldGame<'a>),
    /// By its file.
    InFile(GameFile<'a>),
}

/// The values for sending the moves of a game.
#[derive(Drop)]
pub struct Send<'a> {
    /// The game.
    pub game: SentGame<'a>,
    /// The file of the tables' manifest, if one is named; then no table is read.
    pub manifest: Option<&'a str>,
    /// For how many further plies a verdict by tables must hold. It is 0 where a file tells the game, which has its own.
    pub delay: Delay,
    /// The address at which datagrams come: any port of any address, unless one is named.
    pub bind: &'a str,
    /// The addresses to which moves are sent, separated by commas.
    pub to: &'a str,
    /// How many milliseconds the first try of a move lasts.
    pub wait: u16,
    /// How often a move is sent at most.
    pub tries: u16,
    /// The file of the keys by which datagrams are sealed, if they are.
    pub key: Option<&'a str>,
    /// Whether the moves of the input are written in standard algebraic notation.
    pub san: bool,
    /// Whether the game is refused where an arbiter has moves of it that this run hasn't sent.
    pub is_new: bool,
}

/// The values of `send`.
pub(crate) const VALUES: [Value; 13] = [
    Value {
        stands: Stands::NeededInFirst,
        ..NAME
    },
    Value {
        stands: Stands::NeededInFirst,
        ..START
    },
    Value {
        stands: Stands::NeededInFirst,
        ..TABLES
    },
    Value {
        stands: Stands::OptionalInFirst,
        ..MANIFEST_OF_GAME
    },
    Value {
        stands: Stands::OptionalInFirst,
        ..DELAY
    },
    Value {
        name: "game",
        form: Form::Option,
        word: "FILE",
        about: "the game by its file, FOLDER/STAMP.game, in place of name, start and tables",
        stands: Stands::NeededInSecond,
    },
    Value {
        about: "its own address; 0.0.0.0:0 unless set",
        stands: Stands::Optional,
        ..BIND
    },
    Value {
        about: "the addresses of the two arbiters, or of a relay",
        ..RECIPIENTS
    },
    Value {
        name: "wait",
        form: Form::Option,
        word: "MS",
        about: "milliseconds of a move's first try, 1 to 65535; 100 unless set",
        stands: Stands::Optional,
    },
    Value {
        name: "tries",
        form: Form::Option,
        word: "N",
        about: "how often a move is sent at most, 1 to 65535; 100 unless set",
        stands: Stands::Optional,
    },
    KEY,
    SAN,
    Value {
        name: "new",
        form: Form::Flag,
        word: "",
        about: "refuses a game of which an arbiter has a move that this run hasn't sent",
        stands: Stands::Optional,
    },
];

/// What help says of `send`.
pub(crate) const SUMMARY: Summary = Summary {
    group: Group::Games,
    about: "sends the moves on standard input to the arbiters of a game",
    example: "echo b1b8 | adjudicate send --game east/72b21246fca973341bd3df781b702e9f.game \\
      --to 127.0.0.1:7331,127.0.0.1:7332",
    output: "acked N: both arbiters have recorded move N; verdict N WORD: both have this verdict after it
  refused lost: a move was sent --tries times, and not both arbiters have answered it; on standard
    error stands what each acknowledged last. No answer came from one that isn't there, has no such
    game or other keys, or answers elsewhere, since its --to isn't this --bind",
};

/// The numbers.
#[derive(Clone, Copy)]
struct Limits {
    delay: Delay,
    wait: u16,
    tries: u16,
}

/// Tells an option that stands beside `--game`.
fn alone<'a>(matches: &ArgMatches<'a>, name: &'static str) -> Result<(), ValueFault<'a>>
    requires { IsSome (first_value (found_of matches.now) (codes "game")) }
    ensures ok { OnOk result (first_value (found_of matches.now) name.now ≡ None) }
    ensures err { IfErr result (λ fault. IsToldMisuse (first_value (found_of matches.now)) (Beside name.now) (fault_words fault)) }
{
    match matches.get_str(name) {
        Some(_) => Err(ValueFault::Beside(name)),
        None => Ok(()),
    }
}

/// The file of a game whose path is the value of `--game`.
fn file_in<'a>(matches: &ArgMatches<'a>, path: &'a str) -> Result<GameFile<'a>, ValueFault<'a>>
    requires { first_value (found_of matches.now) (codes "game") ≡ Some path.now }
    ensures ok { IfOk result (IsGameInFile (first_value (found_of matches.now))) }
    ensures well { OnOk result (AreWell (first_value (found_of matches.now)) file_faults) }
    ensures err { IfErr result (λ fault. IsFirstMisuse (first_value (found_of matches.now)) file_faults (fault_words fault)) }
{
    let Some(stamp) = stamp_in(path) else {
        return Err(ValueFault::Unfit(Wanted::GameFile, path));
    };
    alone(matches, "name")?;
    alone(matches, "start")?;
    alone(matches, "tables")?;
    alone(matches, "manifest")?;
    alone(matches, "delay")?;
    Ok(GameFile { path, stamp })
}

/// The game that words tell.
fn told_in<'a>(matches: &ArgMatches<'a>) -> Result<ToldGame<'a>, ValueFault<'a>>
    requires { first_value (found_of matches.now) (codes "game") ≡ None }
    ensures ok { IfOk result (IsToldGame (first_value (found_of matches.now))) }
    ensures well { OnOk result (AreWell (first_value (found_of matches.now)) sent_faults) }
    ensures err { IfErr result (λ fault. IsFirstMisuse (first_value (found_of matches.now)) sent_faults (fault_words fault)) }
{
    match game_words_in(matches) {
        Ok(words) => Ok(ToldGame {
            name: words.name,
            start: words.start,
            tables: words.tables,
        }),
        Err(fault) => Err(fault),
    }
}

/// The game, of one of the two ways to tell it.
fn game_in<'a>(matches: &ArgMatches<'a>) -> Result<SentGame<'a>, ValueFault<'a>>
    ensures ok { IfOk result (HasSentGame (first_value (found_of matches.now))) }
    ensures well { OnOk result (AreWell (first_value (found_of matches.now)) sent_faults) }
    ensures err { IfErr result (λ fault. IsFirstMisuse (first_value (found_of matches.now)) sent_faults (fault_words fault)) }
{
    match matches.get_str("game") {
        Some(path) => match file_in(matches, path) {
            Ok(file) => Ok(SentGame::InFile(file)),
            Err(fault) => Err(fault),
        },
        None => match told_in(matches) {
            Ok(told) => Ok(SentGame::Told(told)),
            Err(fault) => Err(fault),
        },
    }
}

/// The address that is bound.
fn bind_in<'a>(matches: &ArgMatches<'a>) -> &'a str
    ensures { result.now ≡ bind_or_any (first_value (found_of matches.now) (codes "bind")) }
{
    match matches.get_str("bind") {
        Some(address) => address,
        None => "0.0.0.0:0",
    }
}

/// The numbers.
fn terms_in<'a>(matches: &ArgMatches<'a>) -> Result<Limits, ValueFault<'a>>
    ensures ok { IfOk result (λ t. AreSendTerms (first_value (found_of matches.now)) t.delay t.wait t.tries) }
    ensures err { IfErr result (λ fault. IsFirstMisuse (first_value (found_of matches.now)) term_faults (fault_words fault)) }
{
    let terms = Limits {
        delay: delay_in(matches)?,
        wait: wait_in(matches)?,
        tries: tries_in(matches)?,
    };
    check_bind(matches)?;
    Ok(terms)
}

impl<'a> Send<'a> {
    ghost use Rattle.std.specs.Prelude.{◌≡◌, IfOk, IfErr};
    ghost use Rattle.clap.specs.Words.{found_of, first_value};
    ghost use Rattle.command_line.specs.Misuses.{IsFirstMisuse, fault_words};
    ghost use Rattle.command_line.specs.Commands.Send.{HasValues, faults};

    /// The task with these values, or the first thing that is wrong with them.
    pub(crate) fn of(matches: &ArgMatches<'a>) -> Result<Send<'a>, ValueFault<'a>>
        ensures ok { IfOk result (HasValues (first_value (found_of matches.now))) }
        ensures err { IfErr result (λ fault. IsFirstMisuse (first_value (found_of matches.now)) faults (fault_words fault)) }
    {
        let game = game_in(matches)?;
        let to = to_in(matches)?;
        let terms = terms_in(matches)?;
        Ok(Send {
            game,
            manifest: matches.get_str("manifest"),
            delay: terms.delay,
            bind: bind_in(matches),
            to,
            wait: terms.wait,
            tries: terms.tries,
            key: matches.get_str("key"),
            san: is_set(matches.get_str("san")),
            is_new: is_set(matches.get_str("new")),
        })
    }
}
