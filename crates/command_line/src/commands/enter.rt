//! The words of `enter`: games of a folder; these are its words, and `entering` writes their files.

ghost use Rattle.std.specs.Prelude.{◌≡◌, IfOk, IfErr, OnOk, None, Some, codes};
ghost use Rattle.clap.specs.Words.{found_of, first_value};
ghost use Rattle.command_line.specs.Misuses.{AreWell, IsFirstMisuse, fault_words};
ghost use Rattle.command_line.specs.Commands.Enter.{HasValues, LacksGameWords, list_faults, one_faults, without_faults};

use crate::commands::options::{DELAY, GAMES, MANIFEST_OF_GAME, NAME, START, TABLES};
use crate::commands::{Form, Group, Stands, Summary, Value};
use crate::words::numbers::is_set;
use crate::words::usage::{Instead, ValueFault};
use crate::words::values::{delay_in, game_words_in, option_in, without};
use board_core::Delay;
use clap::ArgMatches;
use move_msg::GameName;

/// Games that are entered in a folder.
#[derive(Drop)]
pub struct Enter<'a> {
    /// The games.
    pub entries: Entries<'a>,
    /// The folder of the tables.
    pub tables: &'a str,
    /// The file of their manifest, if one is named; then no table is read.
    pub manifest: Option<&'a str>,
    /// The folder of games.
    pub games: &'a str,
    /// Whether a game is refused that is there already.
    pub is_new: bool,
}

/// Which games are entered.
#[derive(Drop)]
pub enum Entries<'a> {
    /// That of the words.
    One(OneGame<'a>),
    /// Those of the file at this path, a line each, or of the input where the path is `-`.
    From(&'a str),
}

/// A game that the words tell.
#[derive(Drop)]
pub struct OneGame<'a> {
    /// The name of the game.
    pub name: GameName<'a>,
    /// The FEN text of its start.
    pub start: &'a str,
    /// For how many further plies a verdict by tables must hold.
    pub delay: Delay,
}

/// The values of `enter`.
pub(crate) const VALUES: [Value; 8] = [
    Value {
        stands: Stands::NeededInFirst,
        ..NAME
    },
    Value {
        stands: Stands::NeededInFirst,
        ..START
    },
    Value {
        name: "from",
        form: Form::Option,
        word: "FILE",
        about: "games, one a line: name, FEN and delay, with tabs; - is standard input",
        stands: Stands::NeededInSecond,
    },
    TABLES,
    MANIFEST_OF_GAME,
    Value {
        stands: Stands::OptionalInFirst,
        ..DELAY
    },
    GAMES,
    Value {
        name: "new",
        form: Form::Flag,
        word: "",
        about: "refuses a game that is there already",
        stands: Stands::Optional,
    },
];

/// What help says of `enter`.
pub(crate) const SUMMARY: Summary = Summary {
    group: Group::Games,
    about: "enters a game in a folder, and prints its stamp; or each game of a list",
    example: "adjudicate enter --name Game1 --start \"7k/8/6K1/8/8/8/8/1Q6 w - - 0 1\" --tables DIR --games east",
    output: "the stamp, which depends on the tables: an arbiter with other tables has another game",
};

/// The task for one game.
fn one_in<'a>(matches: &ArgMatches<'a>) -> Result<Enter<'a>, ValueFault<'a>>
    requires { first_value (found_of matches.now) (codes "from") ≡ None }
    ensures ok { IfOk result (HasValues (first_value (found_of matches.now))) }
    ensures err { IfErr result (λ fault. IsFirstMisuse (first_value (found_of matches.now)) one_faults (fault_words fault)) }
{
    let game = game_words_in(matches)?;
    Ok(Enter {
        entries: Entries::One(OneGame {
            name: game.name,
            start: game.start,
            delay: delay_in(matches)?,
        }),
        tables: game.tables,
        manifest: matches.get_str("manifest"),
        games: option_in(matches, "games")?,
        is_new: is_set(matches.get_str("new")),
    })
}

/// That the words tell no game beside a list.
fn no_game_in<'a>(matches: &ArgMatches<'a>) -> Result<(), ValueFault<'a>>
    ensures ok { OnOk result (LacksGameWords (first_value (found_of matches.now))) }
    ensures well { OnOk result (AreWell (first_value (found_of matches.now)) without_faults) }
    ensures err { IfErr result (λ fault. IsFirstMisuse (first_value (found_of matches.now)) without_faults (fault_words fault)) }
{
    without(matches, "name", Instead::From)?;
    without(matches, "start", Instead::From)?;
    without(matches, "delay", Instead::From)
}

/// The task for the games of a list.
fn list_in<'a>(matches: &ArgMatches<'a>, path: &'a str) -> Result<Enter<'a>, ValueFault<'a>>
    requires { first_value (found_of matches.now) (codes "from") ≡ Some path.now }
    ensures ok { IfOk result (HasValues (first_value (found_of matches.now))) }
    ensures err { IfErr result (λ fault. IsFirstMisuse (first_value (found_of matches.now)) list_faults (fault_words fault)) }
{
    no_game_in(matches)?;
    Ok(Enter {
        entries: Entries::From(path),
        tables: option_in(matches, "tables")?,
        manifest: matches.get_str("manifest"),
        games: option_in(matches, "games")?,
        is_new: is_set(matches.get_str("new")),
    })
}

impl<'a> Enter<'a> {
    ghost use Rattle.std.specs.Prelude.{◌≡◌, IfOk, IfErr};
    ghost use Rattle.clap.specs.Words.{found_of, first_value};
    ghost use Rattle.command_line.specs.Misuses.{IsFirstMisuse, fault_words};
    ghost use Rattle.command_line.specs.Commands.Enter.{HasValues, faults};

    /// The task with these values, or the first thing that is wrong with them.
    pub(crate) fn of(matches: &ArgMatches<'a>) -> Result<Enter<'a>, ValueFault<'a>>
        ensures ok { IfOk result (HasValues (first_value (found_of matches.now))) }
        ensures err { IfErr result (λ fault. IsFirstMisuse (first_value (found_of matches.now)) (faults (first_value (found_of matches.now))) (fault_words fault)) }
    {
        match matches.get_str("from") {
            None => one_in(matches),
            Some(path) => list_in(matches, path),
        }
    }
}
