//! The commands: their names, and command lines as tasks. Each command has a file of its own in `commands/`.

ghost use Rattle.std.specs.Prelude.{◌≡◌, ◌↔◌, IsTrue, map, true, false, IfOk, IfErr, IfSome, IfNone, OnErr, IsErrOf};
ghost use Rattle.clap.specs.Words.{HasKind, Text, app_of, is_simple_and_free, found_of, first_value, rule_of, with_rule};
ghost use Rattle.command_line.specs.declared.words.usage.Misuse.{Misuse};
ghost use Rattle.command_line.specs.Commands.AuditGames.{LacksFolders};
ghost use Rattle.command_line.specs.Misuses.{AsksForHelp};
ghost use Rattle.command_line.specs.Rules.{argument_value, rule_of_value, words_fault};
ghost use Rattle.command_line.specs.Inside.Putting.{IsMisuseOf};
ghost use Rattle.command_line.specs.Tasks.{IsReadAs, IsTask, IsMisuse, TakesWords, IsHelpBy, IsVersion, NamesCommand, NamesNoCommand, app_for, command_rules, command_word};

mod audit;
mod audit_games;
mod check;
mod enter;
mod follow;
mod game;
mod game_record;
mod games;
mod host;
mod judge;
mod list;
mod listen;
mod moves;
mod options;
mod pgn;
mod probe;
mod probes;
mod record;
pub(crate) mod root;
mod run;
mod send;
mod serve;
mod show;
mod status;
mod version;

use crate::words::usage::{Misuse, Usage, ValueFault};
pub use audit::Audit;
pub use audit_games::AuditGames;
pub use check::Check;
use clap::{Arg, ArgAction, ArgMatches, Command};
pub use enter::{Enter, Entries, OneGame};
pub use follow::Follow;
pub use game::FollowGame;
pub use game_record::GameRecord;
pub use games::FollowGames;
pub use host::HostGames;
pub use judge::Judge;
pub use list::List;
pub use listen::Listen;
pub use moves::Moves;
pub use pgn::JudgePgn;
pub use probe::Probe;
pub use probes::Probes;
pub use record::ShowRecord;
pub use root::Root;
pub use run::RunSchedule;
pub use send::{GameFile, Send, SentGame, ToldGame};
pub use serve::Serve;
pub use show::Show;
pub use status::ShowStatus;
use std::alloc::{AllocError, Global};
pub use version::Version;

/// The task of a command line.
#[derive(Drop)]
pub enum Task<'a> {
    /// The verdict of a position.
    Judge(Judge<'a>),
    /// The values of a position in the tables.
    Probe(Probe<'a>),
    /// The legal moves of a position.
    Moves(Moves<'a>),
    /// The manifest of the tables in a folder.
    List(List<'a>),
    /// Whether the tables in a folder are those of a manifest.
    Check(Check<'a>),
    /// The messages of the input.
    Show(Show),
    /// Two arbiters under the schedule of the input.
    Run(RunSchedule<'a>),
    /// An arbiter that answers datagrams.
    Listen(Listen<'a>),
    /// The values of the positions of the input in the tables.
    Probes(Probes<'a>),
    /// The outcome of the game of the input.
    Game(FollowGame<'a>),
    /// The outcomes of the games of the input.
    Games(FollowGames<'a>),
    /// What tables say of the games of a PGN file.
    Pgn(JudgePgn<'a>),
    /// The contents of a kept record.
    Record(ShowRecord<'a>),
    /// The record of a game in a folder.
    GameRecord(GameRecord<'a>),
    /// Whether kept files are records of a game.
    Audit(Audit<'a>),
    /// The audit of the games of a folder.
    AuditGames(AuditGames<'a>),
    /// The program's version.
    Version(Version),
    /// The moves of the input, sent to the arbiters of a game.
    Send(Send<'a>),
    /// Games of a folder.
    Enter(Enter<'a>),
    /// Arbiters of the games of a folder.
    Host(HostGames<'a>),
    /// The legal moves of a position by their values in the tables.
    Root(Root<'a>),
    /// The game of the input, ply by ply.
    Follow(Follow<'a>),
    /// How far the games of a folder have come.
    Status(ShowStatus<'a>),
    /// Requests that are answered by the tables of a folder.
    Serve(Serve<'a>),
}

/// The commands.
#[derive(Clone, Copy)]
pub enum Name {
    /// Judges a position.
    Judge,
    /// Probes tables for a position.
    Probe,
    /// Lists legal moves.
    Moves,
    /// Lists tables.
    List,
    /// Checks tables.
    Check,
    /// Shows messages.
    Show,
    /// Runs a schedule.
    Run,
    /// Answers datagrams.
    Listen,
    /// Probes tables for many positions.
    Probes,
    /// Judges a game.
    Game,
    /// Judges many games.
    Games,
    /// Judges the games of a PGN file.
    Pgn,
    /// Shows a kept record.
    Record,
    /// Audits kept files.
    Audit,
    /// Prints the program's version.
    Version,
    /// Sends the moves of a game.
    Send,
    /// Enters games in a folder.
    Enter,
    /// Answers datagrams of any number of games.
    Host,
    /// Ranks legal moves by tables.
    Root,
    /// Judges a game ply by ply.
    Follow,
    /// Tells how far games have come.
    Status,
    /// Answers requests of HTTP by tables.
    Serve,
}

/// How a command gets a value. Whether it is required isn't said here: the command requires it.
#[derive(Clone, Copy)]
pub enum Form {
    /// As a word.
    Word,
    /// After `--` and its name.
    Option,
    /// As `--` and its name alone.
    Flag,
}

/// Where a value stands in the use of its command. Some commands have two forms.
#[derive(Clone, Copy)]
pub enum Stands {
    /// It has to be there.
    Needed,
    /// It may be left out.
    Optional,
    /// It has to be there in the first form, and isn't of the second one.
    NeededInFirst,
    /// It may be there in the first form, and isn't of the second one.
    OptionalInFirst,
    /// It has to be there in the second form, and isn't of the first one.
    NeededInSecond,
    /// It may be there in the second form, and isn't of the first one.
    OptionalInSecond,
}

/// A value that a command takes. All that is told of it elsewhere, by help, pages and completions, is made from this.
#[derive(Clone, Copy)]
pub struct Value {
    /// What it is asked for by: the option behind `--`, or a name of the word's own.
    pub name: &'static str,
    /// How it is given.
    pub(crate) form: Form,
    /// The word for it: `DIR` is a folder, `FILE` a file, `STAMP` a game of the folder of games, `all|none` is one of these words. A flag has
    /// none.
    pub(crate) word: &'static str,
    /// What it is or does, in one line, with its unit, its range, and what is taken where it isn't there.
    pub(crate) about: &'static str,
    /// Where it stands.
    pub(crate) stands: Stands,
}

/// What commands are for.
#[derive(Clone, Copy, Debug, PartialEq, Eq)]
pub(crate) enum Group {
    /// They answer of positions.
    Positions,
    /// They answer of games, or send and enter them.
    Games,
    /// They are arbiters, or show what arbiters do.
    Arbiters,
    /// They are of tables, or of the program.
    Tables,
}

/// What help says of a command.
#[derive(Clone, Copy)]
pub(crate) struct Summary {
    /// What it is for.
    pub(crate) group: Group,
    /// What it answers or does, in one line.
    pub(crate) about: &'static str,
    /// A command line.
    pub(crate) example: &'static str,
    /// What is to know of the lines that it prints; nothing where the text is empty.
    pub(crate) output: &'static str,
}

impl Name {
    /// The command that a word names.
    fn of(word: &str) -> Option<Name>
        ensures some { IfSome result (λ name. word.now ≡ command_word name) }
        ensures none { IfNone result ((name : Name) → word.now ≡ command_word name → ⊥) }
    {
        match word {
            "judge" => Some(Name::Judge),
            "probe" => Some(Name::Probe),
            "moves" => Some(Name::Moves),
            "list" => Some(Name::List),
            "check" => Some(Name::Check),
            "show" => Some(Name::Show),
            "run" => Some(Name::Run),
            "listen" => Some(Name::Listen),
            "probes" => Some(Name::Probes),
            "game" => Some(Name::Game),
            "games" => Some(Name::Games),
            "pgn" => Some(Name::Pgn),
            "record" => Some(Name::Record),
            "audit" => Some(Name::Audit),
            "version" => Some(Name::Version),
            "send" => Some(Name::Send),
            "enter" => Some(Name::Enter),
            "host" => Some(Name::Host),
            "root" => Some(Name::Root),
            "follow" => Some(Name::Follow),
            "status" => Some(Name::Status),
            "serve" => Some(Name::Serve),
            _ => None,
        }
    }

    /// The word that names the command.
    pub(crate) fn word<'a>(self) -> &'a str
        ensures { result.now ≡ command_word self }
    {
        match self {
            Name::Judge => "judge",
            Name::Probe => "probe",
            Name::Moves => "moves",
            Name::List => "list",
            Name::Check => "check",
            Name::Show => "show",
            Name::Run => "run",
            Name::Listen => "listen",
            Name::Probes => "probes",
            Name::Game => "game",
            Name::Games => "games",
            Name::Pgn => "pgn",
            Name::Record => "record",
            Name::Audit => "audit",
            Name::Version => "version",
            Name::Send => "send",
            Name::Enter => "enter",
            Name::Host => "host",
            Name::Root => "root",
            Name::Follow => "follow",
            Name::Status => "status",
            Name::Serve => "serve",
        }
    }

    /// The values that the command takes.
    pub(crate) fn values(self) -> &'static [Value]
        ensures { map rule_of_value result.now ≡ command_rules self }
    {
        match self {
            Name::Judge => &judge::VALUES,
            Name::Probe => &probe::VALUES,
            Name::Moves => &moves::VALUES,
            Name::List => &list::VALUES,
            Name::Check => &check::VALUES,
            Name::Show => &[],
            Name::Run => &run::VALUES,
            Name::Listen => &listen::VALUES,
            Name::Probes => &probes::VALUES,
            Name::Game => &game::VALUES,
            Name::Games => &games::VALUES,
            Name::Pgn => &pgn::VALUES,
            Name::Record => &record::VALUES,
            Name::Audit => &audit::VALUES,
            Name::Version => &[],
            Name::Send => &send::VALUES,
            Name::Enter => &enter::VALUES,
            Name::Host => &host::VALUES,
            Name::Root => &root::VALUES,
            Name::Follow => &follow::VALUES,
            Name::Status => &status::VALUES,
            Name::Serve => &serve::VALUES,
        }
    }

    /// The values that help shows: those of the command, and once more a word that is something else in the second form.
    pub(crate) fn shown(self) -> &'static [Value] {
        match self {
            Name::Record => &record::SHOWN,
            _ => self.values(),
        }
    }

    /// What help says of the command.
    pub(crate) fn summary(self) -> Summary {
        match self {
            Name::Judge => judge::SUMMARY,
            Name::Probe => probe::SUMMARY,
            Name::Moves => moves::SUMMARY,
            Name::List => list::SUMMARY,
            Name::Check => check::SUMMARY,
            Name::Show => show::SUMMARY,
            Name::Run => run::SUMMARY,
            Name::Listen => listen::SUMMARY,
            Name::Probes => probes::SUMMARY,
            Name::Game => game::SUMMARY,
            Name::Games => games::SUMMARY,
            Name::Pgn => pgn::SUMMARY,
            Name::Record => record::SUMMARY,
            Name::Audit => audit::SUMMARY,
            Name::Version => version::SUMMARY,
            Name::Send => send::SUMMARY,
            Name::Enter => enter::SUMMARY,
            Name::Host => host::SUMMARY,
            Name::Root => root::SUMMARY,
            Name::Follow => follow::SUMMARY,
            Name::Status => status::SUMMARY,
            Name::Serve => serve::SUMMARY,
        }
    }
}

/// A value, as `clap` reads it.
fn arg_of<'a>(alloc: Global, value: &Value) -> Arg<'a>
    ensures rule { rule_of result ≡ rule_of_value value.now }
    ensures own { result.global ≡ false }
{
    let arg = Arg::new(alloc, value.name);
    match value.form {
        Form::Word => arg,
        Form::Option => arg.long(value.name),
        Form::Flag => arg.long(value.name).action(ArgAction::SetTrue),
    }
}

/// A command with one more value.
fn with_value<'a>(
    alloc: Global,
    command: Command<'a>,
    value: &Value,
) -> Result<Command<'a>, AllocError>
    ensures { IfOk result (λ c. app_of c ≡ with_rule (app_of command.entry) (rule_of_value value.now)) }
{
    command.arg(arg_of(alloc, value))
}

/// A command, as `clap` reads it.
fn command_of<'a>(alloc: Global, name: Name) -> Result<Command<'a>, AllocError>
    ensures { IfOk result (λ c. app_of c ≡ app_for name) }
{
    let mut command = Command::new(alloc, name.word());
    for value in name.values() {
        command = with_value(alloc, command, value)?;
    }
    Ok(command)
}

/// The matches of a simple command at the words, of which the first is the command's name.
fn matches_at<'a>(command: Command<'a>, words: &'a [&'a str]) -> Result<ArgMatches<'a>, clap::Error>
    requires { is_simple_and_free (app_of command) ≡ true }
    ensures taken { IfOk result (λ m. TakesWords (app_of command.entry) (map (λ w. w.now) words.entry.now)) }
    ensures values { IfOk result (λ m. (id : Text) → first_value (found_of m) id ≡ argument_value (app_of command.entry) (map (λ w. w.now) words.entry.now) id) }
    ensures refused { IfErr result (HasKind (words_fault (app_of command.entry) (map (λ w. w.now) words.entry.now))) }
{
    command.try_get_matches_from(words)
}

/// The task of `record` with these values, or their first fault: with a folder of games another one than without.
fn record_of<'a>(matches: &ArgMatches<'a>) -> Result<Task<'a>, ValueFault<'a>>
    ensures { IsReadAs Name.Record (first_value (found_of matches.now)) result }
{
    match matches.get_str("games") {
        Some(games) => match GameRecord::of(games, matches) {
            Ok(task) => Ok(Task::GameRecord(task)),
            Err(fault) => Err(fault),
        },
        None => match ShowRecord::of(matches) {
            Ok(task) => Ok(Task::Record(task)),
            Err(fault) => Err(fault),
        },
    }
}

/// The task of `audit` for games of folders with these values, or their first fault.
fn audit_of_folders<'a>(matches: &ArgMatches<'a>) -> Result<Task<'a>, ValueFault<'a>>
    requires { LacksFolders (first_value (found_of matches.now)) → ⊥ }
    ensures { IsReadAs Name.Audit (first_value (found_of matches.now)) result }
{
    match AuditGames::of(matches) {
        Ok(task) => Ok(Task::AuditGames(task)),
        Err(fault) => Err(fault),
    }
}

/// The task of `audit` for one game with these values, or their first fault.
fn audit_of_files<'a>(matches: &ArgMatches<'a>) -> Result<Task<'a>, ValueFault<'a>>
    requires { LacksFolders (first_value (found_of matches.now)) }
    ensures { IsReadAs Name.Audit (first_value (found_of matches.now)) result }
{
    match Audit::of(matches) {
        Ok(task) => Ok(Task::Audit(task)),
        Err(fault) => Err(fault),
    }
}

/// The task of `audit` with these values, or their first fault: with a folder of games another one than without.
fn audit_of<'a>(matches: &ArgMatches<'a>) -> Result<Task<'a>, ValueFault<'a>>
    ensures { IsReadAs Name.Audit (first_value (found_of matches.now)) result }
{
    match matches.get_str("games") {
        Some(_) => audit_of_folders(matches),
        None => match matches.get_str("other") {
            Some(_) => audit_of_folders(matches),
            None => audit_of_files(matches),
        },
    }
}

/// The task of a command with these values, or their first fault.
fn task_of<'a>(name: Name, matches: &ArgMatches<'a>) -> Result<Task<'a>, ValueFault<'a>>
    ensures { IsReadAs name (first_value (found_of matches.now)) result }
{
    match name {
        Name::Judge => match Judge::of(matches) {
            Ok(task) => Ok(Task::Judge(task)),
            Err(fault) => Err(fault),
        },
        Name::Probe => match Probe::of(matches) {
            Ok(task) => Ok(Task::Probe(task)),
            Err(fault) => Err(fault),
        },
        Name::Moves => match Moves::of(matches) {
            Ok(task) => Ok(Task::Moves(task)),
            Err(fault) => Err(fault),
        },
        Name::List => match List::of(matches) {
            Ok(task) => Ok(Task::List(task)),
            Err(fault) => Err(fault),
        },
        Name::Check => match Check::of(matches) {
            Ok(task) => Ok(Task::Check(task)),
            Err(fault) => Err(fault),
        },
        Name::Show => Ok(Task::Show(Show)),
        Name::Run => match RunSchedule::of(matches) {
            Ok(task) => Ok(Task::Run(task)),
            Err(fault) => Err(fault),
        },
        Name::Listen => match Listen::of(matches) {
            Ok(task) => Ok(Task::Listen(task)),
            Err(fault) => Err(fault),
        },
        Name::Probes => match Probes::of(matches) {
            Ok(task) => Ok(Task::Probes(task)),
            Err(fault) => Err(fault),
        },
        Name::Game => match FollowGame::of(matches) {
            Ok(task) => Ok(Task::Game(task)),
            Err(fault) => Err(fault),
        },
        Name::Games => match FollowGames::of(matches) {
            Ok(task) => Ok(Task::Games(task)),
            Err(fault) => Err(fault),
        },
        Name::Pgn => match JudgePgn::of(matches) {
            Ok(task) => Ok(Task::Pgn(task)),
            Err(fault) => Err(fault),
        },
        Name::Record => record_of(matches),
        Name::Audit => audit_of(matches),
        Name::Version => Ok(Task::Version(Version)),
        Name::Send => Ok(Task::Send(Send::of(matches)?)),
        Name::Enter => match Enter::of(matches) {
            Ok(task) => Ok(Task::Enter(task)),
            Err(fault) => Err(fault),
        },
        Name::Host => match HostGames::of(matches) {
            Ok(task) => Ok(Task::Host(task)),
            Err(fault) => Err(fault),
        },
        Name::Root => match Root::of(matches) {
            Ok(task) => Ok(Task::Root(task)),
            Err(fault) => Err(fault),
        },
        Name::Follow => match Follow::of(matches) {
            Ok(task) => Ok(Task::Follow(task)),
            Err(fault) => Err(fault),
        },
        Name::Status => match ShowStatus::of(matches) {
            Ok(task) => Ok(Task::Status(task)),
            Err(fault) => Err(fault),
        },
        Name::Serve => match Serve::of(matches) {
            Ok(task) => Ok(Task::Serve(task)),
            Err(fault) => Err(fault),
        },
    }
}

/// Whether a word asks for help.
fn asks_for_help(word: &str) -> bool
    ensures { IsTrue result ↔ AsksForHelp word.now }
{
    word == "help" || word == "--help" || word == "-h"
}

/// What help is asked for by the words behind the first: of the command that they name, or all of it; or that they name none.
fn help_by<'a>(others: &'a [&'a str]) -> Misuse<'a>
    ensures { IsHelpBy (map (λ w. w.now) others.entry.now) result }
{
    match others {
        [] => Misuse::Help,
        [word, ..] => match Name::of(word) {
            Some(name) => Misuse::HelpOf(name),
            None if asks_for_help(word) => Misuse::Help,
            None => Misuse::UnknownCommand(word),
        },
    }
}

/// The fault of words of which the first names no command.
fn misuse_of<'a>(word: &'a str, others: &'a [&'a str]) -> Misuse<'a>
    ensures { IsMisuseOf word.entry.now (map (λ w. w.now) others.entry.now) result }
{
    if asks_for_help(word) {
        help_by(others)
    } else {
        Misuse::UnknownCommand(word)
    }
}

/// Whether the words are `--version` alone.
fn is_version(words: &[&str]) -> bool
    ensures { IsTrue result ↔ IsVersion (map (λ w. w.now) words.now) }
{
    match words {
        [word] => *word == "--version",
        _ => false,
    }
}

/// The command that the words name, or that they name none.
fn name_in<'a>(words: &'a [&'a str]) -> Result<Name, Misuse<'a>>
    ensures ok { IfOk result (NamesCommand (map (λ w. w.now) words.entry.now)) }
    ensures none { OnErr result (NamesNoCommand (map (λ w. w.now) words.entry.now)) }
    ensures err { IfErr result (IsMisuse (map (λ w. w.now) words.entry.now)) }
{
    if is_version(words) {
        return Ok(Name::Version);
    }
    match words {
        [] => Err(Misuse::NoCommand),
        [word, others @ ..] => match Name::of(word) {
            Some(name) => Ok(name),
            None => Err(misuse_of(word, others)),
        },
    }
}

/// The task of a command that the words name.
fn task_by<'a>(alloc: Global, name: Name, words: &'a [&'a str]) -> Result<Task<'a>, Usage<'a>>
    requires { NamesCommand (map (λ w. w.now) words.now) name }
    ensures ok { IfOk result (IsTask (map (λ w. w.now) words.entry.now)) }
    ensures misuse { IfErr result (λ e. (misuse : Misuse) → e ≡ Usage.Misuse misuse → IsMisuse (map (λ w. w.now) words.entry.now) misuse) }
{
    let command = command_of(alloc, name)?;
    match matches_at(command, words) {
        Ok(matches) => match task_of(name, &matches) {
            Ok(task) => Ok(task),
            Err(fault) => Err(Usage::Misuse(Misuse::Value(name, fault))),
        },
        Err(error) => Err(Usage::of(name, error)),
    }
}

/// The task that the words name: the first word is the command, and the others are its own. `--version` alone is
/// `version`.
///
/// Otherwise the error is the first misuse that applies. There is no word, or the first one asks for help, or it or the one behind
/// a request for help names no command. Then come words that the command doesn't have, or a request for help; then the command's values in its own
/// order. Refused memory is returned where a growth is refused.
pub fn parse<'a>(alloc: Global, words: &'a [&'a str]) -> Result<Task<'a>, Usage<'a>>
    ensures ok { IfOk result (IsTask (map (λ w. w.now) words.entry.now)) }
    ensures misuse { IfErr result (λ e. (misuse : Misuse) → e ≡ Usage.Misuse misuse → IsMisuse (map (λ w. w.now) words.entry.now) misuse) }
    ensures named { IsErrOf result Usage.OutOfMemory → NamesNoCommand (map (λ w. w.now) words.entry.now) → ⊥ }
{
    match name_in(words) {
        Ok(name) => task_by(alloc, name, words),
        Err(misuse) => Err(Usage::Misuse(misuse)),
    }
}
