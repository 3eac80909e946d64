//! Why a command line is no task.

ghost use Rattle.std.specs.Prelude.{◌≡◌, ◌++◌, codes};
ghost use Rattle.command_line.specs.declared.words.usage.Usage.TheVariants.{OutOfMemory};
ghost use Rattle.command_line.specs.declared.words.usage.WordsFault.TheVariants.{OutOfMemory as NoRoom};
ghost use Rattle.command_line.specs.Misuses.{instead_name, range_of, wanted_front};
ghost use Rattle.command_line.specs.Usage.{usage_of};

use crate::commands::Name;
use clap::error::ErrorKind;
use std::alloc::AllocError;

/// An option or a word that takes only some values.
#[derive(Clone, Copy)]
pub enum Wanted {
    /// The name of a game.
    GameName,
    /// How many decoded blocks a cache may have.
    Cache,
    /// How many megabytes of tables are kept.
    Memory,
    /// For how many further plies a verdict by tables must hold.
    Delay,
    /// How many datagrams are answered.
    Datagrams,
    /// Which of the two arbiters it is.
    Me,
    /// How many milliseconds the first try of a move lasts.
    Wait,
    /// How often a move is sent.
    Tries,
    /// To which addresses messages are sent.
    Addresses,
    /// To whom answers are sent: addresses, and `sender`.
    Recipients,
    /// At which address datagrams come.
    Address,
    /// How many games are open at once.
    AtOnce,
    /// Which lines of a host are written.
    Log,
    /// Where a host keeps records.
    Store,
    /// The file of the game that is sent.
    GameFile,
    /// How many requests are answered.
    Requests,
    /// The stamp of the game whose record is shown.
    Stamp,
}

impl Wanted {
    /// The option's name, or the word for what is wanted, as it stands before a value.
    pub(crate) fn front(self) -> &'static str
        ensures { result.now ≡ wanted_front self }
    {
        match self {
            Wanted::GameName => "--name ",
            Wanted::Cache => "--cache ",
            Wanted::Memory => "--memory ",
            Wanted::Delay => "--delay ",
            Wanted::Datagrams => "--datagrams ",
            Wanted::Requests => "--requests ",
            Wanted::Me => "--me ",
            Wanted::Wait => "--wait ",
            Wanted::Tries => "--tries ",
            Wanted::Addresses | Wanted::Recipients => "--to ",
            Wanted::Address => "--bind ",
            Wanted::AtOnce => "--at-once ",
            Wanted::Log => "--log ",
            Wanted::Store => "--store ",
            Wanted::GameFile => "--game ",
            Wanted::Stamp => "STAMP ",
        }
    }

    /// The range of values, as it is printed after a value.
    pub(crate) fn rest(self) -> &'static str
        ensures { result.now ≡ codes ": " ++ range_of self }
    {
        match self {
            Wanted::GameName => ": 1 to 64 bytes from the space to the tilde",
            Wanted::Cache => ": 1 to 4096",
            Wanted::Memory => ": 1 to 1000000",
            Wanted::Delay => ": 0 to 8",
            Wanted::Datagrams | Wanted::Requests => ": 0 to 4294967295",
            Wanted::Me => ": 1 or 2",
            Wanted::Wait | Wanted::Tries | Wanted::AtOnce => ": 1 to 65535",
            Wanted::Addresses | Wanted::Recipients => {
                ": ADDR[,ADDR], each a host, a colon and a port"
            }
            Wanted::Address => ": ADDR, a host, a colon and a port",
            Wanted::Log => ": all, changes or none",
            Wanted::Store => ": sqlite or files",
            Wanted::GameFile => ": FOLDER/STAMP.game, with 32 lower-case hexadecimal digits",
            Wanted::Stamp => ": 32 lower-case hexadecimal digits",
        }
    }
}

/// An option that takes the place of others.
#[derive(Clone, Copy)]
pub enum Instead {
    /// A list of games.
    From,
    /// A folder of games.
    Games,
    /// Metrics.
    Prometheus,
    /// Values that are told as soon as they are known.
    Soon,
}

impl Instead {
    /// The option itself.
    pub(crate) fn name(self) -> &'static str
        ensures { result.now ≡ instead_name self }
    {
        match self {
            Instead::From => "from",
            Instead::Games => "games",
            Instead::Prometheus => "prometheus",
            Instead::Soon => "soon",
        }
    }

    /// That another option isn't for this one, as it is printed after that option.
    pub(crate) fn rest(self) -> &'static str
        ensures { result.now ≡ codes " cannot be used with --" ++ instead_name self }
    {
        match self {
            Instead::From => " cannot be used with --from",
            Instead::Games => " cannot be used with --games",
            Instead::Prometheus => " cannot be used with --prometheus",
            Instead::Soon => " cannot be used with --soon",
        }
    }
}

/// A fault of the values of a command.
#[derive(Clone, Copy)]
pub enum ValueFault<'a> {
    /// An option that has to be there isn't.
    NoOption(&'a str),
    /// A word that has to be there isn't.
    NoWord(&'a str),
    /// An option has a value that it doesn't take.
    Unfit(Wanted, &'a str),
    /// An option is there beside another one that takes its place.
    NotWith(Instead, &'a str),
    /// A word is there beside an option that takes its place.
    WordNotWith(Instead, &'a str),
    /// An option stands beside `--game`, whose file tells it.
    Beside(&'a str),
    /// A flag is given beside one that excludes it.
    FlagNotWith(Instead, &'a str),
    /// An option stands without `--games`, of whose folder it tells more.
    WithoutGames(&'a str),
}

/// A fault of the words of a command line.
#[derive(Drop)]
pub enum Misuse<'a> {
    /// There is no word.
    NoCommand,
    /// The first word asks for help.
    Help,
    /// The first word asks for help, and the second one names this command.
    HelpOf(Name),
    /// A word is not UTF-8.
    NoText(&'a [u8]),
    /// The first word names no command, or the one behind a request for help.
    UnknownCommand(&'a str),
    /// The words aren't those that this command has, or ask for help.
    Refused(Name, clap::Error),
    /// This command lacks a value, or doesn't take one.
    Value(Name, ValueFault<'a>),
}

/// Why words are no task.
#[derive(Drop)]
pub enum Usage<'a> {
    /// The words name no command, or the command refuses them.
    Misuse(Misuse<'a>),
    /// Memory was refused.
    OutOfMemory,
}

impl<'a> From<AllocError> for Usage<'a> {
    ghost from_gives = { λ _ e. e ≡ OutOfMemory };

    fn from(_e: AllocError) -> Usage<'a> {
        Usage::OutOfMemory
    }
}

impl<'a> Usage<'a> {
    /// Why a command's parser refuses words.
    pub(crate) fn of(name: Name, error: clap::Error) -> Usage<'a>
        ensures { result ≡ usage_of name error }
    {
        match error.kind() {
            ErrorKind::OutOfMemory => Usage::OutOfMemory,
            _ => Usage::Misuse(Misuse::Refused(name, error)),
        }
    }
}

/// Why the words that a program was called with can't be read.
#[derive(Drop, Debug)]
pub enum WordsFault {
    /// The first word that is not UTF-8.
    NoText(Vec<u8>),
    /// Memory was refused.
    OutOfMemory,
}

impl From<AllocError> for WordsFault {
    ghost from_gives = { λ _ e. e ≡ NoRoom };

    fn from(_e: AllocError) -> WordsFault {
        WordsFault::OutOfMemory
    }
}
