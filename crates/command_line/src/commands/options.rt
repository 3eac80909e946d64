//! What more than one command takes: each option, flag or word once, as those that need it have it. A command in which it may be left
//! out, or which takes it in one of its two forms, says so by `stands`.

use crate::commands::{Form, Stands, Value};

/// The folder of the tables.
pub(crate) const TABLES: Value = Value {
    name: "tables",
    form: Form::Option,
    word: "DIR",
    about: "the folder of the table files",
    stands: Stands::Needed,
};

/// The folder of the tables, where a command does without.
pub(crate) const TABLES_IF_ANY: Value = Value {
    about: "the folder of the table files; no tables unless set",
    stands: Stands::Optional,
    ..TABLES
};

/// The manifest that the tables have to be those of.
pub(crate) const MANIFEST: Value = Value {
    name: "manifest",
    form: Form::Option,
    word: "FILE",
    about: "takes the tables of this manifest, and checks them; all of DIR unless set",
    stands: Stands::Optional,
};

/// The manifest that stands for the tables of a game's stamp.
pub(crate) const MANIFEST_OF_GAME: Value = Value {
    about: "makes the stamp by this manifest, and reads no table; by those of DIR unless set",
    ..MANIFEST
};

/// That tables are read when a position asks for one.
pub(crate) const LAZY: Value = Value {
    name: "lazy",
    form: Form::Flag,
    word: "",
    about: "reads a table when the position asks for it; all of them first unless set",
    stands: Stands::Optional,
};

/// That all tables are read first.
pub(crate) const ALL_TABLES: Value = Value {
    name: "all-tables",
    form: Form::Flag,
    word: "",
    about: "reads all tables first; each when a position asks for it unless set",
    stands: Stands::Optional,
};

/// How many megabytes of tables are kept.
pub(crate) const MEMORY: Value = Value {
    name: "memory",
    form: Form::Option,
    word: "MB",
    about: "MB of tables kept if not all are read first, 1 to 1000000; no bound unless set",
    stands: Stands::Optional,
};

/// The delay of a verdict.
pub(crate) const DELAY: Value = Value {
    name: "delay",
    form: Form::Option,
    word: "N",
    about: "further plies for which a verdict by tables must hold, 0 to 8; 0 unless set",
    stands: Stands::Optional,
};

/// Objects in place of lines.
pub(crate) const JSON: Value = Value {
    name: "json",
    form: Form::Flag,
    word: "",
    about: "writes JSON objects, one a line",
    stands: Stands::Optional,
};

/// Determined values in place of strict ones.
pub(crate) const DETERMINED: Value = Value {
    name: "determined",
    form: Form::Flag,
    word: "",
    about: "prints a value also where a table is missing, if the others determine it",
    stands: Stands::Optional,
};

/// How far it is.
pub(crate) const PROGRESS: Value = Value {
    name: "progress",
    form: Form::Flag,
    word: "",
    about: "prints on standard error how much is done",
    stands: Stands::Optional,
};

/// Moves in algebraic notation.
pub(crate) const SAN: Value = Value {
    name: "san",
    form: Form::Flag,
    word: "",
    about: "reads moves in algebraic notation, as Nf3; in coordinates, as g1f3, unless set",
    stands: Stands::Optional,
};

/// A position.
pub(crate) const FEN: Value = Value {
    name: "FEN",
    form: Form::Word,
    word: "FEN",
    about: "the position, one word",
    stands: Stands::Needed,
};

/// The position from which a game starts, as a word.
pub(crate) const START_WORD: Value = Value {
    about: "the position from which the game starts, one word",
    ..FEN
};

/// A folder, as a word.
pub(crate) const FOLDER: Value = Value {
    name: "DIR",
    form: Form::Word,
    word: "DIR",
    about: "the folder of the table files",
    stands: Stands::Needed,
};

/// The name of a game.
pub(crate) const NAME: Value = Value {
    name: "name",
    form: Form::Option,
    word: "NAME",
    about: "the name of the game, 1 to 64 bytes from the space to the tilde",
    stands: Stands::Needed,
};

/// The position from which a game starts.
pub(crate) const START: Value = Value {
    name: "start",
    form: Form::Option,
    word: "FEN",
    about: "the position from which the game starts",
    stands: Stands::Needed,
};

/// A folder of games.
pub(crate) const GAMES: Value = Value {
    name: "games",
    form: Form::Option,
    word: "DIR",
    about: "the folder of games",
    stands: Stands::Needed,
};

/// The folder of games that pages show.
pub(crate) const GAMES_SHOWN: Value = Value {
    about: "the folder of games that pages show; none unless set",
    stands: Stands::Optional,
    ..GAMES
};

/// A second folder of games.
pub(crate) const OTHER_GAMES: Value = Value {
    name: "other",
    form: Form::Option,
    word: "DIR",
    about: "a second folder of games, with which the first is compared",
    stands: Stands::Optional,
};

/// Which arbiter it is.
pub(crate) const ME: Value = Value {
    name: "me",
    form: Form::Option,
    word: "1|2",
    about: "the number of this arbiter",
    stands: Stands::Needed,
};

/// The address at which datagrams come.
pub(crate) const BIND: Value = Value {
    name: "bind",
    form: Form::Option,
    word: "ADDR",
    about: "its own address: an IP address or host name, a colon and a port",
    stands: Stands::Needed,
};

/// To whom an arbiter's answers are sent.
pub(crate) const RECIPIENTS: Value = Value {
    name: "to",
    form: Form::Option,
    word: "ADDR[,ADDR]",
    about: "where answers go; sender is where the answered datagram came from",
    stands: Stands::Needed,
};

/// After how many datagrams it ends.
pub(crate) const DATAGRAMS: Value = Value {
    name: "datagrams",
    form: Form::Option,
    word: "N",
    about: "ends after so many datagrams, 0 to 4294967295; never unless set",
    stands: Stands::Optional,
};

/// The file of the keys by which datagrams are sealed.
pub(crate) const KEY: Value = Value {
    name: "key",
    form: Form::Option,
    word: "FILE",
    about: "seals by the keys of FILE: 1 or 2 lines of 64 hex digits, mode 600; else bare",
    stands: Stands::Optional,
};

/// How many decoded blocks are kept.
pub(crate) const CACHE: Value = Value {
    name: "cache",
    form: Form::Option,
    word: "N",
    about: "blocks of tables kept decoded, 1 to 4096; 64 unless set",
    stands: Stands::Optional,
};
