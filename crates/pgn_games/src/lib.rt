//! The games of a PGN file (PGN standard of 1994), one at a time, in bounded memory.
//!
//! The lines of an input go in, read from a system with a timeline (`timeline::System`); out comes for each game its line, its tags, its start, its moves and its
//! result, or the first fault of it (`Reading`). `PgnReader` holds one line, at most 65,536 bytes, and one game, at most 4,096 moves
//! and 255 bytes of each of six tags: so a file's size takes no memory.
//!
//! What is read: tag pairs with escapes, several on a line, each on one line; moves as `san_text` reads them, their numbers with any
//! dots, results, `$` glyphs, and `!` or `?` alone; comments in braces and behind `;`; lines that begin with `%`, passed over also
//! within a comment; variations to any depth, of which only brackets and comments count. A line ends with LF or CR LF, and bytes need not be text.
//! Where the standard is silent: the last of two tags of a name counts; a FEN tag counts with and without SetUp; a game without a result is
//! read, with the result `Missing`; a byte order mark is no token. A null move is the text of no move.
//!
//! A game begins with its first token. It is over with its result outside of variations, before a `[` in the first column behind its
//! movetext, or at the end of the input. That goes by its tokens alone, so a faulty game ends where a good one would.
//! Inside: `bytes`, `tag_pair`, `tags`, `lexeme`, `phase`, `course` (what a game's tokens tell so far), `cursor` (the line), `lines`, `telling`,
//! `usual`, `reader`; `game`, `fault`; `laws`.
//!
//! Definitions, in reading order: `Lines`, `Bytes`, `Tags`, `Lexemes` (`lexed_at`), `Tokens` (`tokens_of`), `Games` (`ReadsGame`,
//! `SpellsGames`), `Shown`, `Reading` (`tokens_left`, `TellsNextGame`), `LineReads` (`ReadsLines`, `FailsToRead`, `ReadsLinesFor`), `Laws`, `Scores`
//! (`SpellsScore`), `ExportFormat` (`written_score`).
//!
//! - CLAIM: `PgnReader::new`; `PgnReader::next_game`, clause `game`: where the bytes of an input are known, each call reads the next game of
//!   their tokens, and leaves those behind it.
//! - CLAIM: `PgnReader::next_game`, clauses `cause`, `same`: reading fails as `Unreadable` only where the input fails.
//! - CLAIM: `PgnReader::next_game`, clause `made`: nothing happens outside but that the next lines are read, one after another, each once; at the end
//!   of the input that there is none. Where a line can't be read, nothing is read behind it.
//! - CLAIM: `laws::games_are_of_chess`: a game that is read begins at the position of its FEN tag or at the usual one, and its moves, at
//!   most 4,096, are legal in turn.
//! - CLAIM: `laws::moves_are_read_back`: the tokens of texts that are read as moves in turn, and of a result, are read as the game of these
//!   moves.
//! - CLAIM: `laws::none_is_the_end`: no game is told exactly where no token is left.
//! - CLAIM: `laws::one_game_is_read`; `laws::one_list_is_spelled`: tokens are read as one game or fault, and the bytes of a file as one list.
//! - CLAIM: `laws::scores_are_read_back`, clauses `read`, `only`: of a file of scores, with any tags, any white space between tokens, and
//!   numbers of moves or none, these games are read, to its end, and no others.
//! - CLAIM: `laws::export_spells_scores`; `laws::export_is_read_back`, clauses `read`, `only`: so it is with what is written in export
//!   format of legal games that have a result.
#![tactic(auto)]

mod bytes;
mod course;
mod cursor;
mod fault;
mod game;
pub mod laws;
mod lexeme;
mod lines;
mod phase;
mod reader;
mod tag_pair;
mod tags;
mod telling;
mod usual;

pub use fault::{Cause, GameFault};
pub use game::{Game, GameResult, Reading};
pub use reader::PgnReader;
pub use tags::Tags;
