//! Messages between the source of a game and its arbiters, records of games, and their stamps.
//!
//! Bytes and values, both ways: messages of 27 bytes and a stream of them in any pieces (`Feeder`); records (`Record`, and
//! `WrittenRecord`, a record with its bytes); manifests; the stamp of a game (`Stamp`, whose contracts see its bytes) and its name
//! (`GameName`); the moves that a text lists. All numbers have their highest byte first. No disk and no output is used here. A
//! record may have two spellings that are read, so records are relations; messages have a computed reading too (`heard_in`), for worlds.
//!
//! Inside: `message`, `arbiter_id`, `count`, `words`, `coding`, `feeder`, `record_bytes`, `written_record`, `move_list`, `stamp`,
//! `game_name`, `manifest`, `told` (the contents of one), `table_name`, `files`, `message_text`, `game_text`, `laws`.
//!
//! Definitions, in reading order: `Words`, `Numbers`, `Senders`, `Stamps`, `Messages` (`SpellsMessage`), `MessageWords`, `Heard`,
//! `Streams`, `Records` (`SpellsRecord`, `WritesRecord`), `TableNames`, `Manifests`, `Files`, `ToldManifests`, `ToldBy`, `GameTexts`,
//! `TextLines`, `Laws`. `proofs/WorkedRows.antt` computes worked messages. Its tests stand in `checks` (`message_tests`, `record_tests`,
//! `manifest_tests`); cases in `messages.txt`, `encodings.txt` and `records.txt` of `rows`.
//!
//! - CLAIM: `Message::decode`, clauses `ok`, `only`, `err`, `only_fault`, `computed`; `Message::encode`; `laws::one_message`;
//!   `laws::one_spelling`: bytes are read as a message exactly where they spell it, the first fault reported otherwise. A message
//!   has one spelling.
//! - CLAIM: `Feeder::feed`, clauses `going`, `stuck`; `laws::reads_its_stream`; `laws::pieces_do_not_matter`: a stream's messages
//!   come in whatever pieces it comes. After a fault nothing more is taken.
//! - CLAIM: `Record::decode`, clauses `ok`, `only`, `err`, `only_fault`, `memory`; `Record::encode`, clauses `written`,
//!   `spelled`, `size`; `Record::summary`, clauses `some`, `only`; `laws::one_record`; `laws::one_record_spelling`: the same for
//!   records, of version 1 and 2; lack of memory is reported only of bytes laid out as a record. Version 2 alone is written, in
//!   at most 8217 bytes, and a record has one spelling a version.
//! - CLAIM: `WrittenRecord::as_bytes`, clauses `written`, `spelled`, `size`; `WrittenRecord::read`, clauses `ok`, `only`, `err`,
//!   `only_fault`, `memory`; `WrittenRecord::go_on`, clauses `ok`, `err`; `WrittenRecord::cut_back`: a record with its bytes has
//!   the bytes that are written of it after each call; where memory is refused it stays as it was.
//! - CLAIM: `Stamp::of`, clauses `some`, `none`; `GameName::of`, clauses `some`, `none`; `GameName::stamp`: the stamp is the first 16
//!   bytes of the stated digest, the delay in it where it isn't 0, and there is none exactly for other names.
//! - CLAIM: `is_file_name`; `is_game_name`; `Line::of`, clauses `is`, `entry`; `manifest_of`: names of table files and games, a
//!   manifest's line of a file and the manifest of files, by SHA-256.
//! - CLAIM: `manifest_read`, clauses `ok`, `err`, `memory`; `manifest_write`; `laws::one_manifest`; `laws::one_bad_line`: bytes
//!   are read as a manifest exactly where they spell one, with the number of the first line at fault otherwise.
//! - CLAIM: `read_moves`, clauses `ok`, `err`, `memory`: the moves that a text spells, or the place of its first word that is
//!   none.
//! - CLAIM: `word`, clauses `spells`, `bound`; `of_word`, clauses `some`, `none`, `only`; `laws::one_move`: a move is a word of
//!   16 bits, both ways.
//! - CLAIM: `Message`, clause `output`; `Message::stamp`; `Message::sender`; `MessageFault::name`; `RecordFault::name`;
//!   `Feeder::held`, clauses `value`, `part`: a message in words, its stamp and sender, the names of faults, and how many bytes a
//!   feeder holds.
#![tactic(auto)]

mod arbiter_id;
mod coding;
mod count;
mod feeder;
mod files;
mod game_name;
mod game_text;
pub mod laws;
mod manifest;
mod message;
mod message_text;
mod move_list;
mod record_bytes;
mod stamp;
mod table_name;
mod told;
mod words;
mod written_record;

pub use arbiter_id::{ArbiterId, Sender};
pub use board_core::Verdict;
pub use count::{Count, FetchCount, MOST_MOVES};
pub use feeder::Feeder;
pub use files::{NamedFile, file_digest};
pub use game_name::{GameName, is_game_name};
pub use game_text::{next_word, read_moves};
pub use manifest::{Line, ManifestFault, manifest_of, manifest_read, manifest_write};
pub use message::{Message, MessageFault};
pub use move_list::MoveList;
pub use record_bytes::{Record, RecordFault};
pub use stamp::Stamp;
pub use table_name::is_file_name;
pub use told::Manifest;
pub use words::{of_word, word};
pub use written_record::WrittenRecord;
