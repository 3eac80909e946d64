//! The calls of the libraries that the cases of `rows` make (`call NAME`), each told as lines: what no command shows.
//!
//! Words go in, lines come out: counted ways to play, parts of positions, indices, dictionaries, table files, messages, records,
//! deliveries. `tell_call` finds the call of a name and writes its result. `crates/rows/data/README.md`, "Calls", has each with
//! its words.
//!
//! Inside: `calls` (the names, and what a case gives: `Given`), `positions` (the rules of chess, texts of positions), `tables`
//! (dictionaries, indices) and `files` (table files), `texts` (messages, records, manifests, words of moves), `rounds` (probes over and
//! over, of a set that keeps few blocks), `deliveries` (an arbiter, told line by line). Where there is no call of the name, or it
//! doesn't take its words, the case is told so by its `Fault`.
//!
//! To run these cases alone without any proof: `rt try -- data/indices.txt data/dictionaries.txt` in `crates/rows`. It is a crate
//! of its own, so that it is proved beside the commands and not after them. A result is compared with the text of a case, and no
//! contract states it: it has no definitions of its own. Its cases stand in `rules.txt`, `indices.txt`, `dictionaries.txt`,
//! `table_files.txt`, `encodings.txt`, `probes.txt`, `deliveries.txt` and `sizes.txt` of `rows`. To add a call, add its name to
//! `calls`, a function to the file of its library, a line to the README of the cases, and a case.
#![tactic(auto)]

mod calls;
mod deliveries;
mod files;
mod positions;
mod rounds;
mod tables;
mod texts;

pub use calls::{Fault, Given, tell_call};
