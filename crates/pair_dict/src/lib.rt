//! Pair dictionaries of Syzygy tables: the codes of a table's blocks, and the values that their symbols stand for.
//!
//! The bytes of a table file from the greatest code length on go in; a dictionary that borrows them comes out, with how many
//! bytes it took, or the first refusal. It gives a block's value at an offset (`value`) or its first values (`decode`). Inside:
//! `layout`, `two_bytes`, `symbols`, `nodes`, `counts`, `codes`, `hints`, `words` for what is read; `window`, `runs`, `places`, `bookmarks` for the
//! loop over a block; `dictionary`, `fault`, `laws`.
//!
//! Words of Stockfish: a symbol's pair is `btree`, its count `symlen` (one less), the least and greatest code length `minSymLen`
//! and `maxSymLen`, first symbol and base `lowestSym` and `base64`; `Dictionary::read` is `set_sizes`.
//! Fathom's words: `Dictionary::read` is `setup_pairs`, `settle_all` of `counts` is `calc_symLen`, `Dictionary::value`
//! `decompress_pairs`.
//!
//! Definitions, in reading order: `Symbols` (`HasSymbolValues`: the least relation; a symbol in a cycle has none), `Codes` (`IsCode`),
//! `Blocks` (`block_values`), `Beginnings`, `Reading` (`SpellsDictionary`), `FirstFault`. Its cases stand in `dictionaries.txt`
//! of `rows`: the worked dictionary, chains of 256 and 257 values, codes of 32 bits, bases that no code can have.
//!
//! - CLAIM: `Dictionary::read`, clauses `is`, `values`, `fits`, `memory`; `reads_what_is_spelled`; `first_fault_is_told`: a
//!   dictionary is read exactly from the bytes that spell one, otherwise the first fault from the left is reported, exactly where
//!   it is the first. Lack of memory is reported only once the layout is there and in order.
//! - CLAIM: `Dictionary::value`, clauses `found`, `damaged`: it is the block's value at an offset, and `Damaged` exactly at and
//!   past the end of its values.
//! - CLAIM: `Dictionary::value_marked`, clauses `found`, `damaged`, `marks`: the same, from a place on that was passed before; the
//!   places that are noted are this block's.
//! - CLAIM: `Dictionary::decode`, clauses `values`, `asked`, `room`, `none`: it gives the block's first values, and reserves at
//!   most as many as are requested and 2048 for each byte of the block. A request for none is never refused.
//! - CLAIM: `Dictionary::block_is_computed`, clauses `computed`, `front`; `values_are_computed`; `values_are_unique`;
//!   `values_are_tested`: a block's values are those of the longest list of symbols whose codes begin it.
#![tactic(auto)]

mod bookmarks;
mod codes;
mod counts;
mod dictionary;
mod fault;
mod hints;
mod laws;
mod layout;
mod nodes;
mod places;
mod runs;
mod symbols;
mod two_bytes;
mod window;
mod words;

pub use bookmarks::Bookmarks;
pub use dictionary::Dictionary;
pub use fault::{Damaged, DictFault};
pub use laws::{
    first_fault_is_told, reads_what_is_spelled, values_are_computed, values_are_tested,
    values_are_unique,
};
