//! Syzygy table files: what a file says, checked once when it is opened, and single values and blocks read from it.
//!
//! The name and the bytes of a file go in; a table that borrows them comes out, or the first refusal. What `open` checked is the
//! table's invariant, and nothing is checked again. `Table::part` gives the part for a side to move and a leading pawn's file,
//! and has no condition on these. A part gives a single value, the spot of one (`locate`), or the values of a block (`unpack`).
//! `forge` takes a plan and writes a file, for tests.
//!
//! What a file says: `kind`, `material`, `parts`, `places`, `size_record`, `codes`, `maps`, `reading`. Where a value is: `sparse`
//! (the check of the sparse entries, linear by sums), `spots`, `steps` (the count of block lengths), `at_spot`, `marked`. The rest:
//! `table`, `table_part`, `outcome`, `plan`, `forging`, `laws`, `fault`.
//!
//! Words of Stockfish: a table is `TBTable`, a part `PairsData`, flags `TBFlag`, block lengths `blockLength`, a block's size
//! `sizeofBlock`, sparse entries `sparseIndex`, value maps `set_dtz_map`, `map_score`; `TablePart::stores` is `check_dtz_stm`.
//! Fathom's words: `open` is `init_table`; the map of an outcome, which `Maps::entry` reads, is `tb->map` at `WdlToMap`;
//! `counts_moves` is `PAFlags`, after which `plies` doubles. The wide map: `maps_of` and `Maps::entry`; an entry is `map_entry`
//! in `specs/Distances.antt`.
//!
//! Definitions, in reading order: `Layouts` (`IsLayout`: the one to read), `FirstFaults`; what a file says, read from left to right:
//! `Reading`, `Faults`, `Names`, `Dictionaries`, `Figures`, `SizeRecords`, `Shapes`, `Files`, `Maps`, `Sparse`, `Sections`, `Tables`; its
//! values: `Expansion` (`expansion`), `Distances`; then `Plan`, `PlannedFile`, `Forged` for the writer. Its tests stand in `checks`
//! (`forge_tests`); cases in `forged.txt` and `table_files.txt` of `rows`.
//!
//! - CLAIM: `open`, clauses `is`, `found`, `only`, `first`, `memory`; `reads_what_is_laid_out`; `tells_first_fault`: exactly the
//!   files are accepted that have parts by the layout. Otherwise the first fault in the file's order is reported, and lack of
//!   memory only once name, size, magic and flags are good.
//! - CLAIM: `TablePart::value`, clauses `found`, `damaged`: it is the entry of the expanded table, `Damaged` exactly where there
//!   is none or it is damaged.
//! - CLAIM: `TablePart::stores`; `TablePart::dtz`, clauses `found`, `damaged`, `most`; `a_side_is_stored`: whether a DTZ table
//!   has values for a side, and the distance in plies through the value map, doubled where it counts moves. A file stores one
//!   side at least. `TablePart::counts_moves`: whether it counts moves, for an outcome.
//! - CLAIM: `TablePart::locate`, clauses `found`, `real`, `damaged`, `cost`: the single value, or a real block and offset of the
//!   entry. Below the size it reads at most half a span and 65536 block lengths.
//! - CLAIM: `TablePart::unpack`, clauses `is`, `few`; `TablePart::value_in_block`, clauses `found`, `damaged`;
//!   `TablePart::value_among`; `TablePart::plies_of`, clauses `found`, `damaged`, `most`: a block's values, at most 65536, and a
//!   value or a distance from them or at a spot.
//! - CLAIM: `TablePart::value_marked`, clauses `found`, `damaged`, `marks`: the same value from a place of the block that was passed
//!   before; the places that are noted are this block's.
//! - CLAIM: `forge`, clauses `ok`, `good`: where it answers Ok, it wrote exactly the bytes of the plan's definition, which open
//!   under the plan's name with its values.
//! - CLAIM: `forge`, clauses `good`, `io`, `bad`, `untouched`: a plan that breaks a rule of `specs/Plan.antt` is never written;
//!   `BadPlan` comes only for a plan that can't be forged, `Io` only for one that can. `BadPlan` and `OutOfMemory` leave the
//!   writer as it was.
//! - CLAIM: `file_name`; `laws::names_differ`: the name of the file of a kind and a material; two tables have two names.
//! - CLAIM: `TableFault::name`: the name of a fault.
#![tactic(auto)]

mod at_spot;
mod codes;
mod fault;
mod forging;
mod kind;
mod laws;
mod maps;
mod marked;
mod material;
mod outcome;
mod parts;
mod places;
mod plan;
mod reading;
mod size_record;
mod sparse;
mod spots;
mod steps;
mod table;
mod table_part;

pub use fault::TableFault;
pub use forging::{ForgeFault, forge};
pub use kind::{TableKind, file_name};
pub use laws::{a_side_is_stored, names_differ, reads_what_is_laid_out, tells_first_fault};
pub use marked::no_bookmarks;
pub use outcome::Outcome;
pub use pair_dict::{Bookmarks, Damaged};
pub use plan::{Content, MapsPlan, PairsPlan, PartPlan, Plan};
pub use spots::Spot;
pub use steps::Steps;
pub use table::{Table, open};
pub use table_part::TablePart;
