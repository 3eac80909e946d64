//! What a set of tables says about a position, and the verdict on it.
//!
//! Opened tables go into a set. Positions, games and moves go in; values, distances, root moves and verdicts come out, or faults. A
//! position's value is the best of its own table's and of those after its captures: a table may hold less where a capture does
//! better, and ignores en passant. The distance is that to the next move that sets the halfmove clock to 0; a DTZ table may store
//! one side alone, and the other's follows from the positions after its moves. `Standing` keeps where a game stands: each position
//! is judged once, and only this crate knows the rule of delay.
//!
//! Inside: `set`, `table_slots` and `table_slot` (tables in their slots), `blocks` (decoded blocks, and bookmarks of long ones), `reading` (of both),
//! `located_position` (a position as its table sees it); `wdl`, `probing`, `found`, `known`, `many` for WDL; `determined`, `determined_dtz` where
//! tables are missing; `dtz`, `precision`, `counts`, `distance`, `moving`, `mobility`; `category`; `judging`, `verdict`, `answering` (all three at once),
//! `probe_result`, `root`, `root_move`, `standing`, `game`, `display`, `ask` (strict or determined), `fault`, `laws`.
//!
//! Words of Stockfish: `Set::wdl` is `search`, `Set::dtz` `probe_dtz`, a distance before a move that zeroes the clock
//! `dtz_before_zeroing`, `Set::root` `root_probe`.
//! Fathom's words: `Set::wdl` is `probe_wdl`, its search of captures (`capture_search`) `probe_ab`, `Set::dtz` `probe_dtz`, a table's own
//! value (`table_value`) `probe_table`; `Set::root` stands for both `root_probe_dtz` and `root_probe_wdl`.
//!
//! Definitions, in reading order: `Values`, `LookUp`, `Tables`, `Blocks`, `Asked`, `Probing` (`wdl_of`), `Distances` (`dtz_of`),
//! `FiveRules`, `Precision` (`is_precise`), `Categories`, `Ruling`, `Games`, `Standings`, `Answers`, `ProbeResult`, `Root`, `Determined`, `Ask`, `Words`; `Laws`, `RootLaws`,
//! `DeterminedLaws`, `MoreTables`, `Known` (`known_of`). Its tests stand in `checks` (`root_tests`, `determined_tests`, `refusal_tests`); cases in `probes.txt`, `root.txt`,
//! `tables.txt` and `many.txt` of `rows`.
//!
//! - CLAIM: `Set::new`; `Set::add`, clauses `added`, `refused`, `duplicate`, `no_memory`; `Set::cache`, clause `is`;
//!   `Set::kept_blocks`; `Set::has`; `Set::largest`, clauses `is`, `few`: a set holds a table for each kind and material. A second
//!   one is `Duplicate` and changes nothing; adding never reports lack of memory. `has` tells whether a table is there, `largest` the
//!   largest number of men of one. `kept_blocks` gives at most `cache`; no other clause speaks of kept blocks.
//! - CLAIM: `Set::wdl`, clauses `answer`, `unchanged`, `no_memory`; `laws::wdl_meets_its_rule`; `Set::wdl_each`, clauses `each`,
//!   `probe`, `unchanged`: the WDL value is the definition's over whole expanded tables, a missing table before a damaged one,
//!   and lack of memory is never reported; of many positions likewise, but the error of `wdl_each` has no cause.
//! - CLAIM: `Set::known_wdl`, clauses `answer`, `no_memory`, `unchanged`; `Set::known_wdl_each`, clauses `each`, `probe`,
//!   `unchanged`; `laws::value_is_known`; `laws::known_meets_its_rule`; `laws::known_stays_known`: the value as soon as it is known. A capture that leads to a lost position for the opponent wins,
//!   whatever is missing or damaged elsewhere; where none wins, captures and own table say the value or the first fault. It is the
//!   value of `wdl` where that has one, and stays so in a set that has more tables.
//! - CLAIM: `Set::dtz`, clauses `answer`, `memory`, `unchanged`, `filed`; `laws::distance_by_five_rules`;
//!   `laws::dtz_meets_its_rules`: the DTZ value of a position in scope is what the five rules give, each with its faults. For a
//!   set's tables the bound of two positions in a row cuts nothing off, whatever their bytes are. Lack of memory is reported only
//!   where the WDL value is there, no draw, and not by a capture.
//! - CLAIM: `Set::is_precise`, clauses `is`, `memory`, `filed`, `unchanged`: whether the distance isn't rounded, by where the five rules
//!   take it from. That a table's rounded distance is off by one ply at most is a property of its file. `Category::of`;
//!   `Category::name`: what value, distance, precision and clock come to, and its name in the tablebase API of Lichess.
//! - CLAIM: `Set::judge`, clauses `value`, `memory`, `unchanged`; `Set::answers`, clauses `told`, `verdict`, `memory`, `filed`,
//!   `unchanged`; `Set::probe`, clauses `told`, `memory`, `filed`, `unchanged`: the verdict is the ruling, a win by the halfmove
//!   clock and the distance. `judge` reports lack of memory only at a position in scope with a legal move, whose value is a win
//!   or a loss, not by a capture. `answers` gives both probes and the verdict, `probe` the probes; they report it as `dtz` does.
//! - CLAIM: `Set::judge_game`, clauses `value`, `memory`, `unchanged`; `laws::game_has_one_outcome`;
//!   `laws::first_verdict_in_words`; `laws::no_delay_is_the_ruling`; `laws::first_verdict_looks_back`: of a whole game the first
//!   verdict, or the first illegal move, or that it goes on, and one of these alone. The first verdict is that of the least ply
//!   whose ruling is a mate or a stalemate, or has held for the delay. It depends on earlier moves alone.
//! - CLAIM: `Set::begin`, clauses `at`, `memory`; `Set::move_on`, clauses `at`, `memory`; `Set::follow`, clause `standing`;
//!   `Standing::verdict`; `laws::one_move_more`: where a game stands is carried on move by move; the verdict at the last ply is
//!   the definition's over all plies.
//! - CLAIM: `Set::root`, clauses `moves`, `memory`, `filed`, `unchanged`; `RootMove::probed`, clauses `wdl`, `dtz`;
//!   `Effect::captures`; `BoardState::of`: the legal moves with value and distance or their faults, what each does and leaves,
//!   the best first, equal ones in order of moves. Lack of memory is reported only at a position in scope.
//! - CLAIM: `laws::first_move_is_best`; `laws::first_move_wins_within_rule`; `laws::first_move_keeps_the_value`;
//!   `laws::no_capture_is_better`; `laws::nearest_win_is_the_distance`: the first move has a value wherever one has, and none a
//!   better one. Where one wins within the rule of fifty moves, so does the first, at no greater distance. Where the tables agree
//!   at a position (its value is the best of its moves), it keeps the value. Whatever the bytes of the tables are, no capture but
//!   a mate is worth more than the position, and a win whose distance comes from quiet moves is as far as the nearest of these.
//! - CLAIM: `Set::determined_wdl`, clauses `answer`, `unchanged`; `laws::completions_exist`; `laws::determined_value_is_one`: the
//!   value that every completion of the missing WDL tables gives; the strict fault exactly where none is given. Every set has a
//!   completion, so there is one such value at most. Lack of memory is never reported.
//! - CLAIM: `Set::determined_dtz`, clauses `answer`, `memory`, `unchanged`; `Set::determined_answers`, clauses `told`, `verdict`,
//!   `memory`; `laws::determined_distance_is_one`: a distance that every set with more tables gives, and one at most,
//!   told beside the set's own exactly where the value is a draw, by a capture, or a win by a pawn move, or where by the set only
//!   the quiet moves are left and each has a distance of the set or by its value; both with the strict verdict. Lack of memory is
//!   reported only where `dtz` may report it, or where the value is a win, not by a capture, whose strict distance is a fault.
//! - CLAIM: `Set::determined_root`, clauses `moves`, `memory`; `laws::determined_answers_are_one`; `laws::determined_move_is_as_probed`;
//!   `laws::first_determined_move_is_best`; `laws::first_determined_move_wins_within_rule`: the root moves by these values, those
//!   that the probes tell. The first has a value wherever one has, and none a better one; where one wins within the rule of fifty
//!   moves, so does the first, at no greater distance.
//! - CLAIM: `is_out_of_scope`, clause `is`: whether a position is outside the tables' scope.
//! - CLAIM: `Set::share`, clauses `shared`, `unchanged`: a second set with the tables of the first and a cache of its own.
//! - CLAIM: `laws::more_tables_answer_the_same`; `laws::what_is_missing_stays_missing`; `laws::what_is_not_final_can_be_opened`;
//!   `laws::adding_keeps_the_rest`; `laws::final_stays_final`; `laws::asking_again_ends`; `laws::games_depend_on_rulings`: a set that
//!   has more tables gives the same values, distances, verdicts and root moves, but where the first set misses a table that it has.
//!   What is named as missing is missing, and the answer stays until it is there. So whoever opens it, where there is one, and asks
//!   again, comes to the answer of the whole set, after no more rounds than tables were opened. A game depends on the tables by the
//!   rulings of its plies alone. Of determined answers these laws say nothing.
//! - CLAIM: `Ask::of`; `Ask::answers`, clauses `told`, `verdict`, `memory`, `unchanged`; `Ask::root`, clauses `moves`, `memory`,
//!   `unchanged`: the calls above, strict or determined.
//! - CLAIM: `verdict_or_open`; `ProbeFault::name`; `Columns`, clause `output`; `Outcome`, clause `output`: as text.
#![tactic(auto)]

mod answering;
mod ask;
mod blocks;
mod category;
mod counts;
mod determined;
mod determined_dtz;
mod display;
mod distance;
mod dtz;
mod fault;
mod found;
mod game;
mod judging;
mod known;
pub mod laws;
mod located_position;
mod many;
mod mobility;
mod moving;
mod precision;
mod probe_result;
mod probing;
mod reading;
mod root;
mod root_move;
mod set;
mod standing;
mod table_slot;
mod table_slots;
mod verdict;
mod wdl;

pub use ask::Ask;
pub use board_core::Verdict;
pub use category::Category;
pub use display::{Column, Columns, Outcome, verdict_or_open};
pub use fault::{ProbeFault, SetFault, ValueFault};
pub use game::{Followed, GameOutcome};
pub use probe_result::ProbeResult;
pub use root_move::{BoardState, Effect, RootMove};
pub use set::Set;
pub use standing::Standing;
pub use verdict::is_out_of_scope;
pub use wdl::Wdl;
