//! One arbiter of a game: it records the game's moves as they come, and the first verdict.
//!
//! A setup and a keeper go in; an arbiter comes out, over what was kept or with the record of no moves put. Then datagrams go in,
//! and messages to be sent come out. Moves may come late, twice or out of turn; early ones wait in a window of 31 places
//! (`ReorderBuffer`). The record is put with the keeper before it is acknowledged. An arbiter whose keeper failed is closed and
//! opened again over what is kept. `ArbiterState` is all of an arbiter but its tables: it is lent a set for each message, so that
//! many share one, and `Arbiter` is the pair of both. `Keeper` has one ghost, `facts`: what is kept, which outcomes a put may have
//! and what it leaves; `MemoryKeeper` fails on request. This crate knows nothing of squares, table files, sockets, or how long a
//! verdict by tables must hold.
//!
//! Inside: `setup`, `keeper`, `fault`, `played` (the record, and where the game stands), `reorder_buffer`, `opening`, `planning`,
//! `state`, `arbiter`, `laws`.
//!
//! Definitions, in reading order: `Faults`, `Recording` (`record_at`, `advance`), `Answering` (`answer_to`), `Keeping`, `Memory`,
//! `Setups`, `Views`, `Resting`, `Delivers`, `Opens`, `Laws`. `proofs/WorkedRows.antt` computes answers for every game. Its tests stand
//! in `checks_games`; cases in `deliveries.txt` of `rows`.
//!
//! - CLAIM: `Arbiter::deliver`, clause `delivered`; `ArbiterState::deliver`, clauses `answers`, `keeps`: a datagram is answered
//!   by the definition's cases. A refusal leaves the arbiter (but its cache) and the keeper as they were, and messages without a
//!   put change only the moves that wait. Lack of memory comes only for a put that wasn't made, or for more than four messages.
//! - CLAIM: `Arbiter::deliver`, clause `delivered`: a new record is put once, with an outcome that the keeper states, before it
//!   is announced. After a put that fails the arbiter is down, what is kept is the old record or the new, and the keeper's
//!   failures have risen. The bytes are those of the next record in version 2, and of no other.
//! - CLAIM: `Arbiter::open`, clauses `bad`, `good`, `back`; `ArbiterState::open`, clauses `bad`, `good`, `back`; `ArbiterState::open_known`, clause `opens`: a bad setup is
//!   reported first. Over a whole record of this game the arbiter runs from it, over other bytes it is refused, in both cases
//!   with nothing put; over nothing kept the record of no moves is put once. A refusal gives the setup back. Lack of memory is
//!   reported only of a get that reports it, of bytes laid out as a record, or over nothing kept.
//! - CLAIM: `Arbiter::open`, clause `keeps`; `Arbiter::deliver`, clause `keeps`: a running arbiter's record is what its keeper
//!   keeps.
//! - CLAIM: `ArbiterState::deliver`, clauses `same`, `wakes`, `setup`: a state that is lent tables by which its record is whole
//!   answers as the arbiter of both, and leaves these and its setup as they were.
//! - CLAIM: `laws::reached_in_words`; `laws::record_in_words`; `laws::last_ply_in_words`; `laws::one_resumed`: the record at a
//!   ply is the game's first moves, legal in turn, with no verdict before and the first verdict where it lies there.
//! - CLAIM: `laws::puts_grow`: a record that is put has more moves than the one before.
//! - CLAIM: `Arbiter::ask`; `Arbiter::moves`, clauses `moves`, `few`; `Arbiter::verdict`; `Arbiter::close`: what an arbiter asks
//!   for, its moves and its verdict; closing gives its setup back.
//! - CLAIM: `MemoryKeeper`, clause `facts`: a keeper in memory fails as it is set to, and counts no failure for a good put.
//! - CLAIM: `DeliverFault::name`; `OpenFault::name`: the names of faults.
#![tactic(auto)]

mod arbiter;
mod fault;
mod keeper;
pub mod laws;
mod opening;
mod planning;
mod played;
mod reorder_buffer;
mod setup;
mod state;

pub use arbiter::Arbiter;
pub use fault::{DeliverFault, OpenFault};
pub use keeper::{Keep, KeepFault, Keeper, MemoryKeeper, copy_of};
pub use opening::{Refused, RefusedTerms};
pub use setup::{Name, Setup, Terms, name_of};
pub use state::{ArbiterState, Outputs};
