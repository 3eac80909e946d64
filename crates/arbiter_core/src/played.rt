//! A game as played so far.

use judge_core::Standing;
use move_msg::WrittenRecord;

/// The record, and where the game stands. That they agree is stated with the setup, which has the rules.
#[derive(Drop)]
pub(crate) struct Played {
    /// The record and its bytes: what is kept, unless the arbiter is down.
    pub record: WrittenRecord,
    /// Where the game stands after its moves.
    pub standing: Standing,
}
