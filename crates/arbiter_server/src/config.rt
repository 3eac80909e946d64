//! How a server of games is set up.

use move_msg::ArbiterId;
use std::num::NonZeroUsize;

/// How a server of games is set up: what all its games have in common but their tables, and how many are open at once.
#[derive(Clone, Copy)]
pub struct ServerConfig<'a> {
    /// The manifest of the tables.
    pub manifest: &'a [u8],
    /// Which of the two arbiters of each game it is.
    pub me: ArbiterId,
    /// How many games are open at once, at most.
    pub at_once: NonZeroUsize,
    /// How many datagrams are answered together, at most.
    pub together: NonZeroUsize,
}
