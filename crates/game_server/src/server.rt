//! A server of many games.

ghost use Rattle.std.specs.Prelude.{◌≡◌, IfOk};
ghost use Rattle.arbiter_server.specs.Games.{common_with};
ghost use Rattle.game_server.specs.Seats.{IsNewServer};

use crate::seat::Seat;
use arbiter_server::ServerConfig;
use judge_core::Set;
use lru::LruCache;
use move_msg::Stamp;
use std::alloc::{AllocError, Global};

/// What all games of a server share: how it is set up, the tables that all judge by, and where the games are found.
#[derive(Drop)]
pub struct Shared<'a, G: Drop> {
    pub(crate) alloc: Global,
    pub(crate) config: ServerConfig<'a>,
    pub(crate) tables: Set<'a>,
    pub(crate) games: G,
}

/// A server of games: what all share, and those that are open.
#[derive(Drop)]
pub struct Server<'a, G: Drop, F: Drop> {
    pub(crate) shared: Shared<'a, G>,
    pub(crate) seats: LruCache<Stamp, Seat<'a, F>>,
}

impl<'a, G: Drop, F: Drop> Server<'a, G, F> {
    /// A server over places of games. No game is open yet. The error comes where memory for those that are to be open is refused.
    pub fn open(
        alloc: Global,
        config: ServerConfig<'a>,
        tables: Set<'a>,
        games: G,
    ) -> Result<Server<'a, G, F>, AllocError>
        ensures { IfOk result (IsNewServer (common_with config.entry tables.entry) games) }
    {
        let seats = match LruCache::new(alloc, config.at_once) {
            Ok(seats) => seats,
            Err(_) => return Err(AllocError),
        };
        let shared = Shared {
            alloc,
            config,
            tables,
            games,
        };
        Ok(Server { shared, seats })
    }
}
