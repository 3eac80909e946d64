//! Two servers of games over stores, or one over a store and one over files, as two hosts.

ghost use Rattle.served_games.specs.Durable.{KeepsAtOnce};
ghost use Rattle.theorems.specs.ServedStores.{StoreBesideFiles, StoresAreWoven};

use game_folder::Games;
use timeline::System;

/// Two servers of one game, each over a store of its own, come to a net as `hosts_are_worlds` asks, by the acts that happened of their runs
/// (`served_games::laws::store_runs_last`), in whichever order those of the two came: that keepers keep, and what a closing leaves, are no
/// premises. So what a start may find in each store is what a world of the game keeps, and all that both sent is among what it has sent, beside
/// answers that were lost. So do a server over a store and one whose records are put in files at once.
///
/// The premises stand in `specs/ServedStores.antt`: nothing of the game is found at first, and the stores and the file are durable; the game that
/// was found under the stamp is this one; and no move or request of it is made up.
pub fn served_stores_are_woven<S: System, R: System, H: Games<R>>(_system: &S, _other: &R)
    ensures stores { StoresAreWoven (S.outside _system.now) (R.outside _other.now) }
    ensures files { KeepsAtOnce (H.facts _other.now) → StoreBesideFiles (S.outside _system.now) (R.outside _other.now) (H.facts _other.now) }
{}
