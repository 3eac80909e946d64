//! Runs of a server of games over one timeline, as those of hosts.

ghost use Rattle.game_folder.specs.FolderGames.{folder_games_facts};
ghost use Rattle.game_folder.specs.OneGame.{one_game_facts};
ghost use Rattle.theorems.specs.ServedWeaves.{ServedAreWoven};
ghost use Rattle.theorems.specs.Served.{ServedAreHosted, ServedFrontsAreHosted, ServedRunsAreHosted};

use timeline::System;

/// What a run of a server does of a game is what a run of a host does, where each opening is over what was left: so of a server that begins
/// with no game open, and of one that has opened a game unasked, whether or not it requests moves then. A run that was stopped is such a one too.
pub fn served_are_hosted<S: System, G: game_folder::Games<S>>(_system: &S)
    ensures run { ServedAreHosted (S.outside _system.now) (G.facts _system.now) }
    ensures front { ServedFrontsAreHosted (S.outside _system.now) (G.facts _system.now) }
{}

/// Over the file of one game, where it is durable, each opening is over what was left: so each run of its server, wherever it stopped, is one of
/// a host.
pub fn served_game_is_hosted<S: System>(_system: &S)
    ensures { ServedRunsAreHosted (S.outside _system.now) (one_game_facts (S.outside _system.now)) }
{}

/// So is each run of a folder's server, of a game whose own file tells this game whenever it is read, and the file of whose record is durable.
pub fn served_folder_is_hosted<S: System>(_system: &S)
    ensures { ServedRunsAreHosted (S.outside _system.now) (folder_games_facts (S.outside _system.now)) }
{}

/// Two servers of one game, each over files, come to a net as `hosts_are_worlds` asks, by where each opening begins: that keepers keep, and what
/// a closing leaves, are no premises then. So whatever a start may find over each is what a world of the game keeps.
///
/// The premises stand in `specs/ServedWeaves.antt`: nothing stands in the two files at first; each opening is over what was left, in its run and
/// over all runs; and no move or request of the game is made up.
pub fn served_are_woven<S: System, R: System, G: game_folder::Games<S>, H: game_folder::Games<R>>(
    _system: &S,
    _other: &R,
)
    ensures { ServedAreWoven (G.facts _system.now) (H.facts _other.now) }
{}
