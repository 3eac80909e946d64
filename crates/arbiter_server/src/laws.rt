//! Laws over the lines of a server: each function carries one law and does nothing.

ghost use Rattle.arbiter_server.specs.Laws.{ChangesHideNothing, VerdictsAreLogged};

/// A log of changes hides no line of a game: each count and verdict that was told is in it.
pub fn changes_hide_nothing()
    ensures lines { ChangesHideNothing }
    ensures verdicts { VerdictsAreLogged }
{}
