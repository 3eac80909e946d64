//! Laws over the definitions of specs/, for proofs above: each function carries one law and does nothing.

ghost use Rattle.arbiter_core.specs.Laws.{LastPlyInWords, OneResumed, PutsGrow, ReachedInWords, RecordInWords};

/// A game reaches a ply exactly where the moves before it are legal in turn and no ply before it has a verdict.
pub fn reached_in_words()
    ensures { ReachedInWords }
{}

/// The record at a ply that the game reaches has the moves before it, and a verdict exactly where that ply is the first with one.
pub fn record_in_words()
    ensures { RecordInWords }
{}

/// The last ply that a game reaches is reached, and no later one.
pub fn last_ply_in_words()
    ensures { LastPlyInWords }
{}

/// Kept bytes are resumed as one record at most.
pub fn one_resumed()
    ensures { OneResumed }
{}

/// A record that is put has more moves than the one before, and is that of its own moves where that one was.
pub fn puts_grow()
    ensures { PutsGrow }
{}
