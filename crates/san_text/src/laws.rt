//! Laws over the definitions alone, for the layers above.

ghost use Rattle.san_text.specs.Laws.{IsReadBack, MovesDifferInText, TellsOneThing, CastlingIsTold, MarksMate, MarksCheck};

/// What is written for a legal move is read as this move.
pub fn is_read_back()
    ensures { IsReadBack }
{}

/// Two legal moves of a position have two texts.
pub fn one_move()
    ensures { MovesDifferInText }
{}

/// A text tells one thing at most.
pub fn one_thing()
    ensures { TellsOneThing }
{}

/// Castling is told exactly of the moves that castle.
pub fn castling_is_told()
    ensures { CastlingIsTold }
{}

/// A text has `#` exactly where the position after the move is checkmate.
pub fn marks_mate()
    ensures { MarksMate }
{}

/// A text has `+` exactly where the position after the move is check, and no checkmate.
pub fn marks_check()
    ensures { MarksCheck }
{}
