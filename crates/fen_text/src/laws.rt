//! Laws over the definitions alone, for the layers above.

ghost use Rattle.fen_text.specs.Laws.{HasOneText, HasOnePosition, HasOneMove};

/// A text spells a position exactly where it is the text that `write` gives.
pub fn one_text()
    ensures { HasOneText }
{}

/// No text spells two positions.
pub fn one_position()
    ensures { HasOnePosition }
{}

/// No text spells two moves.
pub fn one_move()
    ensures { HasOneMove }
{}
