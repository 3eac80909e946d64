//! What holds of texts and the moves that they name.

ghost use Rattle.move_notation.specs.Laws.{NamesOneMove};

/// A text names one move at most in a position.
pub fn one_move()
    ensures { NamesOneMove }
{
    fen_text::laws::one_move();
    san_text::laws::one_thing();
}
