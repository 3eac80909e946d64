//! An answer before it is written.

use answer_parts::{Line, Refusal};

/// What is answered: all of it as lines, or why it is refused.
#[derive(Drop)]
pub(crate) enum Answer {
    /// The lines.
    Lines(Vec<Line>),
    /// The refusal.
    Refused(Refusal),
}
