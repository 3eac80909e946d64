//! How far a game has come.

ghost use Rattle.std.specs.Prelude.{◌≡◌, ◌&&◌, Bool, Some, MatchOption};
ghost use Rattle.pgn_games.specs.Lines.{one_more};
ghost use Rattle.pgn_games.specs.Lexemes.{Telling};
ghost use Rattle.pgn_games.specs.Games.{phase_after_token, depth_of, goes_on, is_tag_in_first_column, over_at};
ghost use Rattle.pgn_games.specs.Inside.Scan.{lexeme_of};

use crate::lexeme::Lexeme;

/// How far a game has come.
#[derive(Clone, Copy)]
pub enum Phase {
    /// No token of its movetext has come.
    Tags,
    /// So many variations are open in its movetext.
    Moves(u64),
    /// Its result has come.
    Over,
}

/// One more, up to 2^64 - 1.
pub(crate) fn one_more(n: u64) -> u64
    ensures { result ≡ one_more n }
{
    if n < u64::MAX { n + 1 } else { n }
}

/// How many variations are open.
pub(crate) fn depth_of(phase: Phase) -> u64
    ensures { result ≡ depth_of phase }
{
    match phase {
        Phase::Moves(depth) => depth,
        _ => 0,
    }
}

/// How far the game has come after a result.
fn over_at(depth: u64) -> Phase
    ensures { result ≡ over_at depth }
{
    if depth == 0 {
        Phase::Over
    } else {
        Phase::Moves(depth)
    }
}

/// How far the game has come after a token.
pub(crate) fn after(phase: Phase, lexeme: Lexeme<'_>) -> Phase
    ensures { (first : Bool) → MatchOption (lexeme_of first lexeme.entry) (result ≡ phase) (λ told. result ≡ phase_after_token phase told) }
{
    let depth = depth_of(phase);
    match lexeme {
        Lexeme::MoveText(_) => Phase::Moves(depth),
        Lexeme::Begins => Phase::Moves(one_more(depth)),
        Lexeme::Ends => Phase::Moves(depth.saturating_sub(1)),
        Lexeme::Told(_) => over_at(depth),
        _ => phase,
    }
}

fn is_tag(lexeme: Lexeme<'_>) -> bool
    ensures { (first : Bool) (told : Telling) → lexeme_of first lexeme.entry ≡ Some told → (first && result) ≡ is_tag_in_first_column told }
{
    match lexeme {
        Lexeme::Tag(_) => true,
        Lexeme::BadTag => true,
        _ => false,
    }
}

/// Whether a token, in the first column or not, still belongs to a game.
pub(crate) fn goes_on(phase: Phase, first: bool, lexeme: Lexeme<'_>) -> bool
    ensures { (told : Telling) → lexeme_of first lexeme.entry ≡ Some told → result ≡ goes_on phase told }
{
    match phase {
        Phase::Tags => true,
        Phase::Moves(_) => !(first && is_tag(lexeme)),
        Phase::Over => false,
    }
}
