//! Two records of one game that are compared by the files alone.

ghost use Rattle.std.specs.Prelude.{◌≡◌};
ghost use Rattle.game_status.specs.Comparisons.{IsAlone, IsComparedAs, IsRecordsComparedAs, mark_of, mark_of_two};
ghost use Rattle.game_status.specs.Inside.Parting.{IsApart};

use crate::telling::Mark;
use move_msg::Record;
use record_audit::compare_records;

/// What comes of comparing what two folders keep of a game.
#[derive(Clone, Copy)]
pub enum Compared {
    /// The moves and the verdict are the same, or nothing is kept.
    Agree,
    /// One has no verdict, and the other begins with its moves: by how many it is behind, at least one.
    Behind(usize),
    /// One folder keeps a record without a move, and the other keeps none.
    Unopened,
    /// The first ply at which they part otherwise.
    Differ(usize),
}

/// What comes of two records that part at a ply, of which one has so many moves, and the other so many.
fn apart(ply: usize, count: usize, other: usize) -> Compared
    ensures { IsApart ply count other result }
{
    let shorter = count.min(other);
    if ply > shorter {
        Compared::Behind(count.max(other) - shorter)
    } else {
        Compared::Differ(ply)
    }
}

/// What comes of comparing two records.
fn compare_two(one: &Record, other: &Record) -> Compared
    ensures { IsRecordsComparedAs one.now other.now result }
{
    match compare_records(one, other) {
        None => Compared::Agree,
        Some(ply) => apart(
            ply,
            one.moves.as_slice().len(),
            other.moves.as_slice().len(),
        ),
    }
}

/// What comes of a record beside which the other folder keeps none.
fn compare_alone(kept: &Record) -> Compared
    ensures { IsAlone kept.now result }
{
    let moves = kept.moves.as_slice().len();
    if moves > 0 {
        Compared::Behind(moves)
    } else {
        Compared::Unopened
    }
}

/// What comes of comparing what two folders keep of a game.
pub(crate) fn compare_kept(one: &Option<Record>, other: &Option<Record>) -> Compared
    ensures { IsComparedAs one.now other.now result }
{
    match (one, other) {
        (None, None) => Compared::Agree,
        (Some(record), None) => compare_alone(record),
        (None, Some(record)) => compare_alone(record),
        (Some(one), Some(other)) => compare_two(one, other),
    }
}

/// How a game is counted of which this is kept.
pub(crate) fn mark_of(kept: &Option<Record>) -> Mark
    ensures { result ≡ mark_of kept.now }
{
    match kept {
        Some(record) if record.verdict.is_some() => Mark::Ruled,
        _ => Mark::Open,
    }
}

/// How a game is counted that one folder keeps so, with what comes of comparing it to what the other keeps.
pub(crate) fn mark_of_two(kept: &Option<Record>, compared: Compared) -> Mark
    ensures { result ≡ mark_of_two kept.now compared }
{
    match compared {
        Compared::Agree => mark_of(kept),
        Compared::Behind(_) | Compared::Unopened => Mark::Open,
        Compared::Differ(_) => Mark::Differs,
    }
}
