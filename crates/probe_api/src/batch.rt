//! One question asked of many boards.

ghost use Rattle.std.specs.Prelude.{◌≡◌, ◌≢◌, ◌<◌, ◌≤◌, length, map, slice_index_or, IfOk, IfSome};
ghost use Rattle.board_core.specs.declared.parts.Parts.{Parts};
ghost use Rattle.probe_api.specs.declared.board.Board.{Board};
ghost use Rattle.probe_api.specs.Batches.{AreTold, TellsBoards};
ghost use Rattle.probe_api.specs.Inside.{AreShown, AreValues, IsAnswerBy, answer_by, question_of};

use crate::asking::{Question, answer_board, wdl_reply};
use crate::board::{Board, position_on};
use crate::reply::Reply;
use board_core::Position;
use judge_core::{ProbeFault, Set, Wdl};
use std::alloc::{AllocError, Global};
use std::ops::Range;

fn board_at(boards: &[Board], place: usize) -> &Board
    requires { place < length boards.now }
    ensures { (other : Board) → slice_index_or boards.now place other ≡ result.now }
{
    &boards[place]
}

/// What is asked of each board in a part of the list, in its place.
fn answer_between(
    alloc: Global,
    set: &mut Set<'_>,
    question: Question,
    boards: &[Board],
    part: Range<usize>,
    replies: &mut [Reply],
)
    requires lengths { length boards.now ≡ length replies.old }
    requires from { part.start ≤ part.end }
    requires to { part.end ≤ length boards.now }
    requires before { AreTold question set.old.tables boards.now replies.old part.start }
    ensures places { length replies.new ≡ length replies.old }
    ensures each { AreTold question set.old.tables boards.now replies.new part.end }
    ensures kept { set.new ≡ set.old }
{
    for place in part.start..part.end {
        let board = board_at(boards, place);
        let reply = answer_board(alloc, set, question, board);
        replies[place] = reply;
    }
}

/// How far the captures are searched for the values of boards that are looked up side by side.
#[derive(Clone, Copy)]
enum Search {
    /// All of them, as `Question::Wdl` asks.
    Whole,
    /// Up to one that wins, as `Question::KnownWdl` asks.
    ToAWin,
}

impl Search {
    /// The question that asks so.
    fn question(self) -> Question
        ensures { result ≡ question_of self }
    {
        match self {
            Search::Whole => Question::Wdl,
            Search::ToAWin => Question::KnownWdl,
        }
    }
}

/// How many boards are looked up side by side. Where one of them shows no position they are answered one by one.
const SIDE_BY_SIDE: usize = 16;

/// The positions that the boards show; none where one of them shows none, or where memory is refused.
fn positions_on(alloc: Global, boards: &[Board]) -> Option<Vec<Position>>
    ensures { IfSome result (λ positions. AreShown boards.now positions.items) }
{
    let Ok(mut positions) = Vec::with_capacity(alloc, boards.len()) else {
        return None;
    };
    for place in 0..boards.len() {
        let Ok(position) = position_on(board_at(boards, place)) else {
            return None;
        };
        let Ok(()) = positions.push(position) else {
            return None;
        };
    }
    Some(positions)
}

/// The values of positions, looked up side by side. The error comes where memory is refused.
fn values_of(
    alloc: Global,
    set: &mut Set<'_>,
    search: Search,
    positions: &[Position],
) -> Result<Vec<Result<Wdl, ProbeFault>>, AllocError>
    ensures each { IfOk result (λ values. values.items ≡ map (answer_by search set.old.tables) positions.now) }
    ensures probe { (p : Parts) → IsAnswerBy search set.old.tables p (answer_by search set.old.tables p) }
    ensures kept { set.new ≡ set.old }
{
    match search {
        Search::Whole => set.wdl_each(alloc, positions),
        Search::ToAWin => set.known_wdl_each(alloc, positions),
    }
}

/// The values of the boards, looked up side by side; none where a board shows no position, or where memory is refused.
fn values_on(
    alloc: Global,
    set: &mut Set<'_>,
    search: Search,
    boards: &[Board],
) -> Option<Vec<Result<Wdl, ProbeFault>>>
    ensures are { IfSome result (λ values. AreValues search set.old.tables boards.now values.items) }
    ensures kept { set.new ≡ set.old }
{
    let Some(positions) = positions_on(alloc, boards) else {
        return None;
    };
    match values_of(alloc, set, search, &positions) {
        Ok(values) => Some(values),
        Err(_) => None,
    }
}

/// The value of each board in a part of the list, in its place.
fn wdl_between(
    alloc: Global,
    set: &mut Set<'_>,
    search: Search,
    boards: &[Board],
    part: Range<usize>,
    replies: &mut [Reply],
)
    requires lengths { length boards.now ≡ length replies.old }
    requires from { part.start ≤ part.end }
    requires to { part.end ≤ length boards.now }
    requires before { AreTold (question_of search) set.old.tables boards.now replies.old part.start }
    ensures places { length replies.new ≡ length replies.old }
    ensures each { AreTold (question_of search) set.old.tables boards.now replies.new part.end }
    ensures kept { set.new ≡ set.old }
{
    let Some(values) = values_on(alloc, set, search, &boards[part.start..part.end]) else {
        answer_between(alloc, set, search.question(), boards, part, replies);
        return;
    };
    for i in 0..values.len() {
        replies[part.start + i] = wdl_reply(values[i]);
    }
}

/// The value of each board, in its place. `SIDE_BY_SIDE` of them at a time are looked up side by side.
fn wdl_of_each(
    alloc: Global,
    set: &mut Set<'_>,
    search: Search,
    boards: &[Board],
    replies: &mut [Reply],
)
    requires { length boards.now ≡ length replies.old }
    ensures places { length replies.new ≡ length replies.old }
    ensures each { TellsBoards (question_of search) set.old.tables boards.now replies.new }
    ensures kept { set.new ≡ set.old }
{
    let mut from: usize = 0;
    'boards: while from < boards.len() {
        let to = from + SIDE_BY_SIDE.min(boards.len() - from);
        wdl_between(alloc, set, search, boards, from..to, replies);
        from = to;
    }
}

/// What is asked of each board, in its place.
fn answer_each(
    alloc: Global,
    set: &mut Set<'_>,
    question: Question,
    boards: &[Board],
    replies: &mut [Reply],
)
    requires { length boards.now ≡ length replies.old }
    ensures places { length replies.new ≡ length replies.old }
    ensures each { TellsBoards question set.old.tables boards.now replies.new }
    ensures kept { set.new ≡ set.old }
{
    match question {
        Question::Wdl => wdl_of_each(alloc, set, Search::Whole, boards, replies),
        Question::KnownWdl => wdl_of_each(alloc, set, Search::ToAWin, boards, replies),
        Question::Dtz | Question::Verdict | Question::DeterminedWdl | Question::DeterminedDtz => {
            answer_between(alloc, set, question, boards, 0..boards.len(), replies)
        }
    }
}

/// What is asked of each board, in its place, where there are as many replies as boards. The status is 0, or 82 where there
/// are not.
pub fn answer_boards(
    alloc: Global,
    set: &mut Set<'_>,
    question: Question,
    boards: &[Board],
    replies: &mut [Reply],
) -> u32
    ensures is { result ≡ 0 → TellsBoards question set.old.tables boards.now replies.new }
    ensures lengths { length boards.now ≡ length replies.old → result ≡ 0 }
    ensures other { length boards.now ≢ length replies.old → result ≡ 82 }
    ensures refused { result ≢ 0 → replies.new ≡ replies.old }
    ensures kept { set.new ≡ set.old }
{
    if boards.len() != replies.len() {
        return 82;
    }
    answer_each(alloc, set, question, boards, replies);
    0
}
