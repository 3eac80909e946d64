//! The lines that the program writes.

ghost use Rattle.std.specs.Prelude.{◌≡◌, ◌≤◌, ◌++◌, ◌∷◌, codes, length};
ghost use Rattle.std.specs.Fmt.{decimal};
ghost use Rattle.board_core.specs.Verdicts.{verdict_name};
ghost use Rattle.fen_text.specs.Coordinates.{move_text};
ghost use Rattle.judge_core.specs.Words.{column_words, columns_words, outcome_words};
ghost use Rattle.move_msg.specs.MessageWords.{message_words};
ghost use Rattle.record_audit.specs.Findings.{finding_words};
ghost use Rattle.answer_parts.specs.Lines.{arbiter_words, look_word, look_words, mark_word, probed_of, root_line_words, root_words, state_word, told_words, words_of};
ghost use Rattle.relay_world.specs.Texts.{who_word};

use crate::answers::line_parts::{add_column, add_word, numbered, verdict_word};
use crate::answers::refusals::Refusal;
use arrayvec::ArrayString;
use board_core::{Move, Verdict};
use fen_text::write_move;
use game_status::{add_finding, add_moves};
use judge_core::{
    BoardState, Column, Columns, Effect, GameOutcome, Outcome, ProbeFault, ProbeResult, RootMove,
};
use line_teller::LineWords;
use move_msg::{ArbiterId, Message};
use record_audit::Finding;
use relay_world::State;
use table_folder::FileFault;

/// What an arbiter keeps.
#[derive(Clone, Copy)]
pub struct KeptCount {
    /// How many moves.
    pub count: u32,
    /// The verdict, if there is one.
    pub verdict: Option<Verdict>,
}

/// A legal move and what tables tell of it.
#[derive(Clone, Copy)]
pub struct RootLine {
    /// The move.
    pub(crate) played: Move,
    /// What it does.
    pub(crate) effect: Effect,
    /// How the position after it stands.
    pub(crate) state: BoardState,
    /// Its value and its distance.
    pub probed: ProbeResult,
}

impl RootLine {
    /// What is told of a move.
    pub fn of(m: &RootMove) -> RootLine
        ensures words { root_line_words result ≡ root_words m.now }
        ensures probed { result.probed ≡ probed_of m.now }
    {
        RootLine {
            played: m.played,
            effect: m.effect,
            state: m.state,
            probed: m.probed(),
        }
    }

    /// The word for what becomes of the game or of the halfmove clock.
    fn mark(&self) -> &'static str
        ensures is { result.now ≡ mark_word self.now.state self.now.effect }
        ensures short { length result.now ≤ 9 }
    {
        match self.state {
            BoardState::Checkmate => "mate",
            BoardState::Stalemate => "stalemate",
            BoardState::Open | BoardState::Check => {
                if self.effect.zeroes_clock() {
                    "zeroing"
                } else {
                    "-"
                }
            }
        }
    }

    /// Its line.
    #[tactic(auto, unfolding(crate::specs::Lines::root_line_words))]
    fn words(&self) -> LineWords
        ensures { result ≡ root_line_words self.now }
    {
        let mut line = told_line(write_move(&self.played).as_str(), self.probed.wdl);
        match self.probed.wdl {
            Ok(_) => {
                line.add(" ");
                add_column(&mut line, self.probed.dtz);
                add_word(&mut line, self.mark());
                line
            }
            Err(_) => line,
        }
    }
}

/// A line, without its line feed.
#[derive(Clone, Copy)]
pub enum Line {
    /// The verdict on a position; none where the game goes on.
    Ruling(Option<Verdict>),
    /// Why something is refused.
    Refused(Refusal),
    /// A move in coordinates.
    Move(Move),
    /// A move in coordinates, and its text in algebraic notation.
    SanMove(Move, ArrayString<8>),
    /// Whether the file of this name is the table that it should be.
    Look(ArrayString<16>, Option<FileFault>),
    /// The value in the tables, or why there is none.
    Wdl(Column),
    /// The distance in the tables, or why there is none.
    Dtz(Column),
    /// A message.
    Message(Message),
    /// The state of an arbiter, and what it keeps, if anything.
    Arbiter(ArbiterId, State, Option<KeptCount>),
    /// How many messages were sent.
    Sent(usize),
    /// The finding on a kept file.
    Finding(Finding),
    /// At which ply two records part first, if they do.
    Compared(Option<usize>),
    /// The outcome of a game.
    Outcome(Outcome),
    /// The value in the tables alone, or why there is none.
    Value(Column),
    /// Both probes of a position, and the verdict on it.
    Columns(Columns),
    /// A legal move and what tables tell of it.
    Root(RootLine),
}

/// The line of a number of the tables, or why there is none, behind a word.
fn told_line(question: &str, told: Result<i32, ProbeFault>) -> LineWords
    requires { length question.now ≤ 40 }
    ensures is { result ≡ told_words question.now told }
    ensures size { length result ≤ 81 }
{
    let mut line = LineWords::of(question);
    line.add(" ");
    add_column(&mut line, told);
    line
}

/// The word for what was found of a file.
fn look_word(fault: Option<FileFault>) -> &'static str
    ensures is { result.now ≡ look_word fault }
    ensures short { length result.now ≤ 11 }
{
    match fault {
        None => "ok",
        Some(fault) => fault.name(),
    }
}

/// The line of a file that was looked at.
fn look_line(name: &ArrayString<16>, fault: Option<FileFault>) -> LineWords
    ensures { result ≡ look_words name.now.bytes fault }
{
    let mut line = LineWords::of(name.as_str());
    add_word(&mut line, look_word(fault));
    line
}

/// A message without what follows its number.
fn message_head(kind: &str, sender: u8, number: u32) -> LineWords
    requires { length kind.now ≤ 8 }
    ensures is { result ≡ kind.now ++ decimal sender ++ codes " " ++ decimal number }
    ensures size { length result ≤ 89 }
{
    let mut line = LineWords::of(kind);
    line.add_number(sender);
    line.add(" ");
    line.add_number(number);
    line
}

/// The line of a message.
#[tactic(auto, unfolding(move_msg::specs::MessageWords::message_words))]
fn message_line(message: &Message) -> LineWords
    ensures { result ≡ message_words message.now }
{
    match *message {
        Message::Move {
            sender,
            number,
            ref m,
            ..
        } => {
            let mut line = message_head("Move ", sender.number(), number);
            add_word(&mut line, write_move(m).as_str());
            line
        }
        Message::Ack { who, count, .. } => message_head("Ack ", who.number(), count.number()),
        Message::Verdict {
            who,
            ply,
            verdict,
            ..
        } => {
            let mut line = message_head("Verdict ", who.number(), ply.number());
            add_word(&mut line, verdict_word(Some(verdict)));
            line
        }
        Message::Fetch {
            who,
            number,
            wanted,
            ..
        } => {
            let mut line = message_head("Fetch ", who.number(), number.number());
            line.add(" ");
            line.add_number(wanted.number());
            line
        }
    }
}

/// The letter of an arbiter.
fn letter_of(who: ArbiterId) -> &'static str
    ensures is { result.now ≡ who_word who }
    ensures short { length result.now ≤ 1 }
{
    match who {
        ArbiterId::A => "A",
        ArbiterId::B => "B",
    }
}

/// The word for the state of an arbiter.
fn state_word(state: State) -> &'static str
    ensures is { result.now ≡ state_word state }
    ensures short { length result.now ≤ 7 }
{
    match state {
        State::Running => "running",
        State::Down => "down",
        State::Closed => "closed",
    }
}

/// The line of an arbiter: its state, and what it keeps.
#[tactic(auto, unfolding(crate::specs::Lines::arbiter_words))]
fn arbiter_line(who: ArbiterId, state: State, kept: Option<KeptCount>) -> LineWords
    ensures { result ≡ arbiter_words who state kept }
{
    let mut line = LineWords::of(letter_of(who));
    add_word(&mut line, state_word(state));
    match kept {
        None => {
            line.add(" - none");
            line
        }
        Some(kept) => {
            line.add(" ");
            add_moves(&mut line, kept.count as usize, kept.verdict);
            line
        }
    }
}

/// The line of a move in coordinates, with its text in algebraic notation behind a tab.
fn san_line(m: &Move, text: &ArrayString<8>) -> LineWords
    ensures { result ≡ move_text m.now ++ 9 ∷ text.now.bytes }
{
    let mut line = LineWords::of(write_move(m).as_str());
    line.add("\t");
    line.add(text.as_str());
    line
}

/// The line of a finding.
fn finding_line(finding: Finding) -> LineWords
    ensures { result ≡ finding_words finding }
{
    let mut line = LineWords::new();
    add_finding(&mut line, finding);
    line
}

/// The line of a game that ends by a verdict.
fn ruled_line(ply: usize, verdict: Verdict) -> LineWords
    ensures { result ≡ codes "ruled " ++ decimal ply ++ codes " " ++ verdict_name verdict }
{
    let mut line = numbered("ruled ", ply);
    add_word(&mut line, verdict_word(Some(verdict)));
    line
}

/// The line of the outcome of a game.
#[tactic(auto, unfolding(judge_core::specs::Words::outcome_words))]
fn outcome_line(outcome: &Outcome) -> LineWords
    ensures { result ≡ outcome_words outcome.now.outcome outcome.now.plies }
{
    match outcome.outcome {
        GameOutcome::Ruled { ply, verdict } => ruled_line(ply, verdict),
        GameOutcome::Illegal { place } => numbered("illegal ", place),
        GameOutcome::Going => numbered("open ", outcome.plies),
    }
}

/// The line of a number of the tables, or why there is none.
fn value_line(told: Result<i32, ProbeFault>) -> LineWords
    ensures { result ≡ column_words told }
{
    let mut line = LineWords::new();
    add_column(&mut line, told);
    line
}

/// The line of both probes of a position and the verdict on it, with a tab between two of them.
fn columns_line(columns: &Columns) -> LineWords
    ensures { result ≡ columns_words columns.now.probed.wdl columns.now.probed.dtz columns.now.verdict }
{
    let mut line = LineWords::new();
    add_column(&mut line, columns.probed.wdl);
    line.add("\t");
    add_column(&mut line, columns.probed.dtz);
    line.add("\t");
    line.add(verdict_word(columns.verdict));
    line
}

impl Line {
    /// Its words.
    pub fn words(&self) -> LineWords
        ensures { result ≡ words_of self.now }
    {
        match self {
            Line::Ruling(verdict) => LineWords::of(verdict_word(*verdict)),
            Line::Refused(refusal) => refusal.words(),
            Line::Move(m) => LineWords::of(write_move(m).as_str()),
            Line::SanMove(m, text) => san_line(m, text),
            Line::Look(name, fault) => look_line(name, *fault),
            Line::Wdl(told) => told_line("wdl", told.0),
            Line::Dtz(told) => told_line("dtz", told.0),
            Line::Message(message) => message_line(message),
            Line::Arbiter(who, state, kept) => arbiter_line(*who, *state, *kept),
            Line::Sent(number) => numbered("sent ", *number),
            Line::Finding(finding) => finding_line(*finding),
            Line::Compared(None) => LineWords::of("agree"),
            Line::Compared(Some(ply)) => numbered("differ ", *ply),
            Line::Outcome(outcome) => outcome_line(outcome),
            Line::Value(told) => value_line(told.0),
            Line::Columns(columns) => columns_line(columns),
            Line::Root(line) => line.words(),
        }
    }
}
