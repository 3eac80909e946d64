//! The answers to the lines of the input as they come, over one system with a timeline.
//!
//! `answer_lines` opens the lines of the input and gives each to a `LineAnswerer`, which reads what the answer asks for, and writes the
//! answer. What was written goes out before a line is awaited; where the next line has come already, nothing is flushed for it. With
//! progress a line on standard error says how many are done after every 10,000.
//!
//! Inside: `lines` (the run), `writing` (an answer).
//!
//! Definitions, in reading order: `LineEvents` (`Answering`, `TakesTurn`, `AreTold`, `AnswersLines`, `AnswersInput`, `AnswersInputLines`), `Writing`
//! (`WritesAnswer`, `at_once`, `while_reading`, `DoesBy`).
//!
//! - CLAIM: `answer_lines`, clause `made`: all that happens outside is one list of events. The lines of the input are opened. Then, line by
//!   line: what was written goes out, or all of the line had come; the line is read; what its answer asks for is read; the answer is
//!   written. The lines that are read are the first ones of the input, where its bytes are known, up to its end. Or a refusal follows the
//!   answers before and nothing after it: `refused memory` at a line that takes memory or for whose bytes there was none, `refused files`
//!   where the input fails or after 2^64 - 1 lines. Where a write is refused, or what was written can't go out, it is a front of that
//!   list, and no line is read behind it.
//! - CLAIM: `answer_lines`, clause `made`: what is known goes from line to line, such as the tables that are open: each line is answered by what
//!   is known behind the one before.
//! - CLAIM: `answer_lines`, clause `cause`: an error comes only where a write might be refused, or what was written couldn't go out.
#![tactic(auto)]

mod lines;
mod writing;

pub use lines::{LineAnswerer, answer_lines};
pub use writing::write_answer;
