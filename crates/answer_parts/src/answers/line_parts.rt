//! Parts of lines: words and numbers behind others, verdicts, and what tables tell.

ghost use Rattle.std.specs.Prelude.{◌≡◌, ◌≤◌, ◌+◌, ◌++◌, Err, codes, length};
ghost use Rattle.std.specs.Fmt.{decimal};
ghost use Rattle.judge_core.specs.Words.{column_words, verdict_words};

use board_core::Verdict;
use judge_core::{ProbeFault, verdict_or_open};
use line_teller::LineWords;

/// The line of words and a number behind them.
pub(crate) fn numbered(words: &str, number: usize) -> LineWords
    requires { length words.now ≤ 40 }
    ensures is { result ≡ words.now ++ decimal number }
    ensures size { length result ≤ 80 }
{
    let mut line = LineWords::of(words);
    line.add_number(number);
    line
}

/// Adds a space and a word.
pub(crate) fn add_word(line: &mut LineWords, word: &str)
    requires { length line.old + length word.now ≤ 254 }
    ensures is { line.new ≡ line.old ++ codes " " ++ word.now }
    ensures size { length line.new ≡ length line.old + length word.now + 1 }
{
    line.add(" ");
    line.add(word);
}

/// The name of a verdict, or `open`.
pub(crate) fn verdict_word(verdict: Option<Verdict>) -> &'static str
    ensures is { result.now ≡ verdict_words verdict }
    ensures short { length result.now ≤ 10 }
{
    verdict_or_open(verdict)
}

/// Adds why there is no number: the fault, and the table that is missing or damaged.
#[tactic(auto, unfolding(judge_core::specs::Words::column_words))]
fn add_probe_fault(line: &mut LineWords, fault: ProbeFault)
    requires { length line.old ≤ 200 }
    ensures is { line.new ≡ line.old ++ column_words (Err fault) }
    ensures size { length line.new ≤ length line.old + 28 }
{
    line.add("refused ");
    line.add(fault.name());
    match fault {
        ProbeFault::NotCovered(material) | ProbeFault::Damaged(material) => {
            add_word(line, material.name().as_str());
        }
        ProbeFault::OutOfScope | ProbeFault::OutOfMemory => {}
    }
}

/// Adds a number of the tables, or why there is none.
#[tactic(auto, unfolding(judge_core::specs::Words::column_words))]
pub(crate) fn add_column(line: &mut LineWords, told: Result<i32, ProbeFault>)
    requires { length line.old ≤ 200 }
    ensures is { line.new ≡ line.old ++ column_words told }
    ensures size { length line.new ≤ length line.old + 40 }
{
    match told {
        Ok(number) => line.add_number(number),
        Err(fault) => add_probe_fault(line, fault),
    }
}
