//! Probes, verdicts and outcomes of games as text.

ghost use Rattle.std.specs.Prelude.{◌≡◌, ◌++◌, Some, Err, codes};
ghost use Rattle.std.specs.Fmt.{DisplaysOnOk, decimal};
ghost use Rattle.board_core.specs.Verdicts.{verdict_name};
ghost use Rattle.place_index.specs.Material.{name_of, men_of};
ghost use Rattle.judge_core.specs.Words.{column_words, verdict_words};

use crate::fault::ProbeFault;
use crate::game::GameOutcome;
use crate::probe_result::ProbeResult;
use board_core::Verdict;
use place_index::Material;
use std::fmt;

/// A number of the tables, or why there is none, for printing. A number below 0 has `-` before it. Otherwise `refused`,
/// the fault's name, and the name of the missing or damaged table, with spaces between.
#[derive(Clone, Copy)]
pub struct Column(pub Result<i32, ProbeFault>);

/// Both probes of a position and the verdict on it, for printing: three columns with a tab between. Numbers are as in
/// `Column`, the verdict as in `verdict_or_open`.
#[derive(Clone, Copy)]
pub struct Columns {
    /// Both probes.
    pub probed: ProbeResult,
    /// The verdict; none where the game goes on.
    pub verdict: Option<Verdict>,
}

/// The outcome of a game, for printing, with spaces between. `ruled`, the ply and the verdict's name; or `illegal` and
/// the place of the move; or `open` and how many moves were played. Plies and places are counted from 0.
#[derive(Clone, Copy)]
pub struct Outcome {
    /// The outcome of the game.
    pub outcome: GameOutcome,
    /// How many moves it has.
    pub plies: usize,
}

/// The name of a verdict, or `open` where the game goes on.
pub fn verdict_or_open(verdict: Option<Verdict>) -> &'static str
    ensures { result.now ≡ verdict_words verdict }
{
    match verdict {
        None => "open",
        Some(verdict) => verdict.name(),
    }
}

/// Writes a fault by its name.
fn fmt_named<W: fmt::Write>(f: &mut fmt::Formatter<W>, name: &str) -> fmt::Result
    ensures { DisplaysOnOk W.Write.write_str_gives f.old result (Some (codes "refused " ++ name.now)) f.new }
{
    write!(f, "refused {name}")
}

/// Writes a fault by its name, and the table.
fn fmt_of_table<W: fmt::Write>(
    f: &mut fmt::Formatter<W>,
    name: &str,
    material: Material,
) -> fmt::Result
    ensures { DisplaysOnOk W.Write.write_str_gives f.old result (Some (codes "refused " ++ name.now ++ codes " " ++ name_of (men_of material))) f.new }
{
    let table = material.name();
    write!(f, "refused {name} {}", table.as_str())
}

/// Writes why there is no number.
#[tactic(auto, unfolding(crate::specs::Words::column_words))]
fn fmt_fault<W: fmt::Write>(f: &mut fmt::Formatter<W>, fault: ProbeFault) -> fmt::Result
    ensures { DisplaysOnOk W.Write.write_str_gives f.old result (Some (column_words (Err fault))) f.new }
{
    match fault {
        ProbeFault::NotCovered(material) | ProbeFault::Damaged(material) => {
            fmt_of_table(f, fault.name(), material)
        }
        ProbeFault::OutOfScope | ProbeFault::OutOfMemory => fmt_named(f, fault.name()),
    }
}

impl fmt::Display for Column {
    ghost use Rattle.std.specs.Prelude.{Some};
    ghost use Rattle.judge_core.specs.Words.{column_words};

    ghost output = { λ column. Some (column_words column.0) };

    #[tactic(auto, unfolding(crate::specs::Words::column_words))]
    fn fmt<W: fmt::Write>(&self, f: &mut fmt::Formatter<W>) -> fmt::Result {
        match self.0 {
            Ok(number) => write!(f, "{number}"),
            Err(fault) => fmt_fault(f, fault),
        }
    }
}

/// Writes three columns.
fn fmt_columns<W: fmt::Write>(
    f: &mut fmt::Formatter<W>,
    wdl: Column,
    dtz: Column,
    verdict: &str,
) -> fmt::Result
    ensures { DisplaysOnOk W.Write.write_str_gives f.old result (Some (column_words wdl.0 ++ codes "\t" ++ column_words dtz.0 ++ codes "\t" ++ verdict.now)) f.new }
{
    write!(f, "{wdl}\t{dtz}\t{verdict}")
}

impl fmt::Display for Columns {
    ghost use Rattle.std.specs.Prelude.{Some};
    ghost use Rattle.judge_core.specs.Words.{columns_words};

    ghost output = { λ c. Some (columns_words c.probed.wdl c.probed.dtz c.verdict) };

    fn fmt<W: fmt::Write>(&self, f: &mut fmt::Formatter<W>) -> fmt::Result {
        let wdl = Column(self.probed.wdl);
        let dtz = Column(self.probed.dtz);
        fmt_columns(f, wdl, dtz, verdict_or_open(self.verdict))
    }
}

/// Writes a verdict at a ply.
fn fmt_ruled<W: fmt::Write>(f: &mut fmt::Formatter<W>, ply: usize, verdict: Verdict) -> fmt::Result
    ensures { DisplaysOnOk W.Write.write_str_gives f.old result (Some (codes "ruled " ++ decimal ply ++ codes " " ++ verdict_name verdict)) f.new }
{
    write!(f, "ruled {ply} {}", verdict.name())
}

impl fmt::Display for Outcome {
    ghost use Rattle.std.specs.Prelude.{Some};
    ghost use Rattle.judge_core.specs.Words.{outcome_words};

    ghost output = { λ o. Some (outcome_words o.outcome o.plies) };

    #[tactic(auto, unfolding(crate::specs::Words::outcome_words))]
    fn fmt<W: fmt::Write>(&self, f: &mut fmt::Formatter<W>) -> fmt::Result {
        match self.outcome {
            GameOutcome::Ruled { ply, verdict } => fmt_ruled(f, ply, verdict),
            GameOutcome::Illegal { place } => write!(f, "illegal {place}"),
            GameOutcome::Going => write!(f, "open {}", self.plies),
        }
    }
}
