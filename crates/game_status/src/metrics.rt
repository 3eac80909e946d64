//! How many games there are of each kind, in the text format of Prometheus.

ghost use Rattle.std.specs.Prelude.{◌≡◌, ◌++◌, IfOk, OnOk};
ghost use Rattle.std.specs.Fmt.{decimal};
ghost use Rattle.game_status.specs.Metrics.{compared_metrics, gauge, metric, metrics_if_compared, metrics_text, sample, state_metrics};

use crate::totals::Totals;
use itoa::Buffer;
use std::alloc::{AllocError, Global};

/// Adds a text.
fn add(text: &mut Vec<u8>, more: &str) -> Result<(), AllocError>
    ensures { OnOk result (text.new.items ≡ text.old.items ++ more.now) }
{
    text.extend_from_slice(more.as_bytes())
}

/// Adds what a metric is, and its type.
fn add_gauge(text: &mut Vec<u8>, name: &str, help: &str) -> Result<(), AllocError>
    ensures { OnOk result (text.new.items ≡ text.old.items ++ gauge name.now help.now) }
{
    add(text, "# HELP ")?;
    add(text, name)?;
    add(text, " ")?;
    add(text, help)?;
    add(text, "\n# TYPE ")?;
    add(text, name)?;
    add(text, " gauge\n")
}

/// Adds a number in decimal digits.
fn add_number(text: &mut Vec<u8>, number: u64) -> Result<(), AllocError>
    ensures { OnOk result (text.new.items ≡ text.old.items ++ decimal number) }
{
    let mut digits = Buffer::new();
    add(text, digits.format(number))
}

/// Adds the sample of a series.
fn add_sample(text: &mut Vec<u8>, series: &str, number: u64) -> Result<(), AllocError>
    ensures { OnOk result (text.new.items ≡ text.old.items ++ sample series.now number) }
{
    add(text, series)?;
    add(text, " ")?;
    add_number(text, number)?;
    add(text, "\n")
}

/// Adds a metric of one sample.
fn add_metric(text: &mut Vec<u8>, name: &str, help: &str, number: u64) -> Result<(), AllocError>
    ensures { OnOk result (text.new.items ≡ text.old.items ++ metric name.now help.now number) }
{
    add_gauge(text, name, help)?;
    add_sample(text, name, number)
}

/// Adds the games by state.
fn add_states(text: &mut Vec<u8>, totals: &Totals) -> Result<(), AllocError>
    ensures { OnOk result (text.new.items ≡ text.old.items ++ state_metrics totals.now) }
{
    add_gauge(text, "adjudicate_games", "Games of the folder, by state.")?;
    add_sample(text, "adjudicate_games{state=\"open\"}", totals.open_games)?;
    add_sample(
        text,
        "adjudicate_games{state=\"with_verdict\"}",
        totals.sums.ruled,
    )?;
    add_sample(
        text,
        "adjudicate_games{state=\"at_fault\"}",
        totals.sums.faults,
    )?;
    add_sample(
        text,
        "adjudicate_games{state=\"differ\"}",
        totals.sums.differ,
    )
}

/// Adds what comes of comparing two folders.
fn add_comparison(text: &mut Vec<u8>, totals: &Totals) -> Result<(), AllocError>
    ensures { OnOk result (text.new.items ≡ text.old.items ++ compared_metrics totals.now) }
{
    add_metric(
        text,
        "adjudicate_games_differ",
        "Games whose records in the two folders differ.",
        totals.sums.differ,
    )?;
    add_metric(
        text,
        "adjudicate_games_behind",
        "Games of which one folder has a front of the other's record.",
        totals.behind,
    )
}

/// Adds what comes of comparing two folders, where there are two.
fn add_compared(text: &mut Vec<u8>, totals: &Totals, compares: bool) -> Result<(), AllocError>
    ensures { OnOk result (text.new.items ≡ text.old.items ++ metrics_if_compared compares totals.now) }
{
    if compares {
        add_comparison(text, totals)
    } else {
        Ok(())
    }
}

/// The metrics of a folder's games; with those of a comparison where two folders are compared. The error comes only where memory is
/// refused.
pub fn metrics_text(alloc: Global, totals: &Totals, compares: bool) -> Result<Vec<u8>, AllocError>
    ensures { IfOk result (λ text. text.items ≡ metrics_text compares totals.now) }
{
    let mut text = Vec::new(alloc);
    add_states(&mut text, totals)?;
    add_metric(
        &mut text,
        "adjudicate_games_at_fault",
        "Games of which something is at fault.",
        totals.sums.faults,
    )?;
    add_metric(
        &mut text,
        "adjudicate_moves",
        "Moves in the records of the folder.",
        totals.moves,
    )?;
    add_compared(&mut text, totals, compares)?;
    Ok(text)
}
