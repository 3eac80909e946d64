//! Values and distances that are the same whatever a missing table holds, by a set with the queen's table alone.

use crate::tests::comparing::check_same;
use crate::tests::files::is_added;
use crate::tests::positions::position_of;
use check_helpers::{QUEEN, file_of};
use judge_core::{ProbeFault, RootMove, Set, Wdl};
use std::alloc::Global;
use std::process::Abort;
use std::test::Fail;

/// A position, and its value and distance where they are determined.
#[derive(Clone, Copy)]
struct Row {
    text: &'static str,
    wdl: Option<Wdl>,
    dtz: Option<i32>,
}

const ROWS: [Row; 3] = [
    // The queen takes the knight and wins. The table for king and queen against king and knight is missing.
    Row {
        text: "8/7n/8/4k3/8/8/K7/1Q6 w - - 0 1",
        wdl: Some(Wdl::Win),
        dtz: Some(1),
    },
    // It can't take the knight, so that the missing table could say anything.
    Row {
        text: "8/6n1/8/4k3/8/8/K7/1Q6 w - - 0 1",
        wdl: None,
        dtz: None,
    },
    // The knight is taken in one ply, but what else the other side has is told by the missing table.
    Row {
        text: "8/7n/8/4k3/8/8/K7/1Q6 b - - 0 1",
        wdl: None,
        dtz: None,
    },
];

fn check_missing<X>(rt: &impl Abort, told: &Result<X, ProbeFault>, row: &str) {
    let is_missing = matches!(told, Err(ProbeFault::NotCovered(_)));
    check_same(rt, is_missing, true, row);
}

fn check_value(rt: &impl Abort, alloc: Global, set: &mut Set<'_>, row: &Row) {
    let position = position_of(rt, row.text);
    check_missing(rt, &set.wdl(alloc, &position), row.text);
    let told = set.determined_wdl(alloc, &position);
    match row.wdl {
        Some(value) => check_same(rt, told, Ok(value), row.text),
        None => check_missing(rt, &told, row.text),
    }
}

fn check_distance(rt: &impl Abort, alloc: Global, set: &mut Set<'_>, row: &Row) {
    let told = set.determined_dtz(alloc, &position_of(rt, row.text));
    match row.dtz {
        Some(plies) => check_same(rt, told, Ok(plies), row.text),
        None => check_missing(rt, &told, row.text),
    }
}

fn check_rows(rt: &impl Abort, alloc: Global, set: &mut Set<'_>) {
    for row in &ROWS {
        check_value(rt, alloc, set, row);
        check_distance(rt, alloc, set, row);
    }
}

fn check_first(rt: &impl Abort, first: &RootMove) {
    check_same(rt, first.wdl, Ok(Wdl::Win), "the first move");
    check_same(rt, first.dtz, Ok(1), "the first move");
}

/// The capture comes first, and both calls say so.
fn check_root(rt: &impl Abort, alloc: Global, set: &mut Set<'_>) {
    if let Ok(Some(moves)) = set.determined_root(alloc, &position_of(rt, ROWS[0].text)) {
        if let Some(first) = moves.first() {
            check_first(rt, first);
        }
    }
}

fn check_with<'a>(
    rt: &impl Abort,
    alloc: Global,
    set: &mut Set<'a>,
    file: &'a [u8; 80],
) -> Result<(), Fail> {
    if is_added(rt, alloc, set, "KQvK.rtbw", file)? {
        check_rows(rt, alloc, set);
        check_root(rt, alloc, set);
    }
    Ok(())
}

#[test]
fn captures_decide_without_a_table(rt: HostRuntime) -> Result<(), Fail> {
    let file = file_of(&QUEEN);
    let mut set = Set::new(rt.alloc(), 1)?;
    check_with(&rt, rt.alloc(), &mut set, &file)
}
