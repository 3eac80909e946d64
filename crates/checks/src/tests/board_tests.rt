//! Positions whose moves are known apart from the code, and each call of `board_core` once.

use crate::tests::comparing::check_same;
use crate::tests::positions::{position_of, square};
use board_core::{Bitboard, Square};
use check_helpers::START;
use std::process::Abort;

fn with(set: Bitboard, square: Square) -> Bitboard {
    set.with(square)
}

fn corners(rt: &impl Abort) -> Bitboard {
    let one = with(Bitboard::empty(), square(rt, 63));
    with(one, square(rt, 0))
}

fn occupied(rt: &impl Abort) -> Bitboard {
    position_of(rt, START).occupied()
}

fn both(first: Bitboard, second: Bitboard) -> Bitboard {
    first & second
}

fn either(first: Bitboard, second: Bitboard) -> Bitboard {
    first | second
}

fn check_set(rt: &impl Abort, set: Bitboard, count: u32) {
    check_same(rt, set.len(), count, "squares");
    check_same(rt, set.is_empty(), count == 0, "empty");
}

#[test]
fn sets_of_squares_are_counted(rt: HostRuntime) {
    let men = occupied(&rt);
    check_set(&rt, men, 32);
    check_set(&rt, both(men, corners(&rt)), 2);
    check_set(&rt, either(men, corners(&rt)), 32);
    check_set(&rt, Bitboard::empty(), 0);
}

fn has(rt: &impl Abort, set: Bitboard, number: u8) -> bool {
    set.has(square(rt, number))
}

/// The lowest square of a set after this one is taken out.
fn lowest_without(rt: &impl Abort, set: Bitboard, number: u8) -> u8 {
    let rest = set.without(square(rt, number));
    assert!(rt; !rest.is_empty());
    rest.lowest().number()
}

#[test]
fn sets_of_squares_are_looked_into(rt: HostRuntime) {
    let men = occupied(&rt);
    check_same(&rt, has(&rt, men, 28), false, "e4");
    check_same(&rt, has(&rt, men, 60), true, "e8");
    check_same(&rt, lowest_without(&rt, men, 0), 1, "b1");
}

#[test]
fn squares_have_files_and_ranks(rt: HostRuntime) {
    let d5 = square(&rt, 35);
    check_same(&rt, (d5.file(), d5.rank()), (3, 4), "d5");
    check_same(&rt, Square::new(64).is_none(), true, "64");
}
