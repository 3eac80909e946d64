//! The source of a live game over a system in memory: what it sends, the lines of its run, and the order of all that happens.

use crate::tests::comparing::{check_bytes, check_same, push_bytes};
use crate::tests::source_port::{FIRST, From, SECOND, STAMP, datagrams_of, system_of, turns_of};
use board_core::Position;
use check_helpers::START;
use fen_text::read;
use move_notation::Notation;
use source_core::{GameToSend, Origin, SendConfig, send_moves};
use std::alloc::Global;
use std::process::Abort;
use std::time::Duration;
use system_io::WriteFault;
use timeline::{Stream, System};
use timeline_fakes::{MemorySystem, MemoryTimeline, Recorded};

/// A game to mate at ply 4.
const MATE: &str = "f2f3\ne7e5\ng2g4\nd8h4\n";

/// A run: its input and whether that fails at its end, how often a move is sent at most, what comes, the lines, the status, and what
/// passes. That is `c` for a datagram that came, `q` where none came in time, `m` for a receive that failed, and for a datagram
/// that is sent the digit of its move's number.
struct Row {
    input: &'static str,
    fails: bool,
    tries: u32,
    words: &'static str,
    lines: &'static str,
    status: u8,
    passed: &'static str,
}

/// A run: its input, how often a move is sent at most, what comes, which of the calls that may fail does, the status, and all that happens.
struct OrderRow {
    input: &'static str,
    tries: u32,
    words: &'static str,
    fails_at: Option<usize>,
    status: Result<u8, WriteFault>,
    happens: &'static str,
}

fn terms(origin: Origin, tries: u32) -> SendConfig {
    SendConfig {
        stamp: STAMP,
        origin,
        notation: Notation::Coordinates,
        tries,
        wait: Duration::from_millis(1),
    }
}

/// The position before the first move.
fn first_position(rt: &impl Abort) -> Position {
    read(START.as_bytes()).expect(rt, START)
}

/// The end of a run over a system's input.
fn sent(
    rt: &impl Abort,
    alloc: Global,
    system: &MemorySystem<'_>,
    timeline: &mut MemoryTimeline,
    terms: SendConfig,
) -> Result<u8, WriteFault> {
    let game = GameToSend {
        terms,
        start: first_position(rt),
        to: "127.0.0.1:7331,127.0.0.1:7332",
    };
    let port = system
        .bind(timeline, alloc, "127.0.0.1:0", &[FIRST, SECOND])
        .ok()
        .expect(rt, "port");
    let lines = system.input_lines(timeline, alloc).ok().expect(rt, "lines");
    match send_moves(alloc, system, timeline, &game, lines, port) {
        Ok(ended) => Ok(ended.status()),
        Err(fault) => Err(fault),
    }
}

/// The digit of the number of a move that is sent.
fn digit_of(datagram: &[u8]) -> u8 {
    datagram.get(24).copied().unwrap_or(9).wrapping_add(b'0')
}

/// The letter of what passed at a port; none of anything else.
fn passed_letter(event: &Recorded) -> Option<u8> {
    match event {
        Recorded::Came { .. } => Some(b'c'),
        Recorded::Quiet { .. } => Some(b'q'),
        Recorded::Missed => Some(b'm'),
        Recorded::Sent { bytes, .. } => Some(digit_of(bytes)),
        _ => None,
    }
}

/// The letter of what happened elsewhere: `l` for a line that was read, `e` for the input's end, `n` for a note, `w` for bytes that were
/// written, `f` where they went out, and `r` where they were refused.
fn other_letter(event: &Recorded) -> u8 {
    match event {
        Recorded::LineRead { line: Ok(None), .. } => b'e',
        Recorded::LineRead { .. } => b'l',
        Recorded::Noted { .. } => b'n',
        Recorded::Wrote {
            to: Stream::Output,
            ..
        } => b'w',
        Recorded::Flushed { to: Stream::Output } => b'f',
        Recorded::Refused { to: Stream::Output } => b'r',
        _ => b'?',
    }
}

/// All that happened.
fn events_of<'a>(rt: &impl Abort, timeline: &'a MemoryTimeline) -> &'a [Recorded] {
    timeline.events().expect(rt, "memory")
}

/// All that passed at a port has these letters.
fn check_passed(rt: &impl Abort, alloc: Global, timeline: &MemoryTimeline, passed: &str) {
    let mut letters = Vec::new(alloc);
    for event in events_of(rt, timeline) {
        if let Some(letter) = passed_letter(event) {
            push_bytes(rt, &mut letters, &[letter]);
        }
    }
    check_bytes(rt, &letters, passed.as_bytes(), passed);
}

/// All that happened behind the opening of the port and of the input has these letters.
fn check_order(rt: &impl Abort, alloc: Global, timeline: &MemoryTimeline, happens: &str) {
    let mut letters = Vec::new(alloc);
    for event in events_of(rt, timeline).iter().skip(2) {
        let letter = passed_letter(event).unwrap_or(other_letter(event));
        push_bytes(rt, &mut letters, &[letter]);
    }
    check_bytes(rt, &letters, happens.as_bytes(), happens);
}

/// All that was written to the output.
fn written(rt: &impl Abort, alloc: Global, timeline: &MemoryTimeline) -> Vec<u8> {
    let mut lines = Vec::new(alloc);
    for event in events_of(rt, timeline) {
        if let Recorded::Wrote {
            to: Stream::Output,
            bytes,
        } = event
        {
            push_bytes(rt, &mut lines, bytes);
        }
    }
    lines
}

/// A run of a row: its lines, its status, and what passes.
fn check_row(rt: &impl Abort, alloc: Global, origin: Origin, row: &Row) {
    let datagrams = datagrams_of(rt, alloc, row.words);
    let turns = turns_of(rt, alloc, row.words, From::Nobody, &datagrams);
    let system = system_of(row.input, row.fails, &turns);
    let mut timeline = MemoryTimeline::new(alloc, None);
    let ended = sent(rt, alloc, &system, &mut timeline, terms(origin, row.tries));
    let lines = written(rt, alloc, &timeline);
    check_bytes(rt, &lines, row.lines.as_bytes(), row.words);
    check_same(rt, ended, Ok(row.status), row.words);
    check_passed(rt, alloc, &timeline, row.passed);
}

fn check_rows(rt: &impl Abort, alloc: Global, origin: Origin, rows: &[Row]) {
    for row in rows {
        check_row(rt, alloc, origin, row);
    }
}

/// Arbiters that answer: a whole game; a start over the moves of a game that is under way, and one of a game that has its
/// verdict; verdicts that are lost, and come when the last move is sent once more at the input's end.
const ANSWERED: [Row; 4] = [
    Row {
        input: MATE,
        fails: false,
        tries: 9,
        words: "a1b1--b2a2--a3b3--a4A4b4B4",
        lines: "1 acked\n2 acked\n3 acked\nverdict 4 BlackMates\n",
        status: 0,
        passed: "00ccq11ccq22ccq33cccc",
    },
    Row {
        input: "f2f3\ne7e5\ng2g4\n",
        fails: false,
        tries: 9,
        words: "a3b3--",
        lines: "1 acked\n2 acked\n3 acked\nopen 3\n",
        status: 0,
        passed: "00ccq22q",
    },
    Row {
        input: MATE,
        fails: false,
        tries: 9,
        words: "a4A4b4B4",
        lines: "verdict 4 BlackMates\n",
        status: 0,
        passed: "00cccc",
    },
    Row {
        input: MATE,
        fails: false,
        tries: 9,
        words: "a3b3--a4b4--A4B4",
        lines: "1 acked\n2 acked\n3 acked\n4 acked\nverdict 4 BlackMates\n",
        status: 0,
        passed: "00ccq33ccq33cc",
    },
];

/// Datagrams that are lost on the way there or back, come twice, late or from another game; a verdict that one arbiter alone has
/// reported; one that never answers; and a port that is lost.
const LOST: [Row; 5] = [
    Row {
        input: "f2f3\n",
        fails: false,
        tries: 9,
        words: "a1----b1--",
        lines: "1 acked\nopen 1\n",
        status: 0,
        passed: "00cq00q00cq00q",
    },
    Row {
        input: "f2f3\ne7e5\n",
        fails: false,
        tries: 9,
        words: "a1a1x1??b1b1--a1b2x2--a2a1--",
        lines: "1 acked\n2 acked\nopen 2\n",
        status: 0,
        passed: "00ccccccq11cccq11ccq11q",
    },
    Row {
        input: MATE,
        fails: false,
        tries: 9,
        words: "a1b1--a2b2--a3b3--a4b4A4--B4",
        lines: "1 acked\n2 acked\n3 acked\nverdict 4 BlackMates\n",
        status: 0,
        passed: "00ccq11ccq22ccq33cccq33c",
    },
    Row {
        input: "f2f3\n",
        fails: false,
        tries: 3,
        words: "a1",
        lines: "refused lost\n",
        status: 1,
        passed: "00cq00q00q",
    },
    Row {
        input: "f2f3\n",
        fails: false,
        tries: 9,
        words: "a1!!",
        lines: "refused port\n",
        status: 1,
        passed: "00cm",
    },
];

/// Two verdicts that differ, while a move is sent and after the input's end; a mate that isn't on the board, at both times.
const CLASHES: [Row; 4] = [
    Row {
        input: MATE,
        fails: false,
        tries: 9,
        words: "a2b2A2C2",
        lines: "disagree 2 BlackMates 2 Stalemate\n",
        status: 1,
        passed: "00cccc",
    },
    Row {
        input: "f2f3\n",
        fails: false,
        tries: 9,
        words: "a1b1--C1A1",
        lines: "1 acked\ndisagree 1 Stalemate 1 BlackMates\n",
        status: 1,
        passed: "00ccq00cc",
    },
    Row {
        input: MATE,
        fails: false,
        tries: 9,
        words: "a1b1A1--",
        lines: "disagree 1 BlackMates\n",
        status: 1,
        passed: "00cccq",
    },
    Row {
        input: "f2f3\n",
        fails: false,
        tries: 9,
        words: "a1b1--A1--",
        lines: "1 acked\ndisagree 1 BlackMates\n",
        status: 1,
        passed: "00ccq00cq",
    },
];

/// Inputs: none; one that ends in the middle of a line; lines that are no move; a move that isn't legal; a read that is refused
/// in the middle of a line.
const INPUTS: [Row; 7] = [
    Row {
        input: "",
        fails: false,
        tries: 9,
        words: "",
        lines: "open 0\n",
        status: 0,
        passed: "q",
    },
    Row {
        input: "f2f3\ne7e5",
        fails: false,
        tries: 9,
        words: "a2b2",
        lines: "1 acked\n2 acked\nopen 2\n",
        status: 0,
        passed: "00ccq11q",
    },
    Row {
        input: "f2f3\ne7",
        fails: false,
        tries: 9,
        words: "a1b1",
        lines: "1 acked\nrefused move 1\n",
        status: 1,
        passed: "00ccq",
    },
    Row {
        input: "f2f3 \n",
        fails: false,
        tries: 9,
        words: "",
        lines: "refused move 0\n",
        status: 1,
        passed: "",
    },
    Row {
        input: "\nf2f3\n",
        fails: false,
        tries: 9,
        words: "",
        lines: "refused move 0\n",
        status: 1,
        passed: "",
    },
    Row {
        input: "f2f3\ne2e4\n",
        fails: false,
        tries: 9,
        words: "a1b1",
        lines: "1 acked\nillegal 1\n",
        status: 1,
        passed: "00ccq",
    },
    Row {
        input: "f2f3\ne7",
        fails: true,
        tries: 9,
        words: "a1b1",
        lines: "1 acked\nrefused files\n",
        status: 1,
        passed: "00ccq",
    },
];

/// Of a game that has to be new: one that is; arbiters that have a move of an earlier run, or its verdict; one of them, while a later
/// move is sent; a verdict after the input's end.
const NEW: [Row; 5] = [
    Row {
        input: MATE,
        fails: false,
        tries: 9,
        words: "a1b1--b2a2--a3b3--a4A4b4B4",
        lines: "1 acked\n2 acked\n3 acked\nverdict 4 BlackMates\n",
        status: 0,
        passed: "00ccq11ccq22ccq33cccc",
    },
    Row {
        input: "f2f3\ne7e5\n",
        fails: false,
        tries: 9,
        words: "a1b2--",
        lines: "refused started 2 -\n",
        status: 1,
        passed: "00ccq",
    },
    Row {
        input: MATE,
        fails: false,
        tries: 9,
        words: "a4A4b4B4",
        lines: "refused started 4 -\n",
        status: 1,
        passed: "00cccc",
    },
    Row {
        input: MATE,
        fails: false,
        tries: 9,
        words: "a1b1--b3a2--",
        lines: "1 acked\nrefused started 3 -\n",
        status: 1,
        passed: "00ccq11ccq",
    },
    Row {
        input: "f2f3\n",
        fails: false,
        tries: 9,
        words: "a1b1--A2--",
        lines: "1 acked\nrefused started 2 -\n",
        status: 1,
        passed: "00ccq00cq",
    },
];

#[test]
fn sends_until_both_have_acknowledged(rt: HostRuntime) {
    check_rows(&rt, rt.alloc(), Origin::Any, &ANSWERED);
}

#[test]
fn sends_again_what_is_lost(rt: HostRuntime) {
    check_rows(&rt, rt.alloc(), Origin::Any, &LOST);
}

#[test]
fn prints_verdicts_that_differ(rt: HostRuntime) {
    check_rows(&rt, rt.alloc(), Origin::Any, &CLASHES);
}

#[test]
fn prints_where_it_reads_no_legal_move(rt: HostRuntime) {
    check_rows(&rt, rt.alloc(), Origin::Any, &INPUTS);
}

#[test]
fn refuses_moves_of_an_earlier_run(rt: HostRuntime) {
    check_rows(&rt, rt.alloc(), Origin::New, &NEW);
}

/// 4096 moves and one more: the knights go out and back.
fn long_input(rt: &impl Abort, alloc: Global) -> String {
    let mut input = String::new(alloc);
    for _ in 0..1024 {
        push_text(rt, &mut input, "g1f3\ng8f6\nf3g1\nf6g8\n");
    }
    push_text(rt, &mut input, "g1f3\n");
    input
}

fn push_text(rt: &impl Abort, text: &mut String, more: &str) {
    assert!(rt; text.push_str(more).is_ok());
}

#[test]
fn refuses_a_move_too_many(rt: HostRuntime) {
    let datagrams = datagrams_of(&rt, rt.alloc(), "a*b*");
    let turns = turns_of(&rt, rt.alloc(), "a*b*", From::Nobody, &datagrams);
    let input = long_input(&rt, rt.alloc());
    let system = system_of(&input, false, &turns);
    let mut timeline = MemoryTimeline::new(rt.alloc(), None);
    let terms = terms(Origin::Any, 1);
    let ended = sent(&rt, rt.alloc(), &system, &mut timeline, terms);
    let lines = written(&rt, rt.alloc(), &timeline);
    check_same(&rt, ended, Ok(1), "status");
    let end = b"\n4096 acked\nrefused TooLong\n";
    check_same(&rt, lines.ends_with(end), true, "the last lines");
    check_passed(&rt, rt.alloc(), &timeline, "00ccq");
}

/// A whole game; an arbiter that doesn't answer at first, and one that never does.
const ORDERS: [OrderRow; 3] = [
    OrderRow {
        input: MATE,
        tries: 9,
        words: "a1b1--b2a2--a3b3--a4A4b4B4",
        fails_at: None,
        status: Ok(0),
        happens: "l00ccqwfl11ccqwfl22ccqwfl33ccccwf",
    },
    OrderRow {
        input: "f2f3\n",
        tries: 9,
        words: "a1----b1--",
        fails_at: None,
        status: Ok(0),
        happens: "l00cqn00q00cqwfe00qwf",
    },
    OrderRow {
        input: "f2f3\ne7e5\n",
        tries: 3,
        words: "a1",
        fails_at: None,
        status: Ok(1),
        happens: "l00cqn00q00qwf",
    },
];

/// An output that fails at the first line, where it is written and where it is to go out; at the third; and at the last.
const STOPS: [OrderRow; 4] = [
    OrderRow {
        input: MATE,
        tries: 9,
        words: "a1b1--a2b2--a3b3--a4A4b4B4",
        fails_at: Some(5),
        status: Err(WriteFault::Io),
        happens: "l00ccqwr",
    },
    OrderRow {
        input: MATE,
        tries: 9,
        words: "a1b1--a2b2--a3b3--a4A4b4B4",
        fails_at: Some(6),
        status: Err(WriteFault::Io),
        happens: "l00ccqwr",
    },
    OrderRow {
        input: MATE,
        tries: 9,
        words: "a1b1--a2b2--a3b3--a4A4b4B4",
        fails_at: Some(17),
        status: Err(WriteFault::Io),
        happens: "l00ccqwfl11ccqwfl22ccqwr",
    },
    OrderRow {
        input: MATE,
        tries: 9,
        words: "a1b1--a2b2--a3b3--a4A4b4B4",
        fails_at: Some(24),
        status: Err(WriteFault::Io),
        happens: "l00ccqwfl11ccqwfl22ccqwfl33ccccwr",
    },
];

/// The order of all that happens in a run of a row.
fn check_ordered(rt: &impl Abort, alloc: Global, row: &OrderRow) {
    let datagrams = datagrams_of(rt, alloc, row.words);
    let turns = turns_of(rt, alloc, row.words, From::Arbiters, &datagrams);
    let system = system_of(row.input, false, &turns);
    let mut timeline = MemoryTimeline::new(alloc, row.fails_at);
    let terms = terms(Origin::Any, row.tries);
    let ended = sent(rt, alloc, &system, &mut timeline, terms);
    check_order(rt, alloc, &timeline, row.happens);
    check_same(rt, ended, row.status, row.happens);
}

/// Each line goes out before the next line of the input is read.
#[test]
fn does_all_in_order(rt: HostRuntime) {
    for row in &ORDERS {
        check_ordered(&rt, rt.alloc(), row);
    }
}

/// No line is read and no move is sent after the line at which the output failed.
#[test]
fn stops_where_the_output_fails(rt: HostRuntime) {
    for row in &STOPS {
        check_ordered(&rt, rt.alloc(), row);
    }
}

/// For how many milliseconds a datagram was awaited in vain, each time, in a run over one move.
fn check_waits(rt: &impl Abort, alloc: Global, words: &str, waits: &[u8]) {
    let datagrams = datagrams_of(rt, alloc, words);
    let turns = turns_of(rt, alloc, words, From::Nobody, &datagrams);
    let system = system_of("f2f3\n", false, &turns);
    let mut timeline = MemoryTimeline::new(alloc, None);
    let ended = sent(rt, alloc, &system, &mut timeline, terms(Origin::Any, 9));
    check_same(rt, ended, Ok(0), "status");
    check_bytes(rt, &waited(rt, alloc, &timeline), waits, "waits");
}

/// The milliseconds of each wait in vain; above 255 they are 255.
fn waited(rt: &impl Abort, alloc: Global, timeline: &MemoryTimeline) -> Vec<u8> {
    let mut waits = Vec::new(alloc);
    for event in events_of(rt, timeline) {
        if let Recorded::Quiet { wait } = event {
            let millis = u8::try_from(wait.as_millis()).unwrap_or(255);
            push_bytes(rt, &mut waits, &[millis]);
        }
    }
    waits
}

/// As long as the terms say, one millisecond here, and two for the verdicts once both have acknowledged the move.
#[test]
fn awaits_as_long_as_it_is_to(rt: HostRuntime) {
    check_waits(&rt, rt.alloc(), "a1b1----", &[2, 1]);
    check_waits(&rt, rt.alloc(), "--a1b1----", &[1, 2, 1]);
}

/// Each try waits twice as long as the one before it, up to eight times as long as the first.
#[test]
fn waits_longer_from_try_to_try(rt: HostRuntime) {
    let words = "------------a1b1----";
    check_waits(&rt, rt.alloc(), words, &[1, 2, 4, 8, 8, 8, 2, 1]);
}
