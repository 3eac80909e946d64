//! What comes at a source from the arbiters of a game, by a list of words, and the system in memory over which it runs.

use board_core::Verdict;
use move_msg::{ArbiterId, Count, MOST_MOVES, Message, Stamp};
use std::alloc::Global;
use std::net::SocketAddr;
use std::process::Abort;
use system_fakes::{MemoryDisk, MemoryInput};
use timeline_fakes::{Binds, KeptStart, MemorySystem, Turn, Turns};

/// Where the first arbiter listens, and the second.
pub(crate) const FIRST: &str = "127.0.0.1:7331";

pub(crate) const SECOND: &str = "127.0.0.1:7332";

/// The stamp of the game.
pub(crate) const STAMP: Stamp = Stamp([0, 1, 2, 3, 4, 5, 6, 7, 8, 9, 10, 11, 12, 13, 14, 15]);

/// A count of moves by its digit; a star is as many as a game may have.
fn count_of(digit: u8) -> Count {
    let moves = match digit {
        b'*' => MOST_MOVES,
        _ => u32::from(digit.wrapping_sub(b'0')),
    };
    Count::new(moves).unwrap_or(Count::none())
}

/// An arbiter's acknowledgement of so many moves.
fn ack(stamp: Stamp, who: ArbiterId, digit: u8) -> [u8; 27] {
    let message = Message::Ack {
        stamp,
        who,
        count: count_of(digit),
    };
    message.encode()
}

/// An arbiter's verdict at a ply.
fn ruled(stamp: Stamp, who: ArbiterId, digit: u8, verdict: Verdict) -> [u8; 27] {
    let message = Message::Verdict {
        stamp,
        who,
        ply: count_of(digit),
        verdict,
    };
    message.encode()
}

/// The datagram that a word stands for: `a2` and `b2`, an acknowledgement of two moves by the first and the second arbiter; `x2`,
/// one of another game; `A4` and `B4`, a mate at ply 4; `C4`, a stalemate at ply 4 by the second; all else is noise.
fn datagram_of(stamp: Stamp, kind: u8, digit: u8) -> [u8; 27] {
    match kind {
        b'a' => ack(stamp, ArbiterId::A, digit),
        b'b' => ack(stamp, ArbiterId::B, digit),
        b'x' => ack(Stamp([7; 16]), ArbiterId::B, digit),
        b'A' => ruled(stamp, ArbiterId::A, digit, Verdict::BlackMates),
        b'B' => ruled(stamp, ArbiterId::B, digit, Verdict::BlackMates),
        b'C' => ruled(stamp, ArbiterId::B, digit, Verdict::Stalemate),
        _ => [9; 27],
    }
}

/// Whether it is known from which address a datagram came.
#[derive(Clone, Copy)]
pub(crate) enum From {
    /// It isn't.
    Nobody,
    /// From that of the arbiter who reports it; noise comes from the second.
    Arbiters,
}

/// The datagrams of some words, two bytes a word; where a word stands for none, one that doesn't come.
pub(crate) fn datagrams_of(rt: &impl Abort, alloc: Global, words: &str) -> Vec<[u8; 27]> {
    let mut datagrams = Vec::new(alloc);
    for word in words.as_bytes().chunks(2) {
        let datagram = match word {
            [kind, digit] => datagram_of(STAMP, *kind, *digit),
            _ => [9; 27],
        };
        datagrams.push(datagram).ok().expect(rt, "memory");
    }
    datagrams
}

/// From where the datagram of a word comes.
fn address_of(rt: &impl Abort, word: &[u8], from: From) -> Option<SocketAddr> {
    let at = match (from, word) {
        (From::Nobody, _) => return None,
        (From::Arbiters, [b'a' | b'A', ..]) => FIRST,
        (From::Arbiters, _) => SECOND,
    };
    Some(at.parse().ok().expect(rt, at))
}

/// What comes by a word.
fn turn_of<'a>(rt: &impl Abort, word: &[u8], datagram: &'a [u8], from: From) -> Turn<'a> {
    match word {
        [b'-', ..] => Turn::Quiet,
        [b'!', ..] => Turn::Fails,
        _ => Turn::Comes(address_of(rt, word, from), datagram),
    }
}

/// What comes by some words, two bytes a word: a datagram; `--`, nothing in time; `!!`, a port that fails. After the last word nothing comes.
pub(crate) fn turns_of<'a>(
    rt: &impl Abort,
    alloc: Global,
    words: &str,
    from: From,
    datagrams: &'a [[u8; 27]],
) -> Vec<Turn<'a>> {
    let mut turns = Vec::new(alloc);
    for (word, datagram) in words.as_bytes().chunks(2).zip(datagrams) {
        push_turn(rt, &mut turns, turn_of(rt, word, &datagram[..], from));
    }
    for _ in 0..16 {
        push_turn(rt, &mut turns, Turn::Quiet);
    }
    turns
}

fn push_turn<'a>(rt: &impl Abort, turns: &mut Vec<Turn<'a>>, turn: Turn<'a>) {
    turns.push(turn).ok().expect(rt, "memory");
}

/// A system with an input, which may fail at its end, and with what comes at its port.
pub(crate) fn system_of<'a>(
    input: &'a str,
    fails: bool,
    turns: &'a [Turn<'a>],
) -> MemorySystem<'a> {
    MemorySystem {
        disk: MemoryDisk {
            files: &[],
            modes: &[],
            folders: &[],
            failing: &[],
        },
        input: MemoryInput {
            bytes: input.as_bytes(),
            fails,
        },
        kept: &[],
        elsewhere: KeptStart {
            bytes: None,
            outcomes: &[],
            reads_fail: false,
        },
        binds: Binds::Anywhere,
        own: None,
        turns: Turns::Each(turns),
    }
}
