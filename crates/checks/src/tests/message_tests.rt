//! Messages: the worked rows, refusals in their order, and streams in pieces.

use crate::tests::comparing::{check_same, push_bytes};
use board_core::{Move, Square};
use move_msg::{ArbiterId, Feeder, FetchCount, Message, MessageFault, Sender, Stamp, word};
use std::alloc::Global;
use std::process::Abort;

pub(crate) const STAMP: Stamp = Stamp([0, 1, 2, 3, 4, 5, 6, 7, 8, 9, 10, 11, 12, 13, 14, 15]);

/// The king's pawn two squares ahead.
pub(crate) fn e2e4() -> Move {
    Move {
        from: Square::at(12),
        to: Square::at(28),
        promotion: None,
    }
}

/// A message of these fields, with the stamp of the tests.
fn bytes_of(version: u8, kind: u8, sender: u8, number: u32, word: u16) -> [u8; 27] {
    let mut bytes = [0; 27];
    bytes[0..4].copy_from_slice(&[0x53, 0x41, version, kind]);
    bytes[4..20].copy_from_slice(STAMP.as_bytes());
    bytes[20] = sender;
    bytes[21..25].copy_from_slice(&number.to_be_bytes());
    bytes[25..27].copy_from_slice(&word.to_be_bytes());
    bytes
}

fn encoded(message: &Message) -> [u8; 27] {
    message.encode()
}

/// A move of this sender.
fn told(sender: Sender, number: u32, m: Move) -> Message {
    Message::Move {
        stamp: STAMP,
        sender,
        number,
        m,
    }
}

fn no_message() -> Message {
    Message::default()
}

#[test]
fn names_who_and_what(rt: HostRuntime) {
    check_same(&rt, ArbiterId::of_number(2), Some(ArbiterId::B), "2");
    check_same(&rt, FetchCount::new(8), Some(FetchCount::most()), "8");
    let sender = no_message().sender();
    check_same(&rt, sender, Sender::Arbiter(ArbiterId::A), "default");
    check_same(&rt, sender == Sender::Source, false, "no source");
}

/// The number after that of the message that a feeder answers, if any; without an answer it took all bytes.
fn next_number(
    rt: &impl Abort,
    answer: Option<Result<Message, MessageFault>>,
    next: u32,
    is_all: bool,
) -> u32 {
    match answer {
        Some(Ok(Message::Move { number, .. })) => {
            check_same(rt, number, next, "a number");
            next.wrapping_add(1)
        }
        Some(_) => panic!(rt; "no move"),
        None => {
            check_same(rt, is_all, true, "all bytes");
            next
        }
    }
}

/// One call of a feeder: how many bytes it took, and the number of the next message.
fn feed_once(rt: &impl Abort, feeder: &mut Feeder, piece: &[u8], next: u32) -> (usize, u32) {
    let (taken, answer) = feeder.feed(piece);
    assert!(rt; taken > 0);
    (taken, next_number(rt, answer, next, taken == piece.len()))
}

/// The bytes after so many.
fn after<'a>(rt: &impl Abort, bytes: &'a [u8], taken: usize) -> &'a [u8] {
    bytes.get(taken..).expect(rt, "bytes")
}

/// The messages that a feeder answers for a piece, compared with those from a place on in the
/// stream; the place after them.
fn feed_all(rt: &impl Abort, feeder: &mut Feeder, piece: &[u8], first: u32) -> u32 {
    let mut rest = piece;
    let mut next = first;
    for _ in 0..200u32 {
        if rest.is_empty() {
            return next;
        }
        let (taken, number) = feed_once(rt, feeder, rest, next);
        rest = after(rt, rest, taken);
        next = number;
    }
    next
}

fn push_move(rt: &impl Abort, stream: &mut Vec<u8>, number: u32) {
    let bytes = encoded(&told(Sender::Source, number, e2e4()));
    push_bytes(rt, stream, &bytes);
}

/// A hundred moves with the numbers 0 to 99.
fn hundred(rt: &impl Abort, alloc: Global) -> Vec<u8> {
    let mut stream = Vec::new(alloc);
    for number in 0..100u32 {
        push_move(rt, &mut stream, number);
    }
    stream
}

/// Feeds a piece, and compares how many messages there were since the beginning, and how many bytes are held.
fn check_fed(
    rt: &impl Abort,
    feeder: &mut Feeder,
    piece: &[u8],
    first: u32,
    messages: usize,
    held: usize,
) -> u32 {
    let next = feed_all(rt, feeder, piece, first);
    check_same(rt, next as usize, messages, "messages");
    check_same(rt, feeder.held(), held, "held");
    next
}

fn check_cut(rt: &impl Abort, stream: &[u8], cut: usize) {
    assert!(rt; cut <= stream.len());
    let (first, second) = stream.split_at(cut);
    let mut feeder = Feeder::new();
    let next = check_fed(rt, &mut feeder, first, 0, cut / 27, cut % 27);
    check_fed(rt, &mut feeder, second, next, 100, 0);
}

#[test]
fn reads_a_stream_cut_anywhere(rt: HostRuntime) {
    let stream = hundred(&rt, rt.alloc());
    for cut in 0..2701usize {
        check_cut(&rt, &stream, cut);
    }
}

/// How many messages are read byte by byte.
fn feed_each(rt: &impl Abort, stream: &[u8]) -> u32 {
    let mut feeder = Feeder::new();
    let mut next = 0u32;
    for byte in stream {
        next = feed_all(rt, &mut feeder, &[*byte], next);
    }
    next
}

#[test]
fn reads_a_stream_byte_by_byte(rt: HostRuntime) {
    let stream = hundred(&rt, rt.alloc());
    check_same(&rt, feed_each(&rt, &stream), 100, "messages");
}

/// How many bytes of a piece are taken, the fault that is told, if any, and how many bytes are then held.
fn check_fault(
    rt: &impl Abort,
    feeder: &mut Feeder,
    piece: &[u8],
    taken: usize,
    fault: Option<MessageFault>,
    held: usize,
) {
    let wanted = fault.map(Err::<Message, MessageFault>);
    check_same(rt, feeder.feed(piece), (taken, wanted), "fed");
    check_same(rt, feeder.held(), held, "held");
}

/// The fault is told for whatever comes after it.
fn check_fault_stays(rt: &impl Abort, feeder: &mut Feeder, fault: MessageFault) {
    check_fault(rt, feeder, &bytes_of(1, 1, 0, 0, 0), 0, Some(fault), 0);
    check_fault(rt, feeder, &[], 0, Some(fault), 0);
}

#[test]
fn keeps_its_fault(rt: HostRuntime) {
    let fault = MessageFault::BadKind;
    let bytes = bytes_of(1, 4, 0, 0, 0);
    let mut feeder = Feeder::new();
    check_fault(&rt, &mut feeder, &bytes[..5], 5, None, 5);
    check_fault(&rt, &mut feeder, &bytes[5..], 22, Some(fault), 0);
    check_fault_stays(&rt, &mut feeder, fault);
}
