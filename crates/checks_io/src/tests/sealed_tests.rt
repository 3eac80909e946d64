//! Systems with keys and files of keys: values from outside, and what is passed on of each kind of datagram.

use crate::tests::comparing::{check_bytes, check_same};
use crate::tests::source_port::system_of;
use sealed_port::{KeyFault, KeyedSystem, Keys, MacKey};
use std::alloc::Global;
use std::net::{IpAddr, Ipv4Addr, SocketAddr};
use std::process::Abort;
use std::time::Duration;
use system_io::NO_TAG;
use timeline::System;
use timeline_fakes::{MemoryTimeline, Recorded, Turn};

/// A row of RFC 4231: a key in hexadecimal digits, a text, and its HMAC.
struct Vector {
    key: &'static str,
    text: &'static [u8],
    wanted: &'static str,
}

/// Test cases 1 to 5 of RFC 4231. A key of fewer than 32 bytes is one of 32 with zeros behind it. Of case 5 the RFC has the first 16
/// bytes alone.
const VECTORS: [Vector; 5] = [
    Vector {
        key: "0b0b0b0b0b0b0b0b0b0b0b0b0b0b0b0b0b0b0b0b000000000000000000000000",
        text: b"Hi There",
        wanted: "b0344c61d8db38535ca8afceaf0bf12b881dc200c9833da726e9376c2e32cff7",
    },
    Vector {
        key: "4a65666500000000000000000000000000000000000000000000000000000000",
        text: b"what do ya want for nothing?",
        wanted: "5bdcc146bf60754e6a042426089575c75a003f089d2739839dec58b964ec3843",
    },
    Vector {
        key: "aaaaaaaaaaaaaaaaaaaaaaaaaaaaaaaaaaaaaaaa000000000000000000000000",
        text: &[0xdd; 50],
        wanted: "773ea91e36800e46854db8ebd09181a72959098b3ef8c122d9635514ced565fe",
    },
    Vector {
        key: "0102030405060708090a0b0c0d0e0f1011121314151617181900000000000000",
        text: &[0xcd; 50],
        wanted: "82558a389a443c0ea4cc819899f2083a85f0faa3e578f8077a2e3ff46729665b",
    },
    Vector {
        key: "0c0c0c0c0c0c0c0c0c0c0c0c0c0c0c0c0c0c0c0c000000000000000000000000",
        text: b"Test With Truncation",
        wanted: "a3b6167473100ee06e0c796c2955552bfa6f7c0a6a8aef8b93f860aab0cd20c5",
    },
];

/// The 32 bytes of these hexadecimal digits.
fn key_of(rt: &impl Abort, digits: &str) -> [u8; 32] {
    let mut key = [0; 32];
    hex::decode_to_slice(digits, &mut key).expect(rt, "digits");
    key
}

/// That the HMAC of a text is this.
fn check_vector(rt: &impl Abort, row: &Vector) {
    let told = MacKey::of(&key_of(rt, row.key)).hmac(row.text);
    check_bytes(rt, &told, &key_of(rt, row.wanted), row.key);
}

#[test]
fn computes_known_macs(rt: HostRuntime) {
    for row in &VECTORS {
        check_vector(&rt, row);
    }
}

/// The bytes 0 to 31.
const KEY: &str = "000102030405060708090a0b0c0d0e0f101112131415161718191a1b1c1d1e1f";

/// `Move 0 0 e2e4` of the game whose stamp is sixteen bytes 7.
const MOVE: [u8; 27] = [
    b'S', b'A', 1, 1, 7, 7, 7, 7, 7, 7, 7, 7, 7, 7, 7, 7, 7, 7, 7, 7, 0, 0, 0, 0, 0, 7, 12,
];

/// The first half of its HMAC under that key, as Python's `hmac` computes it.
const TAG: [u8; 16] = [
    0x4a, 0x26, 0xfb, 0x68, 0x72, 0x4a, 0xa9, 0x35, 0x5b, 0xe1, 0x7d, 0xa7, 0x59, 0xe7, 0x93, 0x9b,
];

/// That message with a tag behind it.
fn move_with(tag: &[u8; 16]) -> [u8; 43] {
    let mut datagram = [0; 43];
    datagram[..27].copy_from_slice(&MOVE);
    datagram[27..].copy_from_slice(tag);
    datagram
}

/// That message with its tag.
fn sealed_move() -> [u8; 43] {
    move_with(&TAG)
}

/// The tag of a message under a key.
fn tag_of(key: &MacKey, message: &[u8]) -> [u8; 16] {
    let mac = key.hmac(message);
    let mut tag = [0; 16];
    tag.copy_from_slice(&mac[..16]);
    tag
}

/// The keys of which the first or the second is that one.
fn keys(rt: &impl Abort, is_first: bool) -> Keys {
    let (key, other) = (key_of(rt, KEY), [9; 32]);
    if is_first {
        Keys {
            first: key,
            second: other,
        }
    } else {
        Keys {
            first: other,
            second: key,
        }
    }
}

/// What a port of a system with these keys passes on of a datagram, both where it waits and where it waits for a time.
fn check_passed_on(rt: &impl Abort, alloc: Global, datagram: &[u8], keys: &Keys, wanted: &[u8]) {
    let from = SocketAddr::new(IpAddr::V4(Ipv4Addr::new(127, 0, 0, 1)), 7702);
    let turns = [
        Turn::Comes(Some(from), datagram),
        Turn::Comes(Some(from), datagram),
    ];
    let below = system_of("", false, &turns);
    let system = KeyedSystem::over(&below, keys);
    let mut timeline = MemoryTimeline::new(alloc, None);
    let bound = system.bind(&mut timeline, alloc, "127.0.0.1:7701", &[]);
    let mut port = bound.ok().expect(rt, "a port");
    let mut buffer = [0u8; 64];
    let received = system.receive(&mut timeline, &mut port, &mut buffer);
    let length = received.ok().expect(rt, "a datagram");
    check_bytes(rt, &buffer[..length], wanted, "what is passed on");
    let mut buffer = [0u8; 64];
    let wait = Duration::from_millis(1);
    let received = system.receive_in_time(&mut timeline, &mut port, wait, &mut buffer);
    let length = received
        .ok()
        .expect(rt, "no fault")
        .expect(rt, "a datagram");
    check_bytes(rt, &buffer[..length], wanted, "what is passed on in time");
    check_same(rt, system.sender(&port) == Some(from), true, "the sender");
}

/// Either key opens, and another one doesn't.
#[test]
fn opens_by_either_key(rt: HostRuntime) {
    let datagram = sealed_move();
    check_passed_on(&rt, rt.alloc(), &datagram, &keys(&rt, true), &MOVE);
    check_passed_on(&rt, rt.alloc(), &datagram, &keys(&rt, false), &MOVE);
    let others = Keys {
        first: [9; 32],
        second: [8; 32],
    };
    check_passed_on(&rt, rt.alloc(), &datagram, &others, &NO_TAG);
}

/// Each length of a right datagram but its own, and a byte more.
#[test]
fn opens_no_other_length(rt: HostRuntime) {
    let datagram = sealed_move();
    for length in 0..43 {
        check_passed_on(
            &rt,
            rt.alloc(),
            &datagram[..length],
            &keys(&rt, true),
            &NO_TAG,
        );
    }
    let mut longer = [0; 44];
    longer[..43].copy_from_slice(&datagram);
    check_passed_on(&rt, rt.alloc(), &longer, &keys(&rt, true), &NO_TAG);
    check_passed_on(&rt, rt.alloc(), &NO_TAG, &keys(&rt, true), &NO_TAG);
}

/// Each bit turned, of the message and of the tag.
#[test]
fn opens_nothing_with_a_wrong_bit(rt: HostRuntime) {
    for bit in 0..344usize {
        let mut datagram = sealed_move();
        datagram[bit / 8] ^= 1u8 << (bit % 8) as u32;
        check_passed_on(&rt, rt.alloc(), &datagram, &keys(&rt, true), &NO_TAG);
    }
}

/// The tag of another game's message behind this one.
#[test]
fn opens_nothing_with_another_tag(rt: HostRuntime) {
    let key = MacKey::of(&key_of(&rt, KEY));
    let mut other = MOVE;
    other[4] = 8;
    let datagram = move_with(&tag_of(&key, &other));
    check_passed_on(&rt, rt.alloc(), &datagram, &keys(&rt, true), &NO_TAG);
}

/// What a system with keys sends is opened by either key of another, and not where that has other keys.
#[test]
fn systems_open_what_a_system_seals(rt: HostRuntime) {
    let below = system_of("", false, &[]);
    let system = KeyedSystem::over(&below, &keys(&rt, true));
    let mut timeline = MemoryTimeline::new(rt.alloc(), None);
    let to = ["127.0.0.1:7702"];
    let bound = system.bind(&mut timeline, rt.alloc(), "127.0.0.1:7701", &to);
    let mut port = bound.ok().expect(&rt, "a port");
    let sent = system.send(&mut timeline, &mut port, &MOVE);
    check_same(&rt, sent.is_ok(), true, "a send");
    let events = timeline.events().expect(&rt, "memory");
    check_same(&rt, events.len(), 2, "the port and a datagram");
    let Some(Recorded::Sent { bytes, .. }) = events.last() else {
        panic!(rt; "sent");
    };
    check_bytes(&rt, bytes, &sealed_move(), "the datagram");
    check_passed_on(&rt, rt.alloc(), bytes, &keys(&rt, true), &MOVE);
    check_passed_on(&rt, rt.alloc(), bytes, &keys(&rt, false), &MOVE);
    let others = Keys {
        first: [9; 32],
        second: [8; 32],
    };
    check_passed_on(&rt, rt.alloc(), bytes, &others, &NO_TAG);
}

/// 48 bytes go out, and of 49 it is noted that they don't.
#[test]
fn a_system_leaves_out_49_bytes(rt: HostRuntime) {
    let below = system_of("", false, &[]);
    let system = KeyedSystem::over(&below, &keys(&rt, true));
    let mut timeline = MemoryTimeline::new(rt.alloc(), None);
    let to = ["127.0.0.1:7702"];
    let bound = system.bind(&mut timeline, rt.alloc(), "127.0.0.1:7701", &to);
    let mut port = bound.ok().expect(&rt, "a port");
    let sent = system.send(&mut timeline, &mut port, &[7; 48]);
    check_same(&rt, sent.is_ok(), true, "48 bytes");
    let sent = system.send(&mut timeline, &mut port, &[7; 49]);
    check_same(&rt, sent.is_ok(), false, "49 bytes");
    let events = timeline.events().expect(&rt, "memory");
    check_same(&rt, events.len(), 3, "the port, a datagram and a note");
    let Some(Recorded::Noted { line }) = events.last() else {
        panic!(rt; "noted");
    };
    let wanted = b"a datagram of more than 48 bytes was left out";
    check_bytes(&rt, line, wanted, "the note");
}

/// The text of a file of keys, and the line at fault, 0 for none.
struct KeyRow {
    text: &'static str,
    fault: usize,
}

const LINE: &str = "000102030405060708090a0b0c0d0e0f101112131415161718191a1b1c1d1e1f\n";

const KEY_ROWS: [KeyRow; 17] = [
    KeyRow { text: "", fault: 1 },
    KeyRow {
        text: "\n",
        fault: 1,
    },
    KeyRow {
        text: "000102030405060708090a0b0c0d0e0f101112131415161718191a1b1c1d1e1f",
        fault: 1,
    },
    KeyRow {
        text: "000102030405060708090A0b0c0d0e0f101112131415161718191a1b1c1d1e1f\n",
        fault: 1,
    },
    KeyRow {
        text: "000102030405060708090g0b0c0d0e0f101112131415161718191a1b1c1d1e1f\n",
        fault: 1,
    },
    KeyRow {
        text: "000102030405060708090a0b0c0d0e0f101112131415161718191a1b1c1d1e1f\r\n",
        fault: 1,
    },
    KeyRow {
        text: "000102030405060708090a0b0c0d0e0f101112131415161718191a1b1c1d1e1f ",
        fault: 1,
    },
    KeyRow {
        text: " 00102030405060708090a0b0c0d0e0f101112131415161718191a1b1c1d1e1f\n",
        fault: 1,
    },
    KeyRow {
        text: "000102030405060708090a0b0c0d0e0f101112131415161718191a1b1c1d1e\n",
        fault: 1,
    },
    KeyRow {
        text: "000102030405060708090a0b0c0d0e0f101112131415161718191a1b1c1d1e1f00\n",
        fault: 1,
    },
    KeyRow {
        text: "000102030405060708090a0b0c0d0e0f101112131415161718191a1b1c1d1e1f\n",
        fault: 0,
    },
    KeyRow {
        text: "000102030405060708090a0b0c0d0e0f101112131415161718191a1b1c1d1e1f\n\n",
        fault: 2,
    },
    KeyRow {
        text: "000102030405060708090a0b0c0d0e0f101112131415161718191a1b1c1d1e1f\n0",
        fault: 2,
    },
    KeyRow {
        text: "000102030405060708090a0b0c0d0e0f101112131415161718191a1b1c1d1e1f\n000102030405060708090a0b0c0d0e0f101112131415161718191a1b1c1d1e1f",
        fault: 2,
    },
    KeyRow {
        text: "000102030405060708090a0b0c0d0e0f101112131415161718191a1b1c1d1e1f\n000102030405060708090a0b0c0d0e0f101112131415161718191a1b1c1d1e1F\n",
        fault: 2,
    },
    KeyRow {
        text: "000102030405060708090a0b0c0d0e0f101112131415161718191a1b1c1d1e1f\nffffffffffffffffffffffffffffffffffffffffffffffffffffffffffffffff\n",
        fault: 0,
    },
    KeyRow {
        text: "000102030405060708090a0b0c0d0e0f101112131415161718191a1b1c1d1e1f\nffffffffffffffffffffffffffffffffffffffffffffffffffffffffffffffff\n\n",
        fault: 3,
    },
];

/// The line at fault, or 0.
fn line_at_fault(text: &[u8]) -> usize {
    match Keys::read(text) {
        Ok(_) => 0,
        Err(fault) => line_of(fault),
    }
}

/// The line of a fault.
fn line_of(fault: KeyFault) -> usize {
    fault.line()
}

#[test]
fn tells_the_line_at_fault(rt: HostRuntime) {
    for row in &KEY_ROWS {
        check_same(&rt, line_at_fault(row.text.as_bytes()), row.fault, row.text);
    }
}

/// The keys of a file of one line, and of two.
#[test]
fn reads_one_key_or_two(rt: HostRuntime) {
    let key = key_of(&rt, KEY);
    let one = Keys::read(LINE.as_bytes()).ok().expect(&rt, "a key");
    check_bytes(&rt, &one.first, &key, "the only key");
    check_bytes(&rt, &one.second, &key, "the only key again");
    let two = Keys::read(KEY_ROWS[15].text.as_bytes())
        .ok()
        .expect(&rt, "two keys");
    check_bytes(&rt, &two.first, &key, "the first key");
    check_bytes(&rt, &two.second, &[0xff; 32], "the second key");
}
