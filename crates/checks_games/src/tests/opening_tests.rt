//! How an arbiter is opened, over what is kept and over keepers that fail.

use crate::tests::arbiters::{
    NAME, Sent, empty_keeper, message_of, open_first, record_of, setup_of, stamp_of,
};
use crate::tests::comparing::{check_bytes, check_same};
use crate::tests::positions::position_of;
use arbiter_core::{
    Arbiter, KeepFault, Keeper, MemoryKeeper, Name, OpenFault, Refused, Setup, name_of,
};
use board_core::Position;
use check_helpers::START;
use std::alloc::Global;
use std::process::Abort;

fn fault_in(told: &Result<Arbiter<'_>, Refused<'_>>) -> Option<OpenFault> {
    match told {
        Ok(_) => None,
        Err(refused) => Some(refused.fault),
    }
}

/// Why an arbiter isn't opened over a keeper.
fn open_fault<K: Keeper>(alloc: Global, keeper: &mut K, setup: Setup<'_>) -> Option<OpenFault> {
    fault_in(&Arbiter::open(alloc, keeper, setup))
}

/// A keeper whose gets and puts fail.
#[derive(Drop)]
struct Broken {
    failures: u64,
}

impl Keeper for Broken {
    ghost use Rattle.std.specs.Prelude.{◌≡◌, None};
    ghost use Rattle.arbiter_core.specs.declared.keeper.Keep.TheVariants.{FailsOld};

    ghost facts = { record { kept = λ k. None; faults = λ k. k.failures; may_be = λ k keep. keep ≡ FailsOld; get_may_fail = λ k. Unit {0}; leaves = λ k bytes n. Unit {0}; reads = λ k fault n. Unit {0} } };

    fn put(&mut self, _bytes: &[u8]) -> Result<(), KeepFault> {
        self.failures = self.failures.saturating_add(1);
        Err(KeepFault::Failed)
    }

    fn get(&mut self, _alloc: Global) -> Result<Option<Vec<u8>>, KeepFault> {
        self.failures = self.failures.saturating_add(1);
        Err(KeepFault::Failed)
    }

    fn failures(&self) -> u64 {
        self.failures
    }
}

/// What an arbiter is opened from, why it isn't over a keeper whose get fails, and how often that one then failed.
struct Refusal {
    name: &'static [u8],
    me: u8,
    delay: u8,
    fault: OpenFault,
    failures: u64,
}

const REFUSALS: [Refusal; 4] = [
    Refusal {
        name: NAME,
        me: 1,
        delay: 0,
        fault: OpenFault::KeeperFailed,
        failures: 1,
    },
    Refusal {
        name: NAME,
        me: 1,
        delay: 9,
        fault: OpenFault::BadSetup,
        failures: 0,
    },
    Refusal {
        name: NAME,
        me: 3,
        delay: 0,
        fault: OpenFault::BadSetup,
        failures: 0,
    },
    Refusal {
        name: b"",
        me: 1,
        delay: 0,
        fault: OpenFault::BadSetup,
        failures: 0,
    },
];

/// A name as a setup holds it.
fn held(rt: &impl Abort, name: &[u8]) -> Name {
    let held = if name.len() <= 64 {
        Some(name_of(name))
    } else {
        None
    };
    held.expect(rt, "at most 64 bytes")
}

fn setup_by(rt: &impl Abort, alloc: Global, row: &Refusal) -> Setup<'static> {
    let mut setup = setup_of(rt, alloc, START, row.delay);
    setup.name = held(rt, row.name);
    setup.me = row.me;
    setup
}

/// The refusal of a setup over a keeper whose get fails, and how often the keeper failed.
fn refused<'a>(rt: &impl Abort, alloc: Global, setup: Setup<'a>) -> (Refused<'a>, u64) {
    let mut keeper = Broken { failures: 0 };
    let told = Arbiter::open(alloc, &mut keeper, setup).err();
    (told.expect(rt, "a refusal"), keeper.failures())
}

/// A setup is that of a row.
fn check_setup(rt: &impl Abort, setup: &Setup<'_>, row: &Refusal) {
    check_bytes(rt, setup.name.as_slice(), row.name, "the name");
    check_same(rt, (setup.me, setup.delay), (row.me, row.delay), "numbers");
    check_start(rt, &setup.start);
    check_bytes(rt, setup.manifest, b"", "the manifest");
}

fn check_start(rt: &impl Abort, start: &Position) {
    check_same(rt, *start == position_of(rt, START), true, "the start");
}

fn check_refusal(rt: &impl Abort, refused: &Refused<'_>, row: &Refusal) {
    check_same(rt, refused.fault, row.fault, "a fault");
    check_setup(rt, &refused.setup, row);
}

fn check_refused(rt: &impl Abort, alloc: Global, row: &Refusal) {
    let (refused, failures) = refused(rt, alloc, setup_by(rt, alloc, row));
    check_same(rt, failures, row.failures, "failures");
    check_refusal(rt, &refused, row);
}

/// A bad setup is told before a keeper that fails; both hand the setup back.
#[test]
fn hands_setups_back(rt: HostRuntime) {
    for row in &REFUSALS {
        check_refused(&rt, rt.alloc(), row);
    }
}

/// The longest delay of a game.
const MOST_DELAY: u8 = 8;

/// An arbiter of a game with this delay is opened over nothing, and keeps a first move with that delay.
fn check_begun(rt: &impl Abort, alloc: Global, delay: u8) {
    let mut keeper = empty_keeper(rt, alloc);
    let mut arbiter = open_first(rt, alloc, &mut keeper, START, delay);
    let stamp = stamp_of(rt, START, delay);
    let first = message_of(rt, stamp, Sent::Move, 0, "e2e4").encode();
    let told = arbiter.deliver(alloc, &mut keeper, &first);
    check_same(rt, told.is_ok(), true, "a move");
    let kept = keeper.get(alloc).expect(rt, "memory");
    let wanted = record_of(rt, alloc, stamp, delay, "e2e4", None);
    check_same(rt, kept.as_deref(), Some(wanted.as_slice()), "what is kept");
}

/// Where nothing is kept a game is begun with each delay that a game may have.
#[test]
fn begins_with_each_delay(rt: HostRuntime) {
    for delay in 0..MOST_DELAY + 1 {
        check_begun(&rt, rt.alloc(), delay);
    }
}

/// A record of three moves.
fn three_moves(rt: &impl Abort, alloc: Global) -> Vec<u8> {
    let stamp = stamp_of(rt, START, 0);
    record_of(rt, alloc, stamp, 0, "e2e4 e7e5 g1f3", None)
}

/// A keeper in memory with these bytes.
fn keeper_with(rt: &impl Abort, alloc: Global, bytes: &[u8]) -> MemoryKeeper {
    assert!(rt; bytes.len() <= 8217);
    let mut keeper = empty_keeper(rt, alloc);
    check_same(rt, keeper.put(bytes), Ok(()), "a put");
    keeper
}

/// Why no arbiter is opened over these bytes, or that one is; the bytes are left alone.
fn check_over(rt: &impl Abort, alloc: Global, bytes: &[u8], wanted: Option<OpenFault>) {
    let mut keeper = keeper_with(rt, alloc, bytes);
    let fault = open_fault(alloc, &mut keeper, setup_of(rt, alloc, START, 0));
    check_same(rt, (bytes.len(), fault), (bytes.len(), wanted), "opened");
    check_same(rt, keeper.kept(), Some(bytes), "what is kept");
}

/// The record cut at any place is refused.
fn check_cuts(rt: &impl Abort, alloc: Global, whole: &[u8]) {
    for length in 0..whole.len() {
        check_over(rt, alloc, &whole[..length], Some(OpenFault::BadRecord));
    }
}

#[test]
fn refuses_a_record_that_is_cut(rt: HostRuntime) {
    let whole = three_moves(&rt, rt.alloc());
    check_cuts(&rt, rt.alloc(), &whole);
    check_over(&rt, rt.alloc(), &whole, None);
}
