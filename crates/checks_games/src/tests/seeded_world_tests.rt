//! Random schedules against a plain model of two arbiters.

ghost use Rattle.std.specs.Prelude.{◌<◌};

use crate::tests::comparing::check_same;
use crate::tests::world_tests::{game_of, schedule_of, world_of};
use arbiter_core::Keep;
use move_msg::{ArbiterId, Message};
use relay_world::schedule::Schedule;
use relay_world::{Event, State, World};
use std::alloc::Global;
use std::process::Abort;

/// What is said: the kind of a message, its sender, its number, and its verdict or how many moves it wants.
type Said = (u8, u8, u32, u8);

/// A game, the last ply that it reaches, the code of the verdict there, and how many moves its source sends.
type Row = (&'static str, u8, u32, u8, u32);

/// Games with a verdict that comes early, late or never, and one with a move that isn't legal.
const GAMES: [Row; 4] = [
    (
        "name Test 2\nstart 8/8/8/4k3/8/8/K7/1Q5r b - - 0 1\nmoves h1h8 b1b8 e5e4 b8h8 e4d3 a2b3 d3d2 h8d4 d2e2\n",
        0,
        4,
        5,
        9,
    ),
    (
        "name Test 2\nstart 8/8/8/4k3/8/8/K7/1Q5r b - - 0 1\nmoves h1h8 b1b8 e5e4 b8h8 e4d3 a2b3 d3d2 h8d4 d2e2\n",
        4,
        8,
        5,
        9,
    ),
    (
        "name Test 2\nstart 8/8/8/4k3/8/8/K7/1Q5r b - - 0 1\nmoves h1h8 b1b8 e5e4 b8h8 e4d3 a2b3 d3d2 h8d4 d2e2\n",
        6,
        9,
        0,
        9,
    ),
    (
        "name Test 1\nstart rnbqkbnr/pppppppp/8/8/8/8/PPPPPPPP/RNBQKBNR w KQkq - 0 1\nmoves e2e4 e7e5 g1f3 a1a1 b8c6\n",
        0,
        3,
        0,
        5,
    ),
];

/// An arbiter of the model: its state, how many moves are kept, if any, and which numbers wait.
#[derive(Clone, Copy)]
struct Side {
    state: State,
    kept: Option<u32>,
    waiting: [bool; 16],
}

/// The model: two arbiters, what was said, the last ply that the game reaches and the code there.
#[derive(Drop)]
struct Model {
    sides: [Side; 2],
    log: Vec<Said>,
    last: u32,
    code: u8,
}

/// The next number of a row of numbers.
fn next(seed: &mut u64) -> u64 {
    *seed = seed
        .wrapping_mul(6364136223846793005)
        .wrapping_add(1442695040888963407);
    *seed >> 33
}

/// What is said is the last of the log.
fn say(rt: &impl Abort, log: &mut Vec<Said>, said: Said) {
    assert!(rt; log.push(said).is_ok());
}

/// What the source says.
fn begin_log(rt: &impl Abort, alloc: Global, moves: u32) -> Vec<Said> {
    let mut log = Vec::new(alloc);
    for number in 0..moves {
        say(rt, &mut log, (1, 0, number, 0));
    }
    log
}

/// The model before the first event.
fn begin(rt: &impl Abort, alloc: Global, row: Row) -> Model {
    let side = Side {
        state: State::Closed,
        kept: None,
        waiting: [false; 16],
    };
    Model {
        sides: [side; 2],
        log: begin_log(rt, alloc, row.4),
        last: row.2,
        code: row.3,
    }
}

/// The code of the verdict with so many moves kept, 0 for none.
fn code_at(model: &Model, count: u32) -> u8 {
    if count == model.last { model.code } else { 0 }
}

/// An arbiter tells its count, and its verdict if there is one.
fn tell(rt: &impl Abort, model: &mut Model, me: usize, count: u32)
    requires { me < 2 }
{
    let sender = me as u8 + 1;
    let code = code_at(model, count);
    say(rt, &mut model.log, (2, sender, count, 0));
    if code > 0 {
        say(rt, &mut model.log, (3, sender, count, code));
    }
}

/// How many moves are kept after the next one and those that wait behind it.
fn run_on(model: &Model, side: &Side, count: u32) -> u32 {
    let mut reached = count.wrapping_add(1);
    for number in 0..16u32 {
        if number == reached && reached < model.last && side.waiting[number as usize] {
            reached = number.wrapping_add(1);
        }
    }
    reached
}

/// A put of a record with so many moves.
fn put(rt: &impl Abort, model: &mut Model, me: usize, count: u32, keep: Keep)
    requires { me < 2 }
{
    if keep != Keep::FailsOld {
        model.sides[me].kept = Some(count);
    }
    if keep == Keep::Good {
        tell(rt, model, me, count);
    } else {
        model.sides[me].state = State::Down;
    }
}

/// The move with this number waits.
fn wait(model: &mut Model, me: usize, number: u32)
    requires { me < 2 }
{
    model.sides[me].waiting[(number % 16) as usize] = true;
}

/// The next move is recorded with those that wait behind it.
fn record(rt: &impl Abort, model: &mut Model, me: usize, count: u32, keep: Keep)
    requires { me < 2 }
{
    if count < model.last {
        let side = model.sides[me];
        let reached = run_on(model, &side, count);
        put(rt, model, me, reached, keep);
    }
}

/// A running arbiter with so many moves kept is handed the move with this number.
fn take_move(rt: &impl Abort, model: &mut Model, me: usize, count: u32, number: u32, keep: Keep)
    requires { me < 2 }
{
    if code_at(model, count) > 0 || number < count {
        tell(rt, model, me, count);
    } else if number > count {
        wait(model, me, number);
        tell(rt, model, me, count);
    } else {
        record(rt, model, me, count, keep);
    }
}

/// A running arbiter with so many moves kept is asked for moves.
fn pass_on(rt: &impl Abort, model: &mut Model, me: usize, count: u32, number: u32)
    requires { me < 2 }
{
    let sender = me as u8 + 1;
    for i in 0..8u32 {
        let told = number.wrapping_add(i);
        if told < count {
            say(rt, &mut model.log, (1, sender, told, 0));
        }
    }
}

/// How many moves an arbiter keeps that is running.
fn running(model: &Model, me: usize) -> Option<u32>
    requires { me < 2 }
{
    let side = model.sides[me];
    if side.state == State::Running {
        side.kept
    } else {
        None
    }
}

/// An arbiter is handed what was said.
fn hand(rt: &impl Abort, model: &mut Model, me: usize, said: Said, keep: Keep)
    requires { me < 2 }
{
    let Some(count) = running(model, me) else {
        return;
    };
    match said.0 {
        1 => take_move(rt, model, me, count, said.2, keep),
        4 => pass_on(rt, model, me, count, said.2),
        _ => {}
    }
}

/// An arbiter is closed and opened.
fn restart(model: &mut Model, me: usize, keep: Keep)
    requires { me < 2 }
{
    let side = &mut model.sides[me];
    side.waiting = [false; 16];
    side.state = State::Running;
    if side.kept.is_some() {
        return;
    }
    match keep {
        Keep::Good => side.kept = Some(0),
        Keep::FailsOld => side.state = State::Closed,
        Keep::FailsNew => {
            side.kept = Some(0);
            side.state = State::Closed;
        }
    }
}

/// An arbiter asks the other for moves.
fn ask(rt: &impl Abort, model: &mut Model, me: usize)
    requires { me < 2 }
{
    if let Some(count) = running(model, me) {
        if code_at(model, count) == 0 {
            say(rt, &mut model.log, (4, me as u8 + 1, count, 8));
        }
    }
}

/// A keep, mostly a good one.
fn keep_of(seed: &mut u64) -> Keep {
    match next(seed) % 8 {
        0 => Keep::FailsOld,
        1 => Keep::FailsNew,
        _ => Keep::Good,
    }
}

/// The arbiter at this place.
fn who_of(me: usize) -> ArbiterId {
    if me == 0 { ArbiterId::A } else { ArbiterId::B }
}

/// What was said at this place, if anything was.
fn said_at(model: &Model, index: usize) -> Option<Said> {
    model.log.get(index).copied()
}

/// A message of the log is handed over.
fn deliver(rt: &impl Abort, model: &mut Model, me: usize, keep: Keep, seed: &mut u64) -> Event
    requires { me < 2 }
{
    let index = (next(seed) as usize) % (model.log.len().wrapping_add(2)).max(1);
    if let Some(said) = said_at(model, index) {
        hand(rt, model, me, said, keep);
    }
    Event::Deliver {
        who: who_of(me),
        index,
        keep,
    }
}

/// An arbiter is opened, with what it does in the model.
fn reopen(model: &mut Model, me: usize, keep: Keep) -> Event
    requires { me < 2 }
{
    restart(model, me, keep);
    Event::Restart {
        who: who_of(me),
        keep,
    }
}

/// An arbiter asks, with what it does in the model.
fn ask_other(rt: &impl Abort, model: &mut Model, me: usize) -> Event
    requires { me < 2 }
{
    ask(rt, model, me);
    Event::Ask { who: who_of(me) }
}

fn copied(rt: &impl Abort, alloc: Global, bytes: &[u8]) -> Vec<u8> {
    Vec::from_slice(alloc, bytes).expect(rt, "memory")
}

/// The world before the first event.
fn world_at_first(rt: &impl Abort, alloc: Global, text: &str, delay: u8) -> World {
    let schedule = schedule_of(rt, alloc, text);
    let game = game_of(rt, alloc, &schedule, delay);
    world_of(rt, alloc, &game, &schedule)
}

fn message_at(rt: &impl Abort, world: &World, number: usize) -> [u8; 27] {
    world.log().get(number).expect(rt, "a move").encode()
}

/// The bytes of the game's move with this number, as the source of a game with this delay sends them.
fn spoken(rt: &impl Abort, alloc: Global, text: &str, delay: u8, number: usize) -> Vec<u8> {
    let world = world_at_first(rt, alloc, text, delay);
    copied(rt, alloc, &message_at(rt, &world, number))
}

/// Bytes that are no message, a move of another game, whose delay alone is another, or a move of this one.
fn noise(rt: &impl Abort, alloc: Global, row: Row, seed: &mut u64) -> Vec<u8> {
    let number = (next(seed) % 5) as usize;
    match next(seed) % 3 {
        0 => copied(rt, alloc, &[0x53, 0x41]),
        1 => spoken(rt, alloc, row.0, row.1 ^ 1, number),
        _ => spoken(rt, alloc, row.0, row.1, number),
    }
}

/// Noise comes to an arbiter.
fn disturb(rt: &impl Abort, alloc: Global, row: Row, me: usize, keep: Keep, seed: &mut u64) -> Event
    requires { me < 2 }
{
    Event::Noise {
        who: who_of(me),
        bytes: noise(rt, alloc, row, seed),
        keep,
    }
}

/// A random event, with what it does in the model.
fn event(rt: &impl Abort, alloc: Global, row: Row, model: &mut Model, seed: &mut u64) -> Event {
    let me = (next(seed) % 2) as usize;
    let keep = keep_of(seed);
    match next(seed) % 12 {
        0 | 1 => reopen(model, me, keep),
        2 => ask_other(rt, model, me),
        3 => disturb(rt, alloc, row, me, keep, seed),
        _ => deliver(rt, model, me, keep, seed),
    }
}

/// What a message says.
fn said_by(message: &Message) -> Said {
    match *message {
        Message::Move { sender, number, .. } => (1, sender.number(), number, 0),
        Message::Ack { who, count, .. } => (2, who.number(), count.number(), 0),
        Message::Verdict {
            who,
            ply,
            verdict,
            ..
        } => (3, who.number(), ply.number(), verdict.code()),
        Message::Fetch {
            who,
            number,
            wanted,
            ..
        } => (4, who.number(), number.number(), wanted.number()),
    }
}

/// Whether an arbiter is as in the model.
fn is_side(model: &Model, world: &World, me: usize) -> bool
    requires { me < 2 }
{
    let side = model.sides[me];
    let kept = match side.kept {
        Some(count) => Some((count, code_at(model, count))),
        None => None,
    };
    world.state(who_of(me)) == side.state && world.kept(who_of(me)) == kept
}

/// Whether what was sent is what the model says.
fn is_log(model: &Model, world: &World) -> bool {
    if world.log().len() != model.log.len() {
        return false;
    }
    for (message, said) in world.log().iter().zip(model.log.iter()) {
        if said_by(message) != *said {
            return false;
        }
    }
    true
}

/// Whether the world is as in the model.
fn is_world(model: &Model, world: &World) -> bool {
    is_side(model, world, 0) && is_side(model, world, 1) && is_log(model, world)
}

/// Another random event, in the schedule and in the model.
fn add_event(
    rt: &impl Abort,
    alloc: Global,
    row: Row,
    schedule: &mut Schedule,
    model: &mut Model,
    seed: &mut u64,
) {
    let event = event(rt, alloc, row, model, seed);
    assert!(rt; schedule.events.push(event).is_ok());
}

/// What comes of a schedule is what the model says.
fn check_world(
    rt: &impl Abort,
    alloc: Global,
    row: Row,
    schedule: &Schedule,
    model: &Model,
    seed: u64,
) {
    let game = game_of(rt, alloc, schedule, row.1);
    let world = world_of(rt, alloc, &game, schedule);
    check_same(rt, (seed, is_world(model, &world)), (seed, true), row.0);
}

/// One random schedule of a game.
fn check_schedule(rt: &impl Abort, alloc: Global, row: Row, seed: u64, events: u32) {
    let mut schedule = schedule_of(rt, alloc, row.0);
    let mut model = begin(rt, alloc, row);
    let mut state = seed;
    for _ in 0..events {
        add_event(rt, alloc, row, &mut schedule, &mut model, &mut state);
    }
    check_world(rt, alloc, row, &schedule, &model, seed);
}

fn check_schedules(rt: &impl Abort, alloc: Global, row: Row) {
    for seed in 0..75u64 {
        check_schedule(rt, alloc, row, seed, 60);
    }
}

#[test]
fn random_schedules(rt: HostRuntime) {
    for row in GAMES {
        check_schedules(&rt, rt.alloc(), row);
    }
}
