//! The worked files as plans, plans that no file says, and writers that fail.

ghost use Rattle.std.specs.Prelude.{◌<◌};

use crate::tests::comparing::{check_bytes, check_same};
use crate::tests::files::{BISHOP, KNIGHT, PAWN, PAWNS, queen_file};
use board_core::Side;
use check_helpers::{Failing, QUEEN, QUEEN_PLIES, file_of};
use place_index::{Material, PawnFile, index};
use std::alloc::Global;
use std::process::Abort;
use table_file::{
    Content, Damaged, ForgeFault, MapsPlan, Outcome, PairsPlan, PartPlan, Plan, Table, TableFault,
    TableKind, forge, open,
};

fn words_of(rt: &impl Abort, alloc: Global, words: &[u16]) -> Vec<u16> {
    words.to_vec(alloc).expect(rt, "memory")
}

/// Maps of wins and of cursed wins alone.
fn maps(rt: &impl Abort, alloc: Global, win: &[u16], cursed_win: &[u16]) -> MapsPlan {
    MapsPlan {
        win: words_of(rt, alloc, win),
        loss: Vec::new(alloc),
        cursed_win: words_of(rt, alloc, cursed_win),
        blessed_loss: Vec::new(alloc),
    }
}

fn no_maps(rt: &impl Abort, alloc: Global) -> MapsPlan {
    maps(rt, alloc, &[], &[])
}

fn pieces_of(rt: &impl Abort, alloc: Global, pieces: &[u8]) -> Vec<u8> {
    pieces.to_vec(alloc).expect(rt, "memory")
}

/// A part of the queen's table.
fn queen_part(
    rt: &impl Abort,
    alloc: Global,
    flags: u8,
    content: Content,
    maps: MapsPlan,
) -> PartPlan {
    PartPlan {
        pieces: pieces_of(rt, alloc, &[6, 5, 14]),
        order: 0,
        second: None,
        flags,
        content,
        maps,
    }
}

fn push(rt: &impl Abort, parts: &mut Vec<PartPlan>, part: PartPlan) {
    assert!(rt; parts.push(part).is_ok());
}

/// A WDL file of single values: so many files of the leading pawn, of each the values of its sides.
struct Singles {
    name: &'static str,
    pieces: &'static [u8],
    second: Option<u8>,
    files: u8,
    values: &'static [u16],
    front: &'static [u8],
}

const SINGLES: [Singles; 5] = [
    Singles {
        name: "KNvK",
        pieces: &[6, 2, 14],
        second: None,
        files: 1,
        values: &[2, 2],
        front: &KNIGHT,
    },
    Singles {
        name: "KQvK",
        pieces: &[6, 5, 14],
        second: None,
        files: 1,
        values: &[4, 0],
        front: &QUEEN,
    },
    Singles {
        name: "KBvK",
        pieces: &[6, 3, 14],
        second: None,
        files: 1,
        values: &[2, 2],
        front: &BISHOP,
    },
    Singles {
        name: "KPvK",
        pieces: &[1, 6, 14],
        second: None,
        files: 4,
        values: &[4, 0],
        front: &PAWN,
    },
    Singles {
        name: "KPvKP",
        pieces: &[1, 9, 6, 14],
        second: Some(1),
        files: 4,
        values: &[2],
        front: &PAWNS,
    },
];

/// A part of one value, without maps.
fn single(rt: &impl Abort, alloc: Global, row: &Singles, value: u16) -> PartPlan {
    PartPlan {
        pieces: pieces_of(rt, alloc, row.pieces),
        order: 0,
        second: row.second,
        flags: 0x80,
        content: Content::Single(value),
        maps: no_maps(rt, alloc),
    }
}

/// Appends a part for each side.
fn push_sides(rt: &impl Abort, alloc: Global, parts: &mut Vec<PartPlan>, row: &Singles) {
    for value in row.values {
        push(rt, parts, single(rt, alloc, row, *value));
    }
}

fn plan_of(rt: &impl Abort, alloc: Global, row: &Singles) -> Plan {
    let mut parts = Vec::new(alloc);
    for _ in 0..row.files {
        push_sides(rt, alloc, &mut parts, row);
    }
    Plan {
        kind: TableKind::Wdl,
        material: material(rt, row.name),
        parts,
    }
}

/// The queen's table of single values.
fn queen_plan(rt: &impl Abort, alloc: Global) -> Plan {
    let [_, queen, ..] = &SINGLES;
    plan_of(rt, alloc, queen)
}

/// What is told of a plan, and what was written.
fn forged(alloc: Global, plan: &Plan) -> (Result<(), ForgeFault>, Vec<u8>) {
    let mut file = Vec::new(alloc);
    let told = forge(alloc, plan, &mut file);
    (told, file)
}

/// The file of a plan that is good.
fn forged_file(rt: &impl Abort, alloc: Global, plan: &Plan) -> Vec<u8> {
    let (told, file) = forged(alloc, plan);
    check_same(rt, told, Ok(()), "forged");
    file
}

/// A plan is refused, and nothing is written.
fn check_refused(rt: &impl Abort, alloc: Global, plan: Plan, row: &str) {
    let (told, file) = forged(alloc, &plan);
    check_same(rt, told, Err(ForgeFault::BadPlan), row);
    check_same(rt, file.len(), 0, row);
}

fn check_forged(rt: &impl Abort, alloc: Global, plan: &Plan, file: &[u8]) {
    check_bytes(rt, &forged_file(rt, alloc, plan), file, "file");
}

#[test]
fn worked_results_give_their_bytes(rt: HostRuntime) {
    for row in &SINGLES {
        let plan = plan_of(&rt, rt.alloc(), row);
        check_forged(&rt, rt.alloc(), &plan, &file_of(row.front));
    }
}

/// The queen's DTZ table of one part.
fn queen_dtz(rt: &impl Abort, alloc: Global, part: PartPlan) -> Plan {
    let mut parts = Vec::new(alloc);
    push(rt, &mut parts, part);
    Plan {
        kind: TableKind::Dtz,
        material: material(rt, "KQvK"),
        parts,
    }
}

/// A part of one value, with maps for wins and for cursed wins.
fn mapped(rt: &impl Abort, alloc: Global, flags: u8, win: &[u16], cursed_win: &[u16]) -> PartPlan {
    let maps = maps(rt, alloc, win, cursed_win);
    queen_part(rt, alloc, flags, Content::Single(0), maps)
}

#[test]
fn worked_distances_give_their_bytes(rt: HostRuntime) {
    let part = mapped(&rt, rt.alloc(), 0x86, &[9], &[]);
    let plan = queen_dtz(&rt, rt.alloc(), part);
    check_forged(&rt, rt.alloc(), &plan, &file_of(&QUEEN_PLIES));
}

/// Bytes from a place on in a file.
struct Stretch {
    from: usize,
    bytes: &'static [u8],
}

/// So many bytes from a place on.
fn part<'a>(rt: &impl Abort, file: &'a [u8], from: usize, length: usize) -> &'a [u8] {
    let rest = file.get(from..).expect(rt, "bytes");
    rest.get(..length).expect(rt, "bytes")
}

fn check_stretch(rt: &impl Abort, file: &[u8], row: &Stretch) {
    let told = part(rt, file, row.from, row.bytes.len());
    check_bytes(rt, told, row.bytes, "a stretch");
}

/// A file of so many bytes has these stretches.
fn check_stretches(rt: &impl Abort, file: &[u8], length: usize, rows: &[Stretch]) {
    check_same(rt, file.len(), length, "length");
    for row in rows {
        check_stretch(rt, file, row);
    }
}

/// Flags, and maps of 9 for a win and of two bytes for a cursed win.
const WIDE_MAPS: [Stretch; 2] = [
    Stretch {
        from: 10,
        bytes: &[0x96, 0],
    },
    Stretch {
        from: 12,
        bytes: &[1, 0, 9, 0, 0, 0, 1, 0, 2, 1, 0, 0],
    },
];

/// Two wide maps make the offset even first: 9 for a win, and two bytes for a cursed win.
#[test]
fn wide_maps_are_forged(rt: HostRuntime) {
    let part = mapped(&rt, rt.alloc(), 0x96, &[9], &[0x0102]);
    let plan = queen_dtz(&rt, rt.alloc(), part);
    let file = forged_file(&rt, rt.alloc(), &plan);
    check_stretches(&rt, &file, 80, &WIDE_MAPS);
}

/// So many times this symbol.
fn block_of(rt: &impl Abort, alloc: Global, symbol: u16, count: usize) -> Vec<u16> {
    let mut block = Vec::new(alloc);
    assert!(rt; block.resize(count, symbol).is_ok());
    block
}

fn push_block(rt: &impl Abort, blocks: &mut Vec<Vec<u16>>, block: Vec<u16>) {
    assert!(rt; blocks.push(block).is_ok());
}

/// So many blocks of a symbol, each of the first length, and one of the other.
fn blocks_of(
    rt: &impl Abort,
    alloc: Global,
    symbol: u16,
    count: u16,
    lengths: (usize, usize),
) -> Vec<Vec<u16>> {
    let mut blocks = Vec::new(alloc);
    for _ in 0..count {
        push_block(rt, &mut blocks, block_of(rt, alloc, symbol, lengths.0));
    }
    push_block(rt, &mut blocks, block_of(rt, alloc, symbol, lengths.1));
    blocks
}

fn symbols_of(rt: &impl Abort, alloc: Global, symbols: &[[u8; 3]]) -> Vec<[u8; 3]> {
    symbols.to_vec(alloc).expect(rt, "memory")
}

/// 313 blocks of fifty pairs 4 0, and one of sixteen.
fn pairs(rt: &impl Abort, alloc: Global) -> PairsPlan {
    PairsPlan {
        block_exponent: 3,
        span_exponent: 8,
        least: 1,
        greatest: 2,
        lowest: words_of(rt, alloc, &[2, 0]),
        symbols: symbols_of(rt, alloc, &[[4, 0xF0, 0xFF], [0, 0xF0, 0xFF], [0, 0x10, 0]]),
        blocks: blocks_of(rt, alloc, 2, 313, (50, 16)),
    }
}

/// The queen's WDL table with these blocks for one side and the single value 0 for the other.
fn queen_of_pairs(rt: &impl Abort, alloc: Global, pairs: PairsPlan) -> Plan {
    let first = queen_part(rt, alloc, 0, Content::Pairs(pairs), no_maps(rt, alloc));
    let second = queen_part(rt, alloc, 0x80, Content::Single(0), no_maps(rt, alloc));
    let mut parts = Vec::new(alloc);
    push(rt, &mut parts, first);
    push(rt, &mut parts, second);
    Plan {
        kind: TableKind::Wdl,
        material: material(rt, "KQvK"),
        parts,
    }
}

#[test]
fn blocks_are_forged(rt: HostRuntime) {
    let plan = queen_of_pairs(&rt, rt.alloc(), pairs(&rt, rt.alloc()));
    check_forged(&rt, rt.alloc(), &plan, &queen_file(&rt, rt.alloc()));
}

/// A leaf of 4 and one of 0, their pair, and seven pairs of the symbol before with itself, so that symbol 9 has 256 values.
const DOUBLED: [[u8; 3]; 10] = [
    [4, 0xF0, 0xFF],
    [0, 0xF0, 0xFF],
    [0, 0x10, 0],
    [2, 0x20, 0],
    [3, 0x30, 0],
    [4, 0x40, 0],
    [5, 0x50, 0],
    [6, 0x60, 0],
    [7, 0x70, 0],
    [8, 0x80, 0],
];

/// Codes of twenty bits, each of them the number of its symbol. Twenty blocks of six symbols 9, and one of three: 1536 values
/// each, and 612 of the last one's 768.
fn long_pairs(rt: &impl Abort, alloc: Global) -> PairsPlan {
    PairsPlan {
        block_exponent: 4,
        span_exponent: 8,
        least: 20,
        greatest: 20,
        lowest: words_of(rt, alloc, &[0]),
        symbols: symbols_of(rt, alloc, &DOUBLED),
        blocks: blocks_of(rt, alloc, 9, 20, (6, 3)),
    }
}

fn long_part(rt: &impl Abort, alloc: Global) -> PartPlan {
    let content = Content::Pairs(long_pairs(rt, alloc));
    queen_part(rt, alloc, 0, content, no_maps(rt, alloc))
}

/// The queen's WDL table with blocks for both sides, the second side's of long codes.
fn queen_of_both(rt: &impl Abort, alloc: Global) -> Plan {
    let mut plan = queen_of_pairs(rt, alloc, pairs(rt, alloc));
    plan.parts.truncate(1);
    push(rt, &mut plan.parts, long_part(rt, alloc));
    plan
}

/// Of the second side: block lengths, whole blocks of six codes, which begin at a multiple of 64, and the last one of three.
const LONG_CODES: [Stretch; 6] = [
    Stretch {
        from: 2186,
        bytes: &[0xFF, 5],
    },
    Stretch {
        from: 2226,
        bytes: &[0x63, 2, 0xFF, 0xFF],
    },
    Stretch {
        from: 4752,
        bytes: &[0; 48],
    },
    Stretch {
        from: 4800,
        bytes: &[0, 0, 0x90, 0, 9, 0, 0, 0x90, 0, 9, 0, 0, 0x90, 0, 9, 0],
    },
    Stretch {
        from: 5120,
        bytes: &[0, 0, 0x90, 0, 9, 0, 0, 0x90, 0, 0, 0, 0, 0, 0, 0, 0],
    },
    Stretch {
        from: 5136,
        bytes: &[0; 64],
    },
];

#[test]
fn blocks_of_two_sides_are_forged(rt: HostRuntime) {
    let plan = queen_of_both(&rt, rt.alloc());
    let file = forged_file(&rt, rt.alloc(), &plan);
    check_stretches(&rt, &file, 5200, &LONG_CODES);
}

/// Blocks of two bytes, which are too short for their values.
fn with_short_blocks(rt: &impl Abort, alloc: Global) -> Plan {
    let mut pairs = pairs(rt, alloc);
    pairs.block_exponent = 1;
    queen_of_pairs(rt, alloc, pairs)
}

/// One block fewer, so that there are fewer values than indices.
fn with_a_block_fewer(rt: &impl Abort, alloc: Global) -> Plan {
    let mut pairs = pairs(rt, alloc);
    pairs.blocks.truncate(313);
    queen_of_pairs(rt, alloc, pairs)
}

/// One part where there are two sides.
fn with_a_side_fewer(rt: &impl Abort, alloc: Global) -> Plan {
    let mut plan = queen_plan(rt, alloc);
    plan.parts.truncate(1);
    plan
}

/// A map that the flags don't tell of.
fn with_maps_untold(rt: &impl Abort, alloc: Global) -> Plan {
    queen_dtz(rt, alloc, mapped(rt, alloc, 0x84, &[9], &[]))
}

#[test]
fn plans_that_no_file_says_are_refused(rt: HostRuntime) {
    let alloc = rt.alloc();
    check_refused(&rt, alloc, with_short_blocks(&rt, alloc), "short blocks");
    check_refused(&rt, alloc, with_a_block_fewer(&rt, alloc), "a block");
    check_refused(&rt, alloc, with_a_side_fewer(&rt, alloc), "a side");
    check_refused(&rt, alloc, with_maps_untold(&rt, alloc), "maps");
}

/// What is told where the writer fails at one call.
fn told_at(alloc: Global, plan: &Plan, fails_at: u32) -> Result<(), ForgeFault> {
    forge(alloc, plan, &mut Failing::at(fails_at))
}

#[test]
fn each_failed_write_is_told(rt: HostRuntime) {
    let plan = queen_plan(&rt, rt.alloc());
    for fails_at in 0..6u32 {
        let wanted = if fails_at < 5 {
            Err(ForgeFault::Io)
        } else {
            Ok(())
        };
        let told = told_at(rt.alloc(), &plan, fails_at);
        check_same(&rt, (fails_at, told), (fails_at, wanted), "told");
    }
}

/// The queen's DTZ table with blocks of values 4 and 0 in turn, and a map for wins.
fn queen_distances(rt: &impl Abort, alloc: Global, flags: u8, win: &[u16]) -> Vec<u8> {
    let content = Content::Pairs(pairs(rt, alloc));
    let part = queen_part(rt, alloc, flags, content, maps(rt, alloc, win, &[]));
    forged_file(rt, alloc, &queen_dtz(rt, alloc, part))
}

/// Flags, the map for wins, and the plies at even indices and at odd ones.
struct Places {
    flags: u8,
    win: &'static [u16],
    even: Option<u32>,
    odd: Option<u32>,
}

const PLACES: [Places; 5] = [
    Places {
        flags: 0x06,
        win: &[10, 20, 30, 40, 50],
        even: Some(50),
        odd: Some(10),
    },
    Places {
        flags: 0x06,
        win: &[10, 20, 30, 40],
        even: None,
        odd: Some(10),
    },
    Places {
        flags: 0x16,
        win: &[10, 20, 30, 40, 50],
        even: Some(50),
        odd: Some(10),
    },
    Places {
        flags: 0x04,
        win: &[],
        even: Some(4),
        odd: Some(0),
    },
    Places {
        flags: 0x00,
        win: &[],
        even: Some(8),
        odd: Some(0),
    },
];

fn plies(rt: &impl Abort, table: &Table<'_>, index: u64) -> Option<u32> {
    distance(rt, table, 0, index, Outcome::Win).ok()
}

fn check_plies(rt: &impl Abort, table: &Table<'_>, row: &Places) {
    check_same(rt, plies(rt, table, 0), row.even, "first");
    check_same(rt, plies(rt, table, 31331), row.odd, "last");
    check_same(rt, plies(rt, table, 31332), None, "past");
}

fn check_places(rt: &impl Abort, alloc: Global, row: &Places) {
    let file = queen_distances(rt, alloc, row.flags, row.win);
    check_plies(rt, &table_of(rt, alloc, "KQvK.rtbz", &file), row);
}

/// A stored value is a place in the map where there is one, and no value is past its end.
#[test]
fn values_are_places_in_maps(rt: HostRuntime) {
    for row in &PLACES {
        check_places(&rt, rt.alloc(), row);
    }
}

/// The material of a name that is good.
pub(crate) fn material(rt: &impl Abort, name: &str) -> Material {
    Material::from_name(name.as_bytes()).expect(rt, name)
}

/// A file as a table, or its fault. The functions down to `distance` show a table to the tests without its contracts.
fn opened<'a>(alloc: Global, name: &str, file: &'a [u8]) -> Result<Table<'a>, TableFault> {
    open(alloc, name.as_bytes(), file)
}

/// The table of a file that is good.
pub(crate) fn table_of<'a>(
    rt: &impl Abort,
    alloc: Global,
    name: &str,
    file: &'a [u8],
) -> Table<'a> {
    opened(alloc, name, file).expect(rt, name)
}

/// The plies that a DTZ table tells.
pub(crate) fn distance(
    rt: &impl Abort,
    table: &Table<'_>,
    file: u8,
    index: u64,
    outcome: Outcome,
) -> Result<u32, Damaged> {
    assert!(rt; table.kind() == TableKind::Dtz);
    let file = PawnFile::new(file).expect(rt, "a file");
    table.part(Side::White, file).dtz(index, outcome)
}
