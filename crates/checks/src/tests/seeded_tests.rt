//! Seeded positions of all materials, whose indices are folded to what a script finds by counting placements one by one.

use crate::tests::comparing::check_same;
use arrayvec::ArrayVec;
use board_core::{Kind, Men, Parts, Piece, Position, Rights, Side, Square};
use place_index::{Material, Shape, index, place};
use std::process::Abort;

/// The 145 materials in the order of their keys, ten a row and five in the last, each by four words, and what the indices of the
/// positions of a row are folded to. A word is a table's pieces in their order, white's in capitals, and the two nibbles of its
/// order. `tools/count_placements` prints these rows: it draws the same positions and counts the placements before each.
const ROWS: [(&str, u64); 15] = [
    (
        "KQk00 QkK00 kKQ00 KQk00 kKR00 kKR00 KRk00 KRk00 BkK00 KBk00 kKB00 KBk00 KNk00 KNk00 NkK00 KNk00 PKk10 PKk20 PKk00 PKk20 KkQQ10 KkQQ10 KkQQ10 kKQQ00 KQRk00 RkKQ10 QRkK10 kKQR00 kKQB00 BkKQ10 kKQB10 QBkK00 KQNk00 NkKQ00 NkKQ00 KQNk00 PKQk00 PKQk20 PKQk00 PKQk30",
        11995076587996811448,
    ),
    (
        "KkRR00 KkRR10 KkRR10 KkRR00 RBkK10 kKRB00 BkKR00 BkKR10 NkKR10 KRNk00 RNkK00 RNkK10 PKRk20 PKRk30 PKRk00 PKRk10 KkBB10 KkBB00 KkBB10 KkBB10 kKBN10 kKBN10 KBNk00 BNkK00 PKBk20 PKBk10 PKBk30 PKBk30 kKNN00 kKNN00 kKNN00 kKNN00 PKNk30 PKNk20 PKNk20 PKNk10 PPKk20 PPKk00 PPKk20 PPKk00",
        5392764100243739050,
    ),
    (
        "qKQk10 QkqK10 qKQk10 qKQk00 QkrK00 QkrK00 rKQk10 krKQ00 bKQk00 kbKQ00 kbKQ00 QkbK10 KQkn00 nKQk10 nKQk00 QknK10 pKQk10 pKQk30 pKQk00 pKQk10 rKRk10 RkrK10 RkrK10 rKRk10 KRkb00 kbKR00 RkbK10 RkbK10 nKRk00 RknK10 knKR10 nKRk00 pKRk10 pKRk20 pKRk20 pKRk20 bKBk00 kbKB00 kbKB00 KBkb10",
        2930640818129958753,
    ),
    (
        "nKBk10 knKB00 KBkn10 BknK00 pKBk10 pKBk30 pKBk30 pKBk30 nKNk00 knKN00 KNkn10 NknK10 pKNk20 pKNk10 pKNk20 pKNk30 PpKk31 PpKk03 PpKk30 PpKk30 KkQQQ00 kKQQQ00 kKQQQ10 kKQQQ00 kKRQQ10 kKRQQ10 kKRQQ00 KRkQQ10 BkKQQ10 BkKQQ10 kKBQQ00 KBkQQ00 NkKQQ00 kKNQQ00 KNkQQ10 kKNQQ10 PKQQk10 PKQQk30 PKQQk30 PKQQk00",
        16152776694595423314,
    ),
    (
        "KQkRR10 KQkRR00 KQkRR00 KQkRR00 KQRBk20 RBkKQ20 BkKQR00 KQRBk00 KQRNk10 NkKQR20 KQRNk00 kKQRN20 PKQRk10 PKQRk00 PKQRk20 PKQRk00 KQkBB00 kKQBB00 kKQBB10 kKQBB10 BNkKQ10 QBNKk20 QBNKk00 KQBNk20 PKQBk00 PKQBk40 PKQBk40 PKQBk10 QkKNN00 KQkNN00 QkKNN00 kKQNN10 PKQNk10 PKQNk00 PKQNk00 PKQNk30 PPKQk00 PPKQk10 PPKQk00 PPKQk20",
        12632422927818589517,
    ),
    (
        "KkRRR10 kKRRR10 kKRRR10 KkRRR00 BkKRR00 kKBRR10 BkKRR00 KBkRR00 kKNRR00 kKNRR00 NkKRR00 KNkRR00 PKRRk00 PKRRk00 PKRRk30 PKRRk20 kKRBB10 kKRBB00 KRkBB00 KRkBB10 KRBNk00 RBNKk00 NkKRB10 NkKRB20 PKRBk40 PKRBk10 PKRBk30 PKRBk40 KRkNN10 KRkNN00 KRkNN00 KRkNN10 PKRNk20 PKRNk20 PKRNk30 PKRNk30 PPKRk10 PPKRk00 PPKRk10 PPKRk00",
        1219051127033980496,
    ),
    (
        "KkBBB00 kKBBB10 kKBBB00 KkBBB00 KNkBB10 kKNBB10 kKNBB00 NkKBB00 PKBBk10 PKBBk30 PKBBk30 PKBBk20 KBkNN10 kKBNN10 KBkNN00 BkKNN10 PKBNk20 PKBNk10 PKBNk30 PKBNk20 PPKBk10 PPKBk30 PPKBk30 PPKBk10 kKNNN10 kKNNN10 KkNNN00 KkNNN10 PKNNk30 PKNNk00 PKNNk30 PKNNk20 PPKNk30 PPKNk10 PPKNk10 PPKNk00 PPPKk20 PPPKk10 PPPKk00 PPPKk20",
        11953299514737177532,
    ),
    (
        "qKkQQ10 qKkQQ10 kqKQQ00 KkqQQ00 KkrQQ00 rKkQQ10 KkrQQ00 krKQQ10 KkbQQ10 bKkQQ00 bKkQQ10 KkbQQ10 nKkQQ00 knKQQ00 knKQQ10 knKQQ00 pKQQk10 pKQQk10 pKQQk30 pKQQk30 qKQRk10 RkqKQ20 KQRkq10 RkqKQ00 RkrKQ00 rKQRk20 RkrKQ00 KQRkr10 kbKQR20 bKQRk10 bKQRk00 RkbKQ10 nKQRk20 knKQR10 KQRkn10 QRkKn00 pKQRk10 pKQRk10 pKQRk30 pKQRk30",
        250833985739785618,
    ),
    (
        "KQBkq10 kqKQB20 kqKQB10 KQBkq00 KQBkr20 krKQB10 krKQB00 BkrKQ10 kbKQB00 kbKQB00 bKQBk20 BkbKQ20 knKQB00 QBkKn20 nKQBk20 knKQB10 pKQBk10 pKQBk10 pKQBk30 pKQBk10 kqKQN20 kqKQN10 NkqKQ00 kqKQN20 rKQNk00 krKQN20 NkrKQ10 KQNkr10 KQNkb00 KQNkb20 KQNkb20 NkbKQ00 QNkKn20 KQNkn00 knKQN00 QNkKn00 pKQNk40 pKQNk40 pKQNk30 pKQNk40",
        4726905916426449365,
    ),
    (
        "PKQkq10 PKQkq10 PKQkq30 PKQkq00 PKQkr20 PKQkr00 PKQkr20 PKQkr40 PKQkb10 PKQkb00 PKQkb30 PKQkb30 PKQkn30 PKQkn30 PKQkn10 PKQkn20 PpKQk30 PpKQk43 PpKQk10 PpKQk32 kqKRR00 KkqRR10 KkqRR10 kqKRR00 krKRR10 KkrRR00 krKRR00 KkrRR00 kbKRR10 bKkRR00 bKkRR00 kbKRR00 knKRR10 nKkRR00 nKkRR00 nKkRR10 pKRRk10 pKRRk30 pKRRk10 pKRRk20",
        14173524796169021407,
    ),
    (
        "KRBkq20 BkqKR20 RBkKq10 BkqKR10 BkrKR10 rKRBk20 KRBkr20 KRBkr20 kbKRB20 KRBkb10 RBkKb00 kbKRB00 KRBkn00 BknKR00 nKRBk00 BknKR10 pKRBk40 pKRBk10 pKRBk10 pKRBk40 NkqKR00 KRNkq20 NkqKR10 KRNkq20 rKRNk00 krKRN00 KRNkr20 NkrKR00 RNkKb10 KRNkb20 RNkKb20 bKRNk00 RNkKn10 RNkKn20 NknKR10 nKRNk10 pKRNk30 pKRNk10 pKRNk10 pKRNk20",
        10957240589803829312,
    ),
    (
        "PKRkq10 PKRkq00 PKRkq20 PKRkq40 PKRkr20 PKRkr10 PKRkr00 PKRkr40 PKRkb20 PKRkb00 PKRkb30 PKRkb00 PKRkn10 PKRkn30 PKRkn30 PKRkn20 PpKRk10 PpKRk40 PpKRk41 PpKRk43 qKkBB00 qKkBB10 kqKBB00 kqKBB10 rKkBB00 rKkBB10 krKBB00 KkrBB00 bKkBB10 bKkBB10 kbKBB00 KkbBB00 KknBB10 KknBB10 knKBB00 knKBB10 pKBBk00 pKBBk10 pKBBk30 pKBBk10",
        5131599769606374058,
    ),
    (
        "BNkKq10 NkqKB00 NkqKB10 kqKBN10 NkrKB00 BNkKr20 BNkKr10 NkrKB10 kbKBN00 NkbKB10 NkbKB20 NkbKB00 knKBN00 knKBN20 nKBNk10 nKBNk00 pKBNk40 pKBNk00 pKBNk10 pKBNk30 PKBkq20 PKBkq40 PKBkq40 PKBkq10 PKBkr10 PKBkr30 PKBkr10 PKBkr00 PKBkb40 PKBkb30 PKBkb40 PKBkb30 PKBkn20 PKBkn20 PKBkn20 PKBkn00 PpKBk30 PpKBk13 PpKBk21 PpKBk43",
        2145163685319505493,
    ),
    (
        "qKkNN10 kqKNN00 qKkNN10 qKkNN10 krKNN00 KkrNN00 KkrNN00 krKNN00 KkbNN00 bKkNN00 kbKNN10 kbKNN10 knKNN10 KknNN10 nKkNN10 nKkNN10 pKNNk30 pKNNk00 pKNNk10 pKNNk10 PKNkq40 PKNkq00 PKNkq40 PKNkq20 PKNkr20 PKNkr30 PKNkr10 PKNkr20 PKNkb40 PKNkb00 PKNkb00 PKNkb10 PKNkn00 PKNkn10 PKNkn10 PKNkn30 PpKNk04 PpKNk10 PpKNk10 PpKNk31",
        17053060491211953286,
    ),
    (
        "PPKkq20 PPKkq20 PPKkq00 PPKkq30 PPKkr30 PPKkr10 PPKkr20 PPKkr10 PPKkb00 PPKkb30 PPKkb20 PPKkb20 PPKkn30 PPKkn30 PPKkn00 PPKkn10 pPPKk21 pPPKk20 pPPKk03 pPPKk02",
        17996748335874063523,
    ),
];

/// How many positions of each word are folded.
const POSITIONS: u32 = 25;

/// Squares or piece codes of up to five men.
type Few = ArrayVec<u8, 5>;

fn add(few: &mut Few, number: u8) {
    if few.len() < 5 {
        few.push(number);
    }
}

/// The next number of a sequence that a seed fixes (a linear congruential generator).
fn next(seed: &mut u64) -> u64 {
    *seed = seed
        .wrapping_mul(6364136223846793005)
        .wrapping_add(1442695040888963407);
    *seed >> 33
}

/// The code of a piece's letter: 1 to 6, and 8 more for black.
fn code_of(letter: u8) -> u8 {
    let kind = match letter.to_ascii_uppercase() {
        b'P' => 1u8,
        b'N' => 2,
        b'B' => 3,
        b'R' => 4,
        b'Q' => 5,
        b'K' => 6,
        _ => 0,
    };
    kind | (letter & 32) >> 2
}

/// The piece codes of a word.
fn codes_of(word: &[u8]) -> Few {
    let mut codes = Few::new();
    for letter in word {
        if letter.is_ascii_alphabetic() {
            add(&mut codes, code_of(*letter));
        }
    }
    codes
}

/// The digit that stands so far before the end of a word.
fn digit(word: &[u8], from_end: usize) -> u8 {
    let at = word.len().wrapping_sub(from_end);
    word.get(at).copied().unwrap_or(b'0').wrapping_sub(b'0')
}

/// Whether a man may stand on a square: pawns stand on the middle ranks.
fn is_allowed(code: u8, square: u8) -> bool {
    code % 8 != 1 || square >= 8 && square < 56
}

/// A square for a man that none of the others has, if one is found.
fn add_placed(squares: &mut Few, code: u8, seed: &mut u64) {
    for _ in 0..100 {
        let square = (next(seed) % 64) as u8;
        if is_allowed(code, square) && !squares.as_slice().contains(&square) {
            add(squares, square);
            break;
        }
    }
}

/// Squares for the men, each on one of its own.
fn placed(codes: &[u8], seed: &mut u64) -> Few {
    let mut squares = Few::new();
    for code in codes {
        add_placed(&mut squares, *code, seed);
    }
    squares
}

fn piece(code: u8, is_exchanged: bool) -> Piece {
    let side = if (code < 8) == is_exchanged {
        Side::Black
    } else {
        Side::White
    };
    let kind = match code % 8 {
        1 => Kind::Pawn,
        2 => Kind::Knight,
        3 => Kind::Bishop,
        4 => Kind::Rook,
        5 => Kind::Queen,
        _ => Kind::King,
    };
    Piece { side, kind }
}

/// The board of these men, or with colours exchanged and ranks mirrored.
fn board_of(codes: &[u8], squares: &Few, is_exchanged: bool) -> Men {
    let mut men = Men::none();
    let bits = if is_exchanged { 56u8 } else { 0 };
    for (code, square) in codes.iter().zip(squares.as_slice().iter()) {
        let square = Square::at((*square ^ bits) % 64);
        men.put(square, Some(piece(*code, is_exchanged)));
    }
    men
}

/// The position of these men, if there can be one.
fn position_of(men: Men, side: Side) -> Option<Position> {
    let parts = Parts {
        men,
        side,
        rights: Rights {
            white_king: false,
            white_queen: false,
            black_king: false,
            black_queen: false,
        },
        en_passant: None,
        halfmove: 0,
        fullmove: 1,
    };
    Position::new(parts).ok()
}

/// The index of a position in the table of its material that gives its pieces in this order.
fn index_in(position: &Position, pieces: &[u8], order: u8, second: u8) -> Option<u64> {
    let material = Material::of(position)?;
    let placed = place(position, &material);
    let Ok(shape) = Shape::new(&material, pieces, order, second, placed.file()) else {
        return None;
    };
    Some(index(&shape, &placed))
}

fn count(codes: &[u8], code: u8) -> usize {
    let mut count = 0usize;
    for other in codes {
        if *other == code {
            count = count.wrapping_add(1);
        }
    }
    count
}

fn is_symmetric(codes: &[u8]) -> bool {
    for code in codes {
        if count(codes, *code) != count(codes, *code ^ 8) {
            return false;
        }
    }
    true
}

/// Who moves: with the same men on both sides colours are exchanged where black does.
fn side_of(codes: &[u8], drawn: u64) -> Side {
    let bit = if is_symmetric(codes) { 1 } else { 2 };
    if drawn & bit == 0 {
        Side::White
    } else {
        Side::Black
    }
}

/// The position that is drawn next, if there can be one.
fn drawn_position(codes: &[u8], seed: &mut u64) -> Option<Position> {
    let squares = placed(codes, seed);
    let drawn = next(seed);
    let men = board_of(codes, &squares, drawn & 1 == 1);
    position_of(men, side_of(codes, drawn))
}

/// The index of the position that is drawn next, if there can be one.
fn drawn_index(codes: &[u8], word: &[u8], seed: &mut u64) -> Option<u64> {
    let position = drawn_position(codes, seed)?;
    index_in(&position, codes, digit(word, 2), digit(word, 1))
}

fn folded(sum: u64, number: u64) -> u64 {
    sum.wrapping_mul(31).wrapping_add(number)
}

/// What the indices of the positions of a word are folded to, each with 1 added; its place among the words is the seed.
fn sum_of(rt: &impl Abort, word: &str, place: u64) -> u64 {
    let codes = codes_of(word.as_bytes());
    let mut seed = place;
    let mut sum = 0u64;
    let mut count = 0u32;
    for _ in 0..1000 {
        if count < POSITIONS
            && let Some(number) = drawn_index(codes.as_slice(), word.as_bytes(), &mut seed)
        {
            sum = folded(sum, number.wrapping_add(1));
            count = count.wrapping_add(1);
        }
    }
    check_same(rt, count, POSITIONS, word);
    sum
}

/// What the sums of the words of a row are folded to, the first at this place among all words.
fn sum_of_row(rt: &impl Abort, words: &str, place: &mut u64) -> u64 {
    let mut sum = 0u64;
    for word in words.split(' ') {
        sum = folded(sum, sum_of(rt, word, *place));
        *place = place.wrapping_add(1);
    }
    sum
}

#[test]
fn indices_are_those_that_are_counted(rt: HostRuntime) {
    let mut place = 0u64;
    for (words, sum) in &ROWS {
        check_same(&rt, sum_of_row(&rt, words, &mut place), *sum, words);
    }
}
