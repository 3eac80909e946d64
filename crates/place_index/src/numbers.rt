//! The numbers of the groups.

ghost use Rattle.std.specs.Prelude.{◌≡◌, ◌<◌, ◌≤◌, ◌+◌, ◌++◌, ℕ, length, slice_index};
ghost use Rattle.place_index.specs.Choose.{set_number, IsFallingBelow};
ghost use Rattle.place_index.specs.Inside.Groups.{ArePawnsAt};
ghost use Rattle.place_index.specs.Index.{lead_pawns_number};
ghost use Rattle.place_index.specs.Kings.{AreTurnedKings, kings_number};
ghost use Rattle.place_index.specs.Others.{taken, free_number, free_set_number};
ghost use Rattle.place_index.specs.Pawns.{pawns_before};
ghost use Rattle.place_index.specs.Square.{before};
ghost use Rattle.place_index.specs.Three.{three_number, triangle_number, lower_number};

use crate::choose::choices;
use crate::pawn_file::PawnFile;
use crate::short_lists::Earlier;
use crate::squares::pawn_square;
use crate::tables::{KINGS, LOWER, PAWNS_BEFORE, TRIANGLE};
use board_core::Square;

/// 1 where the first square is the lower one, else 0.
#[tactic(auto, unfolding(crate::specs::Square::before))]
fn before(a: u8, b: u8) -> u64
    ensures is { result ≡ before a b }
    ensures bit { result ≤ 1 }
{
    if a < b { 1 } else { 0 }
}

fn triangle_number(square: Square) -> u64
    ensures is { result ≡ triangle_number square }
    ensures few { result ≤ 10 }
{
    TRIANGLE[square.number() as usize] as u64
}

fn lower_number(square: Square) -> u64
    ensures is { result ≡ lower_number square }
    ensures few { result ≤ 28 }
{
    LOWER[square.number() as usize] as u64
}

/// The number of a leading group of three.
#[tactic(auto, unfolding(crate::specs::Three::three_at))]
pub(crate) fn three_number(a: Square, b: Square, c: Square) -> u64
    ensures { result ≡ three_number a b c }
{
    let (first, second, third) = (a.number(), b.number(), c.number());
    let earlier = before(first, second);
    let third_earlier = before(first, third) + before(second, third);
    let last = (third as u64).saturating_sub(third_earlier);
    let rank = a.rank() as u64;
    if a.file() != a.rank() {
        let next = (second as u64).saturating_sub(earlier);
        return (triangle_number(a) * 63 + next) * 62 + last;
    }
    if b.file() != b.rank() {
        return (378 + rank * 28 + lower_number(b)) * 62 + last;
    }
    let next = (b.rank() as u64).saturating_sub(earlier);
    if c.file() != c.rank() {
        return 30380 + rank * 196 + next * 28 + lower_number(c);
    }
    31164 + rank * 42 + next * 6 + (c.rank() as u64).saturating_sub(third_earlier)
}

/// The number of a leading group of two kings.
pub(crate) fn kings_number(a: Square, b: Square) -> u64
    requires { AreTurnedKings a b }
    ensures { result ≡ kings_number a b }
{
    let triangle = triangle_number(a);
    KINGS[triangle as usize * 64 + b.number() as usize] as u64
}

/// The number of a set, the greatest of its numbers first.
fn set_number(numbers: &[u8]) -> u64
    requires few { length numbers.now ≤ 5 }
    requires small { (k : ℕ) → k < length numbers.now → slice_index numbers.now k ≤ 64 }
    ensures is { result ≡ set_number numbers.now }
    ensures most { result ≤ 5368709120 }
{
    let mut sum: u64 = 0;
    for (i, number) in numbers.iter().enumerate() {
        sum += choices(*number as u64, (numbers.len() - i) as u64);
    }
    sum
}

/// The placements with the leading pawn on one of the first ranks of a file from the second on, and so many pawns beside it.
pub(crate) fn pawns_before(file: PawnFile, others: usize, ranks: usize) -> u64
    requires others { others ≤ 2 }
    requires ranks { ranks ≤ 6 }
    ensures is { result ≡ pawns_before file others ranks }
    ensures few { result ≤ 5201 }
{
    let file = file.number() as usize;
    PAWNS_BEFORE[(others * 4 + file) * 7 + ranks] as u64
}

/// The number of leading pawns with these pawn numbers, the greatest first.
pub(crate) fn pawns_number(file: PawnFile, numbers: &[u8]) -> u64
    requires { ArePawnsAt file numbers.now }
    ensures { result ≡ lead_pawns_number numbers.now }
{
    let greatest = numbers[0];
    let lead = pawn_square(greatest);
    let earlier = pawns_before(file, numbers.len() - 1, lead.rank() as usize - 1);
    let lower = set_number(&numbers[1..]);
    earlier + lower
}

/// How many of these men stand on lower squares.
pub(crate) fn taken(earlier: &[u8; 8], square: u8) -> u64
    ensures { result ≡ taken earlier.now square }
{
    let mut count: u64 = 0;
    for man in earlier {
        count += before(*man, square);
    }
    count
}

/// The square's number among the free ones from the first square on.
#[tactic(auto, unfolding(crate::specs::Others::free_number))]
pub(crate) fn free_number(first: u8, earlier: &Earlier, square: Square) -> u64
    ensures is { result ≡ free_number first earlier.now square }
    ensures small { result ≤ 64 }
{
    let lower = earlier.taken(square);
    (square.number() as u64)
        .saturating_sub(lower)
        .saturating_sub(first as u64)
}

/// The number of a group on these squares, the highest first, among those that earlier men leave free. Its men are among the
/// earlier ones then; those on higher squares change no number.
pub(crate) fn free_set_number(first: u8, earlier: &mut Earlier, squares: &[u8]) -> u64
    requires room { length earlier.old + length squares.now ≤ 5 }
    requires falling { IsFallingBelow 64 squares.now }
    ensures number { result ≡ free_set_number first earlier.old squares.now }
    ensures earlier { earlier.new ≡ earlier.old ++ squares.now }
{
    let mut sum: u64 = 0;
    for (i, number) in squares.iter().enumerate() {
        let square = Square::at(*number);
        let free = free_number(first, earlier, square);
        sum += choices(free, (squares.len() - i) as u64);
        earlier.push(square);
    }
    sum
}
