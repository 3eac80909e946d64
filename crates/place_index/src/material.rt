ghost use Rattle.std.specs.Prelude.{◌≡◌, ◌+◌, ◌<◌, ◌≤◌, ◌↔◌, ℕ, IfSome, IfNone, IsTrue, length, slice_index};
ghost use Rattle.place_index.specs.Material.{Men, IsTable, TablesAreNumbered, name_at, name_of, men_of, white_pawns, black_pawns, pieces_of, count_of, tally_of};
ghost use Rattle.place_index.specs.Shape.{lead_men, lead_code, other_code, other_pawns, black_leads, both_have_pawns};
ghost use Rattle.place_index.specs.Inside.Groups.{leading_code};
ghost use Rattle.place_index.specs.Inside.NameKeys.{key_by_name, letter_place, pair_of, triple_of};

use crate::piece_code::PieceCode;
use crate::tables::{
    COUNTS, LEADING_MEN, LEADING_PAWNS, LETTERS, PAIRS, SYMMETRIC, TALLIES, TRIPLES,
};
use arrayvec::ArrayString;
use std::marker::Model;

/// The men of one of the 145 tables of three to five men, two kings among them (Syzygy table names). The side with more
/// men comes first, and at equal numbers the side whose letter is earlier in Q R B N P.
///
/// Its key is a number from 0 to 144: the tables KXvK, KXYvK, KXvKY, KXYZvK and KXYvKZ in turn. Each family is in the
/// order of its letters, where Q comes before R, B, N and P.
#[derive(Clone, Copy, PartialEq, Eq, Debug)]
pub struct Material {
    key: u8,
}

impl Model for Material {
    ghost use Rattle.std.specs.Prelude.{ℕ, ◌<◌};

    ghost Value = { ℕ };

    ghost view = { λ m. m.key };

    ghost invariant = { λ m. m.key < 145 };

    ghost inverse = { λ n. record { key = n } };
}

/// The place of a letter among Q R B N P, the last one for any other byte.
fn rank(letter: u8) -> u8
    ensures is { result ≡ letter_place letter }
    ensures few { result ≤ 4 }
{
    match letter {
        b'Q' => 0,
        b'R' => 1,
        b'B' => 2,
        b'N' => 3,
        _ => 4,
    }
}

/// The place of two letters among QQ, QR, .., PP.
fn pair(first: u8, second: u8) -> u8
    requires first { first ≤ 4 }
    requires second { second ≤ 4 }
    ensures is { result ≡ pair_of first second }
    ensures few { result ≤ 14 }
{
    PAIRS[first as usize] + second
}

/// The place of three letters among QQQ, QQR, .., PPP.
fn triple(first: u8, second: u8, third: u8) -> u8
    requires first { first ≤ 4 }
    requires second { second ≤ 4 }
    requires third { third ≤ 4 }
    ensures is { result ≡ triple_of first second third }
    ensures few { result ≤ 34 }
{
    TRIPLES[first as usize] + pair(second, third)
}

/// The only key whose name the text can be.
#[tactic(auto, unfolding(crate::specs::Inside::NameKeys::key_by_name))]
fn key_by_name(text: &[u8]) -> u8
    ensures is { result ≡ key_by_name text.now }
    ensures below { result < 145 }
{
    match text.len() {
        4 => rank(text[1]),
        5 if text[2] == b'v' => 20 + pair(rank(text[1]), rank(text[4])),
        5 => 5 + pair(rank(text[1]), rank(text[2])),
        6 if text[3] == b'v' => 70 + 5 * pair(rank(text[1]), rank(text[2])) + rank(text[5]),
        6 => 35 + triple(rank(text[1]), rank(text[2]), rank(text[3])),
        _ => 0,
    }
}

fn name_length(material: Material) -> usize
    ensures is { result ≡ length (name_at material) }
    ensures few { result ≤ 6 }
{
    match material.key() {
        0..5 => 4,
        5..35 => 5,
        _ => 6,
    }
}

fn letter(material: Material, i: usize) -> u8
    requires { i < 6 }
    ensures is { result ≡ slice_index (name_at material) i }
    ensures ascii { result < 128 }
{
    let key = material.key() as usize;
    LETTERS[key * 6 + i]
}

/// Whether the text is the material's name.
fn is_name(material: Material, text: &[u8]) -> bool
    ensures { IsTrue result ↔ (name_at material ≡ text.now) }
{
    let length = name_length(material);
    if text.len() != length {
        return false;
    }
    for i in 0..length {
        let wanted = letter(material, i);
        if text[i] != wanted {
            return false;
        }
    }
    true
}

impl Material {
    /// The material of the table with this name, `None` for a text that names none of the 145.
    pub fn from_name(name: &[u8]) -> Option<Material>
        ensures found { IfSome result (λ m. name_of (men_of m) ≡ name.now) }
        ensures none { IfNone result ((m : Men) → IsTable m → name_of m ≡ name.now → ⊥) }
    {
        let material = Material {
            key: key_by_name(name),
        };
        if is_name(material, name) {
            Some(material)
        } else {
            None
        }
    }

    /// The table's name: `K`, the first side's letters, `vK` and the second side's letters, in the order Q R B N P.
    pub fn name(&self) -> ArrayString<8>
        ensures { result.bytes ≡ name_of (men_of self.now) }
    {
        let length = name_length(*self);
        let mut text = ArrayString::<8>::new();
        for i in 0..length {
            let next = letter(*self, i);
            text.push(next as char);
        }
        text
    }

    /// The table's number among the 145, for look-ups without a search.
    pub fn key(self) -> u8
        ensures is { result ≡ self }
        ensures below { result < 145 }
    {
        self.key
    }

    /// The material with this key, `None` from 145 on.
    pub(crate) fn with_key(key: u8) -> Option<Material>
        ensures is { IfSome result (λ m. m ≡ key) }
        ensures known { IfSome result (λ m. m < 145) }
        ensures none { IfNone result (145 ≤ key) }
    {
        if key >= 145 {
            return None;
        }
        Some(Self { key })
    }

    /// Whether both sides have the same men.
    pub fn symmetric(&self) -> bool
        ensures { IsTrue result ↔ ((men_of self.now).first ≡ (men_of self.now).second) }
    {
        let key = self.key();
        SYMMETRIC[key as usize]
    }

    /// Whether a side has pawns.
    pub fn has_pawns(&self) -> bool
        ensures { IsTrue result ↔ (1 ≤ white_pawns self.now + black_pawns self.now) }
    {
        leading_code(*self) != 0
    }

    /// How many men have this code.
    pub(crate) fn count(&self, code: PieceCode) -> u8
        ensures is { result ≡ count_of (pieces_of self.now) code }
        ensures few { result ≤ 3 }
    {
        let key = self.key();
        let code = code.number();
        COUNTS[key as usize * 16 + code as usize]
    }

    /// How often each code from 0 to 15 stands among the men, four bits for each.
    pub(crate) fn tally(&self) -> u64
        ensures { result ≡ tally_of (pieces_of self.now) }
    {
        let key = self.key();
        TALLIES[key as usize]
    }
}

/// How many men there are, the kings among them.
pub(crate) fn men(material: Material) -> u8
    ensures is { result ≡ length (pieces_of material) }
    ensures known { material < 145 }
    ensures least { 3 ≤ result }
    ensures most { result ≤ 5 }
{
    match material.key() {
        0..5 => 3,
        5..35 => 4,
        _ => 5,
    }
}

/// How many men lead.
pub(crate) fn leading_men(material: Material) -> u8
    ensures is { result ≡ lead_men material }
    ensures known { material < 145 }
    ensures least { 1 ≤ result }
    ensures most { result ≤ 3 }
{
    let key = material.key();
    LEADING_MEN[key as usize]
}

/// Whether the second side's pawns lead.
fn black_leads(material: Material) -> bool
    ensures { result ≡ black_leads material }
{
    let white = material.count(PieceCode::WHITE_PAWN);
    let black = material.count(PieceCode::BLACK_PAWN);
    black != 0 && (white == 0 || black < white)
}

/// The code of the leading pawns, 0 without pawns.
fn leading_code(material: Material) -> u8
    ensures is { result ≡ leading_code material }
    ensures known { material < 145 }
{
    let key = material.key();
    LEADING_PAWNS[key as usize]
}

/// The leading pawns, white's without pawns.
pub(crate) fn leading_pawn(material: Material) -> PieceCode
    ensures is { result ≡ lead_code material }
    ensures known { material < 145 }
{
    let code = leading_code(material);
    if code == 0 {
        PieceCode::WHITE_PAWN
    } else {
        PieceCode::at(code)
    }
}

/// The pawns that don't lead.
#[tactic(auto, unfolding(crate::specs::Shape::other_code))]
pub(crate) fn other_pawn(material: Material) -> PieceCode
    ensures { result ≡ other_code material }
{
    if black_leads(material) {
        PieceCode::WHITE_PAWN
    } else {
        PieceCode::BLACK_PAWN
    }
}

/// How many pawns don't lead.
#[tactic(auto, unfolding(crate::specs::Shape::other_pawns))]
pub(crate) fn other_pawns(material: Material) -> u8
    ensures { result ≡ other_pawns material }
{
    if black_leads(material) {
        material.count(PieceCode::WHITE_PAWN)
    } else {
        material.count(PieceCode::BLACK_PAWN)
    }
}

/// Whether both sides have pawns.
pub(crate) fn both_have_pawns(material: Material) -> bool
    ensures { result ≡ both_have_pawns material }
{
    let white = material.count(PieceCode::WHITE_PAWN);
    let black = material.count(PieceCode::BLACK_PAWN);
    white != 0 && black != 0
}

/// The keys stand for the 145 tables one to one, and so do the names.
pub fn tables_are_numbered()
    ensures { TablesAreNumbered }
{}
