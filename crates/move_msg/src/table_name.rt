//! The names of table files.

ghost use Rattle.std.specs.Prelude.{◌≡◌, ◌⊎◌, ◌++◌, ◌∷◌, ◌↔◌, codes, ◌==◌, ℕ, List, position, IsTrue, IfSome, IfNone};
ghost use Rattle.move_msg.specs.TableNames.{man_place, are_men_from, are_paired, IsTableName, IsFileName};
ghost use Rattle.move_msg.specs.Inside.Cut.{LacksByte};

/// The place of a man's letter in the order of names, 0 to 4; 5 where it is none.
fn man_place(letter: u8) -> u8
    ensures { result ≡ man_place letter }
{
    match letter {
        b'Q' => 0,
        b'R' => 1,
        b'B' => 2,
        b'N' => 3,
        b'P' => 4,
        _ => 5,
    }
}

/// Whether the letters are men in the order of names.
fn are_men(letters: &[u8]) -> bool
    ensures { result ≡ are_men_from 0 letters.now }
{
    let mut least = 0;
    for letter in letters {
        let place = man_place(*letter);
        if place < least || place == 5 {
            return false;
        }
        least = place;
    }
    true
}

/// Whether a table may have these numbers of men, with the sides in this order.
fn are_paired(first: &[u8], second: &[u8]) -> bool
    ensures { result ≡ are_paired first.now second.now }
{
    if first.is_empty() || first.len() > 3 || second.len() > 3 - first.len() {
        return false;
    }
    if second.len() < first.len() {
        return true;
    }
    first.len() == second.len() && man_place(first[0]) <= man_place(second[0])
}

/// The bytes after this one, where they begin with it.
pub(crate) fn after(bytes: &[u8], byte: u8) -> Option<&[u8]>
    ensures some { IfSome result (λ rest. bytes.now ≡ byte ∷ rest.now) }
    ensures none { IfNone result ((rest : List ℕ) → bytes.now ≡ byte ∷ rest → ⊥) }
{
    let [first, rest @ ..] = bytes else {
        return None;
    };
    if *first != byte {
        return None;
    }
    Some(rest)
}

/// The first place of a byte.
fn place_of(bytes: &[u8], byte: u8) -> Option<usize>
    ensures { result ≡ position (λ b. b == byte) bytes.now }
{
    bytes.iter().position(|b| *b == byte)
}

/// The bytes before the first place of this one, and those after it.
pub(crate) fn cut(bytes: &[u8], byte: u8) -> Option<(&[u8], &[u8])>
    ensures some { IfSome result (λ parts. (bytes.now ≡ parts.0.now ++ byte ∷ parts.1.now) × LacksByte byte parts.0.now) }
    ensures none { IfNone result (LacksByte byte bytes.now) }
{
    let Some(at) = place_of(bytes, byte) else {
        return None;
    };
    Some((&bytes[..at], &bytes[at + 1..]))
}

/// Whether this is the name of a table (table format, names of tables).
fn is_table_name(name: &[u8]) -> bool
    ensures { IsTrue result ↔ IsTableName name.now }
{
    let Some((first, second)) = cut(name, b'v') else {
        return false;
    };
    let Some(first) = after(first, b'K') else {
        return false;
    };
    let Some(second) = after(second, b'K') else {
        return false;
    };
    if !are_men(first) {
        return false;
    }
    if !are_men(second) {
        return false;
    }
    are_paired(first, second)
}

/// Whether this is the extension of a table file, without its point.
fn is_ending(ending: &[u8]) -> bool
    ensures { IsTrue result ↔ ((ending.now ≡ codes "rtbw") ⊎ (ending.now ≡ codes "rtbz")) }
{
    ending == b"rtbw".as_slice() || ending == b"rtbz".as_slice()
}

/// Whether this is the name of a table file, as `KQvK.rtbw` (table format, names of tables). It is the name of one of
/// the 145 tables of three to five men, and the extension `.rtbw` or `.rtbz`. It takes no memory.
pub fn is_file_name(name: &[u8]) -> bool
    ensures { IsTrue result ↔ IsFileName name.now }
{
    let Some((table, ending)) = cut(name, b'.') else {
        return false;
    };
    if !is_ending(ending) {
        return false;
    }
    is_table_name(table)
}
