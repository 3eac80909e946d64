//! The bytes of PGN text (PGN standard, section 7).

ghost use Rattle.std.specs.Prelude.{◌≡◌, ◌≤◌, length, not, position};
ghost use Rattle.pgn_games.specs.Bytes.{is_blank, is_digit, is_letter, is_name, is_sign, is_space, is_symbol, kind_of, kind_of_mark, passes, run_len};

/// What begins at a byte of a line.
#[derive(Clone, Copy)]
pub enum ByteKind {
    /// A space, a period, or a glyph that stands alone.
    Blank,
    /// A symbol: a move, its number or a result.
    Symbol,
    /// A variation, `(`.
    Opens,
    /// The end of a variation, `)`.
    Closes,
    /// A tag pair, `[`.
    Bracket,
    /// A comment to the end of the line, `;`.
    Semicolon,
    /// The result `*`.
    Star,
    /// A numeric annotation glyph, `$`.
    Dollar,
    /// Nothing that PGN has.
    Other,
}

pub(crate) fn is_digit(b: u8) -> bool
    ensures { result ≡ is_digit b }
{
    48 <= b && b <= 57
}

pub(crate) fn is_letter(b: u8) -> bool
    ensures { result ≡ is_letter b }
{
    (65 <= b && b <= 90) || (97 <= b && b <= 122)
}

pub(crate) fn is_space(b: u8) -> bool
    ensures { result ≡ is_space b }
{
    b == 32 || b == 9 || b == 11 || b == 12 || b == 13
}

pub(crate) fn is_blank(b: u8) -> bool
    ensures { result ≡ is_blank b }
{
    is_space(b) || b == 46 || b == 33 || b == 63
}

fn is_sign(b: u8) -> bool
    ensures { result ≡ is_sign b }
{
    b == 95 || b == 43 || b == 35 || b == 61 || b == 58 || b == 45 || b == 47 || b == 33 || b == 63
}

pub(crate) fn is_symbol(b: u8) -> bool
    ensures { result ≡ is_symbol b }
{
    is_letter(b) || is_digit(b) || is_sign(b)
}

pub(crate) fn is_name(b: u8) -> bool
    ensures { result ≡ is_name b }
{
    is_letter(b) || is_digit(b) || b == 95
}

/// What begins at a byte of a line.
pub(crate) fn kind_of(b: u8) -> ByteKind
    ensures { result ≡ kind_of b }
{
    if is_blank(b) {
        ByteKind::Blank
    } else if is_symbol(b) {
        ByteKind::Symbol
    } else {
        mark_of(b)
    }
}

fn mark_of(b: u8) -> ByteKind
    ensures { result ≡ kind_of_mark b }
{
    match b {
        b'(' => ByteKind::Opens,
        b')' => ByteKind::Closes,
        b'[' => ByteKind::Bracket,
        b';' => ByteKind::Semicolon,
        b'*' => ByteKind::Star,
        b'$' => ByteKind::Dollar,
        _ => ByteKind::Other,
    }
}

/// Bytes of one kind.
#[derive(Clone, Copy)]
pub enum Class {
    /// Spaces.
    Space,
    /// Bytes of a tag's name.
    Name,
    /// What tells nothing.
    Blank,
    /// Bytes of a symbol.
    Symbol,
    /// Digits.
    Digit,
}

fn passes(class: Class, b: u8) -> bool
    ensures { result ≡ passes class b }
{
    match class {
        Class::Space => is_space(b),
        Class::Name => is_name(b),
        Class::Blank => is_blank(b),
        Class::Symbol => is_symbol(b),
        Class::Digit => is_digit(b),
    }
}

#[inline(always)]
fn first_other(text: &[u8], class: Class) -> Option<usize>
    ensures { result ≡ position (λ b. not (passes class b)) text.now }
{
    text.iter().position(|b| !passes(class, *b))
}

/// How many bytes of a kind stand at the front of a text.
#[inline(always)]
pub(crate) fn run_len(text: &[u8], class: Class) -> usize
    ensures is { result ≡ run_len (passes class) text.now }
    ensures within { result ≤ length text.now }
{
    first_other(text, class).unwrap_or(text.len())
}
