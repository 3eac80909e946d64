//! Writing the text of a position.

ghost use Rattle.std.specs.Prelude.{◌≡◌, ◌≤◌, ◌<◌, ◌+◌, ◌++◌, ◌∷◌, [], List, length};
ghost use Rattle.arrayvec.specs.ArrayString.{array_string_len};
ghost use Rattle.fen_text.specs.Placement.{letter_of, rank_men};
ghost use Rattle.std.specs.Fmt.{decimal};
ghost use Rattle.std.specs.List.{join_with_byte};
ghost use Rattle.fen_text.specs.Fields.{side_text, castling_text, square_text, en_passant_text};
ghost use Rattle.fen_text.specs.Fen.{SpellsPosition};
ghost use Rattle.fen_text.specs.Written.{run_text, rank_text, placement_text, fen_of};

use crate::counters::digits;
use arrayvec::ArrayString;
use board_core::{Kind, Men, Parts, Piece, Position, Rights, Side, Square};

/// The letter of a man.
fn fen_letter(man: Piece) -> &'static str
    ensures { result.now ≡ letter_of man ∷ [] }
{
    match (man.side, man.kind) {
        (Side::White, Kind::Pawn) => "P",
        (Side::White, Kind::Knight) => "N",
        (Side::White, Kind::Bishop) => "B",
        (Side::White, Kind::Rook) => "R",
        (Side::White, Kind::Queen) => "Q",
        (Side::White, Kind::King) => "K",
        (Side::Black, Kind::Pawn) => "p",
        (Side::Black, Kind::Knight) => "n",
        (Side::Black, Kind::Bishop) => "b",
        (Side::Black, Kind::Rook) => "r",
        (Side::Black, Kind::Queen) => "q",
        (Side::Black, Kind::King) => "k",
    }
}

/// The digit of a run of empty squares, and nothing for none.
fn digit(run: u8) -> &'static str
    requires { run ≤ 8 }
    ensures { result.now ≡ run_text run }
{
    match run {
        0 => "",
        1 => "1",
        2 => "2",
        3 => "3",
        4 => "4",
        5 => "5",
        6 => "6",
        7 => "7",
        _ => "8",
    }
}

/// Writes a square after a run of empty ones, and returns the length of the run after it.
#[tactic(auto, unfolding(crate::specs::Written::rank_text))]
fn push_cell(cell: Option<Piece>, run: u8, out: &mut ArrayString<96>) -> u8
    requires short { run < 8 }
    requires room { array_string_len out.old + run < 96 }
    ensures text { (rest : List _)
        → out.new.bytes ++ rank_text result rest ≡ out.old.bytes ++ rank_text run (cell ∷ rest) }
    ensures len { array_string_len out.new + result ≤ array_string_len out.old + run + 1 }
    ensures run { result ≤ run + 1 }
{
    match cell {
        None => run + 1,
        Some(man) => {
            out.push_str(digit(run));
            out.push_str(fen_letter(man));
            0
        }
    }
}

/// Writes a rank of the board, 0 for the first to 7 for the eighth.
fn push_rank(men: &Men, rank: u8, out: &mut ArrayString<96>)
    requires rank { rank < 8 }
    requires room { array_string_len out.old + 8 ≤ 96 }
    ensures text { out.new.bytes ≡ out.old.bytes ++ rank_text 0 (rank_men men.now rank) }
    ensures len { array_string_len out.new ≤ array_string_len out.old + 8 }
{
    let mut run = 0;
    for file in 0..8 {
        let square = Square::at(8 * rank + file);
        run = push_cell(men.at(square), run, out);
    }
    out.push_str(digit(run));
}

/// Writes the ranks from the eighth down to the first, with a slash between.
fn push_placement(men: &Men, out: &mut ArrayString<96>)
    requires { array_string_len out.old ≡ 0 }
    ensures text { out.new.bytes ≡ out.old.bytes ++ placement_text men.now }
    ensures len { array_string_len out.new ≤ 71 }
{
    for above in 0..7 {
        push_rank(men, 7 - above, out);
        out.push_str("/");
    }
    push_rank(men, 0, out);
}

/// The letter of the side to move.
fn side_letter(side: Side) -> &'static str
    ensures { result.now ≡ side_text side }
{
    match side {
        Side::White => "w",
        Side::Black => "b",
    }
}

/// The letters of the castling rights, or a dash where there is none.
fn castling_letters(rights: Rights) -> &'static str
    ensures { result.now ≡ castling_text rights }
{
    match (
        rights.white_king,
        rights.white_queen,
        rights.black_king,
        rights.black_queen,
    ) {
        (true, true, true, true) => "KQkq",
        (true, true, true, false) => "KQk",
        (true, true, false, true) => "KQq",
        (true, true, false, false) => "KQ",
        (true, false, true, true) => "Kkq",
        (true, false, true, false) => "Kk",
        (true, false, false, true) => "Kq",
        (true, false, false, false) => "K",
        (false, true, true, true) => "Qkq",
        (false, true, true, false) => "Qk",
        (false, true, false, true) => "Qq",
        (false, true, false, false) => "Q",
        (false, false, true, true) => "kq",
        (false, false, true, false) => "k",
        (false, false, false, true) => "q",
        (false, false, false, false) => "-",
    }
}

/// The name of a square: its file's letter and its rank's digit.
pub(crate) fn square_name(square: Square) -> ArrayString<2>
    ensures { result.bytes ≡ square_text square }
{
    let mut name = ArrayString::new();
    name.push((b'a' + square.file()) as char);
    name.push((b'1' + square.rank()) as char);
    name
}

/// Writes the en passant square, or a dash.
fn push_en_passant(square: Option<Square>, out: &mut ArrayString<96>)
    requires room { array_string_len out.old + 2 ≤ 96 }
    ensures text { out.new.bytes ≡ out.old.bytes ++ en_passant_text square }
    ensures len { array_string_len out.new ≤ array_string_len out.old + 2 }
{
    match square {
        Some(square) => out.push_str(square_name(square).as_str()),
        None => out.push_str("-"),
    }
}

/// Writes a counter from 0 to 9999.
fn push_counter(number: u16, out: &mut ArrayString<96>)
    requires small { number ≤ 9999 }
    requires room { array_string_len out.old + 4 ≤ 96 }
    ensures text { out.new.bytes ≡ out.old.bytes ++ decimal number }
    ensures len { array_string_len out.new ≤ array_string_len out.old + 4 }
{
    out.push_str(digits(u32::from(number)).as_str());
}

/// Writes the men, the side to move and the rights, with a space between.
fn push_board(parts: &Parts, out: &mut ArrayString<96>)
    requires { array_string_len out.old ≡ 0 }
    ensures text { out.new.bytes ≡ out.old.bytes ++ join_with_byte 32
        (placement_text parts.now.men ∷ side_text parts.now.side ∷ castling_text parts.now.rights ∷ []) }
    ensures len { array_string_len out.new ≤ 78 }
{
    push_placement(&parts.men, out);
    out.push_str(" ");
    out.push_str(side_letter(parts.side));
    out.push_str(" ");
    out.push_str(castling_letters(parts.rights));
}

/// Writes the en passant square and the two counters, with a space between.
fn push_counters(parts: &Parts, out: &mut ArrayString<96>)
    requires room { array_string_len out.old + 12 ≤ 96 }
    requires halfmove { parts.now.halfmove ≤ 9999 }
    requires fullmove { parts.now.fullmove ≤ 9999 }
    ensures text { out.new.bytes ≡ out.old.bytes ++ join_with_byte 32
        (en_passant_text parts.now.en_passant ∷ decimal parts.now.halfmove ∷ decimal parts.now.fullmove ∷ []) }
{
    push_en_passant(parts.en_passant, out);
    out.push_str(" ");
    push_counter(parts.halfmove, out);
    out.push_str(" ");
    push_counter(parts.fullmove, out);
}

/// Writes the FEN text of a position (PGN standard, section 16.1): the one text that `read` reads
/// as this position. It has at most 91 bytes.
pub fn write(position: &Position) -> ArrayString<96>
    ensures text { result.bytes ≡ fen_of position.now }
    ensures spells { SpellsPosition result.bytes position.now }
{
    let parts = position.parts();
    let mut out = ArrayString::new();
    push_board(parts, &mut out);
    out.push_str(" ");
    push_counters(parts, &mut out);
    out
}
