//! Calls of table files.

ghost use Rattle.std.specs.Prelude.{◌≡◌, ◌<◌, IfOk};
ghost use Rattle.table_file.specs.Expansion.{IsRealSpot};

use crate::calls::{Fault, Given, number_of};
use crate::tables::{small, tell_values};
use board_core::Side;
use place_index::{PawnFile, PieceCode};
use std::alloc::{AllocError, Global};
use std::fmt::Write;
use std::marker::Brand;
use std::sync::ledger::{Blank, Ledger};
use table_file::{Damaged, Outcome, Spot, Steps, Table, TableFault, TableKind, TablePart, open};

/// A file as a table, or its fault.
pub(crate) fn opened<'a>(
    alloc: Global,
    name: &str,
    file: &'a [u8],
) -> Result<Table<'a>, TableFault> {
    open(alloc, name.as_bytes(), file)
}

/// Where a value stands, by a count of its own.
fn spot_by<L: Ledger>(part: &TablePart<'_, '_>, index: u64, blank: Blank) -> Result<Spot, Damaged>
    requires name { blank.name ≡ L.name }
    requires parts { blank.parts ≡ L.parts }
    requires some { 0 < blank.parts }
    ensures { IfOk result (λ s. IsRealSpot part.now s) }
{
    part.locate(index, &mut Steps::<L>::new(blank))
}

/// Where a value stands.
fn spot(part: &TablePart<'_, '_>, index: u64) -> Result<Spot, Damaged>
    ensures { IfOk result (λ s. IsRealSpot part.now s) }
{
    spot_by::<Brand>(part, index, Blank::new(1))
}

/// The values of the block in which an index stands, none where it stands in none.
fn unpacked(alloc: Global, part: &TablePart<'_, '_>, index: u64) -> Result<Vec<u16>, AllocError> {
    match spot(part, index) {
        Ok(Spot::At { block, .. }) => part.unpack(alloc, block),
        _ => Ok(Vec::new(alloc)),
    }
}

/// Tells the value at an index, where it stands, and the values of its block.
fn tell_entry(
    alloc: Global,
    told: &mut String,
    part: &TablePart<'_, '_>,
    index: u64,
) -> Result<(), AllocError> {
    let (value, spot) = (part.value(index), spot(part, index));
    writeln!(told, "{index} {value:?} {spot:?}")?;
    let values = unpacked(alloc, part, index)?;
    if values.is_empty() {
        return Ok(());
    }
    tell_values(told, "block", &values)
}

/// Tells pieces by their codes.
fn tell_pieces(told: &mut String, pieces: &[PieceCode]) -> Result<(), AllocError> {
    told.push_str("pieces")?;
    for piece in pieces {
        let number = piece.number();
        write!(told, " {number}")?;
    }
    told.push_str("\n")
}

/// An index of 64 bits.
fn index_of(text: &str) -> Result<u64, Fault> {
    text.parse::<u64>().or(Err(Fault::Line))
}

/// Tells a part: its file, its pieces, and what it has at the indices of the words behind the second.
fn tell_part(
    alloc: Global,
    told: &mut String,
    given: &Given<'_>,
    part: &TablePart<'_, '_>,
) -> Result<(), Fault> {
    let file = part.shape().file().number();
    write!(told, "file {file} ")?;
    tell_pieces(told, part.shape().pieces())?;
    for word in given.words.iter().skip(2) {
        tell_entry(alloc, told, part, index_of(word)?)?;
    }
    Ok(())
}

/// Tells what a table is of.
fn tell_title(told: &mut String, table: &Table<'_>) -> Result<(), AllocError> {
    let (kind, is_dtz, name) = (table.kind(), table.is_dtz(), table.material().name());
    let name = name.as_str();
    writeln!(told, "{kind:?} {is_dtz} {name}")
}

/// The file that the second word says.
fn file_of(given: &Given<'_>) -> Result<PawnFile, Fault> {
    PawnFile::new(small(given.word(1)?)?).ok_or(Fault::Line)
}

/// Tells a table, and its parts for both sides and a file of the leading pawn.
fn tell_good_table(
    alloc: Global,
    told: &mut String,
    given: &Given<'_>,
    table: &Table<'_>,
) -> Result<(), Fault> {
    tell_title(told, table)?;
    let file = file_of(given)?;
    for side in [Side::White, Side::Black] {
        tell_part(alloc, told, given, &table.part(side, file))?;
    }
    Ok(())
}

/// Tells the table of the input by its name, or its first fault.
fn tell_table(alloc: Global, told: &mut String, given: &Given<'_>) -> Result<(), Fault> {
    match opened(alloc, given.word(0)?, given.input) {
        Ok(table) => tell_good_table(alloc, told, given, &table),
        Err(fault) => {
            let name = fault.name();
            Ok(writeln!(told, "refused {name}")?)
        }
    }
}

/// White's or black's values at so many indices, from the first on by steps; a value that isn't there is 65535.
fn values_at(
    alloc: Global,
    part: &TablePart<'_, '_>,
    first: u64,
    step: u64,
    count: usize,
) -> Result<Vec<u16>, AllocError> {
    let mut values = Vec::new(alloc);
    let mut index = first;
    for _ in 0..count {
        values.push(part.value(index).unwrap_or(u16::MAX))?;
        index = index.saturating_add(step);
    }
    Ok(values)
}

/// Tells white's values in the table of the input: by its name, a file, the first index, the step and how many.
fn tell_stretch(alloc: Global, told: &mut String, given: &Given<'_>) -> Result<(), Fault> {
    let Ok(table) = opened(alloc, given.word(0)?, given.input) else {
        return Err(Fault::Line);
    };
    let (first, step) = (index_of(given.word(2)?)?, index_of(given.word(3)?)?);
    let count = number_of(given.word(4)?)?;
    let part = table.part(Side::White, file_of(given)?);
    let values = values_at(alloc, &part, first, step, count)?;
    Ok(tell_values(told, "values", &values)?)
}

/// Whether a DTZ table stores a side.
fn stores(table: &Table<'_>, side: Side, file: PawnFile) -> bool {
    table.kind() == TableKind::Dtz && table.part(side, file).stores()
}

/// The plies that a DTZ table tells for an outcome.
fn plies(table: &Table<'_>, file: PawnFile, index: u64, outcome: Outcome) -> Option<u32> {
    if table.kind() != TableKind::Dtz {
        return None;
    }
    table.part(Side::White, file).dtz(index, outcome).ok()
}

/// Tells the plies at an index for each outcome.
fn tell_plies_at(
    told: &mut String,
    table: &Table<'_>,
    file: PawnFile,
    index: u64,
) -> Result<(), AllocError> {
    write!(told, "{index}")?;
    for outcome in [
        Outcome::Win,
        Outcome::CursedWin,
        Outcome::BlessedLoss,
        Outcome::Loss,
    ] {
        let plies = plies(table, file, index, outcome);
        write!(told, " {outcome:?} {plies:?}")?;
    }
    told.push_str("\n")
}

/// Tells which sides the DTZ table of the input stores, by its name and a file, and its plies at the indices of the other words.
fn tell_plies(alloc: Global, told: &mut String, given: &Given<'_>) -> Result<(), Fault> {
    let Ok(table) = opened(alloc, given.word(0)?, given.input) else {
        return Err(Fault::Line);
    };
    let file = file_of(given)?;
    let (white, black) = (
        stores(&table, Side::White, file),
        stores(&table, Side::Black, file),
    );
    writeln!(told, "White {white}, Black {black}")?;
    for word in given.words.iter().skip(2) {
        tell_plies_at(told, &table, file, index_of(word)?)?;
    }
    Ok(())
}

/// The fault of a file, if it has one.
fn fault(alloc: Global, name: &str, file: &[u8]) -> Option<TableFault> {
    opened(alloc, name, file).err()
}

/// Tells each length to which the file of the input can be cut so that it is refused for another reason than its size, and why.
fn tell_cuts(alloc: Global, told: &mut String, given: &Given<'_>) -> Result<(), Fault> {
    let name = given.word(0)?;
    for length in 0..given.input.len() {
        let fault = fault(alloc, name, &given.input[..length]);
        if fault != Some(TableFault::BadSize) {
            writeln!(told, "{length} {fault:?}")?;
        }
    }
    Ok(())
}

/// Tells what a call of this module gives, if the name is that of one.
pub(crate) fn tell(
    alloc: Global,
    told: &mut String,
    name: &str,
    given: &Given<'_>,
) -> Option<Result<(), Fault>> {
    match name {
        "table" => Some(tell_table(alloc, told, given)),
        "stretch" => Some(tell_stretch(alloc, told, given)),
        "plies" => Some(tell_plies(alloc, told, given)),
        "cuts" => Some(tell_cuts(alloc, told, given)),
        _ => None,
    }
}
