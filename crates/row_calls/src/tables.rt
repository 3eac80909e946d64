//! Calls of dictionaries, of indices and of table files.

use crate::calls::{Fault, Given, number_of};
use crate::positions::position_of;
use crate::texts::bytes_of;
use board_core::{Position, Side};
use pair_dict::Dictionary;
use place_index::{Material, PawnFile, Shape, index, place};
use std::alloc::{AllocError, Global};
use std::fmt::Write;

/// Equal values, one after the other.
#[derive(Clone, Copy)]
struct Run {
    value: u16,
    count: usize,
}

/// Tells a run: its value, and how often it comes where that isn't once.
fn tell_run(told: &mut String, run: &Run) -> Result<(), AllocError> {
    let (value, count) = (run.value, run.count);
    match count {
        0 => Ok(()),
        1 => write!(told, " {value}"),
        _ => write!(told, " {value}*{count}"),
    }
}

/// Tells values behind a word, equal ones at once.
pub(crate) fn tell_values(told: &mut String, what: &str, values: &[u16]) -> Result<(), AllocError> {
    told.push_str(what)?;
    let mut run = Run { value: 0, count: 0 };
    for value in values {
        if *value != run.value {
            tell_run(told, &run)?;
            run = Run {
                value: *value,
                count: 0,
            };
        }
        run.count = run.count.saturating_add(1);
    }
    tell_run(told, &run)?;
    told.push_str("\n")
}

/// The first values of a block, so many and one more, each told alone.
fn values_of(
    alloc: Global,
    dictionary: &Dictionary<'_>,
    block: &[u8],
    count: u32,
) -> Result<Vec<u16>, AllocError> {
    let mut values = Vec::new(alloc);
    for offset in 0..count.saturating_add(1) {
        match dictionary.value(block, offset) {
            Ok(value) => values.push(value)?,
            Err(_) => return Ok(values),
        }
    }
    Ok(values)
}

/// Tells the first values of a block: so many decoded, and so many and one more told alone.
fn tell_block(
    alloc: Global,
    told: &mut String,
    dictionary: &Dictionary<'_>,
    block: &[u8],
    count: u32,
) -> Result<(), AllocError> {
    let decoded = dictionary.decode(alloc, block, count)?;
    tell_values(told, "decoded", &decoded)?;
    tell_values(told, "each", &values_of(alloc, dictionary, block, count)?)
}

/// Tells the values of the blocks of the words behind the first, which says how many are decoded.
fn tell_blocks(
    alloc: Global,
    told: &mut String,
    given: &Given<'_>,
    dictionary: &Dictionary<'_>,
) -> Result<(), Fault> {
    let count = number_of(given.word(0)?)?.min(65536) as u32;
    for digits in given.words.iter().skip(1) {
        let block = bytes_of(alloc, digits)?;
        tell_block(alloc, told, dictionary, &block, count)?;
    }
    Ok(())
}

/// Tells how many bytes the dictionary of the input takes, and the values of blocks; or its first fault.
fn tell_dictionary(alloc: Global, told: &mut String, given: &Given<'_>) -> Result<(), Fault> {
    match Dictionary::read(alloc, given.input, 13) {
        Ok((dictionary, taken)) => {
            writeln!(told, "taken {taken}")?;
            tell_blocks(alloc, told, given, &dictionary)
        }
        Err(fault) => Ok(writeln!(told, "refused {fault:?}")?),
    }
}

/// Tells the key of a name, and the name that it has; or that it is none.
fn tell_material(told: &mut String, name: &str) -> Result<(), AllocError> {
    let Some(material) = Material::from_name(name.as_bytes()) else {
        return writeln!(told, "none");
    };
    let (key, again) = (material.key(), material.name());
    let again = again.as_str();
    let (pawns, symmetric) = (material.has_pawns(), material.symmetric());
    writeln!(told, "{key} {again} pawns {pawns}, symmetric {symmetric}")
}

/// Tells the keys of names.
fn tell_materials(told: &mut String, given: &Given<'_>) -> Result<(), Fault> {
    for name in given.words {
        tell_material(told, name)?;
    }
    Ok(())
}

/// A number below 256.
pub(crate) fn small(text: &str) -> Result<u8, Fault> {
    text.parse::<u8>().or(Err(Fault::Line))
}

/// Tells the size of a shape, the key of its material, its groups and their factors, and the places that it was made with.
fn tell_good_shape(told: &mut String, shape: &Shape) -> Result<(), AllocError> {
    let (size, key) = (shape.size(), shape.material().key());
    let (order, second, file) = (shape.order(), shape.second(), shape.file().number());
    let (groups, factors) = (shape.groups().len(), shape.factors());
    writeln!(
        told,
        "size {size}, key {key}, places {order} {second} {file}"
    )?;
    writeln!(told, "groups {groups}, factors {factors:?}")
}

/// Tells the shape of a material by its name, pieces in hexadecimal digits, both places, and a file; or its fault.
fn tell_shape(alloc: Global, told: &mut String, given: &Given<'_>) -> Result<(), Fault> {
    let material = Material::from_name(given.word(0)?.as_bytes()).ok_or(Fault::Line)?;
    let pieces = bytes_of(alloc, given.word(1)?)?;
    let (order, second) = (small(given.word(2)?)?, small(given.word(3)?)?);
    let file = PawnFile::new(small(given.word(4)?)?).ok_or(Fault::Line)?;
    match Shape::new(&material, &pieces, order, second, file) {
        Ok(shape) => Ok(tell_good_shape(told, &shape)?),
        Err(fault) => Ok(writeln!(told, "refused {fault:?}")?),
    }
}

/// The index of a position in a table of these pieces.
fn index_in(position: &Position, pieces: &[u8], order: u8, second: u8) -> Option<u64> {
    let material = Material::of(position)?;
    let placed = place(position, &material);
    let Ok(shape) = Shape::new(&material, pieces, order, second, placed.file()) else {
        return None;
    };
    Some(index(&shape, &placed))
}

/// Tells the index of a position, in a table of pieces in hexadecimal digits and both places.
fn tell_index(alloc: Global, told: &mut String, given: &Given<'_>) -> Result<(), Fault> {
    let position = position_of(given.word(0)?)?;
    let pieces = bytes_of(alloc, given.word(1)?)?;
    let (order, second) = (small(given.word(2)?)?, small(given.word(3)?)?);
    let index = index_in(&position, &pieces, order, second);
    Ok(writeln!(told, "{index:?}")?)
}

/// Tells what a call of this module gives, if the name is that of one.
pub(crate) fn tell(
    alloc: Global,
    told: &mut String,
    name: &str,
    given: &Given<'_>,
) -> Option<Result<(), Fault>> {
    match name {
        "dictionary" => Some(tell_dictionary(alloc, told, given)),
        "material" => Some(tell_materials(told, given)),
        "shape" => Some(tell_shape(alloc, told, given)),
        "index" => Some(tell_index(alloc, told, given)),
        _ => None,
    }
}
