//! Size records.

ghost use Rattle.std.specs.Prelude.{◌≡◌, ◌≢◌, ◌≤◌, IfErr};
ghost use Rattle.table_file.specs.declared.fault.TableFault.TheVariants.{OutOfMemory};
ghost use Rattle.table_file.specs.Reading.{Gives};
ghost use Rattle.table_file.specs.Dictionaries.{dictionary_fault, pairing_at};
ghost use Rattle.table_file.specs.SizeRecords.{codes_at, single_value, single_at, coding_at, size_record_at};

use crate::codes::Codes;
use crate::fault::TableFault;
use crate::kind::TableKind;
use crate::reading::{byte, exponent, number};
use pair_dict::{DictFault, Dictionary};
use std::alloc::Global;

/// What a file and a side hold: one value for each index, or blocks of pairs.
#[derive(Drop)]
pub(crate) enum Coding<'a> {
    Single(u16),
    Pairs(Codes<'a>),
}

/// A size record (Syzygy table format, size record).
#[derive(Drop)]
pub(crate) struct SizeRecord<'a> {
    /// Bit 0 the stored side, bit 1 mapped, bit 2 wins in plies, bit 3 losses in plies, bit 4 wide maps, bit 7 single value.
    pub(crate) flags: u8,
    pub(crate) coding: Coding<'a>,
}

fn fault_of(fault: DictFault) -> TableFault
    ensures { result ≡ dictionary_fault fault }
{
    match fault {
        DictFault::Truncated => TableFault::Truncated,
        DictFault::BadCode => TableFault::BadCode,
        DictFault::BadSymbol => TableFault::BadSymbol,
        DictFault::OutOfMemory => TableFault::OutOfMemory,
    }
}

/// By how many bits the codes of a dictionary are looked up at most. A WDL probe reads a few of its entries and then goes to
/// another table, so more of them have to stay in the cache. A DTZ probe reads many entries of one dictionary.
fn most_bits(kind: TableKind) -> u32
    ensures some { 1 ≤ result }
    ensures few { result ≤ 13 }
{
    match kind {
        TableKind::Wdl => 11,
        TableKind::Dtz => 13,
    }
}

/// The dictionary at the front, and what is left.
#[tactic(auto, unfolding(crate::specs::Dictionaries::pairing_at))]
fn dictionary_of<'a>(
    alloc: Global,
    kind: TableKind,
    bytes: &'a [u8],
) -> Result<(Dictionary<'a>, &'a [u8]), TableFault>
    ensures { Gives (λ x. (x.0, x.1.now)) result (pairing_at bytes.now) }
{
    match Dictionary::read(alloc, bytes, most_bits(kind)) {
        Ok((dictionary, taken)) => {
            let (_, rest) = bytes.split_at(taken);
            Ok((dictionary, rest))
        }
        Err(fault) => Err(fault_of(fault)),
    }
}

/// The lines of a size record that has blocks, behind its flags.
#[tactic(auto, unfolding(crate::specs::SizeRecords::codes_at))]
fn codes_of<'a>(
    alloc: Global,
    kind: TableKind,
    bytes: &'a [u8],
) -> Result<(Codes<'a>, &'a [u8]), TableFault>
    ensures { Gives (λ x. (x.0, x.1.now)) result (codes_at bytes.now) }
{
    let (block_exponent, rest) = exponent(0, 24, bytes)?;
    let (span_exponent, rest) = exponent(1, 31, rest)?;
    let (padding, rest) = byte(rest)?;
    let (blocks, rest) = number(rest)?;
    let (dictionary, rest) = dictionary_of(alloc, kind, rest)?;
    let codes = Codes::new(block_exponent, span_exponent, padding, blocks, dictionary);
    Ok((codes, rest))
}

/// The value that a byte gives. In a DTZ file the byte is ignored.
fn single_value(kind: TableKind, value: u8) -> u16
    ensures { result ≡ single_value kind value }
{
    match kind {
        TableKind::Wdl => value as u16,
        TableKind::Dtz => 0,
    }
}

/// One value for all.
#[tactic(auto, unfolding(crate::specs::SizeRecords::single_at))]
fn single_of(kind: TableKind, bytes: &[u8]) -> Result<(u16, &[u8]), TableFault>
    ensures is { Gives (λ x. (x.0, x.1.now)) result (single_at kind bytes.now) }
    ensures no_memory { IfErr result (λ e. e ≢ OutOfMemory) }
{
    let (value, rest) = byte(bytes)?;
    Ok((single_value(kind, value), rest))
}

#[tactic(auto, unfolding(crate::specs::SizeRecords::coding_at))]
fn coding_of<'a>(
    alloc: Global,
    kind: TableKind,
    flags: u8,
    bytes: &'a [u8],
) -> Result<(Coding<'a>, &'a [u8]), TableFault>
    ensures { Gives (λ x. (x.0, x.1.now)) result (coding_at kind flags bytes.now) }
{
    if 128 <= flags {
        let (value, rest) = single_of(kind, bytes)?;
        Ok((Coding::Single(value), rest))
    } else {
        let (codes, rest) = codes_of(alloc, kind, bytes)?;
        Ok((Coding::Pairs(codes), rest))
    }
}

/// A size record, and what is left.
#[tactic(auto, unfolding(crate::specs::SizeRecords::size_record_at))]
pub(crate) fn size_record<'a>(
    alloc: Global,
    kind: TableKind,
    bytes: &'a [u8],
) -> Result<(SizeRecord<'a>, &'a [u8]), TableFault>
    ensures { Gives (λ x. (x.0, x.1.now)) result (size_record_at kind bytes.now) }
{
    let (flags, rest) = byte(bytes)?;
    let (coding, rest) = coding_of(alloc, kind, flags, rest)?;
    Ok((SizeRecord { flags, coding }, rest))
}
