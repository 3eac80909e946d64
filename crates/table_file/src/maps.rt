//! Value maps.

ghost use Rattle.std.specs.Prelude.{◌≡◌, ◌≢◌, slice_get, IfErr};
ghost use Rattle.pair_dict.specs.Reading.{words};
ghost use Rattle.table_file.specs.declared.fault.TableFault.TheVariants.{OutOfMemory};
ghost use Rattle.table_file.specs.Reading.{Gives, each_at};
ghost use Rattle.table_file.specs.Maps.{map_at, four_at, maps_at, all_maps_at};
ghost use Rattle.table_file.specs.Distances.{map_of as bytes_of, map_entry};

use crate::fault::TableFault;
use crate::kind::TableKind;
use crate::outcome::Outcome;
use crate::parts::Part;
use crate::reading::{byte, even, has_bit, taken, word, word_at};
use std::alloc::Global;
use std::marker::Model;

/// The four value maps of a file (Syzygy table format, value maps): what a stored value stands for.
#[derive(Drop)]
pub(crate) struct Maps<'a> {
    wide: bool,
    win: &'a [u8],
    loss: &'a [u8],
    cursed_win: &'a [u8],
    blessed_loss: &'a [u8],
}

impl<'a> Model for Maps<'a> {
    ghost use Rattle.table_file.specs.Maps.{ValueMaps};

    ghost Value = { ValueMaps };

    ghost view = { λ a. record { wide = a.wide; win = a.win.now; loss = a.loss.now; cursed_win = a.cursed_win.now; blessed_loss = a.blessed_loss.now } };
}

impl<'a> Maps<'a> {
    /// Whether an entry has two bytes.
    pub(crate) fn is_wide(&self) -> bool
        ensures { result ≡ self.now.wide }
    {
        self.wide
    }

    /// The entries for wins.
    pub(crate) fn win(&self) -> &[u8]
        ensures { result.now ≡ self.now.win }
    {
        self.win
    }

    /// The entries for losses.
    pub(crate) fn loss(&self) -> &[u8]
        ensures { result.now ≡ self.now.loss }
    {
        self.loss
    }

    /// The entries for wins that the fifty-move rule makes draws.
    pub(crate) fn cursed_win(&self) -> &[u8]
        ensures { result.now ≡ self.now.cursed_win }
    {
        self.cursed_win
    }

    /// The entries for losses that the fifty-move rule makes draws.
    pub(crate) fn blessed_loss(&self) -> &[u8]
        ensures { result.now ≡ self.now.blessed_loss }
    {
        self.blessed_loss
    }

    /// The entries for an outcome.
    fn bytes(&self, outcome: Outcome) -> &[u8]
        ensures { result.now ≡ bytes_of self.now outcome }
    {
        match outcome {
            Outcome::Win => self.win,
            Outcome::CursedWin => self.cursed_win,
            Outcome::BlessedLoss => self.blessed_loss,
            Outcome::Loss => self.loss,
        }
    }

    /// The entry at a place of the map for an outcome, and `None` past its end.
    pub(crate) fn entry(&self, outcome: Outcome, place: usize) -> Option<u16>
        ensures { result ≡ map_entry self.now outcome place }
    {
        let bytes = self.bytes(outcome);
        if self.wide {
            word_entry(bytes, place)
        } else {
            byte_entry(bytes, place)
        }
    }
}

/// An entry of one byte.
fn byte_entry(bytes: &[u8], place: usize) -> Option<u16>
    ensures { result ≡ slice_get bytes.now place }
{
    if place < bytes.len() {
        Some(bytes[place] as u16)
    } else {
        None
    }
}

/// An entry of two bytes, the low one first.
fn word_entry(bytes: &[u8], place: usize) -> Option<u16>
    ensures { result ≡ slice_get (words bytes.now) place }
{
    if place < bytes.len() / 2 {
        Some(word_at(bytes, 2 * place))
    } else {
        None
    }
}

/// One map: a length and that many entries.
#[tactic(auto, unfolding(crate::specs::Maps::map_at))]
fn map_of(wide: bool, bytes: &[u8]) -> Result<(&[u8], &[u8]), TableFault>
    ensures is { Gives (λ x. (x.0.now, x.1.now)) result (map_at wide bytes.now) }
    ensures no_memory { IfErr result (λ e. e ≢ OutOfMemory) }
{
    if wide {
        let (n, rest) = word(bytes)?;
        taken(2 * n as usize, rest)
    } else {
        let (n, rest) = byte(bytes)?;
        taken(n as usize, rest)
    }
}

/// The four maps of one file, one after the other.
#[tactic(auto, unfolding(crate::specs::Maps::four_at))]
fn four<'a>(wide: bool, bytes: &'a [u8]) -> Result<(Maps<'a>, &'a [u8]), TableFault>
    ensures is { Gives (λ x. (x.0, x.1.now)) result (four_at wide bytes.now) }
    ensures no_memory { IfErr result (λ e. e ≢ OutOfMemory) }
{
    let (win, rest) = map_of(wide, bytes)?;
    let (loss, rest) = map_of(wide, rest)?;
    let (cursed_win, rest) = map_of(wide, rest)?;
    let (blessed_loss, rest) = map_of(wide, rest)?;
    let maps = Maps {
        wide,
        win,
        loss,
        cursed_win,
        blessed_loss,
    };
    Ok((maps, rest))
}

/// The maps of one file.
#[tactic(auto, unfolding(crate::specs::Maps::maps_at))]
fn maps_of<'a>(part: &Part<'_>, bytes: &'a [u8]) -> Result<(Maps<'a>, &'a [u8]), TableFault>
    ensures is { Gives (λ x. (x.0, x.1.now)) result (maps_at part.now bytes.now) }
    ensures no_memory { IfErr result (λ e. e ≢ OutOfMemory) }
{
    let flags = part.size_record.flags;
    if has_bit(2, flags) {
        if has_bit(16, flags) {
            four(true, even(bytes))
        } else {
            four(false, bytes)
        }
    } else {
        let maps = Maps {
            wide: false,
            win: &[],
            loss: &[],
            cursed_win: &[],
            blessed_loss: &[],
        };
        Ok((maps, bytes))
    }
}

/// The maps of each part.
fn each_map<'a>(
    alloc: Global,
    parts: &[Part<'_>],
    bytes: &'a [u8],
) -> Result<(Vec<Maps<'a>>, &'a [u8]), TableFault>
    ensures { Gives (λ x. (x.0.items, x.1.now)) result (each_at maps_at parts.now bytes.now) }
{
    let mut maps = Vec::new(alloc);
    let mut rest = bytes;
    for i in 0..parts.len() {
        let (four, after) = maps_of(&parts[i], rest)?;
        maps.push(four)?;
        rest = after;
    }
    Ok((maps, rest))
}

/// The maps of all files, and what is left from the next even place on. A WDL file has none.
#[tactic(auto, unfolding(crate::specs::Maps::all_maps_at))]
pub(crate) fn all_maps<'a>(
    alloc: Global,
    kind: TableKind,
    parts: &[Part<'_>],
    bytes: &'a [u8],
) -> Result<(Vec<Maps<'a>>, &'a [u8]), TableFault>
    ensures { Gives (λ x. (x.0.items, x.1.now)) result (all_maps_at kind parts.now bytes.now) }
{
    match kind {
        TableKind::Wdl => Ok((Vec::new(alloc), bytes)),
        TableKind::Dtz => {
            let (maps, rest) = each_map(alloc, parts, bytes)?;
            Ok((maps, even(rest)))
        }
    }
}
