//! The games in memory, by their stamps.

ghost use Rattle.std.specs.Prelude.{◌≡◌, [], map, IfOk, IsSome, OnOk, option_map};
ghost use Rattle.system_io.specs.Records.{with_entry, with_all};
ghost use Rattle.game_store.specs.Listing.{as_listed, listed_entry};
ghost use Rattle.game_store.specs.Rows.{AreApart};
ghost use Rattle.game_store.specs.Slots.{HasSame, HaveNumbers, KeepsNumbers, Takes, game_at, number_at};

use crate::fault::{DatabaseFault, OUT_OF_MEMORY};
use std::alloc::{AllocError, Global};
use std::collections::BTreeMap;
use std::marker::Model;
use system_io::{Entry, Key};

/// The row of a game, less its number.
#[derive(Drop)]
pub(crate) struct Text {
    count: u32,
    record: Vec<u8>,
}

/// A game that has a number, and its row once one is committed.
#[derive(Drop)]
pub(crate) struct Slot {
    number: u32,
    text: Option<Text>,
}

/// A game of a list: its stamp, how many moves its record has, and the bytes of the record.
#[derive(Clone, Copy)]
pub struct Kept<'a> {
    pub stamp: Key,
    pub count: u32,
    pub record: &'a [u8],
}

/// The games that have numbers, by their stamps.
#[derive(Drop)]
pub(crate) struct Memory {
    slots: BTreeMap<Key, Slot>,
    /// The highest number that was given.
    last: u32,
}

impl Model for Memory {
    ghost use Rattle.game_store.specs.Slots.{Slots};

    ghost Value = { Slots };

    ghost use Rattle.std.specs.Prelude.{◌≡◌, ◌≤◌, Some};
    ghost use Rattle.game_store.specs.Rows.{AreApart};
    ghost use Rattle.game_store.specs.Slots.{number_at};

    ghost view = { λ m. m.slots.entries };

    ghost invariant = { λ m. AreApart (number_at m.slots.entries) × ((stamp : _) (n : _) → number_at m.slots.entries stamp ≡ Some n → n ≤ m.last) };
}

impl Memory {
    ghost use Rattle.game_store.specs.Listing.{ListsGames};

    /// No game.
    pub(crate) fn new(alloc: Global) -> Memory
        ensures { result ≡ [] }
    {
        Memory {
            slots: BTreeMap::new(alloc),
            last: 0,
        }
    }

    /// The number of a game, if it has one.
    pub(crate) fn number(&self, stamp: &Key) -> Option<u32>
        ensures value { result ≡ number_at self.now stamp.now }
        ensures apart { AreApart (number_at self.now) }
    {
        match self.slots.get(stamp) {
            Some(slot) => Some(slot.number),
            None => None,
        }
    }

    /// Gives a number to a game that has none.
    fn add(&mut self, stamp: &Key) -> Result<(), DatabaseFault>
        ensures added { OnOk result (IsSome (number_at self.new stamp.now)) }
        ensures numbers { KeepsNumbers self.old self.new }
        ensures same { HasSame self.old self.new }
    {
        if self.slots.contains_key(stamp) {
            return Ok(());
        }
        let Some(number) = self.last.checked_add(1) else {
            return Err(DatabaseFault::NoNumber);
        };
        let slot = Slot { number, text: None };
        match self.slots.insert(*stamp, slot) {
            Ok(_) => {
                self.last = number;
                Ok(())
            }
            Err(_) => Err(OUT_OF_MEMORY),
        }
    }

    /// Gives a number to each game of a batch that has none.
    pub(crate) fn add_all(&mut self, entries: &[Entry]) -> Result<(), DatabaseFault>
        ensures added { OnOk result (HaveNumbers self.new entries.now) }
        ensures numbers { KeepsNumbers self.old self.new }
        ensures same { HasSame self.old self.new }
    {
        for entry in entries {
            self.add(&entry.stamp)?;
        }
        Ok(())
    }

    /// Takes a row of the table, whose rows come by their numbers. It refuses a number that isn't above those before, and a second
    /// row of a game.
    pub(crate) fn take(&mut self, number: u32, entry: Entry) -> Result<(), DatabaseFault>
        ensures ok { OnOk result (Takes number entry self.old self.new) }
    {
        if number <= self.last {
            return Err(DatabaseFault::BadRow);
        }
        let Entry {
            stamp,
            count,
            record,
        } = entry;
        if self.slots.contains_key(&stamp) {
            return Err(DatabaseFault::SameStamp);
        }
        let slot = Slot {
            number,
            text: Some(Text { count, record }),
        };
        match self.slots.insert(stamp, slot) {
            Ok(_) => {
                self.last = number;
                Ok(())
            }
            Err(_) => Err(OUT_OF_MEMORY),
        }
    }

    /// Keeps a record that was committed, of a game that has a number.
    fn keep(&mut self, entry: Entry)
        requires { IsSome (number_at self.old entry.stamp) }
        ensures numbers { (stamp : _) → number_at self.new stamp ≡ number_at self.old stamp }
        ensures kept { (stamp : _) → game_at self.new stamp ≡ with_entry (game_at self.old) entry stamp }
    {
        let Entry {
            stamp,
            count,
            record,
        } = entry;
        let Some(number) = self.number(&stamp) else {
            unreachable!()
        };
        let slot = Slot {
            number,
            text: Some(Text { count, record }),
        };
        match self.slots.insert(stamp, slot) {
            Ok(_before) => {}
            Err(_) => unreachable!(),
        }
    }

    /// Keeps the records of a batch that was committed, each of a game that has a number.
    pub(crate) fn keep_all(&mut self, entries: Vec<Entry>)
        requires { HaveNumbers self.old entries.items }
        ensures numbers { (stamp : _) → number_at self.new stamp ≡ number_at self.old stamp }
        ensures kept { (stamp : _) → game_at self.new stamp ≡ with_all (game_at self.old) entries.items stamp }
    {
        for entry in entries {
            self.keep(entry);
        }
    }

    /// The record of a game, if it has one.
    pub(crate) fn find(&self, stamp: &Key) -> Option<&[u8]>
        ensures { option_map (λ b. b.now) result ≡ option_map (λ g. g.bytes) (game_at self.now stamp.now) }
    {
        match self.slots.get(stamp) {
            Some(
                Slot {
                    text: Some(text),
                    ..
                },
            ) => Some(&text.record),
            _ => None,
        }
    }

    /// The games that have records, by their stamps.
    pub(crate) fn list(&self, alloc: Global) -> Result<Vec<Kept<'_>>, AllocError>
        ensures { IfOk result (λ all. ListsGames (map as_listed all.items) (game_at self.now)) }
    {
        let mut all = Vec::new(alloc);
        for (stamp, slot) in self.slots.iter() {
            if let Some(text) = &slot.text {
                all.push(Kept {
                    stamp: *stamp,
                    count: text.count,
                    record: &text.record,
                })?;
            }
        }
        Ok(all)
    }
}

/// A game of a list, as it would be put.
fn entry_of(alloc: Global, game: &Kept<'_>) -> Result<Entry, AllocError>
    ensures { IfOk result (λ entry. listed_entry entry ≡ as_listed game.now) }
{
    let record = Vec::from_slice(alloc, game.record)?;
    Ok(Entry {
        stamp: game.stamp,
        count: game.count,
        record,
    })
}

/// The games of a list, as they would be put.
pub(crate) fn entries_of(alloc: Global, games: &[Kept<'_>]) -> Result<Vec<Entry>, AllocError>
    ensures { IfOk result (λ entries. map listed_entry entries.items ≡ map as_listed games.now) }
{
    let mut entries = Vec::new(alloc);
    for game in games {
        let entry = entry_of(alloc, game)?;
        entries.push(entry)?;
    }
    Ok(entries)
}
