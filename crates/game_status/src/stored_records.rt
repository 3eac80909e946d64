//! Records of a folder's store, which stand in the place of files of the folder.

ghost use Rattle.std.specs.Prelude.{◌≡◌, ◌≤◌, ◌<◌, length, IfOk, IsErrOf, OnOk};
ghost use Rattle.game_status.specs.StoredDisks.{bytes_in};
ghost use Rattle.game_status.specs.Inside.StoreReading.{PutsRecord};

use move_msg::Stamp;
use std::alloc::{AllocError, Global};
use std::collections::BTreeMap;
use system_io::{Entry, ReadFault};

/// A copy of bytes, if they are at most so many; else they are `Unreadable`.
pub fn copy_within(alloc: Global, bytes: &[u8], most: u64) -> Result<Vec<u8>, ReadFault>
    ensures bytes { IfOk result (λ copy. copy.items ≡ bytes.now) }
    ensures short { IfOk result (λ copy. length copy.items ≤ most) }
    ensures cause { IsErrOf result ReadFault.Unreadable → most < length bytes.now }
{
    if bytes.len() as u64 > most {
        return Err(ReadFault::Unreadable);
    }
    match Vec::from_slice(alloc, bytes) {
        Ok(copy) => Ok(copy),
        Err(_) => Err(ReadFault::OutOfMemory),
    }
}

/// Keeps the record of a game in place of the one before. The error comes only where memory is refused.
pub fn keep(records: &mut BTreeMap<Stamp, Vec<u8>>, entry: Entry) -> Result<(), AllocError>
    ensures { OnOk result (PutsRecord entry (bytes_in records.old) (bytes_in records.new)) }
{
    let Entry {
        stamp,
        count: _,
        record,
    } = entry;
    match records.insert(Stamp(stamp), record) {
        Ok(_before) => Ok(()),
        Err(_) => Err(AllocError),
    }
}
