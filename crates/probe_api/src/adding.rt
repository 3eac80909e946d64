//! Tables that are added to a set.

ghost use Rattle.std.specs.Prelude.{◌≡◌, IsOk};
ghost use Rattle.table_file.specs.Tables.{head_at};
ghost use Rattle.probe_api.specs.Adding.{Adds};

use crate::reply::table_status;
use judge_core::{Set, SetFault};
use std::alloc::Global;
use table_file::open;

/// Adds the table that a file is. The status is 0, or tells why there is none. It is 5, where memory is refused, only if the file's
/// name, size, magic and flags are good.
#[tactic(auto, using(crate::proofs::Statuses::memory_alone))]
pub fn add<'a>(alloc: Global, set: &mut Set<'a>, name: &[u8], bytes: &'a [u8]) -> u32
    ensures is { Adds name.now bytes.now set.old result set.new }
    ensures memory { result ≡ 5 → IsOk (head_at name.now bytes.now) }
{
    match open(alloc, name, bytes) {
        Ok(table) => match set.add(table) {
            Ok(()) => 0,
            Err(SetFault::Duplicate) => 80,
            Err(SetFault::OutOfMemory) => 5,
        },
        Err(fault) => table_status(fault),
    }
}
