//! Writing table files from plans.

ghost use Rattle.std.specs.Prelude.{◌≡◌, ◌≢◌, IfOk, IfErr, OnOk, IfSome, IfNone, IsErrOf, IsTrue};
ghost use Rattle.std.specs.Io.KnownBytes.{Appends};
ghost use Rattle.table_file.specs.Names.{ending, file_name};
ghost use Rattle.table_file.specs.Plan.{IsGoodPlan};
ghost use Rattle.table_file.specs.PlannedFile.{planned_file};
ghost use Rattle.table_file.specs.Forged.{OpensAs, CanBeForged};

use crate::fault::TableFault;
use crate::kind::TableKind;
use crate::plan::Plan;
use crate::table::open;
use place_index::{Material, tables_are_numbered};
use std::alloc::{AllocError, Global};
use std::io::Write;

mod blocks;
mod codes;
mod compared;
mod layout;
mod values;

use compared::shows;
use layout::laid_out;

/// Why a table file wasn't written.
#[derive(Clone, Copy, Debug, PartialEq, Eq)]
pub enum ForgeFault {
    /// The plan breaks a rule of plans, or the file made of it doesn't say what the plan says.
    BadPlan,
    /// The writer failed. Some bytes of the file may be out.
    Io,
    /// Memory was refused.
    OutOfMemory,
}

/// How the file names of a kind of table end.
fn ending(kind: TableKind) -> [u8; 5]
    ensures { result ≡ ending kind }
{
    match kind {
        TableKind::Wdl => *b".rtbw",
        TableKind::Dtz => *b".rtbz",
    }
}

/// The name of the file of a kind for a material.
#[tactic(auto, unfolding(crate::specs::Names::file_name))]
fn file_name(alloc: Global, kind: TableKind, material: &Material) -> Result<Vec<u8>, AllocError>
    ensures { IfOk result (λ v. v.items ≡ file_name kind material.now) }
{
    let mut name = Vec::new(alloc);
    name.extend_from_slice(material.name().as_str().as_bytes())?;
    name.extend_from_slice(&ending(kind))?;
    Ok(name)
}

/// Whether the bytes of the file of a good plan open under its name and say what the plan says.
fn opens_as(alloc: Global, plan: &Plan, name: &[u8], file: &[u8]) -> Result<bool, AllocError>
    requires good { IsGoodPlan plan.now.kind plan.now.material plan.now.parts.items }
    requires name { name.now ≡ file_name plan.now.kind plan.now.material }
    ensures is { IfOk result (λ b. IsTrue b → OpensAs plan.now file.now) }
    ensures all { IfOk result (λ b. OpensAs plan.now file.now → IsTrue b) }
{
    match open(alloc, name, file) {
        Ok(table) => shows(alloc, plan, &table),
        Err(TableFault::OutOfMemory) => Err(AllocError),
        Err(_) => Ok(false),
    }
}

/// Whether the bytes of the file of a good plan open and say what the plan says.
fn is_right(alloc: Global, plan: &Plan, file: &[u8]) -> Result<bool, AllocError>
    requires { IsGoodPlan plan.now.kind plan.now.material plan.now.parts.items }
    ensures is { IfOk result (λ b. IsTrue b → OpensAs plan.now file.now) }
    ensures all { IfOk result (λ b. OpensAs plan.now file.now → IsTrue b) }
{
    let name = file_name(alloc, plan.kind, &plan.material)?;
    opens_as(alloc, plan, &name, file)
}

/// The bytes of the file that a plan describes. There are none where the plan breaks a rule of plans, or the file
/// doesn't say what the plan says.
fn forged(alloc: Global, plan: &Plan) -> Result<Option<Vec<u8>>, AllocError>
    ensures found { IfOk result (λ o. IfSome o (λ file. file.items ≡ planned_file plan.now)) }
    ensures good { IfOk result (λ o. IfSome o (λ _. IsGoodPlan plan.now.kind plan.now.material plan.now.parts.items × OpensAs plan.now (planned_file plan.now))) }
    ensures bad { IfOk result (λ o. IfNone o (CanBeForged plan.now → ⊥)) }
{
    let Some(file) = laid_out(alloc, plan)? else {
        return Ok(None);
    };
    if is_right(alloc, plan, &file)? {
        Ok(Some(file))
    } else {
        Ok(None)
    }
}

/// Writes the table file that a plan describes (Syzygy table format). Fill and checksum are zero.
///
/// The file is made in memory, opened and compared with the plan before the first byte is written. `BadPlan` comes
/// where the plan breaks a rule of plans, or the file doesn't say what the plan says. `OutOfMemory` comes where memory
/// is refused. Both leave the writer as it was. `Io` comes only where the writer failed, and some bytes may be out
/// then.
pub fn forge<W: Write>(alloc: Global, plan: &Plan, out: &mut W) -> Result<(), ForgeFault>
    ensures ok { OnOk result (Appends (W.contents out.old) (W.contents out.new) (planned_file plan.now)) }
    ensures good { OnOk result (CanBeForged plan.now) }
    ensures bad { IsErrOf result ForgeFault.BadPlan → CanBeForged plan.now → ⊥ }
    ensures io { IsErrOf result ForgeFault.Io → CanBeForged plan.now }
    ensures untouched { IfErr result (λ e. e ≢ ForgeFault.Io → out.new ≡ out.old) }
{
    let file = match forged(alloc, plan) {
        Ok(Some(file)) => file,
        Ok(None) => return Err(ForgeFault::BadPlan),
        Err(_) => return Err(ForgeFault::OutOfMemory),
    };
    match out.write_all(&file) {
        Ok(()) => Ok(()),
        Err(_) => Err(ForgeFault::Io),
    }
}
