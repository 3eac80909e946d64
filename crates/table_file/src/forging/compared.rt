//! Whether an opened file says what a plan says.

ghost use Rattle.std.specs.Prelude.{◌≡◌, ◌<◌, IfOk, IsTrue, length, map, Some, ◌↔◌};
ghost use Rattle.table_file.specs.Inside.Checked.{IsChecked};
ghost use Rattle.table_file.specs.Expansion.{expanded, listed};
ghost use Rattle.table_file.specs.Plan.{planned_shape, planned_expansion, planned_maps, planned_maps_of, map_bytes, is_wide, HasEnough, HasLosses, HasWins, IsGoodMap, AreGoodMaps, IsGoodPlan};
ghost use Rattle.std.specs.List.{All};
ghost use Rattle.table_file.specs.Inside.Writing.{HasGoodValues};
ghost use Rattle.table_file.specs.Forged.{IsPartOf, ArePartsOf, ShowsPlan};

use super::values::{map_bytes, plan_values};
use crate::codes::Codes;
use crate::kind::TableKind;
use crate::maps::Maps;
use crate::material::indices;
use crate::places::place_at;
use crate::plan::{Content, PartPlan, Plan};
use crate::size_record::Coding;
use crate::spots::{View, values_in};
use crate::steps::size_at;
use crate::table::Table;
use crate::table_part::TablePart;
use place_index::{Material, PawnFile, Shape};
use std::alloc::{AllocError, Global};

/// Whether a shape is that of a planned part.
fn has_shape(material: &Material, part: &PartPlan, file: PawnFile, shape: &Shape) -> bool
    ensures { IsTrue result ↔ (shape.now ≡ planned_shape material.now part.now file) }
{
    shape.material().key() == material.key()
        && shape.has_pieces(&part.pieces)
        && shape.order() == part.order
        && shape.second() == part.second.unwrap_or(0)
        && shape.file() == file
}

/// Whether the blocks of a part, one after the other, hold these values and no others.
fn are_values(
    alloc: Global,
    view: View<'_, '_>,
    codes: &Codes<'_>,
    values: &[u16],
) -> Result<bool, AllocError>
    requires checked { IsChecked view }
    requires coded { view.coding.now ≡ Coding.Pairs codes.now }
    ensures is { IfOk result (λ b. IsTrue b → expanded view.entry.coding.now view.entry.lengths.now view.entry.blocks.now ≡ listed (map (λ v. Some v) values.now)) }
    ensures all { IfOk result (λ b. expanded view.entry.coding.now view.entry.lengths.now view.entry.blocks.now ≡ listed (map (λ v. Some v) values.now) → IsTrue b) }
{
    let mut rest = values;
    for block in 0..codes.blocks() {
        let held = values_in(alloc, view, block)?;
        if held.len() != size_at(view.lengths, block) {
            return Ok(false);
        }
        let Some(after) = rest.strip_prefix(&held) else {
            return Ok(false);
        };
        rest = after;
    }
    Ok(rest.is_empty())
}

/// Whether a part of so many indices holds what is planned.
fn has_values(
    alloc: Global,
    view: View<'_, '_>,
    size: u64,
    content: &Content,
) -> Result<bool, AllocError>
    requires checked { IsChecked view }
    requires good { HasGoodValues content.now }
    ensures enough { IfOk result (λ b. IsTrue b → HasEnough content.now size) }
    ensures values { IfOk result (λ b. IsTrue b → expanded view.entry.coding.now view.entry.lengths.now view.entry.blocks.now ≡ planned_expansion content.now size) }
    ensures all { IfOk result (λ b. HasEnough content.now size → expanded view.entry.coding.now view.entry.lengths.now view.entry.blocks.now ≡ planned_expansion content.now size → IsTrue b) }
{
    match (view.coding, content) {
        (Coding::Single(value), Content::Single(planned)) => Ok(value == planned),
        (Coding::Pairs(codes), Content::Pairs(pairs)) => {
            let values = plan_values(alloc, pairs, size as usize)?;
            if values.len() as u64 != size {
                return Ok(false);
            }
            are_values(alloc, view, codes, &values)
        }
        _ => Ok(false),
    }
}

/// Whether a part is as planned.
fn is_part(
    alloc: Global,
    material: &Material,
    planned: &PartPlan,
    part: &TablePart<'_, '_>,
) -> Result<bool, AllocError>
    requires { HasGoodValues planned.now.content }
    ensures is { IfOk result (λ b. IsTrue b → IsPartOf material.now part.now planned.now) }
    ensures all { IfOk result (λ b. IsPartOf material.now part.now planned.now → IsTrue b) }
{
    if part.flags() != planned.flags {
        return Ok(false);
    }
    let shape = part.shape();
    if !has_shape(material, planned, part.file(), shape) {
        return Ok(false);
    }
    has_values(alloc, part.view(), indices(shape), &planned.content)
}

/// Whether a map has the planned entries.
fn has_map(alloc: Global, wide: bool, entries: &[u16], bytes: &[u8]) -> Result<bool, AllocError>
    requires { IsGoodMap wide entries.now }
    ensures is { IfOk result (λ b. IsTrue b → bytes.now ≡ map_bytes wide entries.now) }
    ensures all { IfOk result (λ b. bytes.now ≡ map_bytes wide entries.now → IsTrue b) }
{
    match map_bytes(alloc, wide, entries) {
        Ok(wanted) => Ok(bytes == wanted.as_slice()),
        Err(fault) => Err(fault),
    }
}

/// Whether the maps of wins are as planned.
fn are_win_maps(alloc: Global, part: &PartPlan, maps: &Maps<'_>) -> Result<bool, AllocError>
    requires { AreGoodMaps (is_wide part.now) part.now.maps }
    ensures is { IfOk result (λ b. IsTrue b → HasWins part.now maps.now) }
    ensures all { IfOk result (λ b. HasWins part.now maps.now → IsTrue b) }
{
    let wide = part.is_wide();
    match has_map(alloc, wide, &part.maps.win, maps.win()) {
        Ok(true) => has_map(alloc, wide, &part.maps.cursed_win, maps.cursed_win()),
        Ok(false) => Ok(false),
        Err(fault) => Err(fault),
    }
}

/// Whether the maps of losses are as planned.
fn are_loss_maps(alloc: Global, part: &PartPlan, maps: &Maps<'_>) -> Result<bool, AllocError>
    requires { AreGoodMaps (is_wide part.now) part.now.maps }
    ensures is { IfOk result (λ b. IsTrue b → HasLosses part.now maps.now) }
    ensures all { IfOk result (λ b. HasLosses part.now maps.now → IsTrue b) }
{
    let wide = part.is_wide();
    match has_map(alloc, wide, &part.maps.loss, maps.loss()) {
        Ok(true) => has_map(alloc, wide, &part.maps.blessed_loss, maps.blessed_loss()),
        Ok(false) => Ok(false),
        Err(fault) => Err(fault),
    }
}

/// Whether value maps are as planned.
fn are_maps(alloc: Global, part: &PartPlan, maps: &Maps<'_>) -> Result<bool, AllocError>
    requires { AreGoodMaps (is_wide part.now) part.now.maps }
    ensures is { IfOk result (λ b. IsTrue b → maps.now ≡ planned_maps_of part.now) }
    ensures all { IfOk result (λ b. maps.now ≡ planned_maps_of part.now → IsTrue b) }
{
    if maps.is_wide() != part.is_wide() {
        return Ok(false);
    }
    match are_win_maps(alloc, part, maps) {
        Ok(true) => are_loss_maps(alloc, part, maps),
        Ok(false) => Ok(false),
        Err(fault) => Err(fault),
    }
}

/// Whether all value maps are as planned.
fn are_all_maps(alloc: Global, plan: &Plan, maps: &[Maps<'_>]) -> Result<bool, AllocError>
    requires { All (λ p. AreGoodMaps (is_wide p) p.maps) plan.now.parts.items }
    ensures is { IfOk result (λ b. IsTrue b → maps.now ≡ planned_maps plan.now.kind plan.now.parts.items) }
    ensures all { IfOk result (λ b. maps.now ≡ planned_maps plan.now.kind plan.now.parts.items → IsTrue b) }
{
    match plan.kind {
        TableKind::Wdl => Ok(maps.is_empty()),
        TableKind::Dtz => are_each_maps(alloc, &plan.parts, maps),
    }
}

/// Whether the value maps of each part are as planned.
fn are_each_maps(alloc: Global, parts: &[PartPlan], maps: &[Maps<'_>]) -> Result<bool, AllocError>
    requires { All (λ p. AreGoodMaps (is_wide p) p.maps) parts.now }
    ensures is { IfOk result (λ b. IsTrue b → maps.now ≡ map planned_maps_of parts.now) }
    ensures all { IfOk result (λ b. maps.now ≡ map planned_maps_of parts.now → IsTrue b) }
{
    if maps.len() != parts.len() {
        return Ok(false);
    }
    for i in 0..parts.len() {
        match are_maps(alloc, &parts[i], &maps[i]) {
            Ok(true) => {}
            Ok(false) => return Ok(false),
            Err(fault) => return Err(fault),
        }
    }
    Ok(true)
}

/// Whether all parts are as planned.
fn are_parts(alloc: Global, plan: &Plan, table: &Table<'_>) -> Result<bool, AllocError>
    requires good { All (λ p. HasGoodValues p.content) plan.now.parts.items }
    requires all { length table.now.parts ≡ length plan.now.parts.items }
    ensures is { IfOk result (λ b. IsTrue b → ArePartsOf plan.now.material table.now plan.now.parts.items) }
    ensures all { IfOk result (λ b. ArePartsOf plan.now.material table.now plan.now.parts.items → IsTrue b) }
{
    let _ = table.part_count();
    for k in 0..plan.parts.len() {
        let Some(place) = place_at(table.kind(), table.material(), k) else {
            return Ok(false);
        };
        let part = table.part(place.side, place.file);
        match is_part(alloc, &plan.material, &plan.parts[k], &part) {
            Ok(true) => {}
            Ok(false) => return Ok(false),
            Err(fault) => return Err(fault),
        }
    }
    Ok(true)
}

/// Whether an opened file says what a plan says.
pub(super) fn shows(alloc: Global, plan: &Plan, table: &Table<'_>) -> Result<bool, AllocError>
    requires { IsGoodPlan plan.now.kind plan.now.material plan.now.parts.items }
    ensures is { IfOk result (λ b. IsTrue b → ShowsPlan plan.now table.now) }
    ensures all { IfOk result (λ b. ShowsPlan plan.now table.now → IsTrue b) }
{
    if table.kind() != plan.kind
        || table.material().key() != plan.material.key()
        || table.part_count() != plan.parts.len()
    {
        return Ok(false);
    }
    match are_parts(alloc, plan, table) {
        Ok(true) => are_all_maps(alloc, plan, table.maps()),
        Ok(false) => Ok(false),
        Err(fault) => Err(fault),
    }
}
