//! Lists of operations as a script spells them.

ghost use Rattle.std.specs.Prelude.{◌≡◌, ◌≤◌, None, Ok, length, map, IfOk, option_and_then};
ghost use Rattle.std.specs.Result.{result_map_both};
ghost use Rattle.script_fields.specs.Fields.{all_read};
ghost use Rattle.script_fields.specs.Lists as said;
ghost use Rattle.transform_ops.specs.declared.TheConstants.{MOST_OPERATIONS};
ghost use Rattle.transform_ops.specs.Lists.{list_refusal};

use crate::FieldFault;
use crate::fields::{is, parts_of};
use crate::numbers::number_said;
use std::alloc::{AllocError, Global};
use transform_ops::{ListFault, TransformList, TransformOp};

/// The list that these fields spell, or what is wrong with the first wrong one of them: `none` alone, or operations.
#[tactic(auto, unfolding(crate::specs::Lists::list_read))]
pub fn list_read(
    alloc: Global,
    fields: &[&[u8]],
) -> Result<Result<TransformList, FieldFault>, AllocError>
    requires { length fields.now ≤ MOST_OPERATIONS }
    ensures { IfOk result (λ list. list ≡ said.list_read (map (λ field. field.now) fields.now)) }
{
    if is_none_alone(fields) {
        return list_of(alloc, &[]);
    }
    match operations_read(alloc, fields)? {
        Ok(ops) => list_of(alloc, ops.as_slice()),
        Err(fault) => Ok(Err(fault)),
    }
}

fn is_none_alone(fields: &[&[u8]]) -> bool
    ensures { result ≡ said.is_none_alone (map (λ field. field.now) fields.now) }
{
    match fields {
        [field] => is(field, "none"),
        _ => false,
    }
}

// The list of these operations.
fn list_of(
    alloc: Global,
    ops: &[TransformOp],
) -> Result<Result<TransformList, FieldFault>, AllocError>
    requires { list_refusal ops.now ≡ None }
    ensures { IfOk result (λ list. list ≡ Ok ops.now) }
{
    match TransformList::new(alloc, ops) {
        Ok(list) => Ok(Ok(list)),
        Err(ListFault::NoMemory) => Err(AllocError),
        Err(ListFault::TooMany | ListFault::OutOfRange) => unreachable!(),
    }
}

fn operations_read(
    alloc: Global,
    fields: &[&[u8]],
) -> Result<Result<Vec<TransformOp>, FieldFault>, AllocError>
    requires { length fields.now ≤ MOST_OPERATIONS }
    ensures read { IfOk result (λ ops. result_map_both (λ ops. ops.items) (λ fault. fault) ops
        ≡ all_read said.operation_read (map (λ field. field.now) fields.now)) }
    ensures taken { IfOk result (λ ops. IfOk ops (λ ops. list_refusal ops.items ≡ None)) }
{
    let mut ops = Vec::with_capacity(alloc, fields.len())?;
    for field in fields {
        match operation_read(field) {
            Ok(op) => ops.push(op)?,
            Err(fault) => return Ok(Err(fault)),
        }
    }
    Ok(Ok(ops))
}

#[tactic(auto, using(crate::proofs::Parts::no_operation), unfolding(crate::specs::Lists::operation_read))]
fn operation_read(field: &[u8]) -> Result<TransformOp, FieldFault>
    ensures { result ≡ said.operation_read field.now }
{
    match parts_of(field) {
        Some(parts) => operation_with(parts.as_slice()),
        None => Err(FieldFault::BadForm),
    }
}

#[tactic(auto, unfolding(crate::specs::Lists::operation_with))]
fn operation_with(parts: &[&[u8]]) -> Result<TransformOp, FieldFault>
    ensures { result ≡ said.operation_with (map (λ part. part.now) parts.now) }
{
    if !has_form(parts) {
        return Err(FieldFault::BadForm);
    }
    kept_operation(parts).ok_or(FieldFault::BadNumber)
}

// The operation with these parts, where each of its numbers is in range.
fn kept_operation(parts: &[&[u8]]) -> Option<TransformOp>
    ensures { result ≡ option_and_then said.operation_kept (said.operation_of_parts (map (λ part. part.now) parts.now)) }
{
    let op = operation_of_parts(parts)?;
    if op.is_in_range() { Some(op) } else { None }
}

fn has_form(parts: &[&[u8]]) -> bool
    ensures { result ≡ said.has_form (map (λ part. part.now) parts.now) }
{
    match parts {
        [name, _, _] => is(name, "skew"),
        [name, _, _, _] => is(name, "translate") || is(name, "scale"),
        [name, _, _, _, _] => is(name, "rotate"),
        _ => false,
    }
}

fn operation_of_parts(parts: &[&[u8]]) -> Option<TransformOp>
    ensures { result ≡ said.operation_of_parts (map (λ part. part.now) parts.now) }
{
    let turned = rotate_said(parts).or(skew_said(parts));
    translate_said(parts).or(scale_said(parts).or(turned))
}

fn translate_said(parts: &[&[u8]]) -> Option<TransformOp>
    ensures { result ≡ said.translate_said (map (λ part. part.now) parts.now) }
{
    match parts {
        [name, x, y, z] if is(name, "translate") => {
            let (x, (y, z)) = triple_said(x, y, z)?;
            Some(TransformOp::Translate { x, y, z })
        }
        _ => None,
    }
}

fn scale_said(parts: &[&[u8]]) -> Option<TransformOp>
    ensures { result ≡ said.scale_said (map (λ part. part.now) parts.now) }
{
    match parts {
        [name, x, y, z] if is(name, "scale") => {
            let (x, (y, z)) = triple_said(x, y, z)?;
            Some(TransformOp::Scale { x, y, z })
        }
        _ => None,
    }
}

fn rotate_said(parts: &[&[u8]]) -> Option<TransformOp>
    ensures { result ≡ said.rotate_said (map (λ part. part.now) parts.now) }
{
    match parts {
        [name, x, y, z, angle] if is(name, "rotate") => {
            let (x, (y, z)) = triple_said(x, y, z)?;
            let angle = number_said(angle)?;
            Some(TransformOp::Rotate { x, y, z, angle })
        }
        _ => None,
    }
}

fn skew_said(parts: &[&[u8]]) -> Option<TransformOp>
    ensures { result ≡ said.skew_said (map (λ part. part.now) parts.now) }
{
    match parts {
        [name, x, y] if is(name, "skew") => {
            let (x, y) = pair_said(x, y)?;
            Some(TransformOp::Skew { x, y })
        }
        _ => None,
    }
}

fn triple_said(x: &[u8], y: &[u8], z: &[u8]) -> Option<(i64, (i64, i64))>
    ensures { result ≡ said.triple_said x.now y.now z.now }
{
    let x = number_said(x)?;
    Some((x, pair_said(y, z)?))
}

fn pair_said(x: &[u8], y: &[u8]) -> Option<(i64, i64)>
    ensures { result ≡ said.pair_said x.now y.now }
{
    let x = number_said(x)?;
    Some((x, number_said(y)?))
}
