//! Lists of transform operations, and what lies between two of them.

use std::alloc::{AllocError, Global};
use std::test::Fail;
use transform_ops::{ListFault, TransformList, TransformOp};
use value_blend::Blend;

fn list(alloc: Global, ops: &[TransformOp]) -> Result<TransformList, Fail> {
    Ok(TransformList::new(alloc, ops)?)
}

// The blend of two values, whatever they are.
fn blended<V: Blend>(from: &V, to: &V, progress: i64) -> Result<V, AllocError> {
    let progress = if progress.unsigned_abs() <= 1 << 24 {
        progress
    } else {
        0
    };
    V::blend(from, to, progress)
}

fn translate(x: i64, y: i64, z: i64) -> TransformOp {
    TransformOp::Translate { x, y, z }
}

fn scale(x: i64, y: i64, z: i64) -> TransformOp {
    TransformOp::Scale { x, y, z }
}

fn rotate(x: i64, y: i64, z: i64, angle: i64) -> TransformOp {
    TransformOp::Rotate { x, y, z, angle }
}

#[test]
fn the_rest_is_the_nearer_list(rt: HostRuntime) -> Result<(), Fail> {
    let from = [translate(0, 0, 0), rotate(0, 0, 1, 90_000)];
    let to = [translate(1000, 0, 0), rotate(1, 0, 0, 45_000)];
    let from = list(rt.alloc(), &from)?;
    let to = list(rt.alloc(), &to)?;
    assert!(rt; from.match_len(&to) == 1);
    let below = blended(&from, &to, 524_287)?;
    assert!(rt; below.len() == 2);
    assert!(rt; below.op(0) == translate(499, 0, 0));
    assert!(rt; below.op(1) == rotate(0, 0, 1, 90_000));
    let at = blended(&from, &to, 524_288)?;
    assert!(rt; at.len() == 2);
    assert!(rt; at.op(0) == translate(500, 0, 0));
    assert!(rt; at.op(1) == rotate(1, 0, 0, 45_000));
    Ok(())
}

#[test]
fn an_ended_list_stands_for_neutral_operations(rt: HostRuntime) -> Result<(), Fail> {
    let none = list(rt.alloc(), &[])?;
    let double = list(rt.alloc(), &[scale(2_000_000, 2_000_000, 1_000_000)])?;
    assert!(rt; none.is_empty());
    assert!(rt; !double.is_empty());
    let quarter = blended(&none, &double, 262_144)?;
    assert!(rt; quarter.len() == 1);
    assert!(rt; quarter.op(0) == scale(1_250_000, 1_250_000, 1_000_000));
    let back = blended(&double, &none, 786_432)?;
    assert!(rt; back.len() == 1);
    assert!(rt; back.op(0) == scale(1_250_000, 1_250_000, 1_000_000));
    let begin = blended(&none, &double, 0)?;
    assert!(rt; begin.len() == 1);
    assert!(rt; begin.op(0) == scale(1_000_000, 1_000_000, 1_000_000));
    assert!(rt; blended(&none, &none, 524_288)?.len() == 0);
    Ok(())
}

#[test]
fn turns_keep_their_axis_and_overshoot(rt: HostRuntime) -> Result<(), Fail> {
    let from = list(rt.alloc(), &[rotate(0, 0, 1, 0), translate(0, 0, 0)])?;
    let to = list(
        rt.alloc(),
        &[rotate(0, 0, 1, 90_000), translate(1000, 0, 0)],
    )?;
    let back = blended(&from, &to, -3_801_088)?;
    assert!(rt; back.len() == 2);
    assert!(rt; back.op(0) == rotate(0, 0, 1, -326_250));
    assert!(rt; back.op(1) == translate(-3625, 0, 0));
    let skew = TransformOp::Skew { x: 90, y: -90 };
    assert!(rt; skew.neutral() == TransformOp::Skew { x: 0, y: 0 });
    assert!(rt; skew.matches(skew.neutral()));
    Ok(())
}

#[test]
fn lists_are_at_most_eight_operations_in_range(rt: HostRuntime) -> Result<(), Fail> {
    let nine = [translate(1, 2, 3); 9];
    assert!(rt; TransformList::new(rt.alloc(), &nine).err() == Some(ListFault::TooMany));
    let eight = list(rt.alloc(), &nine[..8])?;
    assert!(rt; eight.len() == 8);
    let copy = eight.copy()?;
    assert!(rt; copy.len() == 8);
    assert!(rt; copy.op(7) == translate(1, 2, 3));
    let widest = translate(1 << 40, 0, -(1 << 40));
    assert!(rt; widest.is_in_range());
    assert!(rt; list(rt.alloc(), &[widest])?.len() == 1);
    let wider = scale(1, 1, (1 << 40) + 1);
    assert!(rt; TransformList::new(rt.alloc(), &[wider]).err() == Some(ListFault::OutOfRange));
    let many = [wider; 9];
    assert!(rt; TransformList::new(rt.alloc(), &many).err() == Some(ListFault::TooMany));
    Ok(())
}
