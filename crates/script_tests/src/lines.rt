//! What a line says by its fields.

use crate::fields::fields_of;
use anim_delegate::Policy;
use anim_names::{ElementId, Lane, ModelId, Property, Version};
use frame_script::Cause;
use keyframe_model::SharedValue;
use run_rules::{CompositorStep, MainStep};
use script_lines::{LineFault, compositor_said, key_said, model_said, step_said, word_said};
use std::test::Fail;
use tree_commit::Edit;
use value_blend::Opacity;

#[test]
fn a_step_of_main_is_read(rt: HostRuntime) -> Result<(), Fail> {
    let fields = fields_of(rt.alloc(), b"3 250000")?;
    let step = step_said(rt.alloc(), Version::One, b"opacity", &fields);
    let Ok(MainStep::Edit(Edit::SetOwn { id, value })) = &step else {
        return Err(Fail::from("no value is set"));
    };
    let SharedValue::Opacity(opacity) = value else {
        return Err(Fail::from("no opacity is set"));
    };
    assert!(rt; *id == ElementId(3));
    assert!(rt; opacity.get() == 250_000);
    Ok(())
}

#[test]
fn a_list_has_eight_operations_at_most(rt: HostRuntime) -> Result<(), Fail> {
    let line =
        b"7 skew:1:2 skew:1:2 skew:1:2 skew:1:2 skew:1:2 skew:1:2 skew:1:2 skew:1:2 skew:1:2";
    let fields = fields_of(rt.alloc(), line)?;
    let step = step_said(rt.alloc(), Version::One, b"transform", &fields);
    assert!(rt; matches!(&step, Err(LineFault::Refused(Cause::BadLine))));
    Ok(())
}

#[test]
fn a_step_of_the_compositor_is_read(rt: HostRuntime) -> Result<(), Fail> {
    let fields = fields_of(rt.alloc(), b"16000")?;
    let tick = compositor_said(Version::One, b"tick", &fields);
    assert!(rt; matches!(tick, Ok(CompositorStep::Tick(16_000))));
    let pull = compositor_said(Version::One, b"pull", &fields);
    assert!(rt; matches!(pull, Err(LineFault::Refused(Cause::BadLine))));
    Ok(())
}

#[test]
fn the_word_is_read(rt: HostRuntime) -> Result<(), Fail> {
    let fields = fields_of(rt.alloc(), b"MC")?;
    let Ok(word) = word_said(rt.alloc(), &fields) else {
        return Err(Fail::from("no word"));
    };
    assert!(rt; word.as_slice() == [Lane::Main, Lane::Compositor].as_slice());
    Ok(())
}

#[test]
fn a_model_is_read(rt: HostRuntime) -> Result<(), Fail> {
    let text = b"7 1 1 1 opacity - 0 1000 0 normal none 1000 auto linear 2";
    let fields = fields_of(rt.alloc(), text)?;
    let Ok(line) = model_said(&fields) else {
        return Err(Fail::from("no model"));
    };
    assert!(rt; line.names.id == ModelId(7));
    assert!(rt; line.names.property == Property::Opacity);
    assert!(rt; line.policy == Policy::Auto);
    assert!(rt; line.keys == 2);
    Ok(())
}

#[test]
fn a_key_is_read(rt: HostRuntime) -> Result<(), Fail> {
    let fields = fields_of(rt.alloc(), b"key 1000 linear 500000")?;
    let Ok(key) = key_said::<Opacity>(rt.alloc(), &fields) else {
        return Err(Fail::from("no key"));
    };
    assert!(rt; key.time == 1000);
    assert!(rt; key.value.get() == 500_000);
    Ok(())
}
