//! Printing a script: a line for each step and each key.

ghost use Rattle.std.specs.Prelude.{◌≡◌, ◌++◌, ◌∷◌, [], map, IfOk, OnOk, codes, string_bytes};
ghost use Rattle.std.specs.List.{flat_map};
ghost use Rattle.std.specs.Fmt.{decimal, signed_decimal};
ghost use Rattle.keyframe_model.specs.Models.{TransformValue};
ghost use Rattle.keyframe_model.specs.Views.{curve_of, shared_value_of};
ghost use Rattle.script_fields.specs.Fields.{further_fields, joined};
ghost use Rattle.script_fields.specs.Printed.{direction_text, fill_text, iterations_text, list_fields, word_text};
ghost use Rattle.tree_commit.specs.Views.{change_of, look_of};
ghost use Rattle.run_rules.specs.Views.{step_of};
ghost use Rattle.tree_commit.specs.Edits.{OnElements, AddElement, RemoveElement, SetOwn};
ghost use Rattle.frame_script.specs.Headers.{header_text};
ghost use Rattle.frame_script.specs.Printing as text;

use anim_delegate::Policy;
use anim_names::{Lane, Version};
use curve_keys::{Curve, Key};
use easing_fixed::Easing;
use frame_script::Script;
use keyframe_model::{CurveOf, ModelSpec, SharedValue};
use micro_time::Timing;
use run_rules::{CompositorStep, MainStep};
use script_fields::printed::{
    direction_text, fill_text, policy_text, print_easing, print_iterations, print_list,
    print_start, print_word, property_text,
};
use std::alloc::{AllocError, Global};
use transform_ops::TransformList;
use tree_commit::{Base, Edit};
use value_blend::Opacity;

/// The text of a script, in the one way in which it is printed. A keyword of an easing is printed as what it stands
/// for, so the text may be longer than one that the script was read from.
#[tactic(auto, unfolding(frame_script::specs::Printing::script_text))]
pub fn print_script(alloc: Global, script: &Script) -> Result<Vec<u8>, AllocError>
    ensures { IfOk result (λ bytes. bytes.items ≡ text.script_text script.now) }
{
    let mut out = String::new(alloc);
    print_header(&mut out, script.version())?;
    print_steps(&mut out, script.main())?;
    out.push_str("compositor\n")?;
    print_compositor(&mut out, script.compositor())?;
    print_end(&mut out, script.word())?;
    Ok(out.into_bytes())
}

fn print_header(out: &mut String, version: Version) -> Result<(), AllocError>
    ensures { OnOk result (string_bytes out.new ≡ string_bytes out.old
        ++ (text.line (header_text version ∷ []) ++ text.line (codes "main" ∷ []))) }
{
    match version {
        Version::One => out.push_str("anim 1\nmain\n"),
    }
}

fn print_end(out: &mut String, word: &[Lane]) -> Result<(), AllocError>
    ensures { OnOk result (string_bytes out.new ≡ string_bytes out.old
        ++ (text.line (codes "word" ∷ word_text word.now ∷ []) ++ text.line (codes "end" ∷ []))) }
{
    out.push_str("word ")?;
    print_word(out, word)?;
    out.push_str("\nend\n")
}

// ---- main's steps

fn print_steps(out: &mut String, steps: &[MainStep]) -> Result<(), AllocError>
    ensures { OnOk result (string_bytes out.new ≡ string_bytes out.old ++ flat_map text.step_lines (map step_of steps.now)) }
{
    print_each(out, steps)
}

fn print_each(out: &mut String, steps: &[MainStep]) -> Result<(), AllocError>
    ensures { OnOk result (string_bytes out.new ≡ string_bytes out.old ++ flat_map (λ step. text.step_lines (step_of step)) steps.now) }
{
    for step in steps {
        print_step(out, step)?;
    }
    Ok(())
}

fn print_step(out: &mut String, step: &MainStep) -> Result<(), AllocError>
    ensures { OnOk result (string_bytes out.new ≡ string_bytes out.old ++ text.step_lines (step_of step.now)) }
{
    match step {
        MainStep::Edit(edit) => print_edit(out, edit),
        MainStep::Commit => out.push_str("commit\n"),
        MainStep::Drain => out.push_str("drain\n"),
    }
}

#[tactic(auto, unfolding(frame_script::specs::Printing::edit_lines))]
fn print_edit(out: &mut String, edit: &Edit) -> Result<(), AllocError>
    ensures { OnOk result (string_bytes out.new ≡ string_bytes out.old ++ text.edit_lines (change_of edit.now)) }
{
    match edit {
        Edit::AddElement { id, base } => print_element(out, id.0, base),
        Edit::RemoveElement { id } => print_drop_element(out, id.0),
        Edit::SetOwn { id, value } => print_own(out, id.0, value),
        Edit::AddTimeline { id, timeline } => print_pair(out, "timeline", id.0, timeline.zero()),
        Edit::AddModel { spec } => print_model(out, spec),
        Edit::RemoveModel { id } => print_id(out, "drop-model", id.0),
    }
}

#[tactic(auto, unfolding(frame_script::specs::Printing::edit_lines))]
fn print_drop_element(out: &mut String, id: u32) -> Result<(), AllocError>
    ensures { OnOk result (string_bytes out.new ≡ string_bytes out.old ++ text.edit_lines (OnElements (RemoveElement id))) }
{
    print_id(out, "drop-element", id)
}

fn print_id(out: &mut String, name: &str, id: u32) -> Result<(), AllocError>
    ensures { OnOk result (string_bytes out.new ≡ string_bytes out.old ++ text.line (name.now ∷ decimal id ∷ [])) }
{
    writeln!(out, "{name} {id}")
}

fn print_pair(out: &mut String, name: &str, id: u32, value: u64) -> Result<(), AllocError>
    ensures { OnOk result (string_bytes out.new ≡ string_bytes out.old ++ text.line (name.now ∷ decimal id ∷ decimal value ∷ [])) }
{
    writeln!(out, "{name} {id} {value}")
}

#[tactic(auto, unfolding(frame_script::specs::Printing::edit_lines))]
fn print_element(out: &mut String, id: u32, base: &Base) -> Result<(), AllocError>
    ensures { OnOk result (string_bytes out.new ≡ string_bytes out.old ++ text.edit_lines (OnElements (AddElement id (look_of base.now)))) }
{
    write!(out, "element {id} {} ", base.opacity.get())?;
    print_list(out, &base.transform)?;
    out.push('\n')
}

// An element's own value, behind the name of its property.
#[tactic(auto, unfolding(frame_script::specs::Printing::edit_lines))]
fn print_own(out: &mut String, id: u32, value: &SharedValue) -> Result<(), AllocError>
    ensures { OnOk result (string_bytes out.new ≡ string_bytes out.old ++ text.edit_lines (OnElements (SetOwn id (shared_value_of value.now)))) }
{
    match value {
        SharedValue::Opacity(opacity) => {
            print_pair(out, "opacity", id, u64::from(opacity.get()))
        }
        SharedValue::Transform(transform) => print_transform(out, id, transform),
    }
}

#[tactic(auto, unfolding(frame_script::specs::Printing::edit_lines))]
fn print_transform(out: &mut String, id: u32, transform: &TransformList) -> Result<(), AllocError>
    ensures { OnOk result (string_bytes out.new ≡ string_bytes out.old ++ text.edit_lines (OnElements (SetOwn id (TransformValue transform.now)))) }
{
    write!(out, "transform {id} ")?;
    print_list(out, transform)?;
    out.push('\n')
}

// ---- models

fn print_model(out: &mut String, model: &ModelSpec) -> Result<(), AllocError>
    ensures { OnOk result (string_bytes out.new ≡ string_bytes out.old ++ text.model_lines model.now) }
{
    print_names(out, model)?;
    print_timing(out, model.timing())?;
    print_curve_fields(out, model.policy(), model.curve())?;
    print_keys(out, model.curve())
}

fn print_names(out: &mut String, model: &ModelSpec) -> Result<(), AllocError>
    ensures { OnOk result (string_bytes out.new ≡ string_bytes out.old ++ joined (text.names_fields model.now)) }
{
    out.push_str("model")?;
    print_ids(out, model)?;
    write!(out, " {} ", property_text(model.property()))?;
    print_start(out, model.start())
}

fn print_ids(out: &mut String, model: &ModelSpec) -> Result<(), AllocError>
    ensures { OnOk result (string_bytes out.new ≡ string_bytes out.old ++ further_fields
        (decimal model.now.id ∷ decimal model.now.group ∷ decimal model.now.element ∷ decimal model.now.timeline ∷ [])) }
{
    write!(
        out,
        " {} {} {} {}",
        model.id().0,
        model.group().0,
        model.element().0,
        model.timeline().0
    )
}

fn print_timing(out: &mut String, timing: &Timing) -> Result<(), AllocError>
    ensures { OnOk result (string_bytes out.new ≡ string_bytes out.old ++ further_fields (text.timing_fields timing.now [])) }
{
    print_span(out, timing)?;
    print_course(out, timing)
}

fn print_span(out: &mut String, timing: &Timing) -> Result<(), AllocError>
    ensures { OnOk result (string_bytes out.new ≡ string_bytes out.old ++ further_fields
        (signed_decimal timing.now.offset ∷ iterations_text timing.now.iterations ∷ decimal timing.now.iteration_start ∷ [])) }
{
    write!(out, " {} ", timing.offset())?;
    print_iterations(out, timing.iterations())?;
    write!(out, " {}", timing.iteration_start())
}

fn print_course(out: &mut String, timing: &Timing) -> Result<(), AllocError>
    ensures { OnOk result (string_bytes out.new ≡ string_bytes out.old ++ further_fields
        (direction_text timing.now.direction ∷ fill_text timing.now.fill ∷ signed_decimal timing.now.rate ∷ [])) }
{
    let direction = direction_text(timing.direction());
    let fill = fill_text(timing.fill());
    write!(out, " {direction} {fill} {}", timing.rate())
}

fn print_curve_fields(out: &mut String, policy: Policy, curve: &CurveOf) -> Result<(), AllocError>
    ensures { OnOk result (string_bytes out.new ≡ string_bytes out.old ++ (further_fields (text.end_fields policy (curve_of curve.now)) ++ 10 ∷ [])) }
{
    write!(out, " {} ", policy_text(policy))?;
    print_easing(out, easing_of(curve))?;
    writeln!(out, " {}", key_count(curve))
}

fn easing_of(curve: &CurveOf) -> &Easing
    ensures { result.now ≡ text.curve_easing (curve_of curve.now) }
{
    match curve {
        CurveOf::Opacity(curve) => curve.easing(),
        CurveOf::Transform(curve) => curve.easing(),
    }
}

fn key_count(curve: &CurveOf) -> usize
    ensures { result ≡ text.keys_there (curve_of curve.now) }
{
    match curve {
        CurveOf::Opacity(curve) => curve.key_count(),
        CurveOf::Transform(curve) => curve.key_count(),
    }
}

fn print_keys(out: &mut String, curve: &CurveOf) -> Result<(), AllocError>
    ensures { OnOk result (string_bytes out.new ≡ string_bytes out.old ++ text.key_lines (curve_of curve.now)) }
{
    match curve {
        CurveOf::Opacity(curve) => print_opacity_keys(out, curve),
        CurveOf::Transform(curve) => print_transform_keys(out, curve),
    }
}

fn print_opacity_keys(out: &mut String, curve: &Curve<Opacity>) -> Result<(), AllocError>
    ensures { OnOk result (string_bytes out.new ≡ string_bytes out.old ++ flat_map (text.key_line text.opacity_fields) curve.now.keys) }
{
    for i in 0..curve.key_count() {
        print_opacity_key(out, curve.key(i))?;
    }
    Ok(())
}

fn print_opacity_key(out: &mut String, key: &Key<Opacity>) -> Result<(), AllocError>
    ensures { OnOk result (string_bytes out.new ≡ string_bytes out.old ++ text.key_line text.opacity_fields key.now) }
{
    write!(out, "key {} ", key.time)?;
    print_easing(out, &key.easing)?;
    writeln!(out, " {}", key.value.get())
}

fn print_transform_keys(out: &mut String, curve: &Curve<TransformList>) -> Result<(), AllocError>
    ensures { OnOk result (string_bytes out.new ≡ string_bytes out.old ++ flat_map (text.key_line list_fields) curve.now.keys) }
{
    for i in 0..curve.key_count() {
        print_transform_key(out, curve.key(i))?;
    }
    Ok(())
}

fn print_transform_key(out: &mut String, key: &Key<TransformList>) -> Result<(), AllocError>
    ensures { OnOk result (string_bytes out.new ≡ string_bytes out.old ++ text.key_line list_fields key.now) }
{
    write!(out, "key {} ", key.time)?;
    print_easing(out, &key.easing)?;
    out.push(' ')?;
    print_list(out, &key.value)?;
    out.push('\n')
}

// ---- the compositor's steps

fn print_compositor(out: &mut String, steps: &[CompositorStep]) -> Result<(), AllocError>
    ensures { OnOk result (string_bytes out.new ≡ string_bytes out.old ++ flat_map text.compositor_line steps.now) }
{
    for step in steps {
        print_compositor_step(out, *step)?;
    }
    Ok(())
}

fn print_compositor_step(out: &mut String, step: CompositorStep) -> Result<(), AllocError>
    ensures { OnOk result (string_bytes out.new ≡ string_bytes out.old ++ text.compositor_line step) }
{
    match step {
        CompositorStep::Pull => out.push_str("pull\n"),
        CompositorStep::Activate => out.push_str("activate\n"),
        CompositorStep::Tick(time) => writeln!(out, "tick {time}"),
    }
}
