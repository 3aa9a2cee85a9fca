//! Printing fields: the one spelling of each value.

ghost use Rattle.std.specs.Prelude.{◌≡◌, ◌++◌, OnOk, string_bytes};
ghost use Rattle.script_fields.specs.Printed.{property_text, direction_text, fill_text, policy_text, position_text, letter, word_text, start_text, iterations_text, number_text, cubic_text, easing_text, axes_text, turn_text, operation_text, further_text, list_text};

use anim_delegate::Policy;
use anim_names::{Lane, Property};
use easing_fixed::{Easing, StepPosition};
use micro_time::{Direction, Fill, Iterations};
use std::alloc::AllocError;
use transform_ops::{TransformList, TransformOp};

/// The word of a property.
pub fn property_text(property: Property) -> &'static str
    ensures { result.now ≡ property_text property }
{
    match property {
        Property::Opacity => "opacity",
        Property::Transform => "transform",
    }
}

/// The word of a direction.
pub fn direction_text(direction: Direction) -> &'static str
    ensures { result.now ≡ direction_text direction }
{
    match direction {
        Direction::Normal => "normal",
        Direction::Reverse => "reverse",
        Direction::Alternate => "alternate",
        Direction::AlternateReverse => "alternate-reverse",
    }
}

/// The word of a fill.
pub fn fill_text(fill: Fill) -> &'static str
    ensures { result.now ≡ fill_text fill }
{
    match fill {
        Fill::Neither => "none",
        Fill::Forwards => "forwards",
        Fill::Backwards => "backwards",
        Fill::Both => "both",
    }
}

/// The word of a policy.
pub fn policy_text(policy: Policy) -> &'static str
    ensures { result.now ≡ policy_text policy }
{
    match policy {
        Policy::Auto => "auto",
        Policy::FinishedOnly => "finished",
        Policy::Manual => "manual",
    }
}

fn position_text(position: StepPosition) -> &'static str
    ensures { result.now ≡ position_text position }
{
    match position {
        StepPosition::JumpStart => "jump-start",
        StepPosition::JumpEnd => "jump-end",
        StepPosition::JumpNone => "jump-none",
        StepPosition::JumpBoth => "jump-both",
    }
}

/// Writes the letters of a word, or a dash where it has none.
pub fn print_word(out: &mut String, word: &[Lane]) -> Result<(), AllocError>
    ensures { OnOk result (string_bytes out.new ≡ string_bytes out.old ++ word_text word.now) }
{
    if word.is_empty() {
        return out.push('-');
    }
    for lane in word {
        out.push(letter(*lane))?;
    }
    Ok(())
}

fn letter(lane: Lane) -> char
    ensures { result ≡ letter lane }
{
    match lane {
        Lane::Main => 'M',
        Lane::Compositor => 'C',
    }
}

/// Writes a given start, or a dash where there is none.
pub fn print_start(out: &mut String, start: Option<u64>) -> Result<(), AllocError>
    ensures { OnOk result (string_bytes out.new ≡ string_bytes out.old ++ start_text start) }
{
    match start {
        None => out.push('-'),
        Some(time) => write!(out, "{time}"),
    }
}

/// Writes how often a curve is run through.
pub fn print_iterations(out: &mut String, iterations: Iterations) -> Result<(), AllocError>
    ensures { OnOk result (string_bytes out.new ≡ string_bytes out.old ++ iterations_text iterations) }
{
    match iterations {
        Iterations::Finite(count) => write!(out, "{count}"),
        Iterations::Infinite => out.push_str("infinite"),
    }
}

/// Writes an easing. A keyword of CSS is written as what it stands for.
#[tactic(auto, unfolding(crate::specs::Printed::easing_text))]
pub fn print_easing(out: &mut String, easing: &Easing) -> Result<(), AllocError>
    ensures { OnOk result (string_bytes out.new ≡ string_bytes out.old ++ easing_text easing.now) }
{
    match easing {
        Easing::Linear => out.push_str("linear"),
        Easing::Steps(steps) => {
            write!(out, "steps:{}:", steps.count())?;
            out.push_str(position_text(steps.position()))
        }
        Easing::Cubic(cubic) => print_cubic(out, cubic.x1(), cubic.y1(), cubic.x2(), cubic.y2()),
    }
}

fn print_cubic(out: &mut String, x1: i64, y1: i64, x2: i64, y2: i64) -> Result<(), AllocError>
    ensures { OnOk result (string_bytes out.new ≡ string_bytes out.old ++ cubic_text x1 y1 x2 y2) }
{
    out.push_str("cubic")?;
    print_axes(out, x1, y1, x2)?;
    print_number(out, y2)
}

/// Writes a list, with a space between each two operations.
pub fn print_list(out: &mut String, list: &TransformList) -> Result<(), AllocError>
    ensures { OnOk result (string_bytes out.new ≡ string_bytes out.old ++ list_text list.now) }
{
    if list.is_empty() {
        return out.push_str("none");
    }
    print_operation(out, list.op(0))?;
    for i in 1..list.len() {
        print_further(out, list.op(i))?;
    }
    Ok(())
}

fn print_further(out: &mut String, op: TransformOp) -> Result<(), AllocError>
    ensures { OnOk result (string_bytes out.new ≡ string_bytes out.old ++ further_text op) }
{
    out.push(' ')?;
    print_operation(out, op)
}

#[tactic(auto, unfolding(crate::specs::Printed::operation_text))]
fn print_operation(out: &mut String, op: TransformOp) -> Result<(), AllocError>
    ensures { OnOk result (string_bytes out.new ≡ string_bytes out.old ++ operation_text op) }
{
    match op {
        TransformOp::Translate { x, y, z } => {
            out.push_str("translate")?;
            print_axes(out, x, y, z)
        }
        TransformOp::Scale { x, y, z } => {
            out.push_str("scale")?;
            print_axes(out, x, y, z)
        }
        TransformOp::Rotate { x, y, z, angle } => print_turn(out, x, y, z, angle),
        TransformOp::Skew { x, y } => {
            out.push_str("skew")?;
            print_number(out, x)?;
            print_number(out, y)
        }
    }
}

#[tactic(auto, unfolding(crate::specs::Printed::axes_text))]
fn print_axes(out: &mut String, x: i64, y: i64, z: i64) -> Result<(), AllocError>
    ensures { OnOk result (string_bytes out.new ≡ string_bytes out.old ++ axes_text x y z) }
{
    print_number(out, x)?;
    print_number(out, y)?;
    print_number(out, z)
}

fn print_turn(out: &mut String, x: i64, y: i64, z: i64, angle: i64) -> Result<(), AllocError>
    ensures { OnOk result (string_bytes out.new ≡ string_bytes out.old ++ turn_text x y z angle) }
{
    out.push_str("rotate")?;
    print_axes(out, x, y, z)?;
    print_number(out, angle)
}

fn print_number(out: &mut String, number: i64) -> Result<(), AllocError>
    ensures { OnOk result (string_bytes out.new ≡ string_bytes out.old ++ number_text number) }
{
    write!(out, ":{number}")
}
