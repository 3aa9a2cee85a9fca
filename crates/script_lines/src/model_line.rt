//! The line of a model, by its fields.

ghost use Rattle.std.specs.Prelude.{◌≡◌, ◌≤◌, map, IfOk, IfSome};
ghost use Rattle.anim_timeline.specs.declared.TheConstants.{LAST_TIME};
ghost use Rattle.script_lines.specs.LineFaults.{Gives};
ghost use Rattle.frame_script.specs.Said as said;

use crate::fault::LineFault;
use anim_names::{ElementId, GroupId, ModelId, TimelineId};
use curve_keys::{FEWEST_KEYS, MOST_KEYS};
use frame_script::{Cause, ModelLine, ModelNames};
use micro_time::{Direction, Fill};
use script_fields::keywords::{direction_said, fill_said, policy_said, property_said};
use script_fields::values::{Count, TimingNumbers, count_said, id_said, start_said, timing_of};
use script_fields::{easing_said, number_said};

/// How many fields there are behind the line's name.
const FIELDS: usize = 15;

/// What the line of a model says, by the fields behind its name.
#[tactic(auto, unfolding(frame_script::specs::Said::model_said))]
pub fn model_said(fields: &[&[u8]]) -> Result<ModelLine, LineFault>
    ensures value { Gives (λ line. line) result (said.model_said (map (λ field. field.now) fields.now)) }
    ensures start { IfOk result (λ line. IfSome line.names.start (λ time. time ≤ LAST_TIME)) }
{
    if fields.len() == FIELDS {
        Ok(after_model(fields)?)
    } else {
        Err(LineFault::Refused(Cause::BadLine))
    }
}

fn after_model(fields: &[&[u8]]) -> Result<ModelLine, Cause>
    ensures value { result ≡ said.after_model (map (λ field. field.now) fields.now) }
    ensures start { IfOk result (λ line. IfSome line.names.start (λ time. time ≤ LAST_TIME)) }
{
    match fields {
        [id, group, element, timeline, property, start, more @ ..] => {
            let names = names_said(id, group, element, timeline, property, start)?;
            after_names(&names, more)
        }
        _ => Err(Cause::BadLine),
    }
}

#[tactic(auto, unfolding(frame_script::specs::Said::names_said))]
fn names_said(
    id: &[u8],
    group: &[u8],
    element: &[u8],
    timeline: &[u8],
    property: &[u8],
    start: &[u8],
) -> Result<ModelNames, Cause>
    ensures value { result ≡ said.names_said id.now group.now element.now timeline.now property.now start.now }
    ensures start { IfOk result (λ names. IfSome names.start (λ time. time ≤ LAST_TIME)) }
{
    let (id, (group, (element, timeline))) = ids_said(id, group, element, timeline)?;
    let property = property_said(property).ok_or(Cause::BadLine)?;
    let start = start_said(start).ok_or(Cause::BadNumber)?;
    Ok(ModelNames {
        id: ModelId(id),
        group: GroupId(group),
        element: ElementId(element),
        timeline: TimelineId(timeline),
        property,
        start,
    })
}

#[tactic(auto, unfolding(frame_script::specs::Said::ids_said))]
fn ids_said(
    id: &[u8],
    group: &[u8],
    element: &[u8],
    timeline: &[u8],
) -> Result<(u32, (u32, (u32, u32))), Cause>
    ensures { result ≡ said.ids_said id.now group.now element.now timeline.now }
{
    let id = id_said(id).ok_or(Cause::BadNumber)?;
    let group = id_said(group).ok_or(Cause::BadNumber)?;
    let element = id_said(element).ok_or(Cause::BadNumber)?;
    let timeline = id_said(timeline).ok_or(Cause::BadNumber)?;
    Ok((id, (group, (element, timeline))))
}

fn after_names(names: &ModelNames, fields: &[&[u8]]) -> Result<ModelLine, Cause>
    requires { IfSome names.now.start (λ time. time ≤ LAST_TIME) }
    ensures value { result ≡ said.after_names names.now (map (λ field. field.now) fields.now) }
    ensures start { IfOk result (λ line. IfSome line.names.start (λ time. time ≤ LAST_TIME)) }
{
    match fields {
        [offset, iterations, start, direction, fill, rate, more @ ..] => {
            let numbers = numbers_said(offset, iterations, start, direction, fill, rate)?;
            after_numbers(names, numbers, more)
        }
        _ => Err(Cause::BadLine),
    }
}

#[tactic(auto, unfolding(frame_script::specs::Said::numbers_said))]
fn numbers_said(
    offset: &[u8],
    iterations: &[u8],
    iteration_start: &[u8],
    direction: &[u8],
    fill: &[u8],
    rate: &[u8],
) -> Result<TimingNumbers, Cause>
    ensures { result ≡ said.numbers_said offset.now iterations.now iteration_start.now direction.now fill.now rate.now }
{
    let (offset, (iterations, iteration_start)) = span_said(offset, iterations, iteration_start)?;
    let (direction, (fill, rate)) = course_said(direction, fill, rate)?;
    Ok(TimingNumbers {
        offset,
        iterations,
        iteration_start,
        direction,
        fill,
        rate,
    })
}

#[tactic(auto, unfolding(frame_script::specs::Said::span_said))]
fn span_said(
    offset: &[u8],
    iterations: &[u8],
    iteration_start: &[u8],
) -> Result<(i64, (Count, i64)), Cause>
    ensures { result ≡ said.span_said offset.now iterations.now iteration_start.now }
{
    let offset = number_said(offset).ok_or(Cause::BadNumber)?;
    let iterations = count_said(iterations).ok_or(Cause::BadNumber)?;
    let iteration_start = number_said(iteration_start).ok_or(Cause::BadNumber)?;
    Ok((offset, (iterations, iteration_start)))
}

#[tactic(auto, unfolding(frame_script::specs::Said::course_said))]
fn course_said(
    direction: &[u8],
    fill: &[u8],
    rate: &[u8],
) -> Result<(Direction, (Fill, i64)), Cause>
    ensures { result ≡ said.course_said direction.now fill.now rate.now }
{
    let direction = direction_said(direction).ok_or(Cause::BadLine)?;
    let fill = fill_said(fill).ok_or(Cause::BadLine)?;
    let rate = number_said(rate).ok_or(Cause::BadNumber)?;
    Ok((direction, (fill, rate)))
}

fn after_numbers(
    names: &ModelNames,
    numbers: TimingNumbers,
    fields: &[&[u8]],
) -> Result<ModelLine, Cause>
    requires { IfSome names.now.start (λ time. time ≤ LAST_TIME) }
    ensures value { result ≡ said.after_numbers names.now numbers (map (λ field. field.now) fields.now) }
    ensures start { IfOk result (λ line. IfSome line.names.start (λ time. time ≤ LAST_TIME)) }
{
    match fields {
        [policy, easing, keys] => curve_line_said(names, numbers, policy, easing, keys),
        _ => Err(Cause::BadLine),
    }
}

#[tactic(auto, unfolding(frame_script::specs::Said::curve_line_said))]
fn curve_line_said(
    names: &ModelNames,
    numbers: TimingNumbers,
    policy: &[u8],
    easing: &[u8],
    keys: &[u8],
) -> Result<ModelLine, Cause>
    requires { IfSome names.now.start (λ time. time ≤ LAST_TIME) }
    ensures value { result ≡ said.curve_line_said names.now numbers policy.now easing.now keys.now }
    ensures start { IfOk result (λ line. IfSome line.names.start (λ time. time ≤ LAST_TIME)) }
{
    let policy = policy_said(policy).ok_or(Cause::BadLine)?;
    let easing = easing_said(easing).ok_or(Cause::BadEasing)?;
    let keys = key_count_said(keys)?;
    let timing = timing_of(numbers).ok_or(Cause::BadTiming)?;
    Ok(ModelLine {
        names: *names,
        timing,
        policy,
        easing,
        keys,
    })
}

#[tactic(auto, unfolding(frame_script::specs::Said::key_count_said))]
fn key_count_said(field: &[u8]) -> Result<usize, Cause>
    ensures { result ≡ said.key_count_said field.now }
{
    let number = number_said(field).ok_or(Cause::BadNumber)?;
    key_count_of(number).ok_or(Cause::BadCurve)
}

fn key_count_of(number: i64) -> Option<usize>
    ensures { result ≡ said.key_count_of number }
{
    if number < FEWEST_KEYS as i64 || number > MOST_KEYS as i64 {
        None
    } else {
        Some(number as usize)
    }
}
