//! Easings as a script spells them.

ghost use Rattle.std.specs.Prelude.{◌≡◌, map, option_and_then};
ghost use Rattle.std.specs.Option.{option_or};
ghost use Rattle.script_fields.specs.Easings as said;
ghost use Rattle.script_fields.specs.Numbers.{natural_within};
ghost use Rattle.script_fields.specs.Keywords.{position_said};

use crate::fields::{is, parts_of};
use crate::keywords::position_said;
use crate::numbers::{natural_within, number_said};
use easing_fixed::{Easing, MOST_INTERVALS, StepPosition};

/// The easing that a field spells: a keyword of CSS, `steps:COUNT:POSITION`, or `cubic:X1:Y1:X2:Y2` with control
/// numbers in millionths.
#[tactic(auto, using(crate::proofs::Parts::no_easing))]
pub fn easing_said(field: &[u8]) -> Option<Easing>
    ensures { result ≡ said.easing_said field.now }
{
    if let Some(easing) = keyword_said(field) {
        return Some(easing);
    }
    match parts_of(field) {
        Some(parts) => easing_of_parts(parts.as_slice()),
        None => None,
    }
}

fn easing_of_parts(parts: &[&[u8]]) -> Option<Easing>
    ensures { result ≡ option_or (said.steps_said (map (λ part. part.now) parts.now)) (said.cubic_said (map (λ part. part.now) parts.now)) }
{
    steps_said(parts).or(cubic_said(parts))
}

fn keyword_said(word: &[u8]) -> Option<Easing>
    ensures { result ≡ said.keyword_said word.now }
{
    if is(word, "linear") {
        Some(Easing::Linear)
    } else if is(word, "ease") {
        Some(Easing::ease())
    } else if is(word, "ease-in") {
        Some(Easing::ease_in())
    } else if is(word, "ease-out") {
        Some(Easing::ease_out())
    } else if is(word, "ease-in-out") {
        Some(Easing::ease_in_out())
    } else if is(word, "step-start") {
        Some(Easing::step_start())
    } else if is(word, "step-end") {
        Some(Easing::step_end())
    } else {
        None
    }
}

fn steps_said(parts: &[&[u8]]) -> Option<Easing>
    ensures { result ≡ said.steps_said (map (λ part. part.now) parts.now) }
{
    match parts {
        [name, count, position] if is(name, "steps") => counted_steps(count, position),
        _ => None,
    }
}

fn counted_steps(count: &[u8], position: &[u8]) -> Option<Easing>
    ensures { result ≡ option_and_then (λ n. option_and_then (said.steps_of n) (position_said position.now)) (natural_within 0 MOST_INTERVALS count.now) }
{
    let count = natural_within(count, 0, u64::from(MOST_INTERVALS))?;
    let position = position_said(position)?;
    steps_of(count as u32, position)
}

fn steps_of(count: u32, position: StepPosition) -> Option<Easing>
    ensures { result ≡ said.steps_of count position }
{
    Easing::steps(count, position).ok()
}

fn cubic_said(parts: &[&[u8]]) -> Option<Easing>
    ensures { result ≡ said.cubic_said (map (λ part. part.now) parts.now) }
{
    match parts {
        [name, x1, y1, x2, y2] if is(name, "cubic") => cubic_through(x1, y1, x2, y2),
        _ => None,
    }
}

#[tactic(auto, unfolding(crate::specs::Easings::cubic_through))]
fn cubic_through(x1: &[u8], y1: &[u8], x2: &[u8], y2: &[u8]) -> Option<Easing>
    ensures { result ≡ said.cubic_through x1.now y1.now x2.now y2.now }
{
    let (x1, y1) = point_said(x1, y1)?;
    let (x2, y2) = point_said(x2, y2)?;
    cubic_of(x1, y1, x2, y2)
}

fn cubic_of(x1: i64, y1: i64, x2: i64, y2: i64) -> Option<Easing>
    ensures { result ≡ said.cubic_of x1 y1 x2 y2 }
{
    Easing::cubic(x1, y1, x2, y2).ok()
}

// A control point, in millionths.
fn point_said(x: &[u8], y: &[u8]) -> Option<(i64, i64)>
    ensures { result ≡ said.point_said x.now y.now }
{
    let x = number_said(x)?;
    Some((x, number_said(y)?))
}
