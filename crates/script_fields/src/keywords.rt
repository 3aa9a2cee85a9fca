//! Fields that are one of a few keywords, and the letters of a word of two lanes.

ghost use Rattle.std.specs.Prelude.{◌≡◌, IfOk, option_map};
ghost use Rattle.script_fields.specs.Fields.{all_say};
ghost use Rattle.script_fields.specs.Keywords as said;

use crate::fields::is;
use anim_delegate::Policy;
use anim_names::{Lane, Property};
use easing_fixed::StepPosition;
use micro_time::{Direction, Fill};
use std::alloc::{AllocError, Global};

/// What of its element a model animates.
pub fn property_said(keyword: &[u8]) -> Option<Property>
    ensures { result ≡ said.property_said keyword.now }
{
    if is(keyword, "opacity") {
        Some(Property::Opacity)
    } else if is(keyword, "transform") {
        Some(Property::Transform)
    } else {
        None
    }
}

/// In which direction a model runs.
pub fn direction_said(keyword: &[u8]) -> Option<Direction>
    ensures { result ≡ said.direction_said keyword.now }
{
    if is(keyword, "normal") {
        Some(Direction::Normal)
    } else if is(keyword, "reverse") {
        Some(Direction::Reverse)
    } else if is(keyword, "alternate") {
        Some(Direction::Alternate)
    } else if is(keyword, "alternate-reverse") {
        Some(Direction::AlternateReverse)
    } else {
        None
    }
}

/// Before and after which end a model gives a value.
pub fn fill_said(keyword: &[u8]) -> Option<Fill>
    ensures { result ≡ said.fill_said keyword.now }
{
    if is(keyword, "none") {
        Some(Fill::Neither)
    } else if is(keyword, "forwards") {
        Some(Fill::Forwards)
    } else if is(keyword, "backwards") {
        Some(Fill::Backwards)
    } else if is(keyword, "both") {
        Some(Fill::Both)
    } else {
        None
    }
}

/// After which event main drops a model by itself.
pub fn policy_said(keyword: &[u8]) -> Option<Policy>
    ensures { result ≡ said.policy_said keyword.now }
{
    if is(keyword, "auto") {
        Some(Policy::Auto)
    } else if is(keyword, "finished") {
        Some(Policy::FinishedOnly)
    } else if is(keyword, "manual") {
        Some(Policy::Manual)
    } else {
        None
    }
}

// Where a step function jumps.
pub(crate) fn position_said(keyword: &[u8]) -> Option<StepPosition>
    ensures { result ≡ said.position_said keyword.now }
{
    if is(keyword, "jump-start") || is(keyword, "start") {
        Some(StepPosition::JumpStart)
    } else if is(keyword, "jump-end") || is(keyword, "end") {
        Some(StepPosition::JumpEnd)
    } else if is(keyword, "jump-none") {
        Some(StepPosition::JumpNone)
    } else if is(keyword, "jump-both") {
        Some(StepPosition::JumpBoth)
    } else {
        None
    }
}

/// The letters of a word: M for a step of main and C for one of the compositor, or a dash alone for none.
#[tactic(auto, unfolding(crate::specs::Keywords::letters_said))]
pub fn letters_said(alloc: Global, field: &[u8]) -> Result<Option<Vec<Lane>>, AllocError>
    ensures { IfOk result (λ word. option_map (λ word. word.items) word ≡ said.letters_said field.now) }
{
    if field.is_empty() {
        return Ok(None);
    }
    if is(field, "-") {
        return Ok(Some(Vec::new(alloc)));
    }
    all_letters(alloc, field)
}

fn all_letters(alloc: Global, bytes: &[u8]) -> Result<Option<Vec<Lane>>, AllocError>
    ensures { IfOk result (λ word. option_map (λ word. word.items) word ≡ all_say said.letter_said bytes.now) }
{
    let mut word = Vec::new(alloc);
    for byte in bytes {
        let Some(lane) = letter_said(*byte) else {
            return Ok(None);
        };
        word.push(lane)?;
    }
    Ok(Some(word))
}

fn letter_said(byte: u8) -> Option<Lane>
    ensures { result ≡ said.letter_said byte }
{
    match byte {
        b'M' => Some(Lane::Main),
        b'C' => Some(Lane::Compositor),
        _ => None,
    }
}
