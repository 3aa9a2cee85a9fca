//! The fields of a line.

use anim_delegate::Policy;
use anim_names::Property;
use easing_fixed::{Easing, StepPosition};
use micro_time::{Direction, Fill, Iterations};
use script_fields::keywords::{direction_said, fill_said, policy_said, property_said};
use script_fields::values::{TimingNumbers, count_said, timing_of};
use script_fields::{easing_said, fields_into, is, list_read, natural_within, number_said};
use std::alloc::{AllocError, Global};
use std::process::Abort;
use std::test::Fail;
use transform_ops::{MOST_OPERATIONS, TransformList, TransformOp};

// The fields of a line.
pub(crate) fn fields_of<'t>(alloc: Global, line: &'t [u8]) -> Result<Vec<&'t [u8]>, AllocError> {
    let mut fields = Vec::new(alloc);
    fields_into(&mut fields, line)?;
    Ok(fields)
}

#[test]
fn numbers_have_one_spelling(rt: HostRuntime) {
    for (field, number) in &[
        ("0", Some(0)),
        ("-7", Some(-7)),
        ("9", Some(9)),
        ("-0", None),
        ("01", None),
        ("+1", None),
        ("1 ", None),
        ("-", None),
        ("", None),
        ("-9223372036854775808", Some(i64::MIN)),
        ("-9223372036854775809", None),
        ("9223372036854775807", Some(i64::MAX)),
        ("9223372036854775808", None),
        ("99999999999999999999999", None),
    ] {
        assert!(rt; number_said(field.as_bytes()) == *number, "for {field:?}");
    }
}

#[test]
fn numbers_without_a_sign_have_a_range(rt: HostRuntime) {
    assert!(rt; natural_within(b"9", 0, 9) == Some(9));
    assert!(rt; natural_within(b"10", 0, 9) == None);
    assert!(rt; natural_within(b"-8", 0, 9) == None);
    assert!(rt; natural_within(b"1125899906842624", 0, 1 << 50) == Some(1 << 50));
    assert!(rt; natural_within(b"1125899906842625", 0, 1 << 50) == None);
}

#[test]
fn a_space_more_makes_an_empty_field(rt: HostRuntime) -> Result<(), Fail> {
    let mut fields = Vec::new(rt.alloc());
    fields_into(&mut fields, b"a b")?;
    assert!(rt; fields.len() == 2);
    fields_into(&mut fields, b" c ")?;
    assert!(rt; fields.len() == 3);
    fields_into(&mut fields, b"")?;
    assert!(rt; fields.len() == 1);
    assert!(rt; is(b"c", "c"));
    assert!(rt; !is(b"c", "c "));
    Ok(())
}

#[test]
fn properties_have_two_words(rt: HostRuntime) {
    assert!(rt; property_said(b"opacity") == Some(Property::Opacity));
    assert!(rt; property_said(b"transform") == Some(Property::Transform));
    assert!(rt; property_said(b"Opacity") == None);
}

#[test]
fn directions_have_four_words(rt: HostRuntime) {
    for (word, direction) in &[
        ("normal", Some(Direction::Normal)),
        ("reverse", Some(Direction::Reverse)),
        ("alternate", Some(Direction::Alternate)),
        ("alternate-reverse", Some(Direction::AlternateReverse)),
        ("reverse-alternate", None),
    ] {
        assert!(rt; direction_said(word.as_bytes()) == *direction, "for {word}");
    }
}

#[test]
fn fills_have_four_words(rt: HostRuntime) {
    for (word, fill) in &[
        ("none", Some(Fill::Neither)),
        ("forwards", Some(Fill::Forwards)),
        ("backwards", Some(Fill::Backwards)),
        ("both", Some(Fill::Both)),
        ("neither", None),
    ] {
        assert!(rt; fill_said(word.as_bytes()) == *fill, "for {word}");
    }
}

#[test]
fn policies_have_three_words(rt: HostRuntime) {
    for (word, policy) in &[
        ("auto", Some(Policy::Auto)),
        ("finished", Some(Policy::FinishedOnly)),
        ("manual", Some(Policy::Manual)),
        ("none", None),
    ] {
        assert!(rt; policy_said(word.as_bytes()) == *policy, "for {word}");
    }
}

// The iterations of the timing of which a field says how often it is run through.
fn iterations_said(field: &[u8]) -> Option<Iterations> {
    let numbers = TimingNumbers {
        offset: 0,
        iterations: count_said(field)?,
        iteration_start: 0,
        direction: Direction::Normal,
        fill: Fill::Neither,
        rate: 1000,
    };
    Some(timing_of(numbers)?.iterations())
}

#[test]
fn iterations_are_counted_or_endless(rt: HostRuntime) {
    assert!(rt; iterations_said(b"infinite") == Some(Iterations::Infinite));
    assert!(rt; iterations_said(b"2500") == Some(Iterations::Finite(2500)));
    assert!(rt; iterations_said(b"1000000001") == None);
    assert!(rt; count_said(b"Infinite").is_none());
}

#[test]
fn easings_are_spelled_in_three_forms(rt: HostRuntime) {
    for (field, easing) in &[
        ("linear", Some(Easing::Linear)),
        (
            "ease",
            Easing::cubic(250_000, 100_000, 250_000, 1_000_000).ok(),
        ),
        (
            "ease-in",
            Easing::cubic(420_000, 0, 1_000_000, 1_000_000).ok(),
        ),
        ("ease-out", Easing::cubic(0, 0, 580_000, 1_000_000).ok()),
        (
            "ease-in-out",
            Easing::cubic(420_000, 0, 580_000, 1_000_000).ok(),
        ),
        ("step-start", Easing::steps(1, StepPosition::JumpStart).ok()),
        ("step-end", Easing::steps(1, StepPosition::JumpEnd).ok()),
        ("steps:4:end", Easing::steps(4, StepPosition::JumpEnd).ok()),
        (
            "steps:4:start",
            Easing::steps(4, StepPosition::JumpStart).ok(),
        ),
        (
            "steps:2:jump-none",
            Easing::steps(2, StepPosition::JumpNone).ok(),
        ),
        (
            "steps:3:jump-both",
            Easing::steps(3, StepPosition::JumpBoth).ok(),
        ),
        (
            "cubic:0:-10000000:1000000:5",
            Easing::cubic(0, -10_000_000, 1_000_000, 5).ok(),
        ),
        ("steps:1:jump-none", None),
        ("steps:0:end", None),
        ("steps:1000001:end", None),
        ("steps:4:END", None),
        ("steps:4", None),
        ("cubic:1000001:0:0:0", None),
        ("cubic:0:10000001:0:0", None),
        ("cubic:0:0:0", None),
        ("cubic:0:0:0:0:0", None),
        ("cubic:00:0:0:0", None),
        ("spring", None),
        ("", None),
    ] {
        assert!(rt; easing_said(field.as_bytes()) == *easing, "for {field:?}");
    }
}

const LIST: &str = "translate:0:-40000:1 scale:1:2:3 rotate:0:0:1:90000 skew:1099511627776:-2";

const OPERATIONS: [TransformOp; 4] = [
    TransformOp::Translate {
        x: 0,
        y: -40_000,
        z: 1,
    },
    TransformOp::Scale { x: 1, y: 2, z: 3 },
    TransformOp::Rotate {
        x: 0,
        y: 0,
        z: 1,
        angle: 90_000,
    },
    TransformOp::Skew { x: 1 << 40, y: -2 },
];

// The list that the fields of a line spell. There are no more of them than a list may have.
fn list_of(alloc: Global, line: &str) -> Result<Option<TransformList>, Fail> {
    let fields = fields_of(alloc, line.as_bytes())?;
    if fields.len() > MOST_OPERATIONS {
        return Err(Fail::from("more fields than a list may have"));
    }
    Ok(list_read(alloc, fields.as_slice())?.ok())
}

fn expect_operations(rt: &impl Abort, list: &TransformList) {
    assert!(rt; list.len() == OPERATIONS.len());
    for (i, op) in OPERATIONS.iter().enumerate() {
        if i < list.len() {
            assert!(rt; list.op(i) == *op);
        }
    }
}

#[test]
fn a_list_is_operations(rt: HostRuntime) -> Result<(), Fail> {
    let Some(list) = list_of(rt.alloc(), LIST)? else {
        return Err(Fail::from("the list says nothing"));
    };
    expect_operations(&rt, &list);
    Ok(())
}

#[test]
fn a_word_is_the_list_of_none(rt: HostRuntime) -> Result<(), Fail> {
    let empty = list_of(rt.alloc(), "none")?;
    assert!(rt; matches!(&empty, Some(list) if list.is_empty()));
    Ok(())
}

#[test]
fn other_fields_are_no_list(rt: HostRuntime) -> Result<(), Fail> {
    for line in &[
        "none none",
        "skew:1:2 none",
        "skew:1",
        "skew:1:2:3",
        "skew:1:1099511627777",
        "rotate:0:0:1",
        "matrix:1:0:0:1",
    ] {
        assert!(rt; list_of(rt.alloc(), line)?.is_none(), "for {line:?}");
    }
    Ok(())
}
