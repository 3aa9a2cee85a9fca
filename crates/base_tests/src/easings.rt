//! Step and cubic easings, and the evaluator that stores a function for them.

ghost use Rattle.easing_fixed.specs.Evaluators.{MayEase, Eases};

use crate::sharing::expect_shared;
use anim_names::ONE;
use easing_fixed::{
    CubicShape, Easing, EasingFault, EasingFunction, Evaluator, StepPosition, StepShape,
};
use std::process::Abort;
use std::test::Fail;

fn expect_rows(rt: &impl Abort, easing: &Easing, rows: &[(u32, i64)]) {
    for (p, want) in rows {
        assert!(rt; *p <= ONE);
        assert_eq!(rt; easing.value(*p), *want, "at {p}");
        assert_eq!(rt; easing.quick_value(*p), *want, "at {p}");
    }
}

fn expect_eased<E: EasingFunction + Send + Sync + Drop>(rt: &impl Abort, function: E)
    requires may_be_called { MayEase (E.asks function) }
    requires exact { Eases (E.answers function) }
{
    let evaluator = Evaluator::new(function);
    expect_shared(&evaluator);
    assert!(rt; evaluator.ease(&Easing::ease_out(), 359_137) == 524_286);
    assert!(rt; evaluator.ease(&Easing::step_end(), 524_288) == 0);
}

#[test]
fn an_evaluator_calls_the_stored_function(rt: HostRuntime) {
    expect_eased(&rt, Easing::value);
    expect_eased(&rt, |easing: &Easing, p: u32| easing.quick_value(p));
}

#[test]
fn linear_gives_the_progress(rt: HostRuntime) {
    expect_rows(
        &rt,
        &Easing::Linear,
        &[(0, 0), (524_289, 524_289), (1_048_576, 1_048_576)],
    );
}

#[test]
fn steps_jump_where_their_position_says(rt: HostRuntime) -> Result<(), Fail> {
    let none = Easing::steps(4, StepPosition::JumpNone)?;
    expect_rows(
        &rt,
        &none,
        &[(0, 0), (524_288, 699_050), (1_048_576, 1_048_576)],
    );
    let both = Easing::steps(4, StepPosition::JumpBoth)?;
    expect_rows(&rt, &both, &[(0, 209_715), (1_048_576, 1_048_576)]);
    let end = Easing::steps(1, StepPosition::JumpEnd)?;
    expect_rows(&rt, &end, &[(1_048_575, 0), (1_048_576, 1_048_576)]);
    let start = Easing::steps(1, StepPosition::JumpStart)?;
    expect_rows(&rt, &start, &[(0, 1_048_576), (1_048_576, 1_048_576)]);
    Ok(())
}

#[test]
fn a_bad_count_of_steps_is_refused(rt: HostRuntime) {
    let rows = [
        (1, StepPosition::JumpNone),
        (0, StepPosition::JumpEnd),
        (0, StepPosition::JumpBoth),
        (1_000_001, StepPosition::JumpStart),
    ];
    for (count, position) in rows {
        assert!(rt;
            Easing::steps(count, position) == Err(EasingFault::BadCount),
            "for {count}"
        );
    }
}

#[test]
fn a_cubic_goes_by_its_greatest_place(rt: HostRuntime) -> Result<(), Fail> {
    let upright = Easing::cubic(1_000_000, 0, 0, 1_000_000)?;
    expect_rows(
        &rt,
        &upright,
        &[
            (0, 0),
            (524_288, 524_288),
            (524_289, 534_039),
            (1_048_576, 1_048_576),
        ],
    );
    expect_rows(
        &rt,
        &Easing::ease_out(),
        &[(359_137, 524_286), (359_138, 524_288)],
    );
    let undershooting = Easing::cubic(0, -10_000_000, 1_000_000, 0)?;
    expect_rows(&rt, &undershooting, &[(524_288, -3_801_088)]);
    Ok(())
}

#[test]
fn control_numbers_out_of_range_are_refused(rt: HostRuntime) {
    let rows = [
        (1_000_001, 0, 0, -10_000_001, EasingFault::XOutOfRange),
        (0, 10_000_001, -1, 0, EasingFault::XOutOfRange),
        (0, 0, 0, -10_000_001, EasingFault::YOutOfRange),
        (0, 10_000_001, 0, 0, EasingFault::YOutOfRange),
    ];
    for (x1, y1, x2, y2, fault) in rows {
        assert!(rt;
            Easing::cubic(x1, y1, x2, y2) == Err(fault),
            "for {x1} {y1} {x2} {y2}"
        );
    }
}

#[test]
fn keywords_are_their_curves(rt: HostRuntime) -> Result<(), Fail> {
    assert!(rt; Easing::ease() == Easing::cubic(250_000, 100_000, 250_000, 1_000_000)?);
    assert!(rt; Easing::ease_in() == Easing::cubic(420_000, 0, 1_000_000, 1_000_000)?);
    assert!(rt; Easing::ease_out() == Easing::cubic(0, 0, 580_000, 1_000_000)?);
    assert!(rt; Easing::ease_in_out() == Easing::cubic(420_000, 0, 580_000, 1_000_000)?);
    assert!(rt; Easing::step_start() == Easing::steps(1, StepPosition::JumpStart)?);
    assert!(rt; Easing::step_end() == Easing::steps(1, StepPosition::JumpEnd)?);
    assert!(rt; Easing::step_end() != Easing::Linear);
    Ok(())
}

#[test]
fn shapes_keep_their_parts(rt: HostRuntime) -> Result<(), Fail> {
    let steps = StepShape::new(1_000_000, StepPosition::JumpBoth)?;
    assert!(rt; steps.count() == 1_000_000);
    assert!(rt; steps.position() == StepPosition::JumpBoth);
    let cubic = CubicShape::new(1, -2, 3, 10_000_000)?;
    assert!(rt; cubic.x1() == 1);
    assert!(rt; cubic.y1() == -2);
    assert!(rt; cubic.x2() == 3);
    assert!(rt; cubic.y2() == 10_000_000);
    Ok(())
}
