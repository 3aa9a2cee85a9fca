//! Keyframe curves.

ghost use Rattle.easing_fixed.specs.Evaluators.{MayEase, Eases};

use crate::builders::{key, opacity};
use curve_keys::{Curve, CurveFault, Key};
use easing_fixed::{Easing, EasingFunction, Evaluator, StepPosition};
use micro_time::LONGEST_DURATION;
use std::process::Abort;
use std::test::Fail;
use value_blend::Opacity;

fn curve(
    rt: &impl Abort,
    keys: Vec<Key<Opacity>>,
    easing: Easing,
) -> Result<Curve<Opacity>, CurveFault> {
    assert!(rt; keys.iter().all(|key| key.time <= LONGEST_DURATION));
    Curve::new(keys, easing)
}

fn expect_rows(rt: &impl Abort, curve: &Curve<Opacity>, rows: &[(u64, u32)]) -> Result<(), Fail> {
    expect_rows_by(rt, Easing::value, curve, rows)
}

fn expect_rows_by<E: EasingFunction + Drop>(
    rt: &impl Abort,
    function: E,
    curve: &Curve<Opacity>,
    rows: &[(u64, u32)],
) -> Result<(), Fail>
    requires may_be_called { MayEase (E.asks function) }
    requires exact { Eases (E.answers function) }
{
    let evaluator = Evaluator::new(function);
    for (time, want) in rows {
        assert!(rt; *time <= curve.duration());
        assert_eq!(rt;
            curve.value_at(*time, &evaluator)?.get(),
            *want,
            "at {time}"
        );
    }
    Ok(())
}

#[test]
fn values_lie_between_the_keys(rt: HostRuntime) -> Result<(), Fail> {
    let linear = Easing::Linear;
    let keys = vec![in rt.alloc();
        key(0, linear, opacity(0)?),
        key(400_000, linear, opacity(1_000_000)?),
        key(1_000_000, linear, opacity(500_000)?),
    ]?;
    let curve = curve(&rt, keys, linear)?;
    assert!(rt; curve.duration() == 1_000_000);
    assert!(rt; curve.key_count() == 3);
    assert!(rt; curve.key(1).time == 400_000);
    assert!(rt; *curve.easing() == linear);
    let rows = [
        (0, 0),
        (200_000, 500_000),
        (400_000, 1_000_000),
        (700_000, 750_000),
        (1_000_000, 500_000),
    ];
    expect_rows(&rt, &curve, &rows)
}

#[test]
fn the_first_value_is_not_eased(rt: HostRuntime) -> Result<(), Fail> {
    let jumps = Easing::steps(4, StepPosition::JumpStart)?;
    let keys = vec![in rt.alloc();
        key(0, jumps, opacity(0)?),
        key(1000, Easing::Linear, opacity(1_000_000)?),
    ]?;
    let curve = curve(&rt, keys, Easing::Linear)?;
    expect_rows(
        &rt,
        &curve,
        &[(0, 0), (1, 250_000), (999, 1_000_000), (1000, 1_000_000)],
    )
}

#[test]
fn the_curve_bends_its_own_time(rt: HostRuntime) -> Result<(), Fail> {
    let linear = Easing::Linear;
    let half = Easing::steps(2, StepPosition::JumpEnd)?;
    let keys = vec![in rt.alloc();
        key(0, linear, opacity(0)?),
        key(1000, linear, opacity(1_000_000)?),
    ]?;
    let stepped = curve(&rt, keys, half)?;
    expect_rows(
        &rt,
        &stepped,
        &[
            (0, 0),
            (499, 0),
            (500, 500_000),
            (999, 500_000),
            (1000, 1_000_000),
        ],
    )?;
    // Half way this cubic is far below 0, and the time is held at the beginning.
    let back = Easing::cubic(0, -10_000_000, 1_000_000, 0)?;
    let keys = vec![in rt.alloc();
        key(0, linear, opacity(0)?),
        key(1_048_576, linear, opacity(1_000_000)?),
    ]?;
    let held = curve(&rt, keys, back)?;
    expect_rows(&rt, &held, &[(524_288, 0), (1_048_576, 1_000_000)])
}

#[test]
fn keys_are_refused_in_order(rt: HostRuntime) -> Result<(), Fail> {
    let linear = Easing::Linear;
    let one = vec![in rt.alloc(); key(5, linear, opacity(0)?)]?;
    assert!(rt; curve(&rt, one, linear).err() == Some(CurveFault::FewKeys));
    let equal = vec![in rt.alloc(); key(5, linear, opacity(0)?), key(5, linear, opacity(1)?)]?;
    assert!(rt; curve(&rt, equal, linear).err() == Some(CurveFault::TimesNotRising));
    let late = vec![in rt.alloc(); key(5, linear, opacity(0)?), key(6, linear, opacity(1)?)]?;
    assert!(rt; curve(&rt, late, linear).err() == Some(CurveFault::FirstNotZero));
    let mut keys = Vec::new(rt.alloc());
    for time in 0..16 {
        keys.push(key(time, linear, opacity(0)?))?;
    }
    assert!(rt; curve(&rt, keys, linear)?.key_count() == 16);
    let mut keys = Vec::new(rt.alloc());
    for _ in 0..17 {
        keys.push(key(5, linear, opacity(0)?))?;
    }
    assert!(rt; curve(&rt, keys, linear).err() == Some(CurveFault::ManyKeys));
    Ok(())
}
