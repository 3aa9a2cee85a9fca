//! Phases and curve times.

use micro_time::{
    Direction, Fill, Iterations, LARGEST_LOCAL, Phase, Timing, TimingFault, TimingField,
};
use std::process::Abort;
use std::test::Fail;

const SECOND: u64 = 1_000_000;

fn second(
    iterations: Iterations,
    iteration_start: u32,
    direction: Direction,
    fill: Fill,
    rate: i32,
) -> Result<Timing, TimingFault> {
    Timing::new(
        SECOND,
        0,
        iterations,
        iteration_start,
        direction,
        fill,
        rate,
    )
}

fn expect_rows(rt: &impl Abort, timing: &Timing, rows: &[(i64, Option<u64>)]) {
    for (local, want) in rows {
        assert!(rt; local.unsigned_abs() <= LARGEST_LOCAL);
        assert_eq!(rt; timing.curve_time(*local), *want, "at {local}");
    }
}

#[test]
fn two_and_a_half_iterations_end_in_the_middle(rt: HostRuntime) -> Result<(), Fail> {
    let timing = second(
        Iterations::Finite(2500),
        0,
        Direction::AlternateReverse,
        Fill::Both,
        1000,
    )?;
    let rows = [
        (-1, Some(1_000_000)),
        (1_000_000, Some(0)),
        (2_250_000, Some(750_000)),
        (2_500_000, Some(500_000)),
        (1 << 52, Some(500_000)),
    ];
    expect_rows(&rt, &timing, &rows);
    assert!(rt; timing.phase(-1) == Phase::Before);
    assert!(rt; timing.phase(2_499_999) == Phase::Active);
    assert!(rt; timing.phase(2_500_000) == Phase::After);
    assert!(rt; timing.is_done(2_500_000));
    assert!(rt; !timing.is_done(2_499_999));
    Ok(())
}

#[test]
fn no_iterations_are_over_at_once(rt: HostRuntime) -> Result<(), Fail> {
    let normal = second(
        Iterations::Finite(0),
        0,
        Direction::Normal,
        Fill::Forwards,
        1000,
    )?;
    expect_rows(&rt, &normal, &[(-1, None), (0, Some(0))]);
    assert!(rt; normal.is_done(0));
    let reverse = second(
        Iterations::Finite(0),
        0,
        Direction::Reverse,
        Fill::Forwards,
        1000,
    )?;
    expect_rows(&rt, &reverse, &[(-1, None), (0, Some(1_000_000))]);
    assert!(rt; reverse.is_done(0));
    Ok(())
}

#[test]
fn a_negative_rate_runs_from_the_end(rt: HostRuntime) -> Result<(), Fail> {
    let whole = second(
        Iterations::Finite(1000),
        0,
        Direction::Normal,
        Fill::Forwards,
        -1000,
    )?;
    let rows = [
        (0, Some(1_000_000)),
        (250_000, Some(750_000)),
        (1_000_000, Some(0)),
    ];
    expect_rows(&rt, &whole, &rows);
    let from_half = second(
        Iterations::Finite(1000),
        500,
        Direction::Normal,
        Fill::Forwards,
        -1000,
    )?;
    expect_rows(&rt, &from_half, &[(0, Some(500_000))]);
    Ok(())
}

#[test]
fn infinite_iterations_go_on(rt: HostRuntime) -> Result<(), Fail> {
    let timing = second(
        Iterations::Infinite,
        0,
        Direction::Alternate,
        Fill::Neither,
        1000,
    )?;
    // 2^52 is 4503599627 seconds and 370496 microseconds.
    expect_rows(
        &rt,
        &timing,
        &[
            (-1, None),
            (999_999, Some(999_999)),
            (1 << 52, Some(629_504)),
        ],
    );
    assert!(rt; !timing.is_done(1 << 52));
    Ok(())
}

#[test]
fn a_curve_time_is_rounded_down_at_the_end(rt: HostRuntime) -> Result<(), Fail> {
    let forwards = second(
        Iterations::Infinite,
        0,
        Direction::Normal,
        Fill::Neither,
        1500,
    )?;
    expect_rows(&rt, &forwards, &[(1, Some(1)), (2, Some(3))]);
    let backwards = second(
        Iterations::Infinite,
        0,
        Direction::Reverse,
        Fill::Neither,
        1500,
    )?;
    expect_rows(&rt, &backwards, &[(1, Some(999_998)), (2, Some(999_997))]);
    Ok(())
}

#[test]
fn the_first_field_out_of_range_is_refused(rt: HostRuntime) {
    let once = Iterations::Finite(1000);
    let too_often = Iterations::Finite(1_000_000_001);
    let rows = [
        (0, 1 << 41, too_often, 1_000_001, 0, TimingField::Duration),
        ((1 << 36) + 1, 0, once, 0, 1000, TimingField::Duration),
        (
            1,
            (1 << 40) + 1,
            too_often,
            1_000_001,
            0,
            TimingField::Offset,
        ),
        (1, -(1 << 40) - 1, once, 0, 1000, TimingField::Offset),
        (1, 0, too_often, 1_000_001, 0, TimingField::Iterations),
        (
            1,
            0,
            Iterations::Infinite,
            1_000_001,
            0,
            TimingField::IterationStart,
        ),
        (1, 0, Iterations::Infinite, 0, 0, TimingField::Rate),
        (1, 0, Iterations::Infinite, 0, -1_000_001, TimingField::Rate),
    ];
    for (duration, offset, iterations, start, rate, field) in rows {
        let made = Timing::new(
            duration,
            offset,
            iterations,
            start,
            Direction::Normal,
            Fill::Both,
            rate,
        );
        assert!(rt;
            made == Err(TimingFault::OutOfRange(field)),
            "for {field:?}"
        );
    }
    let reverse = second(
        Iterations::Infinite,
        0,
        Direction::Normal,
        Fill::Both,
        -1000,
    );
    assert!(rt; reverse == Err(TimingFault::InfiniteReverse));
}

#[test]
fn a_timing_keeps_its_parts(rt: HostRuntime) -> Result<(), Fail> {
    let timing = Timing::new(
        1 << 36,
        -(1 << 40),
        Iterations::Finite(1_000_000_000),
        1_000_000,
        Direction::Reverse,
        Fill::Backwards,
        -1_000_000,
    )?;
    assert!(rt; timing.duration() == 1 << 36);
    assert!(rt; timing.offset() == -(1 << 40));
    assert!(rt; timing.iterations() == Iterations::Finite(1_000_000_000));
    assert!(rt; timing.iteration_start() == 1_000_000);
    assert!(rt; timing.direction() == Direction::Reverse);
    assert!(rt; timing.fill() == Fill::Backwards);
    assert!(rt; timing.rate() == -1_000_000);
    let again = timing;
    assert!(rt; timing == again);
    Ok(())
}
