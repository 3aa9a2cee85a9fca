//! Blends of numbers and of opacities.

use crate::builders::opacity;
use std::alloc::AllocError;
use std::test::Fail;
use value_blend::{Blend, Opacity, blend_number};

const HALF: i64 = 524_288;

// What the cubic easing (0, -10, 1, 0) gives half way.
const OVERSHOOT: i64 = -3_801_088;

// Half of the way between two values, whatever they are.
fn middle<V: Blend>(from: &V, to: &V) -> Result<V, AllocError> {
    V::blend(from, to, HALF)
}

#[test]
fn opacities_are_up_to_a_million(rt: HostRuntime) -> Result<(), Fail> {
    assert!(rt; Opacity::new(-1) == None);
    assert!(rt; opacity(0)?.get() == 0);
    assert!(rt; opacity(1_000_000)?.get() == 1_000_000);
    assert!(rt; Opacity::new(1_000_001) == None);
    Ok(())
}

#[test]
fn an_overshoot_stays_within_the_range(rt: HostRuntime) -> Result<(), Fail> {
    let none = opacity(0)?;
    let full = opacity(1_000_000)?;
    assert!(rt; Opacity::blend(&none, &full, OVERSHOOT)? == none);
    assert!(rt; Opacity::blend(&full, &none, OVERSHOOT)? == full);
    assert!(rt; blend_number(0, 1000, OVERSHOOT) == -3625);
    assert!(rt; blend_number(0, 1 << 40, 1 << 24) == 1 << 40);
    assert!(rt; blend_number(0, -(1 << 40), 1 << 24) == -(1 << 40));
    Ok(())
}

#[test]
fn a_blend_is_rounded_down(rt: HostRuntime) -> Result<(), Fail> {
    let none = opacity(0)?;
    let full = opacity(1_000_000)?;
    assert!(rt; Opacity::blend(&none, &full, 349_524)?.get() == 333_332);
    assert!(rt; middle(&none, &full)?.get() == 500_000);
    assert!(rt; middle(&full, &none)?.get() == 500_000);
    assert!(rt; blend_number(0, 999, HALF) == 499);
    assert!(rt; blend_number(0, -999, HALF) == -500);
    full.vouch();
    assert!(rt; full.copy()? == full);
    Ok(())
}
