//! Curves made of keys whose times rise from 0, and the value at any time. The values' type says how two of them are
//! blended.

ghost use Rattle.std.specs.Prelude.{◌≡◌, ◌≤◌, ◌<◌, ◌*◌, All, length, false, IfOk, IsOk, slice_get, Some};
ghost use Rattle.std.specs.Prelude.{◌/◌, pos, ◌*ℤ◌};
ghost use Rattle.std.specs.Result.{result_err};
ghost use Rattle.value_blend.specs.Fixed.{floor_div, clamp_to};
ghost use Rattle.easing_fixed.specs.Easings.{eased};
ghost use Rattle.curve_keys.specs.Curves.{IsKey, value_from, is_rising, is_rising_from, last_time};
ghost use Rattle.micro_time.specs.declared.TheConstants.{LONGEST_DURATION};

use crate::{CurveFault, FEWEST_KEYS, Key, MOST_KEYS};
use anim_names::ONE;
use easing_fixed::{Easing, EasingFunction, Evaluator};
use std::alloc::AllocError;
use std::marker::Model;
use value_blend::Blend;

/// The time of a curve's first key.
const BEGIN: u64 = 0;

/// How a value changes in time: [`FEWEST_KEYS`] to [`MOST_KEYS`] keys in order of their times, the first of which is at
/// time 0.
///
/// The curve's own easing bends the time before a value is looked up. Contracts see a curve as its keys and its
/// easing; `curve_value` of them is the value at a time.
pub struct Curve<V: Blend> {
    keys: Vec<Key<V>>,
    easing: Easing,
    duration: u64,
}

impl<V: Blend> Model for Curve<V> {
    ghost use Rattle.std.specs.Prelude.{◌≡◌};
    ghost use Rattle.curve_keys.specs.Curves.{Keyframes, keyframes, IsCurve, last_time};

    ghost Value = { Keyframes V };

    ghost view = { λ c. keyframes c.keys.items c.easing };

    ghost invariant = { λ c.
        IsCurve V.is_value (keyframes c.keys.items c.easing) × (c.duration ≡ last_time 0 c.keys.items) };
}

impl<V: Blend + Drop> Drop for Curve<V> {
    fn drop(self) {
        let Curve {
            keys: _keys,
            easing: _,
            duration: _,
        } = self;
    }
}

impl<V: Blend + Drop> Curve<V> {
    ghost use Rattle.curve_keys.specs.Curves.{keyframes, curve_refusal};

    /// The curve through these keys, in their order, with an easing of its own. Keys that make no curve are dropped.
    pub fn new(keys: Vec<Key<V>>, easing: Easing) -> Result<Curve<V>, CurveFault>
        requires { All (λ key. key.time ≤ LONGEST_DURATION) keys.items }
        ensures refused { result_err result ≡ curve_refusal keys.items }
        ensures parts { IfOk result (λ curve. curve ≡ keyframes keys.items easing) }
    {
        if keys.len() < FEWEST_KEYS {
            return Err(CurveFault::FewKeys);
        }
        if keys.len() > MOST_KEYS {
            return Err(CurveFault::ManyKeys);
        }
        if !is_rising(&keys) {
            return Err(CurveFault::TimesNotRising);
        }
        if keys[0].time != BEGIN {
            return Err(CurveFault::FirstNotZero);
        }
        vouch(&keys);
        easing.vouch();
        let duration = last_time(&keys);
        Ok(Curve {
            keys,
            easing,
            duration,
        })
    }
}

impl<V: Blend> Curve<V> {
    ghost use Rattle.curve_keys.specs.Curves.{IsCurve, duration_of, bent_time};

    /// The last key's time, in microseconds.
    pub fn duration(&self) -> u64
        ensures value { result ≡ duration_of self.now }

        // So is every curve.
        ensures in_range { IsCurve V.is_value self.now }
    {
        self.duration
    }

    /// What bends the time of the curve as a whole.
    pub fn easing(&self) -> &Easing
        ensures { result.now ≡ self.now.easing }
    {
        &self.easing
    }

    /// How many keys there are.
    pub fn key_count(&self) -> usize
        ensures { result ≡ length self.now.keys }
    {
        self.keys.len()
    }

    /// The key of this index, which counts from 0.
    pub fn key(&self, i: usize) -> &Key<V>
        requires { i < length self.now.keys }
        ensures { slice_get self.now.keys i ≡ Some result.now }
    {
        &self.keys[i]
    }

    // The time that the curve's own easing makes of a time.
    fn bent_time<E: EasingFunction>(&self, time: u64, evaluator: &Evaluator<E>) -> u64
        requires { time ≤ duration_of self.now }
        ensures value { result ≡ bent_time self.now.easing (duration_of self.now) time }
        ensures within { result ≤ duration_of self.now }
    {
        match self.easing {
            Easing::Linear => time,
            Easing::Steps(_) | Easing::Cubic(_) => {
                bend(&self.easing, self.duration, time, evaluator)
            }
        }
    }
}

impl<V: Blend> Curve<V> {
    ghost use Rattle.curve_keys.specs.Curves.{duration_of, curve_value};

    /// The value at a time, in microseconds from the beginning of the curve.
    pub fn value_at<E: EasingFunction>(
        &self,
        time: u64,
        evaluator: &Evaluator<E>,
    ) -> Result<V, AllocError>
        requires { time ≤ duration_of self.now }
        ensures value { IfOk result (λ value. curve_value V.blended self.now time ≡ Some value) }
        ensures without_memory { V.TAKES_MEMORY ≡ false → IsOk result }
    {
        let time = self.bent_time(time, evaluator);
        if time == BEGIN {
            return self.keys[0].value.copy();
        }
        value_from(&self.keys[0], &self.keys[1..], time, evaluator)
    }
}

// The time of a curve of this duration that an easing makes of a time.
fn bend<E: EasingFunction>(
    easing: &Easing,
    duration: u64,
    time: u64,
    evaluator: &Evaluator<E>,
) -> u64
    requires within { time ≤ duration }
    requires some { 0 < duration }
    requires short { duration ≤ LONGEST_DURATION }
    ensures value { result
        ≡ clamp_to duration (floor_div (eased easing.now (time * ONE / duration) *ℤ pos duration) ONE) }
    ensures within { result ≤ duration }
{
    let progress = (time * u64::from(ONE) / duration) as u32;
    let bent = evaluator.ease(easing, progress) * duration as i64;
    bent.div_euclid(i64::from(ONE)).clamp(0, duration as i64) as u64
}

// The value from this key on: up to the next key a blend of the two, and from the last key on that key's value.
fn value_from<V: Blend, E: EasingFunction>(
    first: &Key<V>,
    keys: &[Key<V>],
    time: u64,
    evaluator: &Evaluator<E>,
) -> Result<V, AllocError>
    requires begun { first.now.time ≤ time }
    requires short { All (λ key. key.time ≤ LONGEST_DURATION) keys.now }
    ensures value { IfOk result (λ value. value ≡ value_from V.blended first.now keys.now time) }
    ensures without_memory { V.TAKES_MEMORY ≡ false → IsOk result }
{
    let mut from = first;
    for to in keys {
        if time < to.time {
            return from.value_before(to, time, evaluator);
        }
        from = to;
    }
    from.value.copy()
}

// Each key's time is within the range, and its easing and its value are so by themselves.
fn vouch<V: Blend>(keys: &[Key<V>])
    requires { All (λ key. key.time ≤ LONGEST_DURATION) keys.now }
    ensures { All (IsKey V.is_value) keys.now }
{
    for key in keys {
        key.easing.vouch();
        key.value.vouch();
    }
}

// Whether each key's time is greater than the one before.
fn is_rising<V>(keys: &[Key<V>]) -> bool
    requires { 0 < length keys.now }
    ensures { result ≡ is_rising keys.now }
{
    is_rising_from(keys[0].time, &keys[1..])
}

// Whether each key's time is greater than the one before, and the first one's than this time.
fn is_rising_from<V>(first: u64, keys: &[Key<V>]) -> bool
    ensures { result ≡ is_rising_from first keys.now }
{
    let mut time = first;
    for key in keys {
        if key.time <= time {
            return false;
        }
        time = key.time;
    }
    true
}

// The last key's time.
fn last_time<V>(keys: &[Key<V>]) -> u64
    requires { 0 < length keys.now }
    ensures { result ≡ last_time 0 keys.now }
{
    keys[keys.len() - 1].time
}
