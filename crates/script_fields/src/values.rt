//! The numbers of a script's fields: ids, values and times, and the numbers of which a timing is made.

ghost use Rattle.std.specs.Prelude.{◌≡◌, ◌≤◌, ◌<◌, IfSome};
ghost use Rattle.anim_timeline.specs.declared.TheConstants.{LAST_TIME};
ghost use Rattle.micro_time.specs.declared.TheConstants.{LONGEST_DURATION};
ghost use Rattle.script_fields.specs.Values as said;

use crate::fields::is;
use crate::numbers::{natural_within, number_said};
use anim_timeline::{LAST_TIME, Timeline};
use micro_time::{Direction, Fill, Iterations, LONGEST_DURATION, Timing};
use value_blend::Opacity;

/// How often a curve is run through, as a script says it: whether so often is in range is judged with the rest of the
/// timing.
#[derive(Clone, Copy)]
pub enum Count {
    /// Over and over.
    Endless,
    /// So many thousandths.
    Counted(i64),
}

/// The numbers of which a timing is made, whether they are in range or not: the offset in microseconds, the others in
/// thousandths.
#[derive(Clone, Copy)]
pub struct TimingNumbers {
    pub offset: i64,
    pub iterations: Count,
    pub iteration_start: i64,
    pub direction: Direction,
    pub fill: Fill,
    pub rate: i64,
}

/// An id.
#[tactic(auto, unfolding(crate::specs::Values::id_said))]
pub fn id_said(field: &[u8]) -> Option<u32>
    ensures { result ≡ said.id_said field.now }
{
    let id = natural_within(field, 0, u64::from(u32::MAX))?;
    Some(id as u32)
}

/// An opacity, in millionths.
#[tactic(auto, unfolding(crate::specs::Values::opacity_said))]
pub fn opacity_said(field: &[u8]) -> Option<Opacity>
    ensures { result ≡ said.opacity_said field.now }
{
    Opacity::new(number_said(field)?)
}

/// The time of a tick, in microseconds.
#[tactic(auto, unfolding(crate::specs::Values::time_said))]
pub fn time_said(field: &[u8]) -> Option<u64>
    ensures value { result ≡ said.time_said field.now }
    ensures within { IfSome result (λ time. time ≤ LAST_TIME) }
{
    natural_within(field, 0, LAST_TIME)
}

/// The timeline that shows 0 at the time of a field, in microseconds.
pub fn timeline_said(field: &[u8]) -> Option<Timeline>
    ensures { result ≡ said.time_said field.now }
{
    Timeline::new(time_said(field)?)
}

/// The time of a key, in microseconds.
#[tactic(auto, unfolding(crate::specs::Values::key_time_said))]
pub fn key_time_said(field: &[u8]) -> Option<u64>
    ensures value { result ≡ said.key_time_said field.now }
    ensures within { IfSome result (λ time. time ≤ LONGEST_DURATION) }
{
    natural_within(field, 0, LONGEST_DURATION)
}

/// A given start, in microseconds, or a dash for none.
#[tactic(auto, unfolding(crate::specs::Values::start_said))]
pub fn start_said(field: &[u8]) -> Option<Option<u64>>
    ensures value { result ≡ said.start_said field.now }
    ensures within { IfSome result (λ start. IfSome start (λ time. time ≤ LAST_TIME)) }
{
    if is(field, "-") {
        return Some(None);
    }
    Some(Some(time_said(field)?))
}

/// How often a curve is run through.
#[tactic(auto, unfolding(crate::specs::Values::count_said))]
pub fn count_said(field: &[u8]) -> Option<Count>
    ensures { result ≡ said.count_said field.now }
{
    if is(field, "infinite") {
        return Some(Count::Endless);
    }
    Some(Count::Counted(number_said(field)?))
}

/// The timing of these numbers, for a curve of duration 1. There is none exactly where a number is out of its range, or
/// where infinite iterations have a negative rate.
#[tactic(auto, unfolding(crate::specs::Values::timing_of))]
pub fn timing_of(numbers: TimingNumbers) -> Option<Timing>
    ensures { result ≡ said.timing_of numbers }
{
    let iterations = iterations_of(numbers.iterations)?;
    let start = natural_of(numbers.iteration_start)?;
    let rate = rate_of(numbers.rate)?;
    timing_with(
        numbers.offset,
        iterations,
        start,
        numbers.direction,
        numbers.fill,
        rate,
    )
}

fn iterations_of(count: Count) -> Option<Iterations>
    ensures { result ≡ said.iterations_of count }
{
    match count {
        Count::Endless => Some(Iterations::Infinite),
        Count::Counted(number) => Some(Iterations::Finite(natural_of(number)?)),
    }
}

fn natural_of(number: i64) -> Option<u32>
    ensures { result ≡ said.natural_of_number number }
{
    if number < 0 || number > i64::from(u32::MAX) {
        None
    } else {
        Some(number as u32)
    }
}

fn rate_of(number: i64) -> Option<i32>
    ensures { result ≡ said.rate_of number }
{
    if i64::from(i32::MIN) <= number && number <= i64::from(i32::MAX) {
        Some(number as i32)
    } else {
        None
    }
}

fn timing_with(
    offset: i64,
    iterations: Iterations,
    iteration_start: u32,
    direction: Direction,
    fill: Fill,
    rate: i32,
) -> Option<Timing>
    ensures { result ≡ said.timing_with offset iterations iteration_start direction fill rate }
{
    Timing::new(
        1,
        offset,
        iterations,
        iteration_start,
        direction,
        fill,
        rate,
    )
    .ok()
}
