//! The parts of a timing, and the way from a local time to a time of the curve: elapsed time, progress, iteration,
//! place in it. Only the last step rounds.

ghost use Rattle.std.specs.Prelude.{◌≡◌, ◌+◌, ◌*◌, ◌^◌, ◌<◌, ◌≤◌, unsigned_abs, IfOk, IfSome};
ghost use Rattle.std.specs.Result.{result_err};
ghost use Rattle.micro_time.specs.declared.TheConstants.{LARGEST_LOCAL};
ghost use Rattle.micro_time.specs.Timings.{timing_parts, refusal, IsTiming, phase, is_done, curve_time};
ghost use Rattle.micro_time.specs.Timings.{elapsed, covered, total, progress_in, skipped, position_in};
ghost use Rattle.micro_time.specs.Timings.{one_iteration, is_last_end, iteration_at, part_at, time_at};

use crate::{
    Direction, Fill, Iterations, LARGEST_OFFSET, LARGEST_RATE, LAST_ITERATION_START,
    LONGEST_DURATION, MOST_ITERATIONS, Phase, TimingFault, TimingField,
};
use std::marker::Model;

/// When an animation runs, and in which order it runs through its curve.
///
/// The equations follow the outline of cc/animation and of Web Animations: a local time and the offset make the time
/// that has elapsed, this and the rate make the progress, and the progress gives an iteration and a part of it. The
/// units and ranges, that nothing is rounded before the last step, and the rule for the fill are this project's own. A
/// timing does not know when its animation starts: local times count from there.
#[derive(Clone, Copy, PartialEq, Eq)]
pub struct Timing {
    duration: u64,
    offset: i64,
    iterations: Iterations,
    iteration_start: u32,
    direction: Direction,
    fill: Fill,
    rate: i32,
}

impl Model for Timing {
    ghost use Rattle.micro_time.specs.Timings.{TimingParts, timing_parts, IsTiming};

    ghost Value = { TimingParts };

    ghost view = { λ t.
        timing_parts t.duration t.offset t.iterations t.iteration_start t.direction t.fill t.rate };

    ghost invariant = { λ t.
        IsTiming (timing_parts t.duration t.offset t.iterations t.iteration_start t.direction t.fill t.rate) };

    ghost inverse = { λ t. record {
      duration = t.duration;
      offset = t.offset;
      iterations = t.iterations;
      iteration_start = t.iteration_start;
      direction = t.direction;
      fill = t.fill;
      rate = t.rate;
    } };
}

impl Timing {
    /// Makes a timing of its parts. What each part is the readers say, and its range [`TimingField`] says. The first
    /// field that is out of range is refused, and else infinite iterations at a negative rate.
    pub fn new(
        duration: u64,
        offset: i64,
        iterations: Iterations,
        iteration_start: u32,
        direction: Direction,
        fill: Fill,
        rate: i32,
    ) -> Result<Timing, TimingFault>
        ensures refused { result_err result
            ≡ refusal (timing_parts duration offset iterations iteration_start direction fill rate) }
        ensures parts { IfOk result (λ timing.
            timing ≡ timing_parts duration offset iterations iteration_start direction fill rate) }
    {
        if duration == 0 || duration > LONGEST_DURATION {
            return Err(TimingFault::OutOfRange(TimingField::Duration));
        }
        if offset.unsigned_abs() > LARGEST_OFFSET {
            return Err(TimingFault::OutOfRange(TimingField::Offset));
        }
        if let Iterations::Finite(count) = iterations {
            if count > MOST_ITERATIONS {
                return Err(TimingFault::OutOfRange(TimingField::Iterations));
            }
        }
        if iteration_start > LAST_ITERATION_START {
            return Err(TimingFault::OutOfRange(TimingField::IterationStart));
        }
        if rate == 0 || rate.unsigned_abs() > LARGEST_RATE {
            return Err(TimingFault::OutOfRange(TimingField::Rate));
        }
        if iterations == Iterations::Infinite && rate < 0 {
            return Err(TimingFault::InfiniteReverse);
        }
        Ok(Timing {
            duration,
            offset,
            iterations,
            iteration_start,
            direction,
            fill,
            rate,
        })
    }

    /// How long the curve is, in microseconds.
    pub fn duration(&self) -> u64
        ensures value { result ≡ self.now.duration }

        // So are the parts of every timing.
        ensures in_range { IsTiming self.now }
    {
        self.duration
    }

    /// What is added to the local time, in microseconds: a negative offset lets the animation begin later.
    pub fn offset(&self) -> i64
        ensures { result ≡ self.now.offset }
    {
        self.offset
    }

    /// How often the curve is run through.
    pub fn iterations(&self) -> Iterations
        ensures { result ≡ self.now.iterations }
    {
        self.iterations
    }

    /// Where in the iterations the animation begins, in thousandths of one.
    pub fn iteration_start(&self) -> u32
        ensures { result ≡ self.now.iteration_start }
    {
        self.iteration_start
    }

    /// Which way the curve is run through.
    pub fn direction(&self) -> Direction
        ensures { result ≡ self.now.direction }
    {
        self.direction
    }

    /// Where the animation shows a value outside of its iterations.
    pub fn fill(&self) -> Fill
        ensures { result ≡ self.now.fill }
    {
        self.fill
    }

    /// How fast it runs, in thousandths of its own speed. A negative rate runs from the end to the beginning.
    pub fn rate(&self) -> i32
        ensures { result ≡ self.now.rate }
    {
        self.rate
    }

    /// Whether the animation is yet to come, runs or is over at a local time in microseconds.
    #[tactic(auto, unfolding(crate::specs::Timings::phase))]
    pub fn phase(&self, local: i64) -> Phase
        requires { unsigned_abs local ≤ LARGEST_LOCAL }
        ensures { result ≡ phase self.now local }
    {
        if self.elapsed(local) < 0 {
            Phase::Before
        } else if self.iterations != Iterations::Infinite && self.covered(local) >= self.total() {
            Phase::After
        } else {
            Phase::Active
        }
    }

    /// Whether the iterations are over at a local time in microseconds.
    #[tactic(auto, unfolding(crate::specs::Timings::is_done))]
    pub fn is_done(&self, local: i64) -> bool
        requires { unsigned_abs local ≤ LARGEST_LOCAL }
        ensures { result ≡ is_done self.now local }
    {
        self.phase(local) == Phase::After
    }

    /// The time of the curve that shows at a local time, both in microseconds. There is none exactly before or
    /// after the iterations without the fill for it.
    #[tactic(auto, unfolding(crate::specs::Timings::curve_time))]
    pub fn curve_time(&self, local: i64) -> Option<u64>
        requires { unsigned_abs local ≤ LARGEST_LOCAL }
        ensures value { result ≡ curve_time self.now local }
        ensures within { IfSome result (λ time. time ≤ self.now.duration) }
    {
        let phase = self.phase(local);
        if self.fill.is_shown(phase) {
            Some(self.time_at(self.position(phase, local)))
        } else {
            None
        }
    }

    // How long the local time is past the beginning of the iterations.
    fn elapsed(&self, local: i64) -> i64
        requires { unsigned_abs local ≤ LARGEST_LOCAL }
        ensures value { result ≡ elapsed self.now local }
        ensures size { unsigned_abs result ≤ LARGEST_LOCAL + LARGEST_OFFSET }
    {
        local + self.offset
    }

    // The length of iterations that a time covers at this rate. Lengths are in thousandths of a microsecond.
    fn covered(&self, local: i64) -> u128
        requires { unsigned_abs local ≤ LARGEST_LOCAL }
        ensures value { result ≡ covered self.now local }
        ensures size { result < 2 ^ 72 }
    {
        u128::from(self.elapsed(local).unsigned_abs()) * u128::from(self.speed())
    }

    // How fast it runs, whichever way.
    fn speed(&self) -> u32
        ensures value { result ≡ unsigned_abs self.now.rate }
        ensures size { result ≤ LARGEST_RATE }
    {
        self.rate.unsigned_abs()
    }

    // The length of all iterations, and 0 where they are infinite.
    fn total(&self) -> u128
        ensures value { result ≡ total self.now }
        ensures size { result < 2 ^ 67 }
    {
        match self.iterations {
            Iterations::Finite(count) => u128::from(self.duration) * u128::from(count),
            Iterations::Infinite => 0,
        }
    }

    // What length of iterations is over.
    fn progress(&self, phase: Phase, local: i64) -> u128
        requires { unsigned_abs local ≤ LARGEST_LOCAL }
        ensures value { result ≡ progress_in phase self.now local }
        ensures size { result < 2 ^ 72 }
    {
        match phase {
            Phase::Before => 0,
            Phase::Active => self.covered(local),
            Phase::After => self.total(),
        }
    }

    // The length of the iterations that the iteration start leaves out.
    fn skipped(&self) -> u128
        ensures value { result ≡ skipped self.now }
        ensures size { result < 2 ^ 57 }
    {
        u128::from(self.iteration_start) * u128::from(self.duration)
    }

    // The position in the iterations, counted from the beginning of iteration 0.
    fn position(&self, phase: Phase, local: i64) -> u128
        requires { unsigned_abs local ≤ LARGEST_LOCAL }
        ensures value { result ≡ position_in phase self.now local }
        ensures size { result < 2 ^ 73 }
    {
        let progress = self.progress(phase, local);
        let forwards = if self.rate < 0 {
            self.total().saturating_sub(progress)
        } else {
            progress
        };
        forwards + self.skipped()
    }

    // The length of one iteration.
    fn one_iteration(&self) -> u128
        ensures value { result ≡ one_iteration self.now }
        ensures some { 0 < result }
    {
        u128::from(self.duration) * 1000
    }

    // Whether this position is the end of all iterations and of one of them, which it then still belongs to.
    fn is_last_end(&self, position: u128) -> bool
        ensures { result ≡ is_last_end self.now position }
    {
        let total = self.total();
        total > 0 && position % self.one_iteration() == 0 && position == total + self.skipped()
    }

    // Which iteration the position is in.
    fn iteration_at(&self, position: u128) -> u128
        ensures { result ≡ iteration_at self.now position }
    {
        let iteration = position / self.one_iteration();
        if self.is_last_end(position) {
            iteration.saturating_sub(1)
        } else {
            iteration
        }
    }

    // What length of that iteration is over.
    fn part_at(&self, position: u128) -> u128
        ensures value { result ≡ part_at self.now position }
        ensures within { result ≤ one_iteration self.now }
    {
        if self.is_last_end(position) {
            return self.one_iteration();
        }
        position % self.one_iteration()
    }

    // The time of the curve at this position.
    fn time_at(&self, position: u128) -> u64
        ensures value { result ≡ time_at self.now position }
        ensures within { result ≤ self.now.duration }
    {
        let part = self.part_at(position);
        let directed = if self.direction.is_backwards(self.iteration_at(position)) {
            self.one_iteration() - part
        } else {
            part
        };
        (directed / 1000) as u64
    }
}
