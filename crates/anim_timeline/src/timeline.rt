//! A timeline with its zero in range, and the time that it shows at a tick. Which models follow it is no matter of a
//! timeline.

ghost use Rattle.std.specs.Prelude.{◌≡◌, ◌≤◌, unsigned_abs};
ghost use Rattle.anim_timeline.specs.Timelines.{IsTime, timeline_of, timeline_time};

use crate::LAST_TIME;
use std::marker::Model;

/// A clock of animations: it shows 0 at one tick, and at any other how far that tick is from it.
///
/// Contracts see the tick at which it shows 0.
#[derive(Clone, Copy, PartialEq, Eq)]
pub struct Timeline {
    origin: u64,
}

impl Model for Timeline {
    ghost use Rattle.std.specs.Prelude.{ℕ};
    ghost use Rattle.anim_timeline.specs.Timelines.{IsTime};

    ghost Value = { ℕ };

    ghost view = { λ t. t.origin };

    ghost invariant = { λ t. IsTime t.origin };

    ghost inverse = { λ n. record { origin = n } };
}

impl Timeline {
    /// The timeline that shows 0 at this tick, in microseconds. There is none exactly where the tick is above
    /// [`LAST_TIME`].
    pub fn new(origin: u64) -> Option<Timeline>
        ensures { result ≡ timeline_of origin }
    {
        if origin <= LAST_TIME {
            Some(Timeline { origin })
        } else {
            None
        }
    }

    /// The tick at which it shows 0.
    pub fn zero(&self) -> u64
        ensures value { result ≡ self.now }

        // So is the zero of every timeline.
        ensures within { IsTime self.now }
    {
        self.origin
    }

    /// What it shows at a tick, both in microseconds: less than 0 before its zero.
    pub fn time_of(&self, tick: u64) -> i64
        requires { IsTime tick }
        ensures value { result ≡ timeline_time self.now tick }
        ensures size { unsigned_abs result ≤ LAST_TIME }
    {
        tick as i64 - self.origin as i64
    }
}
