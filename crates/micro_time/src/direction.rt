//! The directions of an animation, and which iterations run backwards in each.

ghost use Rattle.std.specs.Prelude.{◌≡◌};
ghost use Rattle.micro_time.specs.Timings.{is_backwards};

/// Which way the curve is run through in each iteration. The first iteration has number 0.
#[derive(Clone, Copy, PartialEq, Eq)]
pub enum Direction {
    /// Every iteration from the curve's beginning to its end.
    Normal,
    /// Every iteration from the curve's end to its beginning.
    Reverse,
    /// Even iterations forwards, odd ones backwards.
    Alternate,
    /// Even iterations backwards, odd ones forwards.
    AlternateReverse,
}

impl Direction {
    /// Whether this iteration runs from the curve's end to its beginning.
    pub(crate) fn is_backwards(self, iteration: u128) -> bool
        ensures { result ≡ is_backwards self iteration }
    {
        match self {
            Direction::Normal => false,
            Direction::Reverse => true,
            Direction::Alternate => iteration % 2 == 1,
            Direction::AlternateReverse => iteration % 2 == 0,
        }
    }
}
