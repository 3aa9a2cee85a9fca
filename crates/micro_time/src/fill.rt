//! The fill modes, and the phases outside of the iterations in which each shows a value.

ghost use Rattle.std.specs.Prelude.{◌≡◌};
ghost use Rattle.micro_time.specs.Timings.{is_shown_in};

use crate::Phase;

/// Where an animation shows a value outside of its iterations.
#[derive(Clone, Copy, PartialEq, Eq)]
pub enum Fill {
    /// Neither before them nor after them.
    Neither,
    /// After them, the value of their end.
    Forwards,
    /// Before them, the value of their beginning.
    Backwards,
    /// Before them and after them.
    Both,
}

impl Fill {
    /// Whether there is a value in this phase: within the iterations there always is.
    pub(crate) fn is_shown(self, phase: Phase) -> bool
        ensures { result ≡ is_shown_in phase self }
    {
        match phase {
            Phase::Before => matches!(self, Fill::Backwards | Fill::Both),
            Phase::Active => true,
            Phase::After => matches!(self, Fill::Forwards | Fill::Both),
        }
    }
}
