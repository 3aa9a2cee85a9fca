//! Opacities in millionths, always in range. A blend that an easing takes past an end is clamped to the range.

ghost use Rattle.std.specs.Prelude.{◌≡◌, ◌≤◌, unsigned_abs};
ghost use Rattle.value_blend.specs.declared.TheConstants.{LARGEST_PROGRESS};
ghost use Rattle.value_blend.specs.Blends.{IsOpacity, opacity_of, blend_opacity};

use crate::{Blend, FULL_OPACITY, number};
use std::alloc::AllocError;
use std::marker::Model;

/// How much an element hides of what lies behind it, in millionths: 0 is invisible, [`FULL_OPACITY`] opaque.
#[derive(Clone, Copy, PartialEq, Eq)]
pub struct Opacity {
    millionths: u32,
}

impl Model for Opacity {
    ghost use Rattle.std.specs.Prelude.{ℕ};
    ghost use Rattle.value_blend.specs.Blends.{IsOpacity};

    ghost Value = { ℕ };

    ghost view = { λ o. o.millionths };

    ghost invariant = { λ o. IsOpacity o.millionths };

    ghost inverse = { λ n. record { millionths = n } };
}

impl Opacity {
    /// The opacity of this many millionths. There is none exactly where they are below 0 or above
    /// [`FULL_OPACITY`].
    pub fn new(millionths: i64) -> Option<Opacity>
        ensures { result ≡ opacity_of millionths }
    {
        if (0..=FULL).contains(&millionths) {
            Some(Opacity {
                millionths: millionths as u32,
            })
        } else {
            None
        }
    }

    /// The millionths.
    pub fn get(&self) -> u32
        ensures value { result ≡ self.now }

        // So is every opacity.
        ensures within { IsOpacity self.now }
    {
        self.millionths
    }
}

impl Blend for Opacity {
    const TAKES_MEMORY: bool = false;

    ghost use Rattle.std.specs.Prelude.{◌≡◌, false};
    ghost use Rattle.value_blend.specs.Blends.{IsOpacity, blend_opacity};
    ghost use Rattle.value_blend.specs.BlendLemmas.{blend_opacity-begin, blend_opacity-end};

    ghost TAKES_MEMORY = { false };

    ghost is_value = { IsOpacity };

    ghost blended = { blend_opacity };

    ghost alike = { λ x y. x ≡ y };

    fn blend(from: &Self, to: &Self, progress: i64) -> Result<Self, AllocError> {
        let millionths = blend_opacity(from.millionths, to.millionths, progress);
        Ok(Opacity { millionths })
    }

    fn copy(&self) -> Result<Self, AllocError> {
        Ok(*self)
    }

    fn vouch(&self) {
        let _ = &self.millionths;
    }

    ghost begins_alike = { blend_opacity-begin };

    ghost ends_alike = { blend_opacity-end };
}

// The blend of two opacities' millionths.
fn blend_opacity(from: u32, to: u32, progress: i64) -> u32
    requires from_within { IsOpacity from }
    requires to_within { IsOpacity to }
    requires progress_within { unsigned_abs progress ≤ LARGEST_PROGRESS }
    ensures value { result ≡ blend_opacity from to progress }
    ensures within { IsOpacity result }
{
    number::part_way(i64::from(from), i64::from(to), progress).clamp(0, FULL) as u32
}

// The opacity of what hides all behind it.
const FULL: i64 = FULL_OPACITY as i64;
