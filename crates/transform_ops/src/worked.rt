//! Values worked out by hand, which the check computes from the definitions.

ghost use Rattle.std.specs.Prelude.{◌≡◌, pos, []};
ghost use Rattle.transform_ops.specs.Lists.{match_len, blend_lists, IsAlike};

use crate::TransformOp;
use crate::TransformOp::{Rotate, Scale, Translate};

/// A move and a turn about the z axis.
const FROM: [TransformOp; 2] = [
    Translate { x: 0, y: 0, z: 0 },
    Rotate {
        x: 0,
        y: 0,
        z: 1,
        angle: 90_000,
    },
];

/// A move and a turn about the x axis.
const TO: [TransformOp; 2] = [
    Translate {
        x: 1_000,
        y: 0,
        z: 0,
    },
    Rotate {
        x: 1,
        y: 0,
        z: 0,
        angle: 45_000,
    },
];

/// Just below half of the way.
const BELOW_HALF: [TransformOp; 2] = [
    Translate { x: 499, y: 0, z: 0 },
    Rotate {
        x: 0,
        y: 0,
        z: 1,
        angle: 90_000,
    },
];

/// At half of the way.
const AT_HALF: [TransformOp; 2] = [
    Translate { x: 500, y: 0, z: 0 },
    Rotate {
        x: 1,
        y: 0,
        z: 0,
        angle: 45_000,
    },
];

/// The moves match and are blended. The turns are about two axes, so the nearer list has the rest.
pub fn the_rest_is_the_nearer_list()
    ensures matching { match_len FROM TO ≡ 1 }
    ensures below { blend_lists FROM TO (pos 524287) ≡ BELOW_HALF }
    ensures at { blend_lists FROM TO (pos 524288) ≡ AT_HALF }
{}

/// Twice as wide and as high.
const DOUBLE: [TransformOp; 1] = [Scale {
    x: 2_000_000,
    y: 2_000_000,
    z: 1_000_000,
}];

/// A quarter of the way to it.
const QUARTER: [TransformOp; 1] = [Scale {
    x: 1_250_000,
    y: 1_250_000,
    z: 1_000_000,
}];

/// The scale that leaves every size as it is.
const SAME: [TransformOp; 1] = [Scale {
    x: 1_000_000,
    y: 1_000_000,
    z: 1_000_000,
}];

/// The empty list stands for the neutral operations of the other list.
pub fn the_empty_list_is_neutral()
    ensures quarter { blend_lists [] DOUBLE (pos 262144) ≡ QUARTER }
    ensures begin { blend_lists [] DOUBLE (pos 0) ≡ SAME }
    ensures alike { IsAlike [] (blend_lists [] DOUBLE (pos 0)) }
{}
