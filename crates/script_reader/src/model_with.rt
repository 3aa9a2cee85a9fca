//! A model of its line and its curve.

ghost use Rattle.std.specs.Prelude.{◌≡◌, ◌≤◌, IfSome};
ghost use Rattle.anim_timeline.specs.declared.TheConstants.{LAST_TIME};
ghost use Rattle.micro_time.specs.declared.TheConstants.{LONGEST_DURATION};
ghost use Rattle.keyframe_model.specs.Models.{curve_duration};
ghost use Rattle.keyframe_model.specs.Views.{curve_of};
ghost use Rattle.frame_script.specs.States.{lasting, model_with};

use frame_script::ModelLine;
use keyframe_model::{CurveOf, ModelSpec};
use micro_time::Timing;

/// The model of a line and of the curve through its keys.
pub(crate) fn model_with(line: &ModelLine, curve: CurveOf) -> ModelSpec
    requires start { IfSome line.now.names.start (λ time. time ≤ LAST_TIME) }
    requires lasts { (1 ≤ curve_duration (curve_of curve)) × (curve_duration (curve_of curve) ≤ LONGEST_DURATION) }
    ensures { result ≡ model_with line.now (curve_of curve) }
{
    let timing = lasting(&line.timing, curve.duration());
    ModelSpec::new(
        line.names.id,
        line.names.group,
        line.names.element,
        line.names.timeline,
        line.names.start,
        timing,
        line.policy,
        curve,
    )
}

// The timing of so long a curve.
fn lasting(timing: &Timing, duration: u64) -> Timing
    requires { (1 ≤ duration) × (duration ≤ LONGEST_DURATION) }
    ensures { result ≡ lasting duration timing.now }
{
    let _duration = timing.duration();
    Timing::new(
        duration,
        timing.offset(),
        timing.iterations(),
        timing.iteration_start(),
        timing.direction(),
        timing.fill(),
        timing.rate(),
    )
    .unwrap()
}
