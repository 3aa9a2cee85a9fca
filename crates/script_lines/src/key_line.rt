//! The line of a key, by its fields.

ghost use Rattle.std.specs.Prelude.{◌≡◌, ◌≤◌, true, map, IfOk};
ghost use Rattle.micro_time.specs.declared.TheConstants.{LONGEST_DURATION};
ghost use Rattle.script_lines.specs.LineFaults.{Gives};
ghost use Rattle.frame_script.specs.Said as said;

use crate::fault::LineFault;
use crate::key_value::KeyValue;
use curve_keys::Key;
use frame_script::Cause;
use script_fields::values::key_time_said;
use script_fields::{easing_said, is};
use std::alloc::Global;

/// The key that a whole line says, whether its time may come next or not.
#[tactic(auto, unfolding(frame_script::specs::Said::key_said))]
pub fn key_said<V: KeyValue>(alloc: Global, fields: &[&[u8]]) -> Result<Key<V>, LineFault>
    ensures value { Gives (λ key. key) result (said.key_said V.is_long V.said (map (λ field. field.now) fields.now)) }
    ensures time { IfOk result (λ key. key.time ≤ LONGEST_DURATION) }
{
    match fields {
        [name, time, easing, value @ ..] if is(name, "key") && V::is_long(value) => {
            key_of(alloc, time, easing, value)
        }
        _ => Err(LineFault::Refused(Cause::BadLine)),
    }
}

#[tactic(auto, unfolding(frame_script::specs::Said::key_of))]
fn key_of<V: KeyValue>(
    alloc: Global,
    time: &[u8],
    easing: &[u8],
    value: &[&[u8]],
) -> Result<Key<V>, LineFault>
    requires { V.is_long (map (λ field. field.now) value.now) ≡ true }
    ensures value { Gives (λ key. key) result (said.key_of V.said time.now easing.now (map (λ field. field.now) value.now)) }
    ensures time { IfOk result (λ key. key.time ≤ LONGEST_DURATION) }
{
    let time = key_time_said(time).ok_or(Cause::BadNumber)?;
    let easing = easing_said(easing).ok_or(Cause::BadEasing)?;
    match V::said(alloc, value) {
        Ok(value) => Ok(Key {
            time,
            easing,
            value,
        }),
        Err(fault) => Err(fault),
    }
}
