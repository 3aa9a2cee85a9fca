//! The values of the properties, by their fields: the only place here that lists the properties for an element's own
//! values.

ghost use Rattle.std.specs.Prelude.{◌≡◌, true, map};
ghost use Rattle.keyframe_model.specs.Views.{shared_value_of};
ghost use Rattle.script_lines.specs.LineFaults.{Gives};
ghost use Rattle.frame_script.specs.Said as said;

use crate::fault::LineFault;
use crate::main_line::{is_list_long, shared_list};
use anim_names::Property;
use frame_script::Cause;
use keyframe_model::SharedValue;
use script_fields::values::opacity_said;
use std::alloc::Global;

// Whether this number of fields may spell a value of the property.
pub(crate) fn is_value_long(property: Property, fields: &[&[u8]]) -> bool
    ensures { result ≡ said.is_value_long property (map (λ field. field.now) fields.now) }
{
    match property {
        Property::Opacity => matches!(fields, [_]),
        Property::Transform => is_list_long(fields),
    }
}

// The value of the property that these fields spell.
#[tactic(auto, unfolding(frame_script::specs::Said::own_list))]
pub(crate) fn value_said(
    alloc: Global,
    property: Property,
    fields: &[&[u8]],
) -> Result<SharedValue, LineFault>
    requires { said.is_value_long property (map (λ field. field.now) fields.now) ≡ true }
    ensures { Gives shared_value_of result (said.value_said property (map (λ field. field.now) fields.now)) }
{
    match property {
        Property::Opacity => opacity_at(fields),
        Property::Transform => transform_at(alloc, fields),
    }
}

fn opacity_at(fields: &[&[u8]]) -> Result<SharedValue, LineFault>
    ensures { Gives shared_value_of result (said.value_said Property.Opacity (map (λ field. field.now) fields.now)) }
{
    match fields {
        [field] => {
            let opacity = opacity_said(field).ok_or(Cause::BadNumber)?;
            Ok(SharedValue::Opacity(opacity))
        }
        _ => Err(LineFault::Refused(Cause::BadLine)),
    }
}

#[tactic(auto, unfolding(frame_script::specs::Said::own_list))]
fn transform_at(alloc: Global, fields: &[&[u8]]) -> Result<SharedValue, LineFault>
    requires { said.is_value_long Property.Transform (map (λ field. field.now) fields.now) ≡ true }
    ensures { Gives shared_value_of result (said.value_said Property.Transform (map (λ field. field.now) fields.now)) }
{
    let list = shared_list(alloc, fields)?;
    Ok(SharedValue::Transform(list))
}
