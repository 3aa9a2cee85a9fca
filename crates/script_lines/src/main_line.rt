//! The lines of main's steps, by their fields. Whether a step is allowed where it stands is judged later.

ghost use Rattle.std.specs.Prelude.{◌≡◌, ◌≤◌, length, true, map, IsTrue};
ghost use Rattle.transform_ops.specs.declared.TheConstants.{MOST_OPERATIONS};
ghost use Rattle.tree_commit.specs.Views.{change_of};
ghost use Rattle.run_rules.specs.Views.{step_of};
ghost use Rattle.frame_script.specs.Causes.{caused};
ghost use Rattle.script_lines.specs.LineFaults.{Gives};
ghost use Rattle.frame_script.specs.Said as said;
ghost use Rattle.script_fields.specs.Lists.{is_list_long, list_read};

use crate::fault::LineFault;
use crate::own_value::{is_value_long, value_said};
use anim_names::{ElementId, ModelId, Property, TimelineId, Version};
use frame_script::Cause;
use run_rules::MainStep;
use script_fields::keywords::property_said;
use script_fields::values::{id_said, opacity_said, timeline_said};
use script_fields::{FieldFault, is, list_read};
use std::alloc::Global;
use std::sync::Arc;
use transform_ops::{MOST_OPERATIONS, TransformList};
use tree_commit::{Base, Edit};

/// A step of main other than the adding of a model, in a version of the language: its name, and the further fields of
/// its line.
#[tactic(auto, unfolding(frame_script::specs::Said::step_said))]
pub fn step_said(
    alloc: Global,
    version: Version,
    name: &[u8],
    fields: &[&[u8]],
) -> Result<MainStep, LineFault>
    ensures { Gives step_of result (said.step_said version name.now (map (λ field. field.now) fields.now)) }
{
    if is(name, "commit") {
        alone(fields)?;
        Ok(MainStep::Commit)
    } else if is(name, "drain") {
        alone(fields)?;
        Ok(MainStep::Drain)
    } else {
        match edit_said(alloc, version, name, fields) {
            Ok(edit) => Ok(MainStep::Edit(edit)),
            Err(fault) => Err(fault),
        }
    }
}

// No further field may stand here.
pub(crate) fn alone(fields: &[&[u8]]) -> Result<(), LineFault>
    ensures { Gives (λ x. x) result (said.alone tt (map (λ field. field.now) fields.now)) }
{
    match fields {
        [] => Ok(()),
        _ => Err(LineFault::Refused(Cause::BadLine)),
    }
}

// A line that begins with the name of a property sets an element's own value of it.
#[tactic(auto, unfolding(frame_script::specs::Said::edit_said))]
fn edit_said(
    alloc: Global,
    _version: Version,
    name: &[u8],
    fields: &[&[u8]],
) -> Result<Edit, LineFault>
    ensures { Gives change_of result (said.edit_said _version name.now (map (λ field. field.now) fields.now)) }
{
    if is(name, "element") {
        element_said(alloc, fields)
    } else if is(name, "timeline") {
        add_timeline_said(fields)
    } else if is(name, "drop-element") {
        drop_element_said(fields)
    } else if is(name, "drop-model") {
        drop_model_said(fields)
    } else {
        match property_said(name) {
            Some(property) => own_said(alloc, property, fields),
            None => Err(LineFault::Refused(Cause::BadLine)),
        }
    }
}

fn element_said(alloc: Global, fields: &[&[u8]]) -> Result<Edit, LineFault>
    ensures { Gives change_of result (said.element_said (map (λ field. field.now) fields.now)) }
{
    match fields {
        [id, opacity, list @ ..] if is_list_long(list) => new_element(alloc, id, opacity, list),
        _ => Err(LineFault::Refused(Cause::BadLine)),
    }
}

#[tactic(auto, unfolding(frame_script::specs::Said::new_element))]
fn new_element(alloc: Global, id: &[u8], opacity: &[u8], list: &[&[u8]]) -> Result<Edit, LineFault>
    requires { length list.now ≤ MOST_OPERATIONS }
    ensures { Gives change_of result (said.new_element id.now opacity.now (map (λ field. field.now) list.now)) }
{
    let id = id_said(id).ok_or(Cause::BadNumber)?;
    let opacity = opacity_said(opacity).ok_or(Cause::BadNumber)?;
    let transform = shared_list(alloc, list)?;
    Ok(Edit::AddElement {
        id: ElementId(id),
        base: Base { opacity, transform },
    })
}

fn own_said(alloc: Global, property: Property, fields: &[&[u8]]) -> Result<Edit, LineFault>
    ensures { Gives change_of result (said.own_said property (map (λ field. field.now) fields.now)) }
{
    match fields {
        [id, value @ ..] if is_value_long(property, value) => new_own(alloc, property, id, value),
        _ => Err(LineFault::Refused(Cause::BadLine)),
    }
}

#[tactic(auto, unfolding(frame_script::specs::Said::new_own))]
fn new_own(alloc: Global, property: Property, id: &[u8], value: &[&[u8]]) -> Result<Edit, LineFault>
    requires { said.is_value_long property (map (λ field. field.now) value.now) ≡ true }
    ensures { Gives change_of result (said.new_own property id.now (map (λ field. field.now) value.now)) }
{
    let id = id_said(id).ok_or(Cause::BadNumber)?;
    match value_said(alloc, property, value) {
        Ok(value) => Ok(Edit::SetOwn {
            id: ElementId(id),
            value,
        }),
        Err(fault) => Err(fault),
    }
}

fn add_timeline_said(fields: &[&[u8]]) -> Result<Edit, LineFault>
    ensures { Gives change_of result (said.timeline_said (map (λ field. field.now) fields.now)) }
{
    match fields {
        [id, origin] => new_timeline(id, origin),
        _ => Err(LineFault::Refused(Cause::BadLine)),
    }
}

#[tactic(auto, unfolding(frame_script::specs::Said::new_timeline))]
fn new_timeline(id: &[u8], origin: &[u8]) -> Result<Edit, LineFault>
    ensures { Gives change_of result (said.new_timeline id.now origin.now) }
{
    let id = id_said(id).ok_or(Cause::BadNumber)?;
    let timeline = timeline_said(origin).ok_or(Cause::BadNumber)?;
    Ok(Edit::AddTimeline {
        id: TimelineId(id),
        timeline,
    })
}

#[tactic(auto, unfolding(frame_script::specs::Said::drop_element_said))]
fn drop_element_said(fields: &[&[u8]]) -> Result<Edit, LineFault>
    ensures { Gives change_of result (said.drop_element_said (map (λ field. field.now) fields.now)) }
{
    let id = old_id(fields)?;
    Ok(Edit::RemoveElement { id: ElementId(id) })
}

#[tactic(auto, unfolding(frame_script::specs::Said::drop_model_said))]
fn drop_model_said(fields: &[&[u8]]) -> Result<Edit, LineFault>
    ensures { Gives change_of result (said.drop_model_said (map (λ field. field.now) fields.now)) }
{
    let id = old_id(fields)?;
    Ok(Edit::RemoveModel { id: ModelId(id) })
}

fn old_id(fields: &[&[u8]]) -> Result<u32, LineFault>
    ensures { Gives (λ id. id) result (said.old_id (map (λ field. field.now) fields.now)) }
{
    match fields {
        [id] => id_said(id).ok_or(LineFault::Refused(Cause::BadNumber)),
        _ => Err(LineFault::Refused(Cause::BadLine)),
    }
}

// Whether this number of fields may spell a list.
pub(crate) fn is_list_long(fields: &[&[u8]]) -> bool
    ensures value { result ≡ is_list_long (map (λ field. field.now) fields.now) }
    ensures short { IsTrue result → length fields.now ≤ MOST_OPERATIONS }
{
    !fields.is_empty() && fields.len() <= MOST_OPERATIONS
}

pub(crate) fn shared_list(alloc: Global, fields: &[&[u8]]) -> Result<Arc<TransformList>, LineFault>
    requires { length fields.now ≤ MOST_OPERATIONS }
    ensures { Gives (λ list. list.value) result (caused (list_read (map (λ field. field.now) fields.now))) }
{
    match list_at(alloc, fields) {
        Ok(list) => Ok(Arc::new(alloc, list)?),
        Err(fault) => Err(fault),
    }
}

// The list that these fields spell.
pub(crate) fn list_at(alloc: Global, fields: &[&[u8]]) -> Result<TransformList, LineFault>
    requires { length fields.now ≤ MOST_OPERATIONS }
    ensures { Gives (λ list. list) result (caused (list_read (map (λ field. field.now) fields.now))) }
{
    match list_read(alloc, fields)? {
        Ok(list) => Ok(list),
        Err(FieldFault::BadForm) => Err(LineFault::Refused(Cause::BadLine)),
        Err(FieldFault::BadNumber) => Err(LineFault::Refused(Cause::BadNumber)),
    }
}
