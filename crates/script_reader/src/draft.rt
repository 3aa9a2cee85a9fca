//! A model while its keys are being read, whichever property it animates. It becomes a model once all its keys were
//! read.

ghost use Rattle.std.specs.Prelude.{◌≤◌};
ghost use Rattle.std.specs.Option.{ForSome};
ghost use Rattle.anim_timeline.specs.declared.TheConstants.{LAST_TIME};

use crate::key_list::KeyList;
use crate::model_with::model_with;
use anim_names::Property;
use frame_script::ModelLine;
use keyframe_model::{CurveOf, ModelSpec};
use script_lines::LineFault;
use std::alloc::Global;
use transform_ops::TransformList;
use value_blend::Opacity;

/// The keys of a model so far, by its property.
#[derive(Drop)]
pub(crate) enum DraftKeys {
    Opacity(KeyList<Opacity>),
    Transform(KeyList<TransformList>),
}

/// A model whose keys are not all there.
#[derive(Drop)]
pub(crate) struct Draft {
    pub(crate) line: ModelLine,
    pub(crate) keys: DraftKeys,
    ghost start_within: { ForSome line.names.start (λ time. time ≤ LAST_TIME) },
}

impl Draft {
    ghost use Rattle.std.specs.Prelude.{◌≡◌, ◌==◌, map};
    ghost use Rattle.script_lines.specs.LineFaults.{Gives};
    ghost use Rattle.frame_script.specs.States.{no_keys, keys_with, key_count, model_through};
    ghost use Rattle.script_reader.specs.Views.{keys_of};

    /// The model of a line, without its keys.
    pub(crate) fn new(alloc: Global, line: ModelLine) -> Draft
        requires { ForSome line.names.start (λ time. time ≤ LAST_TIME) }
        ensures line { result.line ≡ line }
        ensures keys { keys_of result.keys ≡ no_keys line.names.property }
    {
        let keys = match line.names.property {
            Property::Opacity => DraftKeys::Opacity(KeyList::new(alloc)),
            Property::Transform => DraftKeys::Transform(KeyList::new(alloc)),
        };
        Draft { line, keys }
    }

    /// Takes the key that a line says.
    #[tactic(auto, unfolding(frame_script::specs::States::keys_with))]
    pub(crate) fn push_said(&mut self, alloc: Global, fields: &[&[u8]]) -> Result<(), LineFault>
        ensures keys { Gives (λ _. keys_of self.new.keys) result (keys_with (keys_of self.old.keys) (map (λ field. field.now) fields.now)) }
        ensures line { self.new.line ≡ self.old.line }
    {
        match &mut self.keys {
            DraftKeys::Opacity(keys) => keys.push_said(alloc, fields),
            DraftKeys::Transform(keys) => keys.push_said(alloc, fields),
        }
    }

    /// Whether there are as many keys as the line says.
    pub(crate) fn is_full(&self) -> bool
        ensures { result ≡ (key_count (keys_of self.now.keys) == self.now.line.keys) }
    {
        let count = match &self.keys {
            DraftKeys::Opacity(keys) => keys.len(),
            DraftKeys::Transform(keys) => keys.len(),
        };
        count == self.line.keys
    }

    /// The model, where its keys make a curve.
    #[tactic(auto, unfolding(frame_script::specs::States::model_through))]
    pub(crate) fn into_model(self) -> Result<ModelSpec, LineFault>
        ensures { Gives (λ model. model) result (model_through self.line (keys_of self.keys)) }
    {
        let Draft { line, keys } = self;
        match keys {
            DraftKeys::Opacity(keys) => {
                let curve = keys.into_curve(line.easing)?;
                Ok(model_with(&line, CurveOf::Opacity(curve)))
            }
            DraftKeys::Transform(keys) => {
                let curve = keys.into_curve(line.easing)?;
                Ok(model_with(&line, CurveOf::Transform(curve)))
            }
        }
    }
}
