//! Why edits are refused.
#![tactic(auto, unfolding(crate::proofs::Opened::whole_run))]

ghost use Rattle.std.specs.Prelude.{◌≡◌};
ghost use Rattle.tree_commit.specs.Edits.{new_book};
ghost use Rattle.worked_scripts.specs.Crowds as crowds;
ghost use Rattle.worked_scripts.specs.RefusedEdits as refused_edits;

/// One edit after the other, each refused for its first reason or not at all.
pub fn refused_edits()
    ensures { refused_edits.refusals new_book refused_edits.steps ≡ refused_edits.reasons }
{}

/// An element more than may ever be added is refused, whether its id is new or was there before.
pub fn one_element_too_many()
    ensures { refused_edits.refusals new_book crowds.element_steps ≡ crowds.element_reasons }
{}

/// A model more than may ever be added is refused.
pub fn one_model_too_many()
    ensures { refused_edits.refusals new_book crowds.model_steps ≡ crowds.model_reasons }
{}
