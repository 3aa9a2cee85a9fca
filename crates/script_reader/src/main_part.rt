//! Main's part of a script as it is read: its steps, and the book of edits by which the next one is judged.

ghost use Rattle.std.specs.Prelude.{◌≡◌, [], None, length, map, IfOk, OnOk, OnErr};
ghost use Rattle.run_rules.specs.Scripts.{EditStep, CommitStep, book_of, book_after_step};
ghost use Rattle.tree_commit.specs.Views.{change_of};
ghost use Rattle.run_rules.specs.Views.{step_of};
ghost use Rattle.frame_script.specs.Causes.{demand, allow};
ghost use Rattle.script_lines.specs.LineFaults.{Gives};
ghost use Rattle.frame_script.specs.States.{has_room, main_with, model_allowed, step_refusal};

use anim_names::LimitName;
use anim_names::limit::{MOST_COMMITS, MOST_STEPS};
use frame_script::{Cause, ModelNames};
use run_rules::MainStep;
use script_lines::LineFault;
use std::alloc::{AllocError, Global};
use std::marker::Model;
use tree_commit::{Edit, EditBook, EditRefusal};

/// The steps of main so far, and the book of their edits: each further step is checked in the time that it takes to
/// look up a few ids, however many there are.
///
/// Contracts see the steps.
pub(crate) struct MainPart {
    steps: Vec<MainStep>,
    book: EditBook,
}

impl Drop for MainPart {
    fn drop(self) {
        let MainPart {
            steps: _steps,
            book: _book,
        } = self;
    }
}

impl Model for MainPart {
    ghost use Rattle.std.specs.Prelude.{◌≡◌, List, map};
    ghost use Rattle.run_rules.specs.Scripts.{StepOfMain, book_of};
    ghost use Rattle.run_rules.specs.Views.{step_of};

    ghost Value = { List StepOfMain };

    ghost view = { λ p. map step_of p.steps.items };

    ghost invariant = { λ p. p.book ≡ book_of (map step_of p.steps.items) };
}

impl MainPart {
    /// No steps.
    pub(crate) fn new(alloc: Global) -> Result<MainPart, AllocError>
        ensures { IfOk result (λ part. part ≡ []) }
    {
        Ok(MainPart {
            steps: Vec::new(alloc),
            book: EditBook::new(alloc)?,
        })
    }

    /// How often an element was ever added.
    pub(crate) fn elements_added(&self) -> u32
        ensures { result ≡ (book_of self.now).elements_added }
    {
        self.book.elements_added()
    }

    /// How many steps there are.
    pub(crate) fn len(&self) -> usize
        ensures { result ≡ length self.now }
    {
        self.steps.len()
    }

    /// Takes one more step, where it may be made.
    #[tactic(auto, unfolding(frame_script::specs::States::main_with))]
    pub(crate) fn push(&mut self, step: MainStep) -> Result<(), LineFault>
        ensures { Gives (λ _. self.new) result (main_with self.old (step_of step)) }
    {
        self.check_room()?;
        self.check_step(&step)?;
        self.steps.reserve(1)?;
        note(&mut self.book, &step)?;
        self.steps.push(step).unwrap();
        Ok(())
    }

    /// Whether a model of these names may be added.
    #[tactic(auto, unfolding(frame_script::specs::States::model_allowed))]
    pub(crate) fn check_model(&self, names: &ModelNames) -> Result<(), LineFault>
        ensures { Gives (λ x. x) result (model_allowed self.now names.now) }
    {
        self.check_room()?;
        match self.book.check_model(
            names.id,
            names.group,
            names.element,
            names.timeline,
            names.start,
            names.property,
        ) {
            Ok(()) => Ok(()),
            Err(refusal) => Err(LineFault::Refused(Cause::Edit(refusal))),
        }
    }

    fn check_room(&self) -> Result<(), LineFault>
        ensures { Gives (λ x. x) result (demand (has_room self.now) (Cause.Edit (EditRefusal.Limit LimitName.Steps))) }
    {
        if self.steps.len() < MOST_STEPS as usize {
            Ok(())
        } else {
            Err(LineFault::Refused(Cause::Edit(EditRefusal::Limit(LimitName::Steps))))
        }
    }

    fn check_step(&self, step: &MainStep) -> Result<(), LineFault>
        ensures { Gives (λ x. x) result (allow (step_refusal (book_of self.now) (step_of step.now))) }
    {
        match step {
            MainStep::Edit(edit) => self.check_edit(edit),
            MainStep::Commit => self.check_commit(),
            MainStep::Drain => Ok(()),
        }
    }

    fn check_edit(&self, edit: &Edit) -> Result<(), LineFault>
        ensures { Gives (λ x. x) result (allow (step_refusal (book_of self.now) (EditStep (change_of edit.now)))) }
    {
        match self.book.check(edit) {
            Ok(()) => Ok(()),
            Err(refusal) => Err(LineFault::Refused(Cause::Edit(refusal))),
        }
    }

    fn check_commit(&self) -> Result<(), LineFault>
        ensures { Gives (λ x. x) result (allow (step_refusal (book_of self.now) CommitStep)) }
    {
        if self.book.commits() < MOST_COMMITS {
            Ok(())
        } else {
            Err(LineFault::Refused(Cause::Edit(EditRefusal::Limit(LimitName::Commits))))
        }
    }

    /// The steps.
    pub(crate) fn into_steps(self) -> Vec<MainStep>
        ensures { map step_of result.items ≡ self }
    {
        let MainPart { steps, book: _book } = self;
        steps
    }
}

// Keeps of a step that may be made what later ones are checked against. Where there is no memory the book stays as it
// was.
fn note(book: &mut EditBook, step: &MainStep) -> Result<(), AllocError>
    requires { step_refusal book.old (step_of step.now) ≡ None }
    ensures noted { OnOk result (book.new ≡ book_after_step book.old (step_of step.now)) }
    ensures err { OnErr result (book.new ≡ book.old) }
{
    match step {
        MainStep::Edit(edit) => book.note(edit),
        MainStep::Commit => {
            book.commit_made();
            Ok(())
        }
        MainStep::Drain => Ok(()),
    }
}
