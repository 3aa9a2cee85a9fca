//! What is read of a script between two lines.

ghost use Rattle.std.specs.Prelude.{◌≡◌, ◌∷◌, None, map, IfOk};
ghost use Rattle.script_fields.specs.Fields.{fields};
ghost use Rattle.script_lines.specs.LineFaults.{Gives, read_then};
ghost use Rattle.frame_script.specs.Said.{step_said, model_said, compositor_said, word_said};
ghost use Rattle.frame_script.specs.Reading.{GivesScript, numbered, end_at};
ghost use Rattle.frame_script.specs.States as state;
ghost use Rattle.run_rules.specs.Scripts.{IsWellFormed};
ghost use Rattle.script_reader.specs.Views.{keys_of, stage_of, state_of};

use crate::compositor_part::CompositorPart;
use crate::draft::Draft;
use crate::lines::is_skipped;
use crate::main_part::MainPart;
use anim_names::{Lane, Version};
use frame_script::{Cause, Script, ScriptFault, is_word_of};
use run_rules::MainStep;
use script_fields::{fields_into, is};
use script_lines::{LineFault, compositor_said, header_said, model_said, step_said, word_said};
use std::alloc::{AllocError, Global};
use std::sync::Arc;
use tree_commit::Edit;

/// Which line may stand next, where that is no key.
#[derive(Clone, Copy)]
pub(crate) enum ReaderStage {
    Header,
    MainPart,
    MainLines,
    CompositorLines,
    End,
    Nothing,
}

/// The script so far, and which line may stand next.
pub(crate) struct Reader {
    /// What the header said, once it was read.
    pub(crate) version: Version,
    pub(crate) stage: ReaderStage,
    /// The model to which the next line is to add a key.
    pub(crate) draft: Option<Draft>,
    pub(crate) main: MainPart,
    pub(crate) compositor: CompositorPart,
    pub(crate) word: Vec<Lane>,
}

impl Drop for Reader {
    fn drop(self) {
        let Reader {
            version: _,
            stage: _,
            draft: _draft,
            main: _main,
            compositor: _compositor,
            word: _word,
        } = self;
    }
}

impl Reader {
    /// Before the first line.
    pub(crate) fn new(alloc: Global) -> Result<Reader, AllocError>
        ensures { IfOk result (λ reader. state_of reader ≡ state.beginning) }
    {
        Ok(Reader {
            version: Version::One,
            stage: ReaderStage::Header,
            draft: None,
            main: MainPart::new(alloc)?,
            compositor: CompositorPart::new(alloc),
            word: Vec::new(alloc),
        })
    }

    /// Takes a line that is not skipped. `room` is for its fields.
    #[tactic(auto, unfolding(frame_script::specs::States::at_stage))]
    pub(crate) fn take_line<'t>(
        &mut self,
        alloc: Global,
        room: &mut Vec<&'t [u8]>,
        line: &'t [u8],
    ) -> Result<(), LineFault>
        ensures { Gives (λ _. state_of self.new) result (state.at_stage (state_of self.old).stage (state_of self.old).script line.now) }
    {
        match self.draft.take() {
            Some(draft) => self.take_key(alloc, room, draft, line),
            None => self.take_at_place(alloc, room, line),
        }
    }

    #[tactic(auto, unfolding(frame_script::specs::States::at_stage))]
    fn take_at_place<'t>(
        &mut self,
        alloc: Global,
        room: &mut Vec<&'t [u8]>,
        line: &'t [u8],
    ) -> Result<(), LineFault>
        requires { self.old.draft ≡ None }
        ensures { Gives (λ _. state_of self.new) result (state.at_stage (stage_of self.old.stage) (state_of self.old).script line.now) }
    {
        match self.stage {
            ReaderStage::Header => self.take_header(line),
            ReaderStage::MainPart => self.take_only(
                "main",
                Cause::BadLine,
                ReaderStage::MainLines,
                line,
            ),
            ReaderStage::MainLines => self.take_main(alloc, room, line),
            ReaderStage::CompositorLines => self.take_compositor(alloc, room, line),
            ReaderStage::End => self.take_only("end", Cause::BadLine, ReaderStage::Nothing, line),
            ReaderStage::Nothing => Err(LineFault::Refused(Cause::BadLine)),
        }
    }

    // The header of a version leads to main's part.
    #[tactic(auto, unfolding(frame_script::specs::States::at_stage))]
    fn take_header(&mut self, line: &[u8]) -> Result<(), LineFault>
        requires { self.old.draft ≡ None }
        ensures { Gives (λ _. state_of self.new) result (state.at_stage state.AtHeader (state_of self.old).script line.now) }
    {
        let version = header_said(line).ok_or(Cause::BadHeader)?;
        self.version = version;
        self.stage = ReaderStage::MainPart;
        Ok(())
    }

    // Exactly this line leads to the stage.
    fn take_only(
        &mut self,
        text: &str,
        cause: Cause,
        stage: ReaderStage,
        line: &[u8],
    ) -> Result<(), LineFault>
        requires { self.old.draft ≡ None }
        ensures { Gives (λ _. state_of self.new) result (state.only text.now cause (stage_of stage) (state_of self.old).script line.now) }
    {
        if !is(line, text) {
            return Err(LineFault::Refused(cause));
        }
        self.stage = stage;
        Ok(())
    }

    #[tactic(auto, unfolding(frame_script::specs::States::at_stage))]
    fn take_main<'t>(
        &mut self,
        alloc: Global,
        room: &mut Vec<&'t [u8]>,
        line: &'t [u8],
    ) -> Result<(), LineFault>
        requires draft { self.old.draft ≡ None }
        requires stage { self.old.stage ≡ ReaderStage.MainLines }
        ensures { Gives (λ _. state_of self.new) result (state.at_stage state.InMain (state_of self.old).script line.now) }
    {
        if is(line, "compositor") {
            self.stage = ReaderStage::CompositorLines;
            return Ok(());
        }
        fields_into(room, line)?;
        self.take_main_fields(alloc, room.as_slice())
    }

    #[tactic(auto, unfolding(frame_script::specs::States::in_main))]
    fn take_main_fields(&mut self, alloc: Global, fields: &[&[u8]]) -> Result<(), LineFault>
        requires draft { self.old.draft ≡ None }
        requires stage { self.old.stage ≡ ReaderStage.MainLines }
        ensures { Gives (λ _. state_of self.new) result
            (state.in_main (state_of self.old).script (map (λ field. field.now) fields.now)) }
    {
        match fields {
            [name, more @ ..] => self.take_named(alloc, name, more),
            _ => Err(LineFault::Refused(Cause::BadLine)),
        }
    }

    // A line of main by its first field.
    fn take_named(&mut self, alloc: Global, name: &[u8], fields: &[&[u8]]) -> Result<(), LineFault>
        requires draft { self.old.draft ≡ None }
        requires stage { self.old.stage ≡ ReaderStage.MainLines }
        ensures { Gives (λ _. state_of self.new) result
            (state.in_main (state_of self.old).script (name.now ∷ map (λ field. field.now) fields.now)) }
    {
        if is(name, "model") {
            self.begin_model(alloc, fields)
        } else {
            self.take_step(alloc, name, fields)
        }
    }

    #[tactic(auto, unfolding(frame_script::specs::States::step_made))]
    fn take_step(&mut self, alloc: Global, name: &[u8], fields: &[&[u8]]) -> Result<(), LineFault>
        requires draft { self.old.draft ≡ None }
        requires stage { self.old.stage ≡ ReaderStage.MainLines }
        ensures { Gives (λ _. state_of self.new) result
            (read_then (step_said (state_of self.old).script.version name.now (map (λ field. field.now) fields.now)) (state.step_made (state_of self.old).script)) }
    {
        let step = match step_said(alloc, self.version, name, fields) {
            Ok(step) => step,
            Err(fault) => return Err(fault),
        };
        self.main.push(step)
    }

    #[tactic(auto, unfolding(frame_script::specs::States::model_begun))]
    fn begin_model(&mut self, alloc: Global, fields: &[&[u8]]) -> Result<(), LineFault>
        requires { self.old.draft ≡ None }
        ensures { Gives (λ _. state_of self.new) result
            (read_then (model_said (map (λ field. field.now) fields.now)) (state.model_begun (state_of self.old).script)) }
    {
        let line = match model_said(fields) {
            Ok(line) => line,
            Err(fault) => return Err(fault),
        };
        self.main.check_model(&line.names)?;
        self.draft = Some(Draft::new(alloc, line));
        Ok(())
    }

    #[tactic(auto, unfolding(frame_script::specs::States::key_made))]
    fn take_key<'t>(
        &mut self,
        alloc: Global,
        room: &mut Vec<&'t [u8]>,
        draft: Draft,
        line: &'t [u8],
    ) -> Result<(), LineFault>
        requires { self.old.draft ≡ None }
        ensures { Gives (λ _. state_of self.new) result
            (state.key_made (state_of self.old).script draft.line (keys_of draft.keys) (fields line.now)) }
    {
        let mut draft = draft;
        fields_into(room, line)?;
        draft.push_said(alloc, room.as_slice())?;
        if draft.is_full() {
            self.end_model(alloc, draft)
        } else {
            self.draft = Some(draft);
            Ok(())
        }
    }

    // The last key of a model makes it a step of main.
    #[tactic(auto, unfolding(frame_script::specs::States::model_made, frame_script::specs::States::step_made))]
    fn end_model(&mut self, alloc: Global, draft: Draft) -> Result<(), LineFault>
        requires { self.old.draft ≡ None }
        ensures { Gives (λ _. state_of self.new) result
            (state.model_made (state_of self.old).script draft.line (keys_of draft.keys)) }
    {
        let model = match draft.into_model() {
            Ok(model) => model,
            Err(fault) => return Err(fault),
        };
        let spec = Arc::new(alloc, model)?;
        self.stage = ReaderStage::MainLines;
        self.main.push(MainStep::Edit(Edit::AddModel { spec }))
    }

    fn take_compositor<'t>(
        &mut self,
        alloc: Global,
        room: &mut Vec<&'t [u8]>,
        line: &'t [u8],
    ) -> Result<(), LineFault>
        requires draft { self.old.draft ≡ None }
        requires stage { self.old.stage ≡ ReaderStage.CompositorLines }
        ensures { Gives (λ _. state_of self.new) result
            (state.in_compositor (state_of self.old).script (fields line.now)) }
    {
        fields_into(room, line)?;
        self.take_compositor_fields(alloc, room.as_slice())
    }

    #[tactic(auto, unfolding(frame_script::specs::States::in_compositor))]
    fn take_compositor_fields(&mut self, alloc: Global, fields: &[&[u8]]) -> Result<(), LineFault>
        requires draft { self.old.draft ≡ None }
        requires stage { self.old.stage ≡ ReaderStage.CompositorLines }
        ensures { Gives (λ _. state_of self.new) result
            (state.in_compositor (state_of self.old).script (map (λ field. field.now) fields.now)) }
    {
        match fields {
            [name, more @ ..] if is(name, "word") => self.take_word(alloc, more),
            [name, more @ ..] => self.take_compositor_step(name, more),
            _ => Err(LineFault::Refused(Cause::BadLine)),
        }
    }

    #[tactic(auto, unfolding(frame_script::specs::States::compositor_made))]
    fn take_compositor_step(&mut self, name: &[u8], fields: &[&[u8]]) -> Result<(), LineFault>
        requires draft { self.old.draft ≡ None }
        requires stage { self.old.stage ≡ ReaderStage.CompositorLines }
        ensures { Gives (λ _. state_of self.new) result
            (read_then (compositor_said (state_of self.old).script.version name.now (map (λ field. field.now) fields.now)) (state.compositor_made (state_of self.old).script)) }
    {
        let step = compositor_said(self.version, name, fields)?;
        self.compositor.push(self.main.elements_added(), step)
    }

    #[tactic(auto, unfolding(frame_script::specs::States::word_made))]
    fn take_word(&mut self, alloc: Global, fields: &[&[u8]]) -> Result<(), LineFault>
        requires { self.old.draft ≡ None }
        ensures { Gives (λ _. state_of self.new) result
            (read_then (word_said (map (λ field. field.now) fields.now)) (state.word_made (state_of self.old).script)) }
    {
        let word = word_said(alloc, fields)?;
        if !is_word_of(self.main.len(), self.compositor.len(), word.as_slice()) {
            return Err(LineFault::Refused(Cause::BadWord));
        }
        self.word = word;
        self.stage = ReaderStage::End;
        Ok(())
    }

    /// Takes the line of a number. A line that is skipped changes nothing. `room` is for the fields of the line, and is
    /// used again for the next one.
    #[tactic(auto, unfolding(frame_script::specs::States::after_line))]
    pub(crate) fn read_line<'t>(
        &mut self,
        alloc: Global,
        room: &mut Vec<&'t [u8]>,
        number: u32,
        line: &'t [u8],
    ) -> Result<(), ScriptFault>
        ensures { GivesScript (λ _. state_of self.new) result (numbered number (state.after_line (state_of self.old) line.now)) }
    {
        if is_skipped(line) {
            return Ok(());
        }
        match self.take_line(alloc, room, line) {
            Ok(()) => Ok(()),
            Err(LineFault::Refused(cause)) => Err(ScriptFault::Refused {
                line: number,
                cause,
            }),
            Err(LineFault::NoMemory) => Err(ScriptFault::NoMemory),
        }
    }

    /// The script, where it has ended. The number is that of the line that would stand next.
    pub(crate) fn into_script(self, number: u32) -> Result<Script, ScriptFault>
        requires { (state_of self).stage ≡ state.Ended → IsWellFormed (state_of self).script }
        ensures { GivesScript (λ script. script) result (end_at number (state_of self).stage (state_of self).script) }
    {
        let Reader {
            version,
            stage,
            draft,
            main,
            compositor,
            word,
        } = self;
        match (draft, stage) {
            (None, ReaderStage::Nothing) => {
                Ok(Script::new(version, main.into_steps(), compositor.into_steps(), word))
            }
            _ => Err(ScriptFault::Refused {
                line: number,
                cause: Cause::MissingPart,
            }),
        }
    }
}
