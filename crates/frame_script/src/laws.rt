//! Laws of the definitions: each function's clauses are one, and its body does nothing.

ghost use Rattle.std.specs.Prelude.{◌≡◌, ◌<◌, ◌⊎◌, ℕ, List, take, Ok, Err};
ghost use Rattle.run_rules.specs.Scripts.{ScriptLists, IsWellFormed};
ghost use Rattle.frame_script.specs.declared.cause.Cause.{Cause};
ghost use Rattle.frame_script.specs.Reading.{refusal, reading};
ghost use Rattle.frame_script.specs.Lines.{lines};
ghost use Rattle.frame_script.specs.States.{PropertyKeys, InModel, ScriptState, after_key, at, beginning, keys_with};
ghost use Rattle.frame_script.specs.declared.model_line.ModelLine.{ModelLine};
ghost use Rattle.script_fields.specs.Fields.{fields};
ghost use Rattle.frame_script.specs.Texts.{LeadTo, Spells, IsWrongAt, IsRefusedAt};

/// Any bytes spell a script or are refused, and not both. They spell one script at most, and are refused at one line at
/// most, for one cause.
pub fn texts_spell_or_are_refused()
    ensures either { (bytes : List ℕ) → ((script : ScriptLists) × Spells bytes script)
        ⊎ ((number : ℕ) × (cause : Cause) × IsRefusedAt bytes number cause) }
    ensures not_both { (bytes : List ℕ) (script : ScriptLists) (number : ℕ) (cause : Cause) →
        Spells bytes script → ¬ IsRefusedAt bytes number cause }
    ensures one_script { (bytes : List ℕ) (script other : ScriptLists) →
        Spells bytes script → Spells bytes other → script ≡ other }
    ensures one_refusal { (bytes : List ℕ) (number other : ℕ) (cause another : Cause) →
        IsRefusedAt bytes number cause → IsRefusedAt bytes other another → (number ≡ other) × (cause ≡ another) }
{}

/// Reading line by line gives exactly what the bytes spell, or where they are refused.
pub fn reading_is_spelling()
    ensures spelled { (bytes : List ℕ) (script : ScriptLists) → Spells bytes script → reading bytes ≡ Ok script }
    ensures read { (bytes : List ℕ) (script : ScriptLists) → reading bytes ≡ Ok script → Spells bytes script }
    ensures refused { (bytes : List ℕ) (number : ℕ) (cause : Cause) → IsRefusedAt bytes number cause → reading bytes ≡ Err (refusal number cause) }
    ensures stopped { (bytes : List ℕ) (number : ℕ) (cause : Cause) → reading bytes ≡ Err (refusal number cause) → IsRefusedAt bytes number cause }
{}

/// What is spelled is a well-formed script.
pub fn spelled_scripts_are_well_formed()
    ensures { (bytes : List ℕ) (script : ScriptLists) → Spells bytes script → IsWellFormed script }
{}

/// A line that is refused depends on the lines up to it alone, whatever stands behind: in a text that has the same
/// lines so far it is refused too. Each line before it is allowed where it stands; where a part is missing, that is so
/// of all.
pub fn refusals_depend_on_earlier_lines()
    ensures same { (text other : List (List ℕ)) (number : ℕ) (cause : Cause) → IsWrongAt text number cause
        → take number text ≡ take number other → IsWrongAt other number cause }
    ensures earlier { (bytes : List ℕ) (number : ℕ) (cause : Cause) (count : ℕ) → IsRefusedAt bytes number cause
        → count < number → (state : ScriptState) × LeadTo beginning (take count (lines bytes)) state }
{}

/// Once a key was read that may come next, its line is taken: what is checked again where the last key makes the curve
/// and the model a step, was decided by the line of the model and by the keys.
pub fn what_is_checked_again_never_refuses()
    ensures { (before : List (List ℕ)) (script : ScriptLists) (line : ModelLine) (keys more : PropertyKeys) (text : List ℕ)
        → LeadTo beginning before (at (InModel line keys) script) → keys_with keys (fields text) ≡ Ok more
        → (next : ScriptState) × (after_key script line more ≡ Ok next) }
{}
