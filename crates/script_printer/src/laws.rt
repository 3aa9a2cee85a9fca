//! Laws of the printed text: each function's clauses are one, and its body does nothing.

ghost use Rattle.std.specs.Prelude.{◌≡◌, ◌≤◌, length, Ok};
ghost use Rattle.run_rules.specs.Scripts.{ScriptLists, IsWellFormed};
ghost use Rattle.frame_script.specs.declared.TheConstants.{MOST_BYTES};
ghost use Rattle.frame_script.specs.Printing.{script_text};
ghost use Rattle.frame_script.specs.Reading.{reading};
ghost use Rattle.frame_script.specs.Texts.{Spells};

/// What a well-formed script is printed as spells it, wherever it is not too long; and no two scripts are printed
/// alike, however long they are.
pub fn printed_scripts_spell_themselves()
    ensures spelled { (script : ScriptLists) → IsWellFormed script → length (script_text script) ≤ MOST_BYTES → Spells (script_text script) script }
    ensures read { (script : ScriptLists) → IsWellFormed script → length (script_text script) ≤ MOST_BYTES → reading (script_text script) ≡ Ok script }
    ensures one_text { (script other : ScriptLists) → IsWellFormed script → IsWellFormed other → script_text script ≡ script_text other → script ≡ other }
{}
