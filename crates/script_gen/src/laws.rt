//! The law of the definition: the function's clause is it, and its body does nothing.

ghost use Rattle.std.specs.Prelude.{ℕ, ◌≤◌};
ghost use Rattle.run_rules.specs.Scripts.{IsWellFormed};
ghost use Rattle.script_gen.specs.Generated.{generated_script};

use crate::MOST_GENERATED;

/// A script that is made from a number may run: no edit of it is refused, and it is within all limits.
pub fn generated_scripts_are_well_formed()
    ensures { (n : ℕ) → n ≤ MOST_GENERATED → IsWellFormed (generated_script n) }
{}
