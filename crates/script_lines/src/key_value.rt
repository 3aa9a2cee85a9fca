//! The values that end a key's line, by the property of their model: how many fields each takes, and what they say.

ghost use Rattle.std.specs.Prelude.{◌≡◌, ℕ, Bool, true, List, Result, map};
ghost use Rattle.frame_script.specs.declared.cause.Cause.{Cause};
ghost use Rattle.script_lines.specs.LineFaults.{Gives};

use crate::fault::LineFault;
use crate::main_line::{is_list_long, list_at};
use frame_script::Cause;
use script_fields::values::opacity_said;
use std::alloc::Global;
use transform_ops::TransformList;
use value_blend::{Blend, Opacity};

/// A value that the line of a key may end with.
pub trait KeyValue: Blend + Drop {
    ghost is_long: { List (List ℕ) → Bool };

    ghost said: { List (List ℕ) → Result Self Cause };

    /// Whether this number of fields may spell a value.
    fn is_long(fields: &[&[u8]]) -> bool
        ensures { result ≡ is_long (map (λ field. field.now) fields.now) };

    /// The value that these fields spell.
    fn said(alloc: Global, fields: &[&[u8]]) -> Result<Self, LineFault>
        requires { is_long (map (λ field. field.now) fields.now) ≡ true }
        ensures { Gives (λ value. value) result (said (map (λ field. field.now) fields.now)) };
}

impl KeyValue for Opacity {
    ghost use Rattle.frame_script.specs.Said.{is_one, own_opacity};

    ghost is_long = { is_one };

    ghost said = { own_opacity };

    fn is_long(fields: &[&[u8]]) -> bool {
        matches!(fields, [_])
    }

    fn said(_alloc: Global, fields: &[&[u8]]) -> Result<Self, LineFault> {
        match fields {
            [field] => opacity_said(field).ok_or(LineFault::Refused(Cause::BadNumber)),
            _ => Err(LineFault::Refused(Cause::BadLine)),
        }
    }
}

impl KeyValue for TransformList {
    ghost use Rattle.script_fields.specs.Lists.{is_list_long};
    ghost use Rattle.frame_script.specs.Said.{own_list};

    ghost is_long = { is_list_long };

    ghost said = { own_list };

    fn is_long(fields: &[&[u8]]) -> bool {
        is_list_long(fields)
    }

    #[tactic(auto, unfolding(frame_script::specs::Said::own_list))]
    fn said(alloc: Global, fields: &[&[u8]]) -> Result<Self, LineFault> {
        list_at(alloc, fields)
    }
}
