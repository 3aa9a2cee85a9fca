//! Laws of the definitions: each function's clauses are one, and its body does nothing.

ghost use Rattle.std.specs.Prelude.{◌≡◌, ℕ, ◌^◌, ◌<◌, ◌≤◌, ℤ, List, length, Option, Some, Ok, IfSome, unsigned_abs};
ghost use Rattle.std.specs.Fmt.{decimal, signed_decimal};
ghost use Rattle.anim_timeline.specs.Timelines.{IsTime};
ghost use Rattle.micro_time.specs.declared.TheConstants.{LONGEST_DURATION};
ghost use Rattle.micro_time.specs.Timings.{TimingParts, IsTiming};
ghost use Rattle.value_blend.specs.Blends.{IsOpacity};
ghost use Rattle.transform_ops.specs.declared.TheConstants.{MOST_OPERATIONS};
ghost use Rattle.transform_ops.specs.declared.op.TransformOp.{TransformOp};
ghost use Rattle.transform_ops.specs.Lists.{IsList};
ghost use Rattle.easing_fixed.specs.declared.easing.Easing.{Easing};
ghost use Rattle.easing_fixed.specs.Easings.{IsEasing};
ghost use Rattle.keyframe_model.specs.Models.{IsId};
ghost use Rattle.script_fields.specs.declared.values.TimingNumbers.{TimingNumbers};
ghost use Rattle.anim_names.specs.declared.lane.Lane.{Lane};
ghost use Rattle.anim_names.specs.declared.property.Property.{Property};
ghost use Rattle.anim_delegate.specs.declared.policy.Policy.{Policy};
ghost use Rattle.micro_time.specs.declared.direction.Direction.{Direction};
ghost use Rattle.micro_time.specs.declared.fill.Fill.{Fill};
ghost use Rattle.script_fields.specs.Keywords.{property_said, direction_said, fill_said, policy_said, letters_said};
ghost use Rattle.script_fields.specs.Printed.{property_text, direction_text, fill_text, policy_text, start_text, word_text, easing_text, list_fields};
ghost use Rattle.script_fields.specs.Easings.{easing_said};
ghost use Rattle.script_fields.specs.Lists.{list_read};
ghost use Rattle.script_fields.specs.Numbers.{natural_of, integer_of};
ghost use Rattle.script_fields.specs.Values.{id_said, opacity_said, time_said, key_time_said, start_said, timing_of};

/// A number has one spelling, the one that printing gives: that is read as the number, and no other is.
pub fn numbers_have_one_spelling()
    ensures printed { (n : ℕ) → n < 2 ^ 64 → natural_of (decimal n) ≡ Some n }
    ensures read { (field : List ℕ) (n : ℕ) → n < 2 ^ 64 → natural_of field ≡ Some n → field ≡ decimal n }
    ensures signed_printed { (z : ℤ) → unsigned_abs z < 2 ^ 64 → integer_of (signed_decimal z) ≡ Some z }
    ensures signed_read { (field : List ℕ) (z : ℤ) → unsigned_abs z < 2 ^ 64 → integer_of field ≡ Some z → field ≡ signed_decimal z }
{}

/// What a field says is a value that may be: its type would take it.
pub fn fields_say_values_that_may_be()
    ensures id { (field : List ℕ) (id : ℕ) → id_said field ≡ Some id → IsId id }
    ensures opacity { (field : List ℕ) (opacity : ℕ) → opacity_said field ≡ Some opacity → IsOpacity opacity }
    ensures time { (field : List ℕ) (time : ℕ) → time_said field ≡ Some time → IsTime time }
    ensures key_time { (field : List ℕ) (time : ℕ) → key_time_said field ≡ Some time → time ≤ LONGEST_DURATION }
    ensures start { (field : List ℕ) (start : Option ℕ) → start_said field ≡ Some start → IfSome start IsTime }
    ensures timing { (numbers : TimingNumbers) (timing : TimingParts) → timing_of numbers ≡ Some timing → IsTiming timing }
    ensures easing { (field : List ℕ) (easing : Easing) → easing_said field ≡ Some easing → IsEasing easing }
    ensures list { (fields : List (List ℕ)) (ops : List TransformOp) → length fields ≤ MOST_OPERATIONS
        → list_read fields ≡ Ok ops → IsList ops }
{}

/// What a value that may be is printed as says that value.
pub fn printed_fields_read_back()
    ensures id { (id : ℕ) → IsId id → id_said (decimal id) ≡ Some id }
    ensures opacity { (opacity : ℕ) → IsOpacity opacity → opacity_said (decimal opacity) ≡ Some opacity }
    ensures time { (time : ℕ) → IsTime time → time_said (decimal time) ≡ Some time }
    ensures key_time { (time : ℕ) → time ≤ LONGEST_DURATION → key_time_said (decimal time) ≡ Some time }
    ensures start { (start : Option ℕ) → IfSome start IsTime → start_said (start_text start) ≡ Some start }
    ensures property { (property : Property) → property_said (property_text property) ≡ Some property }
    ensures direction { (direction : Direction) → direction_said (direction_text direction) ≡ Some direction }
    ensures fill { (fill : Fill) → fill_said (fill_text fill) ≡ Some fill }
    ensures policy { (policy : Policy) → policy_said (policy_text policy) ≡ Some policy }
    ensures word { (word : List Lane) → letters_said (word_text word) ≡ Some word }
    ensures easing { (easing : Easing) → IsEasing easing → easing_said (easing_text easing) ≡ Some easing }
    ensures list { (ops : List TransformOp) → IsList ops → list_read (list_fields ops) ≡ Ok ops }
{}
