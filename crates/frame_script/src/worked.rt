//! Scripts of which the reading is worked out.

ghost use Rattle.std.specs.Prelude.{◌≡◌, ◌++◌, ◌∷◌, [], take, drop, codes, Ok, Err};
ghost use Rattle.frame_script.specs.Reading.{reading, refusal};
ghost use Rattle.frame_script.specs.Worked.{text_of, with_line, empty, empty_script, fade, fade_script, all_kinds, all_kinds_script};
ghost use Rattle.frame_script.specs.declared.cause.Cause.TheVariants as cause;
ghost use Rattle.tree_commit.specs.declared.edits.refusal.EditRefusal.TheVariants as edit;

/// Three texts, and what each of them spells: no step at all, one fade, and a line of each kind, some of them skipped.
#[tactic(auto, unfolding(crate::proofs::Opened::whole_reading))]
pub fn texts_that_are_read()
    ensures nothing { reading (text_of empty) ≡ Ok empty_script }
    ensures one_fade { reading (text_of fade) ≡ Ok fade_script }
    ensures each_kind { reading (text_of all_kinds) ≡ Ok all_kinds_script }
{}

/// The fade with a line changed, and at which line it is refused, and why.
#[tactic(auto, unfolding(crate::proofs::Opened::whole_reading))]
pub fn texts_that_are_refused()
    ensures no_line { reading [] ≡ Err (refusal 1 cause.MissingPart) }
    ensures header { reading (text_of (with_line 1 (codes "anim 3") fade)) ≡ Err (refusal 1 cause.BadHeader) }
    ensures no_such_part { reading (text_of (with_line 9 (codes "compositors") fade)) ≡ Err (refusal 9 cause.BadLine) }
    ensures cut_amid_a_line { reading (text_of (take 4 fade) ++ codes "model 1 1 ") ≡ Err (refusal 5 cause.BadLine) }
    ensures opacity { reading (text_of (with_line 4 (codes "element 1 1000001 none") fade)) ≡ Err (refusal 4 cause.BadNumber) }
    ensures zero_first { reading (text_of (with_line 3 (codes "timeline 01 0") fade)) ≡ Err (refusal 3 cause.BadNumber) }
    ensures same_key { reading (text_of (with_line 7 (codes "key 0 linear 1000000") fade)) ≡ Err (refusal 7 cause.BadCurve) }
    ensures endless_reverse { reading (text_of (with_line 5 (codes "model 1 1 1 1 opacity - 0 infinite 0 normal none -1000 auto linear 2") fade)) ≡ Err (refusal 5 cause.BadTiming) }
    ensures one_step { reading (text_of (with_line 6 (codes "key 0 steps:1:jump-none 0") fade)) ≡ Err (refusal 6 cause.BadEasing) }
    ensures time_back { reading (text_of (with_line 13 (codes "tick 15999") fade)) ≡ Err (refusal 13 cause.TimeBack) }
    ensures short_word { reading (text_of (with_line 15 (codes "word MMMMCCCC") fade)) ≡ Err (refusal 15 cause.BadWord) }
    ensures cut_amid_keys { reading (text_of (take 6 fade)) ≡ Err (refusal 7 cause.MissingPart) }
    ensures no_such_model { reading (text_of (with_line 8 (codes "drop-model 9") fade)) ≡ Err (refusal 8 (cause.Edit edit.ModelUnknown)) }
    ensures closed { reading (text_of (take 8 fade ++ codes "model 2 1 1 1 transform - 0 1000 0 normal none 1000 auto linear 2" ∷ drop 8 fade)) ≡ Err (refusal 9 (cause.Edit edit.GroupClosed)) }
    ensures no_such_timeline { reading (text_of (with_line 5 (codes "model 1 1 1 2 opacity - 0 1000 0 normal none 1000 auto linear 2") fade)) ≡ Err (refusal 5 (cause.Edit edit.TimelineUnknown)) }
{}

/// Where two things are wrong, or one that might have two causes, the first in order decides.
#[tactic(auto, unfolding(crate::proofs::Opened::whole_reading))]
pub fn the_first_fault_decides()
    ensures number_before_none { reading (text_of (with_line 4 (codes "element 1 0 translate:x:0:0 none") fade)) ≡ Err (refusal 4 cause.BadNumber) }
    ensures none_before_more { reading (text_of (with_line 4 (codes "element 1 0 none translate:0:0:0") fade)) ≡ Err (refusal 4 cause.BadLine) }
    ensures nine_operations { reading (text_of (with_line 4 (codes "element x 0 skew:0:0 skew:0:0 skew:0:0 skew:0:0 skew:0:0 skew:0:0 skew:0:0 skew:0:0 skew:0:0") fade)) ≡ Err (refusal 4 cause.BadLine) }
    ensures many_keys { reading (text_of (with_line 5 (codes "model 1 1 1 1 opacity - 0 1000 0 normal none 1000 auto linear 17") fade)) ≡ Err (refusal 5 cause.BadCurve) }
    ensures keys_no_number { reading (text_of (with_line 5 (codes "model 1 1 1 1 opacity - 0 1000 0 normal none 1000 auto linear x") fade)) ≡ Err (refusal 5 cause.BadNumber) }
    ensures two_values { reading (text_of (with_line 6 (codes "key x linear 0 0") fade)) ≡ Err (refusal 6 cause.BadLine) }
    ensures two_dashes { reading (text_of (with_line 5 (codes "model 1 1 1 1 opacity -- 0 1000 0 normal none 1000 auto linear 2") fade)) ≡ Err (refusal 5 cause.BadNumber) }
    ensures rate_after_keys { reading (text_of (with_line 5 (codes "model 1 1 1 1 opacity - 0 1000 0 normal none 0 auto linear 17") fade)) ≡ Err (refusal 5 cause.BadCurve) }
    ensures timing_before_ids { reading (text_of (with_line 5 (codes "model 1 1 1 2 opacity - 0 1000 0 normal none 0 auto linear 2") fade)) ≡ Err (refusal 5 cause.BadTiming) }
    ensures word_letters { reading (text_of (with_line 15 (codes "word MMMMCCCCc") fade)) ≡ Err (refusal 15 cause.BadWord) }
    ensures behind_the_end { reading (text_of (fade ++ codes "end" ∷ [])) ≡ Err (refusal 17 cause.BadLine) }
    ensures only_skipped { reading (text_of (codes "# anim 1" ∷ [] ∷ [])) ≡ Err (refusal 3 cause.MissingPart) }
{}
