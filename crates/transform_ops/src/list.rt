//! Lists of transform operations and the blend of two: pairs that match from the front are blended, and of rests that
//! do not match the nearer one shows.

ghost use Rattle.std.specs.Prelude.{◌≡◌, ◌≢◌, ◌<◌, ◌≤◌, ◌↔◌, [], ◌++◌, length, map, All, unsigned_abs, IsTrue, OnOk, IfOk, slice_get, Some};
ghost use Rattle.std.specs.List.{AllByRecursion, list_all, take_while, zip};
ghost use Rattle.std.specs.Result.{result_err};
ghost use Rattle.value_blend.specs.declared.TheConstants.{LARGEST_PROGRESS};
ghost use Rattle.transform_ops.specs.Operations.{IsOperation, is_operation, matches, neutral_of, blend_operations};
ghost use Rattle.transform_ops.specs.Lists.{IsList, list_refusal, match_len, blend_lists};

use crate::{ListFault, MOST_OPERATIONS, TransformOp};
use anim_names::ONE;
use std::alloc::{AllocError, Global};
use std::marker::Model;
use value_blend::Blend;

/// The transform of an element: at most [`MOST_OPERATIONS`] operations, the first of which is applied
/// last.
///
/// Contracts see a list of operations.
#[derive(Drop)]
pub struct TransformList {
    ops: Vec<TransformOp>,
}

impl Model for TransformList {
    ghost use Rattle.std.specs.Prelude.{List};
    ghost use Rattle.transform_ops.specs.declared.op.TransformOp.{TransformOp};
    ghost use Rattle.transform_ops.specs.Lists.{IsList};

    ghost Value = { List TransformOp };

    ghost view = { λ l. l.ops.items };

    ghost invariant = { λ l. IsList l.ops.items };
}

impl TransformList {
    /// The list of these operations. More than [`MOST_OPERATIONS`] are refused, and else a number that is out of range.
    pub fn new(alloc: Global, ops: &[TransformOp]) -> Result<TransformList, ListFault>
        ensures operations { IfOk result (λ list. list ≡ ops.now) }
        ensures refused { result ≢ Err ListFault.NoMemory → result_err result ≡ list_refusal ops.now }
    {
        if ops.len() > MOST_OPERATIONS {
            return Err(ListFault::TooMany);
        }
        if !are_in_range(ops) {
            return Err(ListFault::OutOfRange);
        }
        match Vec::from_slice(alloc, ops) {
            Ok(ops) => Ok(TransformList { ops }),
            Err(_) => Err(ListFault::NoMemory),
        }
    }

    /// How many operations there are.
    pub fn len(&self) -> usize
        ensures value { result ≡ length self.now }

        // So is every list.
        ensures taken { IsList self.now }
    {
        self.ops.len()
    }

    /// Whether there are none: such a list does nothing.
    pub fn is_empty(&self) -> bool
        ensures { IsTrue result ↔ (self.now ≡ []) }
    {
        self.ops.is_empty()
    }

    /// The operation of this index, which counts from 0.
    pub fn op(&self, i: usize) -> TransformOp
        requires { i < length self.now }
        ensures { slice_get self.now i ≡ Some result }
    {
        self.ops[i]
    }

    /// How many operations from the front match those of the other list.
    #[tactic(auto, using(crate::proofs::Matching::match_count))]
    pub fn match_len(&self, other: &TransformList) -> usize
        ensures value { result ≡ match_len self.now other.now }
        ensures within { result ≤ length self.now }
        ensures within_other { result ≤ length other.now }
    {
        count_matching(&self.ops, &other.ops)
    }
}

impl Blend for TransformList {
    const TAKES_MEMORY: bool = true;

    ghost use Rattle.std.specs.Prelude.{true};
    ghost use Rattle.transform_ops.specs.Lists.{IsList, IsAlike, blend_lists};
    ghost use Rattle.transform_ops.specs.ListLemmas.{blend_lists-begin, blend_lists-end};

    ghost TAKES_MEMORY = { true };

    ghost is_value = { IsList };

    ghost blended = { blend_lists };

    ghost alike = { IsAlike };

    fn blend(from: &Self, to: &Self, progress: i64) -> Result<Self, AllocError> {
        let matching = from.match_len(to);
        let (from_front, from_rest) = from.ops.split_at(matching);
        let (to_front, to_rest) = to.ops.split_at(matching);
        let mut ops = Vec::with_capacity(*from.ops.allocator(), from.len().max(to.len()))?;
        push_pairs(&mut ops, from_front, to_front, progress)?;
        push_rest(&mut ops, from_rest, to_rest, progress)?;
        Ok(TransformList { ops })
    }

    fn copy(&self) -> Result<Self, AllocError> {
        let ops = Vec::from_slice(*self.ops.allocator(), &self.ops)?;
        Ok(TransformList { ops })
    }

    fn vouch(&self) {
        let _ = &self.ops;
    }

    ghost begins_alike = { λ from to f t. blend_lists-begin from to f };

    ghost ends_alike = { λ from to f t. blend_lists-end from to t };
}

/// Half of the way, from which on the second of two lists that can't be blended is the nearer one.
const HALF: i64 = ONE as i64 / 2;

// How many operations from the front match.
fn count_matching(from: &[TransformOp], to: &[TransformOp]) -> usize
    ensures { result ≡ length (take_while (λ p. matches p.0 p.1) (zip from.now to.now)) }
{
    from.iter()
        .zip(to)
        .take_while(|(a, b)| a.matches(**b))
        .count()
}

// Whether every number of every operation is in range.
fn are_in_range(ops: &[TransformOp]) -> bool
    ensures value { result ≡ list_all is_operation ops.now }
    ensures numbers { IsTrue result → AllByRecursion IsOperation ops.now }
{
    ops.iter().all(|op| op.is_in_range())
}

// Pushes the blends of the operations, one by one, up to the end of the shorter list.
fn push_pairs(
    ops: &mut Vec<TransformOp>,
    from: &[TransformOp],
    to: &[TransformOp],
    progress: i64,
) -> Result<(), AllocError>
    requires from_within { All IsOperation from.now }
    requires to_within { All IsOperation to.now }
    requires progress_within { unsigned_abs progress ≤ LARGEST_PROGRESS }
    ensures { OnOk result (ops.new.items
        ≡ ops.old.items ++ map (λ p. blend_operations p.0 p.1 progress) (zip from.now to.now)) }
{
    for (a, b) in from.iter().zip(to) {
        ops.push(a.blend(*b, progress))?;
    }
    Ok(())
}

// Pushes the blend of two lists whose first operations don't match, or of which one is empty.
#[tactic(auto, using(crate::proofs::Matching::rest_nearer))]
fn push_rest(
    ops: &mut Vec<TransformOp>,
    from: &[TransformOp],
    to: &[TransformOp],
    progress: i64,
) -> Result<(), AllocError>
    requires none_match { match_len from.now to.now ≡ 0 }
    requires from_within { All IsOperation from.now }
    requires to_within { All IsOperation to.now }
    requires progress_within { unsigned_abs progress ≤ LARGEST_PROGRESS }
    ensures { OnOk result (ops.new.items ≡ ops.old.items ++ blend_lists from.now to.now progress) }
{
    if from.is_empty() {
        push_from_neutral(ops, to, progress)
    } else if to.is_empty() {
        push_to_neutral(ops, from, progress)
    } else if progress < HALF {
        ops.extend_from_slice(from)
    } else {
        ops.extend_from_slice(to)
    }
}

// Pushes the blend of each operation with the neutral one that it comes from.
fn push_from_neutral(
    ops: &mut Vec<TransformOp>,
    to: &[TransformOp],
    progress: i64,
) -> Result<(), AllocError>
    requires to_within { All IsOperation to.now }
    requires progress_within { unsigned_abs progress ≤ LARGEST_PROGRESS }
    ensures { OnOk result (ops.new.items
        ≡ ops.old.items ++ map (λ b. blend_operations (neutral_of b) b progress) to.now) }
{
    for b in to {
        ops.push(b.neutral().blend(*b, progress))?;
    }
    Ok(())
}

// Pushes the blend of each operation with the neutral one that it goes to.
fn push_to_neutral(
    ops: &mut Vec<TransformOp>,
    from: &[TransformOp],
    progress: i64,
) -> Result<(), AllocError>
    requires from_within { All IsOperation from.now }
    requires progress_within { unsigned_abs progress ≤ LARGEST_PROGRESS }
    ensures { OnOk result (ops.new.items
        ≡ ops.old.items ++ map (λ a. blend_operations a (neutral_of a) progress) from.now) }
{
    for a in from {
        ops.push(a.blend(a.neutral(), progress))?;
    }
    Ok(())
}
