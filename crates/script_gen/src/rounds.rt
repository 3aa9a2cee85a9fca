//! The word: rounds of a few steps of main and one of the compositor.

ghost use Rattle.std.specs.Prelude.{◌≡◌, ◌++◌, ◌∷◌, [], replicate, IfOk, OnOk};
ghost use Rattle.script_gen.specs.Generated.{word_of_rounds};

use anim_names::Lane;
use std::alloc::{AllocError, Global};

/// How many steps main makes in a round, by how many it has left.
const STEPS_OF_MAIN: usize = 3;

/// The word of two lanes with these numbers of steps.
pub(crate) fn word_of_rounds(
    alloc: Global,
    main: usize,
    compositor: usize,
) -> Result<Vec<Lane>, AllocError>
    ensures { IfOk result (λ word. word.items ≡ word_of_rounds main compositor) }
{
    let mut word = Vec::new(alloc);
    let mut left = main;
    for _round in 0..compositor {
        let steps = left.min(STEPS_OF_MAIN);
        push_round(&mut word, steps)?;
        left -= steps;
    }
    push_main(&mut word, left)?;
    Ok(word)
}

fn push_round(word: &mut Vec<Lane>, steps: usize) -> Result<(), AllocError>
    ensures { OnOk result (word.new.items ≡ word.old.items ++ replicate steps Lane.Main ++ Lane.Compositor ∷ []) }
{
    push_main(word, steps)?;
    word.push(Lane::Compositor)?;
    Ok(())
}

fn push_main(word: &mut Vec<Lane>, steps: usize) -> Result<(), AllocError>
    ensures { OnOk result (word.new.items ≡ word.old.items ++ replicate steps Lane.Main) }
{
    for _step in 0..steps {
        word.push(Lane::Main)?;
    }
    Ok(())
}
