//! Words of two lanes.

ghost use Rattle.std.specs.Prelude.{◌≡◌};
ghost use Rattle.anim_names.specs.Lanes.{letters_of, is_lane};
ghost use Rattle.frame_script.specs.States.{is_word_of};

use anim_names::Lane;

/// Whether a word has these numbers of letters of main and of the compositor.
pub fn is_word_of(main: usize, compositor: usize, word: &[Lane]) -> bool
    ensures { result ≡ is_word_of main compositor word.now }
{
    letters_of(Lane::Main, word) == main && letters_of(Lane::Compositor, word) == compositor
}

fn letters_of(lane: Lane, word: &[Lane]) -> usize
    ensures { result ≡ letters_of lane word.now }
{
    word.iter().filter(|letter| is_lane(lane, **letter)).count()
}

fn is_lane(lane: Lane, letter: Lane) -> bool
    ensures { result ≡ is_lane lane letter }
{
    lane == letter
}
