//! Scripts that are made from a number, and how they are printed.

use anim_names::Lane;
use script_gen::{MOST_GENERATED, generate};
use script_printer::print_script;
use std::test::Fail;
use test_scripts::REVERSED;

// Lines of the script made from 8, by their numbers.
const OF_EIGHT: [(usize, &str); 15] = [
    (
        12,
        "model 3 2 2 1 opacity - 0 3000 0 alternate both 1000 auto cubic:250000:100000:250000:1000000 2",
    ),
    (
        19,
        "model 5 3 3 1 opacity - 0 1000 0 alternate-reverse both 1000 auto linear 2",
    ),
    (
        54,
        "model 15 8 8 1 opacity - 0 3000 0 normal both 1000 auto cubic:250000:100000:250000:1000000 2",
    ),
    (56, "key 108000 linear 0"),
    (59, "key 200000 linear translate:8000:0:0"),
    (60, "commit"),
    (61, "drain"),
    (62, "commit"),
    (63, "drain"),
    (64, "drop-model 10"),
    (65, "drop-element 7"),
    (66, "commit"),
    (75, "tick 66668"),
    (76, "pull"),
    (118, "end"),
];

#[test]
fn the_script_of_one_element_is_printed(rt: HostRuntime) -> Result<(), Fail> {
    let text = print_script(rt.alloc(), &generate(rt.alloc(), 1)?)?;
    assert!(rt; text.as_slice() == REVERSED.as_bytes());
    Ok(())
}

#[test]
fn commits_and_drops_stand_where_a_number_divides(rt: HostRuntime) -> Result<(), Fail> {
    let text = print_script(rt.alloc(), &generate(rt.alloc(), 8)?)?;
    for (number, expected) in OF_EIGHT {
        assert_eq!(rt; line_of(&text, number), expected.as_bytes());
    }
    Ok(())
}

// 1 timeline, 3 steps for each of 200 elements, 25 commits and drains among them, 68 steps that drop something, and 2
// commits and drains; 800 ticks and 200 pulls; 241 rounds.
#[test]
fn the_largest_script_is_made(rt: HostRuntime) -> Result<(), Fail> {
    let script = generate(rt.alloc(), MOST_GENERATED)?;
    assert!(rt; script.main().len() == 723);
    assert!(rt; script.compositor().len() == 1200);
    assert!(rt; script.word().len() == 1923);
    assert!(rt;
        script
            .word()
            .iter()
            .take(964)
            .filter(|lane| **lane == Lane::Main)
            .count()
            == 723
    );
    Ok(())
}

// The line of this number, from 1, or an empty one.
fn line_of(text: &[u8], number: usize) -> &[u8] {
    text.split(|byte| *byte == b'\n')
        .nth(number.saturating_sub(1))
        .unwrap_or(b"")
}
