//! Scripts that are read and printed.

use frame_script::Script;
use script_printer::print_script;
use script_reader::read_script;
use std::alloc::{AllocError, Global};
use std::process::Abort;
use std::test::Fail;
use test_scripts::{
    DROPPED_ELEMENT, DROPPED_MODEL, FADE, LATE_ELEMENT, NOTHING, REVERSED, TWO_COMMITS, TWO_GROUPS,
};

/// The fade, never run through, whose last value stays.
const NO_ITERATION: &str = "anim 1
main
timeline 1 0
element 1 1000000 none
model 1 1 1 1 opacity - 0 0 0 normal forwards 1000 auto linear 2
key 0 linear 0
key 1000000 linear 1000000
commit
compositor
pull
activate
tick 0
tick 0
word MMMMCCCC
end
";

/// A model that is never drawn.
const NEVER_DRAWN: &str = "anim 1
main
timeline 1 0
element 1 1000000 none
model 1 1 1 1 opacity - 0 1000 0 normal none 1000 auto linear 2
key 0 linear 0
key 1000000 linear 1000000
commit
drop-model 1
element 2 300000 none
commit
compositor
pull
activate
tick 5
word MMMMMMMCCC
end
";

/// Pulls and activations that find nothing.
const NOTHING_NEW: &str = "anim 1
main
element 1 700000 none
commit
commit
drain
drain
compositor
pull
pull
activate
activate
tick 5
pull
tick 6
word MMCMCCCCCCMM
end
";

/// The two commits, where the first is drawn before the second is made.
const COMMITS_APART: &str = "anim 1
main
element 1 100000 none
commit
element 2 200000 skew:1:2
commit
compositor
pull
activate
tick 0
tick 1000
word MMCCMMCC
end
";

/// The fade with lines that are skipped, two of them amid the keys, and no line feed at the end.
const COMMENTED: &str = "
# one element
anim 1
main
timeline 1 0
element 1 1000000 none
model 1 1 1 1 opacity - 0 1000 0 normal none 1000 auto linear 2
#key 0 linear 7

key 0 linear 0
#
key 1000000 linear 1000000
commit


compositor
pull
activate
tick 16000
# half
tick 349333
tick 516000
word MMMMCCCCC

end
# the end";

/// Each kind of step and of operation, and each keyword of an easing.
const KEYWORDS: &str = "anim 1
main
element 7 0 translate:1:-2:3 scale:1000000:-1:0 rotate:0:0:1:-90000 skew:-1:2
timeline 4294967295 1125899906842624
model 2 3 7 4294967295 transform 5 -1000 infinite 500 alternate-reverse backwards 1 manual ease-in 7
key 0 ease none
key 1 ease-out translate:0:0:0 translate:1:1:1
key 2 ease-in-out skew:0:0
key 3 step-start none
key 4 step-end none
key 5 steps:4:start none
key 68719476736 steps:4:end none
opacity 7 250000
transform 7 none
drop-model 2
drop-element 7
commit
compositor
tick 1125899906842624
word MMMMMMMMC
end
";

/// The same, with what each keyword stands for.
const SPELLED_OUT: &str = "anim 1
main
element 7 0 translate:1:-2:3 scale:1000000:-1:0 rotate:0:0:1:-90000 skew:-1:2
timeline 4294967295 1125899906842624
model 2 3 7 4294967295 transform 5 -1000 infinite 500 alternate-reverse backwards 1 manual cubic:420000:0:1000000:1000000 7
key 0 cubic:250000:100000:250000:1000000 none
key 1 cubic:0:0:580000:1000000 translate:0:0:0 translate:1:1:1
key 2 cubic:420000:0:580000:1000000 skew:0:0
key 3 steps:1:jump-start none
key 4 steps:1:jump-end none
key 5 steps:4:jump-start none
key 68719476736 steps:4:jump-end none
opacity 7 250000
transform 7 none
drop-model 2
drop-element 7
commit
compositor
tick 1125899906842624
word MMMMMMMMC
end
";

/// Texts, and what the script that each of them spells is printed as.
const PRINTED: [(&str, &str); 14] = [
    (FADE, FADE),
    (NO_ITERATION, NO_ITERATION),
    (LATE_ELEMENT, LATE_ELEMENT),
    (DROPPED_ELEMENT, DROPPED_ELEMENT),
    (DROPPED_MODEL, DROPPED_MODEL),
    (TWO_GROUPS, TWO_GROUPS),
    (NEVER_DRAWN, NEVER_DRAWN),
    (NOTHING_NEW, NOTHING_NEW),
    (TWO_COMMITS, TWO_COMMITS),
    (COMMITS_APART, COMMITS_APART),
    (REVERSED, REVERSED),
    (NOTHING, NOTHING),
    (COMMENTED, FADE),
    (KEYWORDS, SPELLED_OUT),
];

// What is read of a text, printed.
fn printed(alloc: Global, text: &[u8]) -> Result<Vec<u8>, Fail> {
    let script = read_script(alloc, text)?;
    Ok(print_script(alloc, &script)?)
}

// A text is printed as another, which is printed as it is.
fn expect_printed(rt: &impl Abort, alloc: Global, text: &str, wanted: &str) -> Result<(), Fail> {
    let once = printed(alloc, text.as_bytes())?;
    assert!(rt; once.as_slice() == wanted.as_bytes(), "{text}");
    let again = printed(alloc, once.as_slice())?;
    assert!(rt; again.as_slice() == wanted.as_bytes(), "{text}");
    Ok(())
}

#[test]
fn scripts_are_printed_in_one_way(rt: HostRuntime) -> Result<(), Fail> {
    for (text, wanted) in PRINTED {
        expect_printed(&rt, rt.alloc(), text, wanted)?;
    }
    Ok(())
}

// An element that fades in and slides with this easing, by two models.
fn write_slide(
    out: &mut String,
    element: u32,
    fade: u32,
    slide: u32,
    easing: &str,
) -> Result<(), AllocError> {
    writeln!(out, "element {element} 1000000 none")?;
    write_model(out, fade, element, "opacity")?;
    out.push_str("key 0 linear 0\nkey 400000 linear 1000000\n")?;
    write_model(out, slide, element, "transform")?;
    writeln!(out, "key 0 {easing} translate:0:40000:0")?;
    out.push_str("key 400000 linear translate:0:0:0\n")
}

// The line of a model in the group of its element's number.
fn write_model(out: &mut String, id: u32, element: u32, property: &str) -> Result<(), AllocError> {
    write!(out, "model {id} {element} {element} 1 {property} ")?;
    out.push_str("- 0 1000 0 normal both 1000 auto linear 2\n")
}

fn write_ticks(out: &mut String) -> Result<(), AllocError> {
    for k in 0..60_u32 {
        if k == 0 || k == 40 {
            out.push_str("pull\nactivate\n")?;
        }
        writeln!(out, "tick {}", 13_700 * k)?;
    }
    Ok(())
}

fn write_letters(out: &mut String) -> Result<(), AllocError> {
    for (letter, count) in [('M', 62), ('C', 42), ('M', 3), ('C', 22)] {
        for _ in 0..count {
            out.push(letter)?;
        }
    }
    Ok(())
}

// Twenty elements, sixty ticks and two commits.
fn slides(alloc: Global, easing: &str) -> Result<String, AllocError> {
    let mut out = String::new(alloc);
    out.push_str("anim 1\nmain\ntimeline 1 0\n")?;
    for i in 1..21_u32 {
        write_slide(&mut out, i, 2 * i - 1, 2 * i, easing)?;
    }
    out.push_str("commit\ndrain\nopacity 20 500000\ncommit\ncompositor\n")?;
    write_ticks(&mut out)?;
    out.push_str("word ")?;
    write_letters(&mut out)?;
    out.push_str("\nend\n")?;
    Ok(out)
}

#[test]
fn a_larger_script_is_printed_in_one_way(rt: HostRuntime) -> Result<(), Fail> {
    let text = slides(rt.alloc(), "ease-out")?;
    let wanted = slides(rt.alloc(), "cubic:0:0:580000:1000000")?;
    expect_printed(&rt, rt.alloc(), text.as_str(), wanted.as_str())?;
    let script = read_script(rt.alloc(), text.as_bytes())?;
    expect_lists(&rt, &script);
    Ok(())
}

fn expect_lists(rt: &impl Abort, script: &Script) {
    assert!(rt; script.main().len() == 65);
    assert!(rt; script.compositor().len() == 64);
    assert!(rt; script.word().len() == 129);
}
