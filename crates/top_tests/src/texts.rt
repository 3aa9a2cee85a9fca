//! Scripts, and their reports worked out by hand.

use std::alloc::{AllocError, Global};

/// Its report.
pub const REPORT: &str = "report 1
word MMMMCCCCC
frame 16000 commit 1
element 1 0 none
frame 349333 commit 1
element 1 333332 none
frame 516000 commit 1
element 1 500000 none
started 1 group 1 at 16000 start 16000
heard 1
end
";

/// Its report.
pub const EMPTY_REPORT: &str = "report 1\nword -\nheard 0\nend\n";

/// Its report.
pub const DROPPED_REPORT: &str = "report 1
word MMMMCCMMCCCC
frame 1000 commit 1
element 1 0 none
frame 2000 commit 2
element 1 1000000 none
started 1 group 1 at 1000 start 1000
aborted 1 commit 2
heard 2
end
";

/// A script whose first line is bad.
pub const REFUSED: &str = "anim 3\n";

/// Its refusal.
pub const REFUSAL: &str = "refused: line 1: BadHeader\n";

/// The text with one line changed, or left out where there is no new one.
pub fn with_line(
    alloc: Global,
    text: &str,
    number: usize,
    new: Option<&str>,
) -> Result<String, AllocError> {
    let mut changed = String::new(alloc);
    for (i, line) in text.lines().enumerate() {
        let kept = if i.wrapping_add(1) == number {
            new
        } else {
            Some(line)
        };
        push_line(&mut changed, kept)?;
    }
    Ok(changed)
}

fn push_line(text: &mut String, line: Option<&str>) -> Result<(), AllocError> {
    if let Some(line) = line {
        text.push_str(line)?;
        text.push('\n')?;
    }
    Ok(())
}
