//! The first line of a script.

ghost use Rattle.std.specs.Prelude.{◌≡◌};
ghost use Rattle.frame_script.specs.Headers as said;

use anim_names::Version;
use script_fields::is;

/// The version of which a line is the header.
pub fn header_said(line: &[u8]) -> Option<Version>
    ensures { result ≡ said.header_said line.now }
{
    if is(line, "anim 1") {
        Some(Version::One)
    } else {
        None
    }
}
