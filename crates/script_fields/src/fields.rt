//! Splitting a line into fields at spaces and a field into parts at colons. What a field says is left to the readers
//! of numbers and words.

ghost use Rattle.std.specs.Prelude.{◌≡◌, ◌<◌, length, map, OnOk, MatchOption};
ghost use Rattle.std.specs.Str.{bytes_eq};
ghost use Rattle.script_fields.specs.Fields.{fields, parts};

use arrayvec::ArrayVec;
use std::alloc::AllocError;

/// The most parts that a field may have: those of `rotate:X:Y:Z:ANGLE` and of `cubic:X1:Y1:X2:Y2`.
pub(crate) const MOST_PARTS: usize = 5;

/// Puts the fields of a line, in order, in place of those of another line: their room is used again.
pub fn fields_into<'t>(found: &mut Vec<&'t [u8]>, line: &'t [u8]) -> Result<(), AllocError>
    ensures { OnOk result (map (λ field. field.now) found.new.items ≡ fields line.now) }
{
    found.clear();
    found.extend(line.split(|b| *b == b' '))
}

// The parts of a field, in order, where there are no more of them than a field may have.
pub(crate) fn parts_of(field: &[u8]) -> Option<ArrayVec<&[u8], MOST_PARTS>>
    ensures { MatchOption result (MOST_PARTS < length (parts field.now)) (λ found. map (λ part. part.now) found.items ≡ parts field.now) }
{
    let mut found = ArrayVec::new();
    match found.extend(field.split(|b| *b == b':')) {
        Ok(()) => Some(found),
        Err(_) => None,
    }
}

/// Whether a field is exactly this text.
pub fn is(field: &[u8], text: &str) -> bool
    ensures { result ≡ bytes_eq field.now text.now }
{
    field == text.as_bytes()
}
