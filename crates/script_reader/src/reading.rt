//! Reading a script.

ghost use Rattle.std.specs.Prelude.{◌≡◌, ◌<◌, ◌≤◌, length, IfOk, IfErr, Err};
ghost use Rattle.frame_script.specs.Lines.{lines};
ghost use Rattle.frame_script.specs.Reading.{FailsAs, GivesScript, end_at, reading, reading_from};
ghost use Rattle.frame_script.specs.Texts.{Spells, IsWhy};
ghost use Rattle.script_reader.specs.Views.{state_of};

use crate::lines::split_line;
use crate::reader::Reader;
use frame_script::{Cause, MOST_BYTES, Script, ScriptFault};
use std::alloc::Global;

/// Reads the script that bytes spell, or says where they are refused and why. More than [`MOST_BYTES`] are refused
/// without taking memory.
pub fn read_script(alloc: Global, bytes: &[u8]) -> Result<Script, ScriptFault>
    ensures spelled { IfOk result (Spells bytes.now) }
    ensures refused { IfErr result (IsWhy bytes.now) }

    // The same as a function: what the bytes come to, unless memory runs out.
    ensures exact { GivesScript (λ script. script) result (reading bytes.now) }
    ensures too_long { MOST_BYTES < length bytes.now → result ≡ Err (ScriptFault.Refused 0 Cause.TooLong) }
{
    if bytes.len() > MOST_BYTES {
        return Err(ScriptFault::Refused {
            line: 0,
            cause: Cause::TooLong,
        });
    }
    read_short(alloc, bytes)
}

#[tactic(auto, unfolding(frame_script::specs::Reading::reading))]
fn read_short(alloc: Global, bytes: &[u8]) -> Result<Script, ScriptFault>
    requires { length bytes.now ≤ MOST_BYTES }
    ensures { GivesScript (λ script. script) result (reading bytes.now) }
{
    let mut reader = Reader::new(alloc)?;
    let number = read_lines(&mut reader, alloc, bytes)?;
    reader.into_script(number)
}

// Takes all lines of a text. Returns the number of the line that would stand next.
fn read_lines(reader: &mut Reader, alloc: Global, text: &[u8]) -> Result<u32, ScriptFault>
    requires { length text.now ≤ MOST_BYTES }
    ensures ok { IfOk result (λ number. reading_from 1 (state_of reader.old) (lines text.now)
        ≡ end_at number (state_of reader.new).stage (state_of reader.new).script) }
    ensures err { IfErr result (FailsAs (reading_from 1 (state_of reader.old) (lines text.now))) }
{
    let mut room = Vec::new(alloc);
    let mut number = 1;
    let mut rest = text;
    while let Some((line, after)) = split_line(rest) {
        match reader.read_line(alloc, &mut room, number, line) {
            Ok(()) => {}
            Err(fault) => return Err(fault),
        }
        number += 1;
        rest = after;
    }
    Ok(number)
}
