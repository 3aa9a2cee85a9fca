//! Which commands the program knows.

ghost use Rattle.std.specs.Prelude.{◌≡◌, ◌≤◌, IfSome, map, string_bytes};
ghost use Rattle.anim_top.specs.Commands.{IsCommand, by_name, command_of, number_of_elements, with_number};

use script_fields::numbers::natural_within;
use script_gen::MOST_GENERATED;

/// What the arguments ask for. A number says how large a script is made.
#[derive(Clone, Copy)]
pub enum Command {
    /// Run both lanes of the script that the source gives, each in a thread of its own, and write the report.
    Run,
    /// Replay the script that the source gives, and write its report.
    Replay,
    /// Write the script that is made from this number.
    Gen(u32),
    /// Replay the script that is made from this number, and write the summary of its report.
    Load(u32),
}

/// The command that the arguments are, if they are one.
pub(crate) fn command_of(arguments: &[String]) -> Option<Command>
    ensures value { result ≡ command_of (map string_bytes arguments.now) }
    ensures known { IfSome result IsCommand }
{
    match arguments {
        [name] => by_name(name),
        [name, number] => with_number(name, number),
        _ => None,
    }
}

// A command that has no number.
fn by_name(name: &String) -> Option<Command>
    ensures value { result ≡ by_name (string_bytes name.now) }
    ensures known { IfSome result IsCommand }
{
    match name.as_str() {
        "run" => Some(Command::Run),
        "replay" => Some(Command::Replay),
        _ => None,
    }
}

// A command with a number.
fn with_number(name: &String, number: &String) -> Option<Command>
    ensures value { result ≡ with_number (string_bytes name.now) (string_bytes number.now) }
    ensures known { IfSome result IsCommand }
{
    match name.as_str() {
        "gen" => Some(Command::Gen(elements(number)?)),
        "load" => Some(Command::Load(elements(number)?)),
        _ => None,
    }
}

// The number that a script is made from: decimal, without a sign or a leading zero, from 1 to `MOST_GENERATED`.
fn elements(number: &String) -> Option<u32>
    ensures value { result ≡ number_of_elements (string_bytes number.now) }
    ensures within { IfSome result (λ n. n ≤ MOST_GENERATED) }
{
    natural_within(number.as_bytes(), 1, u64::from(MOST_GENERATED)).map(|n| n as u32)
}
