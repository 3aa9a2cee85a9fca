//! Reading a script's bytes.

ghost use Rattle.std.specs.Prelude.{◌≡◌, ◌+◌, ◌≤◌, ◌<◌, ◌++◌, [], List, ℕ, length, IfOk, IfSome, OnErr, Err};
ghost use Rattle.edge_io.specs.Edges.{HasRisen, Gave};
ghost use Rattle.anim_top.specs.Outside.{Reads, HasGiven};

use edge_io::{Failed, Source};
use frame_script::MOST_BYTES;
use std::alloc::{AllocError, Global};

/// Why a source's bytes could not be read.
#[derive(Clone, Copy)]
pub enum ReadError {
    Fault,
    NoMemory,
}

impl From<AllocError> for ReadError {
    ghost use Rattle.std.specs.Prelude.{◌≡◌};
    ghost use Rattle.anim_top.specs.declared.intake.ReadError.TheVariants.{NoMemory};

    ghost from_gives = { λ _ error. error ≡ NoMemory };

    fn from(_error: AllocError) -> ReadError {
        ReadError::NoMemory
    }
}

impl From<Failed> for ReadError {
    ghost use Rattle.std.specs.Prelude.{◌≡◌};
    ghost use Rattle.anim_top.specs.declared.intake.ReadError.TheVariants.{Fault};

    ghost from_gives = { λ _ error. error ≡ Fault };

    fn from(_error: Failed) -> ReadError {
        ReadError::Fault
    }
}

/// The most bytes that are asked for at once.
const PART: usize = 4096;

/// The most bytes that are read: one more than a script may have, which shows that it is too long.
const MOST_READ: usize = MOST_BYTES + 1;

/// Reads a source to its end, or to one byte more than a script may have. After an error the source has lost only what
/// was read.
pub fn read_bytes<S: Source>(alloc: Global, source: &mut S) -> Result<Vec<u8>, ReadError>
    ensures read { IfOk result (λ bytes. Reads (S.left source.old) (S.left source.new) bytes.items) }
    ensures lost { OnErr result (HasGiven (S.left source.old) (S.left source.new)) }
    ensures fault { result ≡ Err ReadError.Fault → HasRisen (S.faults source.old) (S.faults source.new) }
    ensures never_falls { S.faults source.old ≤ S.faults source.new }
{
    let mut bytes = Vec::new(alloc);
    while bytes.len() < MOST_READ {
        let room = PART.min(MOST_READ - bytes.len());
        if read_part(source, room, &mut bytes)? == 0 {
            return Ok(bytes);
        }
    }
    Ok(bytes)
}

/// Reads the next bytes, at most `room`, to the end of `bytes`, and says how many they are.
fn read_part<S: Source>(
    source: &mut S,
    room: usize,
    bytes: &mut Vec<u8>,
) -> Result<usize, ReadError>
    requires some { 0 < room }
    requires most { room ≤ 4096 }
    ensures given { IfOk result (λ n. (part : List ℕ) × (length part ≡ n) × (bytes.new.items ≡ bytes.old.items ++ part)
        × Gave (S.left source.old) (S.left source.new) part) }
    ensures room { IfOk result (λ n. n ≤ room) }
    ensures lost { OnErr result ((part : List ℕ) × (length part ≤ room) × Gave (S.left source.old) (S.left source.new) part) }
    ensures end { IfOk result (λ n. n ≡ 0 → IfSome (S.left source.old) (λ rest. rest ≡ [])) }
    ensures fault { result ≡ Err ReadError.Fault → HasRisen (S.faults source.old) (S.faults source.new) }
    ensures never_falls { S.faults source.old ≤ S.faults source.new }
{
    let mut buffer = [0u8; PART];
    let part = &mut buffer[..room];
    let count = source.read(part)?;
    bytes.extend_from_slice(&part[..count])?;
    Ok(count)
}
