//! What a run starts with: room for all of it.

ghost use Rattle.std.specs.Prelude.{◌≡◌, ◌+◌, ◌*◌, ◌≤◌, [], IfOk, length};
ghost use Rattle.anim_names.specs.declared.limit.TheConstants.{MOST_MODELS};

use anim_names::limit::MOST_MODELS;
use frame_exchange::Board;
use frame_script::Script;
use std::alloc::{AllocError, Global};

/// Room for the events of a run: a keyframe model has two at most.
pub(crate) const MOST_EVENTS: u32 = 2 * MOST_MODELS;

/// A board for a run of this script, with room for an entry a step and for the most events.
pub(crate) fn new_board(alloc: Global, script: &Script) -> Result<Board, AllocError>
    ensures no_entry { IfOk result (λ board. board.entries ≡ []) }
    ensures entry_room { IfOk result (λ board. length script.now.main + length script.now.compositor ≤ board.room) }
    ensures event_room { IfOk result (λ board. 2 * MOST_MODELS ≤ board.queue.room) }
{
    let mut board = Board::new(alloc);
    board.reserve(step_count(script), MOST_EVENTS)?;
    Ok(board)
}

// How many steps both lanes have.
fn step_count(script: &Script) -> u32
    ensures { result ≡ length script.now.main + length script.now.compositor }
{
    (script.main().len() + script.compositor().len()) as u32
}
