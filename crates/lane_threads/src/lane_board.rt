//! The board as the lock's value: with its script, so that each section leaves it as the script's run does after the
//! journal's word.

ghost use Rattle.std.specs.Prelude.{◌≡◌, ◌+◌, ◌<◌, ◌≤◌, not, [], length};
ghost use Rattle.event_queue.specs.Queues.{unheard};
ghost use Rattle.frame_exchange.specs.Journals.{finds_nothing, reply_to_pull};
ghost use Rattle.frame_script.specs.Printing.{script_text};
ghost use Rattle.frame_exchange.specs.Sides.{compositor_after_pull, compositor_after_send, main_after_drain, main_after_publish, slot_of};
ghost use Rattle.lane_threads.specs.Keeping.{IsKeptBehindLock, ScriptBoard};
ghost use Rattle.lane_threads.specs.Sections.{MayDrain, MayPublish, MayPull, MaySendMarks, board_published};
ghost use Rattle.run_rules.specs.declared.compositor_step.CompositorStep.{CompositorStep};
ghost use Rattle.run_rules.specs.Scripts.{DrainStep, event_room};
ghost use Rattle.word_machine.specs.Turns.{board_after_compositor, board_after_main, board_told};

use commit_lock::Journaled;
use frame_exchange::{Board, CompositorSteps, MainSteps};
use frame_script::Script;
use std::marker::Model;
use std::sync::Arc;
use tree_commit::Commit;

/// The board of a run behind its lock, and the script whose steps its entries are of.
///
/// There is one for a run. Each lane has it in its own sections alone. It keeps that its entries, its mailbox and its
/// events are those of the script's run after the word of its journal so far. It does not know which lane has it, nor
/// what the lanes do outside of their sections. Its script is for contracts alone: no running code reads it.
///
/// A contract sees a `ScriptBoard`. As the value of a lock its journal is the board's, and its subject is the printed
/// text of the script.
pub struct LaneBoard<'s> {
    board: Board,
    script: &'s Script,
}

impl<'s> Drop for LaneBoard<'s> {
    fn drop(self) {
        let LaneBoard {
            board: _board,
            script: _script,
        } = self;
    }
}

impl<'s> Model for LaneBoard<'s> {
    ghost use Rattle.lane_threads.specs.Keeping.{IsKeptBehindLock, ScriptBoard};

    ghost Value = { ScriptBoard };

    ghost view = { λ b. record { script = b.script.now; board = b.board } };

    ghost invariant = { λ b. IsKeptBehindLock (record { script = b.script.now; board = b.board }) };
}

impl<'s> LaneBoard<'s> {
    /// The board of a run before its first step, with room for an entry a step and for two events a keyframe model.
    pub fn new(script: &'s Script, board: Board) -> LaneBoard<'s>
        requires no_entry { board.entries ≡ [] }
        requires entry_room { length script.now.main + length script.now.compositor ≤ board.room }
        requires event_room { event_room script.now ≤ board.queue.room }
        ensures script { result.script ≡ script.now }
        ensures board { result.board ≡ board }
    {
        let _well = script.main();
        let _kept = board.entry_count();
        LaneBoard { board, script }
    }

    /// The board.
    pub fn board(&self) -> &Board
        ensures board { result.now ≡ self.now.board }

        // So is every board behind a lock.
        ensures kept { IsKeptBehindLock self.now }
    {
        &self.board
    }

    /// The board, for itself.
    pub fn into_board(self) -> Board
        ensures board { result ≡ self.entry.board }
        ensures kept { IsKeptBehindLock self.entry }
    {
        let LaneBoard { board, script: _ } = self;
        board
    }

    // Main publishes the commit that it has built, in a run of this script.
    pub(crate) fn publish<M: MainSteps>(
        &mut self,
        script: &Script,
        main: &mut M,
        commit: Arc<Commit>,
    )
        requires same { script_text self.old.script ≡ script_text script.now }
        requires may { MayPublish (record { script = script.now; board = self.old.board }) (M.state main.old) commit.value }
        ensures made { M.state main.new ≡ main_after_publish (M.state main.old) }
        ensures board { self.new ≡ record self.old { board = board_published (M.state main.old) self.old.board } }
        ensures script { self.old.script ≡ script.now }
        ensures kept { IsKeptBehindLock self.old }
    {
        let _well = script.main();
        main.publish(&mut self.board, commit);
    }

    // Main drains what it has not drained.
    pub(crate) fn drain<M: MainSteps>(&mut self, script: &Script, main: &mut M)
        requires same { script_text self.old.script ≡ script_text script.now }
        requires may { MayDrain (record { script = script.now; board = self.old.board }) (M.state main.old) }
        ensures made { M.state main.new ≡ main_after_drain (M.state main.old) (unheard self.old.board.queue) }
        ensures board { self.new ≡ record self.old { board = board_after_main DrainStep (M.state main.old) self.old.board } }
        ensures script { self.old.script ≡ script.now }
        ensures kept { IsKeptBehindLock self.old }
    {
        let _well = script.main();
        main.drain(&mut self.board);
    }

    // The compositor pulls, and tells whether it found a commit.
    pub(crate) fn pull<C: CompositorSteps>(&mut self, script: &Script, compositor: &mut C) -> bool
        requires same { script_text self.old.script ≡ script_text script.now }
        requires may { MayPull (record { script = script.now; board = self.old.board }) (C.state compositor.old) }
        ensures found { result ≡ not (finds_nothing self.old.board.entries (slot_of (C.state compositor.old).pending)) }
        ensures made { C.state compositor.new
            ≡ compositor_after_pull (C.state compositor.old) (reply_to_pull self.old.board (slot_of (C.state compositor.old).pending)) }
        ensures board { self.new ≡ record self.old { board = board_after_compositor CompositorStep.Pull (C.state compositor.old) self.old.board } }
        ensures script { self.old.script ≡ script.now }
        ensures kept { IsKeptBehindLock self.old }
    {
        let _well = script.main();
        compositor.pull(&mut self.board)
    }

    // The compositor sends the events of its new marks.
    pub(crate) fn send<C: CompositorSteps>(&mut self, script: &Script, compositor: &mut C)
        requires same { script_text self.old.script ≡ script_text script.now }
        requires may { MaySendMarks (record { script = script.now; board = self.old.board }) (C.state compositor.old) }
        requires news { (C.state compositor.old).sent < length (C.state compositor.old).marks }
        ensures made { C.state compositor.new ≡ compositor_after_send (C.state compositor.old) }
        ensures board { self.new ≡ record self.old { board = board_told (C.state compositor.old) self.old.board } }
        ensures script { self.old.script ≡ script.now }
        ensures kept { IsKeptBehindLock self.old }
    {
        let _well = script.main();
        compositor.send(&mut self.board);
    }
}

impl<'s> Journaled for LaneBoard<'s> {
    ghost use Rattle.frame_script.specs.Printing.{script_text};

    ghost journal = { λ b. b.board.entries };

    ghost subject = { λ b. script_text b.script };

    fn entry_count(&self) -> u64 {
        self.board.entry_count() as u64
    }
}
