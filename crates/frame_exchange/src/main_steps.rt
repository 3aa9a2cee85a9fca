//! The calls of which main's steps are made, as a trait with contracts over main's tree and the board. `side_main`
//! has the type.

ghost use Rattle.std.specs.Prelude.{◌≡◌, ◌+◌, ◌<◌, ◌≤◌, ◌^◌, ◌∷◌, [], ◌++◌, Some, IfOk, OnOk, OnErr, length};
ghost use Rattle.std.specs.Result.{result_err};
ghost use Rattle.anim_names.specs.declared.lane.Lane.{Lane};
ghost use Rattle.anim_names.specs.declared.limit.TheConstants.{MOST_COMMITS, MOST_STEPS};
ghost use Rattle.event_queue.specs.Queues.{unheard, with_all_heard};
ghost use Rattle.frame_exchange.specs.Journals.{drain_entry, last_upto, publish_entry, published};
ghost use Rattle.frame_exchange.specs.Sides.{IsMainComplete, MainState, commit_of, main_after_build, main_after_closing, main_after_drain, main_after_edit, main_after_hearing, main_after_publish, retired_by};
ghost use Rattle.tree_commit.specs.Edits.{edit_refusal, finds_its_target, refusal_in};
ghost use Rattle.tree_commit.specs.Views.{change_of};

use crate::Board;
use anim_names::limit::{MOST_COMMITS, MOST_STEPS};
use std::alloc::AllocError;
use std::sync::Arc;
use tree_commit::{Commit, Edit, EditFault};

/// The calls of which main's steps are made.
///
/// An edit step is [`MainSteps::edit`]. A commit step is [`MainSteps::build`], and then [`MainSteps::publish`] on the
/// board. A drain step is [`MainSteps::drain`] on the board, and then [`MainSteps::hear`]. When both lanes have ended,
/// [`MainSteps::drain_last`] and [`MainSteps::hear`] close the run, which is no step. The first call of a step asks
/// that the step before is complete. Only the calls on the board meet the other lane, and none of these takes memory.
pub trait MainSteps: Drop {
    ghost state: { Self → MainState };

    /// Makes an edit, and says whether it found what it is about: only a model that is to be removed may be gone.
    fn edit(&mut self, edit: &Edit) -> Result<bool, EditFault>
        requires complete { IsMainComplete (state self.old) }
        requires steps { (state self.old).steps < MOST_STEPS }
        ensures made { OnOk result (state self.new ≡ main_after_edit (state self.old) (change_of edit.now)) }
        ensures found { IfOk result (λ found. found ≡ finds_its_target (state self.old).tree (change_of edit.now)) }

        // It is refused exactly as the book of the edits so far refuses it.
        ensures refused { refusal_in (result_err result) ≡ edit_refusal (state self.old).book (change_of edit.now) }
        ensures err { OnErr result (state self.new ≡ state self.old) };

    /// Builds the next commit, of the tree as it is.
    fn build(&mut self) -> Result<Arc<Commit>, AllocError>
        requires complete { IsMainComplete (state self.old) }
        requires commits { (state self.old).book.commits < MOST_COMMITS }
        ensures given { IfOk result (λ commit. commit.value ≡ commit_of (state self.old)) }
        ensures built { OnOk result (state self.new ≡ main_after_build (state self.old)) }
        ensures err { OnErr result (state self.new ≡ state self.old) };

    /// Publishes the commit that was built, in this lane's next step.
    fn publish(&mut self, board: &mut Board, commit: Arc<Commit>)
        requires built { (state self.old).built ≡ Some commit.value }
        requires steps { (state self.old).steps < MOST_STEPS }
        requires room { 0 < board.old.room }
        requires later { last_upto Lane.Main board.old.entries ≤ (state self.old).steps }
        requires next { commit.value.number ≡ published board.old.entries + 1 }
        ensures made { state self.new ≡ main_after_publish (state self.old) }
        ensures entries { board.new.entries ≡ board.old.entries ++ publish_entry board.old.entries ((state self.old).steps + 1) ∷ [] }
        ensures mailbox { board.new.mailbox ≡ Some commit.value }
        ensures queue { board.new.queue ≡ board.old.queue }
        ensures board_room { board.new.room + 1 ≡ board.old.room };

    /// Drains the board, in this lane's next step, and says how many events that gave.
    fn drain(&mut self, board: &mut Board) -> usize
        requires complete { IsMainComplete (state self.old) }
        requires steps { (state self.old).steps < MOST_STEPS }
        requires room { 0 < board.old.room }
        requires later { last_upto Lane.Main board.old.entries ≤ (state self.old).steps }
        requires batch_room { length (unheard board.old.queue) ≤ (state self.old).room }
        requires few { (state self.old).heard + length (unheard board.old.queue) < 2 ^ 32 }
        ensures count { result ≡ length (unheard board.old.queue) }
        ensures made { state self.new ≡ main_after_drain (state self.old) (unheard board.old.queue) }
        ensures entries { board.new.entries ≡ board.old.entries ++ drain_entry board.old ((state self.old).steps + 1) ∷ [] }
        ensures mailbox { board.new.mailbox ≡ board.old.mailbox }
        ensures queue { board.new.queue ≡ with_all_heard board.old.queue }
        ensures board_room { board.new.room + 1 ≡ board.old.room };

    /// The closing drain: what a drain would give, with no step and no entry. The board stays as it is.
    fn drain_last(&mut self, board: &Board) -> usize
        requires complete { IsMainComplete (state self.old) }
        requires batch_room { length (unheard board.now.queue) ≤ (state self.old).room }
        requires few { (state self.old).heard + length (unheard board.now.queue) < 2 ^ 32 }
        ensures count { result ≡ length (unheard board.now.queue) }
        ensures made { state self.new ≡ main_after_closing (state self.old) (unheard board.now.queue) };

    /// Hears what was drained, in order, and says how many models that retired.
    fn hear(&mut self) -> usize
        ensures retired { result ≡ retired_by (state self.old).tree (state self.old).batch }
        ensures heard { state self.new ≡ main_after_hearing (state self.old) };

    /// How many events main has heard.
    fn heard(&self) -> usize
        ensures value { result ≡ (state self.now).heard }

        // Of every side: fewer events than 32 bits can count.
        ensures few { result < 2 ^ 32 };
}
