//! The calls of which the compositor's steps are made, as a trait with contracts over its trees and the board.
//! `side_compositor` has the type.

ghost use Rattle.std.specs.Prelude.{◌≡◌, ◌⊎◌, ◌+◌, ◌-◌, ◌<◌, ◌≤◌, ◌^◌, nat_lt, not, ◌∷◌, [], ◌++◌, None, IfOk, OnOk, OnErr, IsSomeAnd, length, option_map};
ghost use Rattle.anim_names.specs.declared.lane.Lane.{Lane};
ghost use Rattle.anim_names.specs.declared.limit.TheConstants.{MOST_STEPS};
ghost use Rattle.anim_timeline.specs.Timelines.{IsTime};
ghost use Rattle.frame_exchange.specs.Journals.{finds_nothing, last_upto, mailbox_after_pull, pull_entry, reply_to_pull, send_entry};
ghost use Rattle.frame_exchange.specs.Sides.{CompositorState, IsCompositorComplete, compositor_after_activation, compositor_after_place, compositor_after_pull, compositor_after_send, compositor_after_tick, compositor_ticked, marks_with_tick, news_of, slot_of};
ghost use Rattle.run_rules.specs.Follows.{Follows, KnowsAtMost};
ghost use Rattle.run_rules.specs.Frames.{LocalTimesFit, frame_at, shown_by};

use crate::Board;
use anim_names::limit::MOST_STEPS;
use element_samples::Frame;
use std::alloc::AllocError;

/// The calls of which the compositor's steps are made.
///
/// A pull step is [`CompositorSteps::pull`] on the board and, where that found a commit, [`CompositorSteps::place`]. An
/// activation step is [`CompositorSteps::activate`], a tick [`CompositorSteps::tick`]; where either made news, which
/// [`CompositorSteps::has_news`] tells, [`CompositorSteps::send`] on the board follows. The first call of a step asks
/// that the step before is complete. Only the calls on the board meet the other lane, and neither takes memory.
pub trait CompositorSteps: Drop {
    ghost state: { Self → CompositorState };

    /// Pulls, in this lane's next step, and says whether that found a commit. It finds none exactly where one is
    /// pending or the newest was pulled already.
    fn pull(&mut self, board: &mut Board) -> bool
        requires complete { IsCompositorComplete (state self.old) }
        requires steps { (state self.old).steps < MOST_STEPS }
        requires room { 0 < board.old.room }
        requires later { last_upto Lane.Compositor board.old.entries ≤ (state self.old).steps }
        ensures found { result ≡ not (finds_nothing board.old.entries (slot_of (state self.old).pending)) }
        ensures made { state self.new
            ≡ compositor_after_pull (state self.old) (reply_to_pull board.old (slot_of (state self.old).pending)) }
        ensures entries { board.new.entries
            ≡ board.old.entries ++ pull_entry board.old.entries ((state self.old).steps + 1) (slot_of (state self.old).pending) ∷ [] }
        ensures mailbox { board.new.mailbox ≡ mailbox_after_pull board.old (slot_of (state self.old).pending) }
        ensures queue { board.new.queue ≡ board.old.queue }
        ensures board_room { board.new.room + 1 ≡ board.old.room };

    /// Makes the commit that was pulled the pending one. Where there is no memory it stays pulled and is not placed.
    fn place(&mut self) -> Result<(), AllocError>
        requires free { (state self.old).pending ≡ None }
        requires follows { IsSomeAnd (state self.old).pulled (λ commit.
            Follows (state self.old).active.tree commit.tree (state self.old).marks) }
        requires room { IsSomeAnd (state self.old).pulled (λ commit.
            KnowsAtMost (state self.old).models (state self.old).active.tree commit.tree (state self.old).marks) }
        ensures placed { OnOk result (state self.new ≡ compositor_after_place (state self.old)) }
        ensures err { OnErr result (state self.new ≡ state self.old) };

    /// Makes the pending commit the active one, and gives its number. There is none exactly where none is pending.
    fn activate(&mut self) -> Option<u32>
        requires complete { IsCompositorComplete (state self.old) }
        requires steps { (state self.old).steps < MOST_STEPS }
        ensures number { result ≡ option_map (λ commit. commit.number) (state self.old).pending }
        ensures made { state self.new ≡ compositor_after_activation (state self.old) };

    /// Makes the marks of the tick of this time, in microseconds, and draws its frame. Where there is no memory, the
    /// marks may be made all the same, and no frame is given: then the lane can only end.
    fn tick(&mut self, time: u64) -> Result<Frame, AllocError>
        requires complete { IsCompositorComplete (state self.old) }
        requires steps { (state self.old).steps < MOST_STEPS }
        requires later { (state self.old).last_tick ≤ time }
        requires in_time { IsTime time }
        requires locals { LocalTimesFit (state self.old).active.tree (shown_by (marks_with_tick (state self.old) time)) time }
        ensures frame { IfOk result (λ frame.
            frame ≡ frame_at (state self.old).active (marks_with_tick (state self.old) time) time) }
        ensures made { OnOk result (state self.new ≡ compositor_after_tick (state self.old) time) }
        ensures err { OnErr result
            ((state self.new ≡ state self.old) ⊎ (state self.new ≡ compositor_ticked (state self.old) time)) };

    /// Whether marks were made that are not sent.
    fn has_news(&self) -> bool
        ensures { result ≡ nat_lt (state self.now).sent (length (state self.now).marks) };

    /// Sends the events of all marks that are not sent, in this lane's last step, in order.
    fn send(&mut self, board: &mut Board)
        requires news { (state self.old).sent < length (state self.old).marks }
        requires room { 0 < board.old.room }
        requires later { last_upto Lane.Compositor board.old.entries < (state self.old).steps }
        requires event_room { length (news_of (state self.old)) ≤ board.old.queue.room }
        requires few { length board.old.queue.events + length (news_of (state self.old)) < 2 ^ 32 }
        ensures made { state self.new ≡ compositor_after_send (state self.old) }
        ensures entries { board.new.entries
            ≡ board.old.entries ++ send_entry (state self.old).steps (news_of (state self.old)) ∷ [] }
        ensures mailbox { board.new.mailbox ≡ board.old.mailbox }
        ensures events { board.new.queue.events ≡ board.old.queue.events ++ news_of (state self.old) }
        ensures heard { board.new.queue.heard ≡ board.old.queue.heard }
        ensures event_room { board.new.queue.room + length (news_of (state self.old)) ≡ board.old.queue.room }
        ensures board_room { board.new.room + 1 ≡ board.old.room };
}
